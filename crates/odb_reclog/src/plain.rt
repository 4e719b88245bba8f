//! The list of a region, computed plainly on bytes at rest.
ghost use Rattle.std.specs.Prelude.{◌≡◌, ◌+◌, ◌^◌, ◌≤◌, length, IfOk, IfSome};
ghost use Rattle.odb_reclog.specs.Records.{log_of};
ghost use Rattle.odb_reclog.specs.Reading.{next_at};

use crate::head::{HEAD, Head};
use odb_values::{Bytes, Frozen};
use std::alloc::{AllocError, Global};

/// The payloads of a region's list, whose first record has the number `first`: the list of the file
/// that these bytes are.
///
/// One pass over the list, with a copy of each payload. The error is want of memory.
pub fn log_of(
    alloc: Global,
    bytes: &[u8],
    start: u64,
    end: u64,
    first: u64,
) -> Result<Frozen<Bytes>, AllocError>
    requires { (start ≤ end) × (end ≤ length bytes.now) × (first ≤ 2 ^ 63) × (end ≤ 2 ^ 40) }
    ensures { IfOk result (λ list. list ≡ log_of start end first bytes.now) }
{
    let mut payloads = Vec::new(alloc);
    let mut place = start;
    let mut number = first;
    while let Some(next) = end_of_record(bytes, place, end, number) {
        let payload = &bytes[(place + HEAD) as usize..next as usize];
        payloads.push(Frozen::from_vec(payload.to_vec(alloc)?))?;
        place = next;
        number += 1;
    }
    Ok(Frozen::from_vec(payloads))
}

/// Where the record of this number ends that stands at a place; None where there is none.
fn end_of_record(bytes: &[u8], place: u64, end: u64, number: u64) -> Option<u64>
    requires { (place ≤ end) × (end ≤ length bytes.now) × (end ≤ 2 ^ 40) }
    ensures next { result ≡ next_at end number place bytes.now }
    ensures forward { IfSome result (λ next. (place + 13 ≤ next) × (next ≤ end)) }
{
    if end - place < HEAD {
        return None;
    }
    let head = &bytes[place as usize..(place + HEAD) as usize];
    Head::from_bytes(head).end_of_record(place, end, number)
}
