//! Validation: which committed entry overwrote what a transaction had read.
ghost use Rattle.std.specs.Prelude.{◌≡◌, ◌≤◌, drop, All, IfSome, IfNone, []};
ghost use Rattle.odb_model.specs.State.{IsHistory, writes_in};
ghost use Rattle.odb_model.specs.Transaction.{first_conflict, overwrites};

use odb_model::{Entry, Read, Write};
use odb_values::Range;

/// The number of the first entry that wrote a key of a range after it was read, or None where the
/// reads still hold. It takes no memory.
///
/// Entries up to the least number of the reads are skipped. Each later one is looked at once, each
/// of its writes against every read that is older than it.
pub fn first_conflict(history: &[Entry], reads: &[Read]) -> Option<u64>
    requires { IsHistory history.now }
    ensures { result ≡ first_conflict reads.now history.now }
{
    let least = least_number(reads)?;
    let later = after(history, least);
    for entry in later {
        if overwrites(reads, entry) {
            return Some(entry.number);
        }
    }
    None
}

/// The least number of the reads.
fn least_number(reads: &[Read]) -> Option<u64>
    ensures least { IfSome result (λ least. All (λ read. least ≤ read.number) reads.now) }
    ensures none { IfNone result (reads.now ≡ []) }
{
    reads.iter().map(|read| read.number).min()
}

/// The entries after a number.
fn after(history: &[Entry], number: u64) -> &[Entry]
    ensures { result.now ≡ drop number history.now }
{
    let number = number as usize;
    if number < history.len() {
        &history[number..]
    } else {
        &[]
    }
}

fn overwrites(reads: &[Read], entry: &Entry) -> bool
    ensures { result ≡ overwrites reads.now entry.now }
{
    reads.iter().any(|read| read.number < entry.number
        && writes_in(&read.range, entry.writes.as_slice()))
}

fn writes_in(range: &Range, writes: &[Write]) -> bool
    ensures { result ≡ writes_in range.now writes.now }
{
    writes
        .iter()
        .any(|write| range.contains(write.table, &write.key))
}
