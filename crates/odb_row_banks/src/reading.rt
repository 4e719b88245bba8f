//! Lines that read a databank file.

use crate::calls::{key_behind, lined, row_of};
use crate::telling::tell_refusal;
use odb_bank::Bank;
use odb_row_disks::{StepError, Untold};
use odb_row_values::{key_of, number_in, part, range_in, tell_tuple};
use odb_rowfile::split_word;
use odb_values::{Duplicate, Edge, Frozen, Key, Range};
use std::alloc::{AllocError, Global};

/// How many rows are told at most.
const MOST_ROWS: u32 = 65_536;

/// `bank get TABLE KEY FOUND`
pub(crate) fn get_line<'a>(
    alloc: Global,
    bank: &Bank,
    store: &mut Untold,
    out: &mut String,
    rest: &'a str,
) -> Result<&'a str, StepError> {
    let (table, rest) = lined(number_in(rest))?;
    let (key, wanted) = split_word(rest);
    let key = lined(key_of(alloc, key))?;
    tell_row(alloc, bank, store, out, table, &key)?;
    Ok(wanted)
}

/// Tells the row of a key, or `none`.
fn tell_row(
    alloc: Global,
    bank: &Bank,
    store: &mut Untold,
    out: &mut String,
    table: u32,
    key: &Key,
) -> Result<(), StepError> {
    match row_of(alloc, bank, store, table, key) {
        Ok(Some(row)) => Ok(tell_tuple(out, row.as_slice())?),
        Ok(None) => Ok(out.push_str("none")?),
        Err(error) => tell_refusal(out, error),
    }
}

/// `bank next TABLE KEY LOW HIGH AFTER FOUND`
pub(crate) fn next_line<'a>(
    alloc: Global,
    bank: &Bank,
    out: &mut String,
    rest: &'a str,
) -> Result<&'a str, StepError> {
    let (range, rest) = lined(range_in(alloc, rest))?;
    let (after, wanted) = split_word(rest);
    let after = after_of(alloc, after)?;
    match key_behind(bank, &range, after.as_ref()) {
        Some(key) => tell_tuple(out, key.as_slice())?,
        None => out.push_str("none")?,
    }
    Ok(wanted)
}

/// The key of a text; None of `*`.
fn after_of(alloc: Global, text: &str) -> Result<Option<Key>, StepError> {
    if text == "*" {
        return Ok(None);
    }
    Ok(Some(lined(key_of(alloc, text))?))
}

/// `bank rows TABLE FOUND`
pub(crate) fn rows_line<'a>(
    alloc: Global,
    bank: &Bank,
    store: &mut Untold,
    out: &mut String,
    rest: &'a str,
) -> Result<&'a str, StepError> {
    let (table, wanted) = lined(number_in(rest))?;
    tell_rows(alloc, bank, store, out, table)?;
    Ok(wanted)
}

/// Tells each key of a table with its row, in the order of the keys, or `none`.
pub(crate) fn tell_rows(
    alloc: Global,
    bank: &Bank,
    store: &mut Untold,
    out: &mut String,
    table: u32,
) -> Result<(), StepError> {
    let range = whole_table(alloc, table);
    let mut last: Option<Key> = None;
    for _ in 0..MOST_ROWS {
        let Some(key) = key_behind(bank, &range, last.as_ref()) else {
            break;
        };
        tell_keyed(alloc, bank, store, out, table, key)?;
        last = Some(key.copy(alloc)?);
    }
    if last.is_none() {
        out.push_str("none")?;
    }
    Ok(())
}

/// Tells a key and its row.
fn tell_keyed(
    alloc: Global,
    bank: &Bank,
    store: &mut Untold,
    out: &mut String,
    table: u32,
    key: &Key,
) -> Result<(), StepError> {
    part(out)?;
    tell_tuple(out, key.as_slice())?;
    out.push_str(" ")?;
    tell_row(alloc, bank, store, out, table, key)
}

/// The range of a whole table.
fn whole_table(alloc: Global, table: u32) -> Range {
    Range {
        table,
        prefix: Frozen::empty(alloc),
        low: Edge::Free,
        high: Edge::Free,
    }
}

/// Whether the walk over the keys of a table comes to this one.
pub(crate) fn is_walked(
    alloc: Global,
    bank: &Bank,
    table: u32,
    key: &Key,
) -> Result<bool, AllocError> {
    let point = Range {
        table,
        prefix: Frozen::from_slice(alloc, key.as_slice())?,
        low: Edge::Free,
        high: Edge::Free,
    };
    Ok(key_behind(bank, &point, None).is_some())
}
