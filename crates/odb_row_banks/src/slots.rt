//! Lines about the slots of file 0.
ghost use Rattle.std.specs.Prelude.{◌≤◌, ◌<◌, length, slice_index, EachIndex, IfOk};
ghost use Rattle.std.specs.Bool.{OnTrue};
ghost use Rattle.odb_slots.specs.Bodies.{IsInGrammar};

use crate::calls::{close_slots, open_slots, put_body, slot_in, slots_in};
use crate::extents::MOST;
use odb_row_disks::{StepError, Untold, byte_number, bytes_of, hex_of, number, short_number};
use odb_row_values::part;
use odb_rowfile::split_word;
use odb_slots::{SlotError, SlotItem};
use odb_values::{Bytes, Frozen};
use std::alloc::{AllocError, Global};

/// How many slots a file may have.
const SLOTS: u32 = 4_194_304;

/// A line that begins with `slots`.
pub(crate) fn slots_line<'a>(
    alloc: Global,
    store: &mut Untold,
    out: &mut String,
    call: &str,
    rest: &'a str,
) -> Result<&'a str, StepError> {
    match call {
        "read" => read_line(alloc, store, out, rest),
        "scan" => scan_line(alloc, store, out, rest),
        "body" => body_line(alloc, store, out, rest),
        "open" => open_line(alloc, store, out, rest),
        "close" => close_line(alloc, store, out, rest),
        _ => Err(StepError::Unreadable),
    }
}

/// `slots read SLOT FOUND`
fn read_line<'a>(
    alloc: Global,
    store: &mut Untold,
    out: &mut String,
    rest: &'a str,
) -> Result<&'a str, StepError> {
    let (slot, wanted) = split_word(rest);
    let slot = slot_of(slot)?;
    match slot_in(alloc, store, slot) {
        Ok(Some(item)) => tell_item(alloc, out, &item)?,
        Ok(None) => out.push_str("none")?,
        Err(error) => tell_refusal(out, error)?,
    }
    Ok(wanted)
}

/// `slots scan LIMIT FOUND`
fn scan_line<'a>(
    alloc: Global,
    store: &mut Untold,
    out: &mut String,
    rest: &'a str,
) -> Result<&'a str, StepError> {
    let (limit, wanted) = split_word(rest);
    let limit = short_number(limit)?;
    if limit > MOST {
        return Err(StepError::Unreadable);
    }
    tell_slots(alloc, out, store, limit)?;
    Ok(wanted)
}

/// What the slots of so many extents hold.
pub(crate) fn tell_slots(
    alloc: Global,
    out: &mut String,
    store: &mut Untold,
    limit: u32,
) -> Result<(), StepError>
    requires { limit ≤ 4096 }
{
    match slots_in(alloc, store, limit) {
        Ok(items) => tell_items(alloc, out, items.as_slice()),
        Err(error) => tell_refusal(out, error),
    }
}

/// `slots body SLOT KIND TABLE STAMP HEX HEX ANSWER`
fn body_line<'a>(
    alloc: Global,
    store: &mut Untold,
    out: &mut String,
    rest: &'a str,
) -> Result<&'a str, StepError> {
    let (slot, rest) = split_word(rest);
    let (kind, rest) = split_word(rest);
    let (table, rest) = split_word(rest);
    let (stamp, rest) = split_word(rest);
    let (key, rest) = split_word(rest);
    let (row, wanted) = split_word(rest);
    let item = SlotItem {
        slot: slot_of(slot)?,
        kind: byte_number(kind)?,
        table: short_number(table)?,
        stamp: number(stamp)?,
        key: image_of(alloc, key)?,
        row: image_of(alloc, row)?,
    };
    put_item(store, out, item)?;
    Ok(wanted)
}

fn image_of(alloc: Global, digits: &str) -> Result<Bytes, StepError> {
    Ok(Frozen::from_vec(bytes_of(alloc, digits)?))
}

fn put_item(store: &mut Untold, out: &mut String, item: SlotItem) -> Result<(), StepError> {
    if item.slot >= SLOTS || !is_in_grammar(&item) {
        return Err(StepError::Unreadable);
    }
    Ok(out.push_str(done_word(put_body(store, item))?)?)
}

/// Whether an item is in the slot grammar.
fn is_in_grammar(item: &SlotItem) -> bool
    ensures { OnTrue result (IsInGrammar item.now) }
{
    let key = item.key.len();
    let row = item.row.len();
    let is_kind = item.kind == 1 || (item.kind == 2 && item.row.is_empty());
    is_kind && 1 <= key && key <= 256 && row <= 1006 && key + row <= 1006
}

/// `slots open SLOTS ANSWER`
fn open_line<'a>(
    alloc: Global,
    store: &mut Untold,
    out: &mut String,
    rest: &'a str,
) -> Result<&'a str, StepError> {
    let (list, wanted) = split_word(rest);
    let slots = list_of(alloc, list)?;
    out.push_str(done_word(open_slots(store, slots.as_slice()))?)?;
    Ok(wanted)
}

/// `slots close SLOTS ANSWER`
fn close_line<'a>(
    alloc: Global,
    store: &mut Untold,
    out: &mut String,
    rest: &'a str,
) -> Result<&'a str, StepError> {
    let (list, wanted) = split_word(rest);
    let slots = list_of(alloc, list)?;
    out.push_str(done_word(close_slots(store, slots.as_slice()))?)?;
    Ok(wanted)
}

/// The slots of a list, parted by commas.
fn list_of(alloc: Global, text: &str) -> Result<Vec<u32>, StepError>
    ensures { IfOk result
        (λ slots. EachIndex slots.items (λ k. slice_index slots.items k < 4194304)) }
{
    let mut slots = Vec::new(alloc);
    for word in text.split(",") {
        slots.push(short_number(word)?).map_err(AllocError::from)?;
    }
    if !are_slots(slots.as_slice()) {
        return Err(StepError::Unreadable);
    }
    Ok(slots)
}

fn are_slots(slots: &[u32]) -> bool
    ensures { OnTrue result (EachIndex slots.now (λ k. slice_index slots.now k < 4194304)) }
{
    slots.iter().all(|&slot| slot < SLOTS)
}

/// A slot, as a line says.
fn slot_of(text: &str) -> Result<u32, StepError>
    ensures { IfOk result (λ slot. slot < 4194304) }
{
    let slot = short_number(text)?;
    if slot >= SLOTS {
        return Err(StepError::Unreadable);
    }
    Ok(slot)
}

fn tell_items(alloc: Global, out: &mut String, items: &[SlotItem]) -> Result<(), StepError> {
    if items.is_empty() {
        return Ok(out.push_str("none")?);
    }
    for item in items {
        tell_item(alloc, out, item)?;
    }
    Ok(())
}

/// Tells a record: `SLOT KIND TABLE STAMP HEX HEX`.
fn tell_item(alloc: Global, out: &mut String, item: &SlotItem) -> Result<(), AllocError> {
    let slot = item.slot;
    let kind = item.kind;
    let table = item.table;
    let stamp = item.stamp;
    part(out)?;
    write!(out, "{slot} {kind} {table} {stamp} ")?;
    tell_images(alloc, out, item)
}

fn tell_images(alloc: Global, out: &mut String, item: &SlotItem) -> Result<(), AllocError> {
    let key = hex_of(alloc, item.key.as_slice())?;
    let row = hex_of(alloc, item.row.as_slice())?;
    out.push_str(key.as_str())?;
    out.push_str(" ")?;
    out.push_str(row.as_str())
}

fn tell_refusal(out: &mut String, error: SlotError) -> Result<(), StepError> {
    match error {
        SlotError::Fault => Ok(out.push_str("fault")?),
        SlotError::Malformed { slot } => Ok(write!(out, "malformed {slot}")?),
        SlotError::NoMemory => Err(StepError::NoMemory),
    }
}

fn done_word(answer: Result<(), SlotError>) -> Result<&'static str, StepError> {
    match answer {
        Ok(()) => Ok("ok"),
        Err(SlotError::Fault) => Ok("fault"),
        Err(SlotError::Malformed { .. }) => Ok("malformed"),
        Err(SlotError::NoMemory) => Err(StepError::NoMemory),
    }
}
