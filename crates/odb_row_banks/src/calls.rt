//! Calls of the crates that lines are about, with no clause: what those crates promise isn't among
//! what is known behind them.
ghost use Rattle.std.specs.Prelude.{◌≡◌, ◌≤◌, ◌<◌, length, slice_index, EachIndex};
ghost use Rattle.odb_slots.specs.Bodies.{IsInGrammar};

use odb_bank::{Bank, BankError};
use odb_extent::{ExtentError, Extents};
use odb_row_disks::{StepError, Untold};
use odb_row_values::LineError;
use odb_slots::{
    SlotError, SlotItem, SlotItems, close_stale, open_gates, put_bodies, read_slot, scan,
};
use odb_values::{Key, Range, Row};
use std::alloc::Global;

/// The file that the lines are about.
const FILE: u32 = 0;

/// The format of its database.
const FORMAT: u16 = 1;

/// What a line spells, or why it can't be read.
pub(crate) fn lined<T>(spelled: Result<T, LineError>) -> Result<T, StepError> {
    match spelled {
        Ok(spelled) => Ok(spelled),
        Err(LineError::Memory(_)) => Err(StepError::NoMemory),
        Err(LineError::Unreadable(_)) => Err(StepError::Unreadable),
    }
}

pub(crate) fn format_extents(
    store: &mut Untold,
    most: u32,
    byte: u8,
) -> Result<Extents, ExtentError>
    requires { (1 ≤ most) × (most ≤ 4096) }
{
    Extents::format(store, FILE, most, &[byte; 36])
}

pub(crate) fn open_extents(store: &mut Untold, most: u32) -> Result<Extents, ExtentError>
    requires { (1 ≤ most) × (most ≤ 4096) }
{
    Extents::open(store, FILE, most)
}

pub(crate) fn grow(extents: &mut Extents, store: &mut Untold) -> Result<(), ExtentError> {
    extents.grow(store)
}

pub(crate) fn put_fields(
    extents: &mut Extents,
    store: &mut Untold,
    byte: u8,
) -> Result<(), ExtentError> {
    extents.put_fields(store, &[byte; 36])
}

pub(crate) fn slot_in(
    alloc: Global,
    store: &mut Untold,
    slot: u32,
) -> Result<Option<SlotItem>, SlotError>
    requires { slot < 4194304 }
{
    read_slot(alloc, store, FILE, slot)
}

pub(crate) fn slots_in(
    alloc: Global,
    store: &mut Untold,
    limit: u32,
) -> Result<SlotItems, SlotError>
    requires { limit ≤ 4096 }
{
    scan(alloc, store, FILE, limit)
}

pub(crate) fn put_body(store: &mut Untold, item: SlotItem) -> Result<(), SlotError>
    requires below { item.slot < 4194304 }
    requires grammar { IsInGrammar item }
{
    put_bodies(store, FILE, &[item])
}

pub(crate) fn open_slots(store: &mut Untold, slots: &[u32]) -> Result<(), SlotError>
    requires { EachIndex slots.now (λ k. slice_index slots.now k < 4194304) }
{
    open_gates(store, FILE, slots)
}

pub(crate) fn close_slots(store: &mut Untold, slots: &[u32]) -> Result<(), SlotError>
    requires { EachIndex slots.now (λ k. slice_index slots.now k < 4194304) }
{
    close_stale(store, FILE, slots)
}

pub(crate) fn format_bank(store: &mut Untold, bank: u32, mark: u64) -> Result<(), BankError> {
    Bank::format(store, FILE, bank, mark, FORMAT)
}

pub(crate) fn open_bank(
    alloc: Global,
    store: &mut Untold,
    bank: u32,
    number: u64,
) -> Result<Bank, BankError> {
    Bank::open(alloc, store, FILE, bank, number, FORMAT)
}

pub(crate) fn open_run(bank: &mut Bank, store: &mut Untold) -> Result<(), BankError> {
    bank.gates(store)
}

pub(crate) fn put_mark(bank: &mut Bank, store: &mut Untold) -> Result<u64, BankError> {
    bank.raise_mark(store)
}

pub(crate) fn row_of(
    alloc: Global,
    bank: &Bank,
    store: &mut Untold,
    table: u32,
    key: &Key,
) -> Result<Option<Row>, BankError> {
    bank.get(alloc, store, table, key)
}

pub(crate) fn key_behind<'a>(
    bank: &'a Bank,
    range: &Range,
    after: Option<&Key>,
) -> Option<&'a Key> {
    bank.next_key(range, after)
}
