//! Rows and keys of a databank file.
ghost use Rattle.std.specs.Prelude.{◌≡◌, ◌↔◌, ℕ, ◌+◌, ◌<◌, ◌≤◌, length, Some, Err, IfOk, IfErr, IfSome, IsTrue, List as ListOf};
ghost use Rattle.odb_device.specs.World.{file_of};
ghost use Rattle.odb_device.specs.Calls.{FileCountRose};
ghost use Rattle.odb_device.specs.Told.{IfTold, OnlyReads};
ghost use Rattle.odb_slots.specs.Slots.{slot_place};
ghost use Rattle.odb_values.specs.declared.value.Value.{Value};
ghost use Rattle.odb_bank.specs.Known.{Known};
ghost use Rattle.odb_bank.specs.Choosing.{is_better, HasRowAt};
ghost use Rattle.odb_bank.specs.Best.{is_for};
ghost use Rattle.odb_bank.specs.Reading.{IsReadRefusal};

use crate::closing::is_open;
use crate::decoding::row_in;
use crate::{Bank, BankError, Kept};
use odb_device::Store;
use odb_rowsource::cmp_table_keys;
use odb_slots::{SlotError, read_slot};
use odb_values::{Key, Row};
use std::alloc::Global;
use std::cmp::Ordering;

impl Bank {
    ghost use Rattle.odb_bank.specs.Bank.{Stands, IsKnownIn, file_number};
    ghost use Rattle.odb_bank.specs.Reading.{rows_in};

    /// The row of a key; None where it has none. From a faulted `gates` to its Ok it may answer as
    /// before the run.
    ///
    /// A search in what memory keeps, and where the key has a row one read of 1,024 bytes, with memory
    /// for the row. A slot that is no longer in order, as a file that is told never shows,
    /// counts as closed: then there is no row. Fault: the read failed. NoMemory: there is none for
    /// the row.
    pub fn get<S: Store>(
        &self,
        alloc: Global,
        store: &mut S,
        table: u32,
        key: &Key,
    ) -> Result<Option<Row>, BankError>
        requires { Stands self.now (file_of (file_number self.now) (S.world store.old)) }
        ensures run { OnlyReads (file_number self.now) (S.world store.old) (S.world store.new) }
        ensures row { IfSome (file_of (file_number self.now) (S.world store.old))
            (λ f. (known : ℕ → Known) → IsKnownIn self.now known f → IfOk result
            (λ row. row ≡ rows_in self.now known (record { table = table; key = key.now }))) }
        ensures refusal { IfErr result IsReadRefusal }
        ensures fault { result ≡ Err BankError.Fault
            → FileCountRose (file_number self.now) (S.world store.old) (S.world store.new) }
    {
        let Some(kept) = self.slots.best(table, key, None) else {
            return Ok(None);
        };
        if !kept.has_row {
            return Ok(None);
        }
        row_at(alloc, store, self.file, kept.slot)
    }
}

/// Whether this is kept of a slot that is open on the disk and has a record of the key.
pub(crate) fn is_for(it: &Kept, table: u32, key: &Key) -> bool
    ensures { result ≡ is_for (record { table = table; key = key.now }) it.now }
{
    is_open(it.gate) && cmp_table_keys(it.at.table, &it.at.key, table, key) == Ordering::Equal
}

/// Whether this has a greater stamp than the one so far, or the same and a lower slot.
pub(crate) fn is_better(so_far: &Kept, it: &Kept) -> bool
    ensures { result ≡ is_better so_far.now it.now }
{
    so_far.stamp < it.stamp || (so_far.stamp == it.stamp && it.slot < so_far.slot)
}

/// The row of the record in a slot; None where it isn't open or not in order.
fn row_at<S: Store>(
    alloc: Global,
    store: &mut S,
    file: u32,
    slot: u32,
) -> Result<Option<Row>, BankError>
    requires below { slot < 4194304 }
    requires long { IfTold file (S.world store.old)
        (λ bytes. slot_place (slot + 1) ≤ length bytes) }
    ensures run { OnlyReads file (S.world store.old) (S.world store.new) }
    ensures row { IfTold file (S.world store.old) (λ bytes. (row : ListOf Value)
        → HasRowAt slot row bytes → IfOk result (λ found. found ≡ Some row)) }
    ensures refusal { IfErr result IsReadRefusal }
    ensures fault { result ≡ Err BankError.Fault
        → FileCountRose file (S.world store.old) (S.world store.new) }
{
    match read_slot(alloc, store, file, slot) {
        Ok(Some(item)) => Ok(row_in(alloc, item.row.as_slice())?),
        Ok(None) => Ok(None),
        Err(SlotError::Malformed { .. }) => Ok(None),
        Err(SlotError::Fault) => Err(BankError::Fault),
        Err(SlotError::NoMemory) => Err(BankError::NoMemory),
    }
}
