//! Opening a databank file, with each check that its bytes are in order.
ghost use Rattle.std.specs.Prelude.{◌≡◌, ◌≢◌, ℕ, ◌+◌, ◌*◌, ◌<◌, ◌≤◌, is_some, length, None, Err, IfOk, IfSome};
ghost use Rattle.std.specs.List.{All};
ghost use Rattle.std.specs.List.Sorted.{IsPermutation};
ghost use Rattle.odb_device.specs.World.{file_of};
ghost use Rattle.odb_device.specs.Calls.{FileCountRose, Keeps};
ghost use Rattle.odb_device.specs.Moments.{WritesWithin};
ghost use Rattle.odb_device.specs.Told.{IfTold, OnlyReads};
ghost use Rattle.odb_extent.specs.Opened.{content_end};
ghost use Rattle.odb_slots.specs.Slots.{slot_place};
ghost use Rattle.odb_bank.specs.History.{History};
ghost use Rattle.odb_bank.specs.Files.{StandsAtMark};
ghost use Rattle.odb_bank.specs.Fields.{bank_image};
ghost use Rattle.odb_bank.specs.Spelled.{row_in as row_of_item};
ghost use Rattle.odb_bank.specs.Finding.{IsItemAnswer, AreItemsKept, IsSlotChecked, IsDamageBefore, IsSlotsAnswer, AreKeptInside, AreKeptApart, IsSlotsRefusal};

use crate::decoding::{key_in, row_in};
use crate::making::MOST;
use crate::tree::{Placed, Tree};
use crate::{Bank, BankError, BankFields, Gate, Kept, Phase};
use odb_device::Store;
use odb_extent::{ExtentError, Extents};
use odb_model::TableKey;
use odb_slots::{SlotError, SlotItem, read_slot, scan};
use odb_values::Frozen;
use std::alloc::{AllocError, Global};

impl Bank {
    ghost use Rattle.odb_bank.specs.Bank.{Stands, StandsFor};
    ghost use Rattle.odb_bank.specs.Opening.{IsOpening, IsOpened, IsOpenRefusal};

    /// The file of this databank that its bytes are, once they are on the disk. `number` is that of
    /// the last entry of the history. The format is 1.
    ///
    /// Damaged { at }: at 0, where the pair has no open place or is malformed, or doesn't hold the
    /// fields of this databank with a mark of at most the number; else at the file's length, where
    /// that is less than its limit says; else at the least open slot that isn't in the slot
    /// grammar, whose key or row is no image of one, or whose stamp isn't from 1 to the number.
    ///
    /// It writes nothing, and the file reads as before. It syncs, reads the pair, and reads the slots once, in pieces of 65,536
    /// bytes; where one isn't in the slot grammar, those before it are read again, one by one.
    /// Memory is taken for the records. Fault: a call of the store failed. NoMemory: there is none
    /// for the records.
    pub fn open<S: Store>(
        alloc: Global,
        store: &mut S,
        file: u32,
        bank: u32,
        number: u64,
        format: u16,
    ) -> Result<Bank, BankError>
        requires { format ≡ 1 }
        ensures run { WritesWithin file 0 0 (S.world store.old) (S.world store.new) }
        ensures kept { result ≢ Err BankError.Fault
            → Keeps file (S.world store.old) (S.world store.new) }
        ensures answer { IfTold file (S.world store.old) (IsOpening bank number result) }
        ensures stands { IfOk result (λ b. Stands b (file_of file (S.world store.new))) }
        ensures found { IfOk result (IsOpened file bank number) }
        ensures history { (h : History) → IfTold file (S.world store.old) (StandsAtMark bank h)
            → IfOk result (λ b. StandsFor h b (file_of file (S.world store.new))) }
        ensures refusal { IsOpenRefusal result }
        ensures fault { result ≡ Err BankError.Fault
            → FileCountRose file (S.world store.old) (S.world store.new) }
    {
        let extents = match Extents::open(store, file, MOST) {
            Ok(extents) => extents,
            Err(ExtentError::Fault) => return Err(BankError::Fault),
            Err(_) => return Err(BankError::Damaged { at: 0 }),
        };
        let Some(mark) = mark_in(&extents.fields(), bank, number) else {
            return Err(BankError::Damaged { at: 0 });
        };
        let slots = tree_in(alloc, store, file, extents.limit(), number)?;
        Ok(Bank {
            file,
            extents,
            bank,
            mark,
            reached: mark,
            phase: Phase::Idle,
            run: Vec::new(alloc),
            slots,
        })
    }
}

/// The mark that the fields of a file of this databank have; None where they aren't those of one,
/// or the mark is above the number.
fn mark_in(bytes: &[u8; 36], bank: u32, number: u64) -> Option<u64>
    ensures found { IfSome result
        (λ mark. (bytes.now ≡ bank_image bank mark) × (mark ≤ number)) }
    ensures none { result ≡ None
        → (mark : ℕ) → bytes.now ≡ bank_image bank mark → mark ≤ number → ⊥ }
{
    let fields = BankFields::from_bytes(bytes)?;
    if fields.format == 1 && fields.bank == bank && fields.mark <= number {
        Some(fields.mark)
    } else {
        None
    }
}

/// The first byte of a slot.
fn place_of(slot: u32) -> u64
    ensures { result ≡ slot_place slot }
{
    1024 + 1024 * u64::from(slot)
}

/// What memory keeps of an item whose gate is open.
fn kept_item(alloc: Global, item: &SlotItem, number: u64) -> Result<Kept, BankError>
    ensures { IsItemAnswer number item.now result }
{
    let damaged = BankError::Damaged {
        at: place_of(item.slot),
    };
    if item.stamp == 0 || item.stamp > number {
        return Err(damaged);
    }
    let Some(key) = key_in(alloc, item.key.as_slice())? else {
        return Err(damaged);
    };
    if !has_lawful_row(alloc, item)? {
        return Err(damaged);
    }
    Ok(Kept {
        slot: item.slot,
        at: TableKey {
            table: item.table,
            key,
        },
        stamp: item.stamp,
        has_row: item.kind != 2,
        gate: Gate::Open,
    })
}

/// Whether the row's bytes are the image of one; a deletion mark has none. The error is want of
/// memory.
fn has_lawful_row(alloc: Global, item: &SlotItem) -> Result<bool, AllocError>
    ensures { IfOk result (λ is. is ≡ is_some (row_of_item item.now)) }
{
    if item.kind == 2 {
        return Ok(true);
    }
    match row_in(alloc, item.row.as_slice())? {
        Some(_) => Ok(true),
        None => Ok(false),
    }
}

/// What memory keeps of items whose gates are open, in their order.
fn kept_items(alloc: Global, items: &[SlotItem], number: u64) -> Result<Frozen<Kept>, BankError>
    ensures { AreItemsKept number items.now result }
{
    let mut slots = Vec::new(alloc);
    for item in items {
        slots.push(kept_item(alloc, item, number)?)?;
    }
    Ok(Frozen::from_vec(slots))
}

/// Refuses a slot that is damaged: open, and without a lawful record. One read.
fn check_slot<S: Store>(
    alloc: Global,
    store: &mut S,
    file: u32,
    slot: u32,
    number: u64,
) -> Result<(), BankError>
    requires below { slot < 4194304 }
    requires long { IfTold file (S.world store.old)
        (λ bytes. slot_place (slot + 1) ≤ length bytes) }
    ensures run { OnlyReads file (S.world store.old) (S.world store.new) }
    ensures answer { IfTold file (S.world store.old) (IsSlotChecked number slot result) }
    ensures refusal { IsSlotsRefusal result }
    ensures fault { result ≡ Err BankError.Fault
        → FileCountRose file (S.world store.old) (S.world store.new) }
{
    match read_slot(alloc, store, file, slot)? {
        Some(item) => {
            kept_item(alloc, &item, number)?;
            Ok(())
        }
        None => Ok(()),
    }
}

/// Refuses the least damaged slot of the first so many. One read for each slot.
fn damage_before<S: Store>(
    alloc: Global,
    store: &mut S,
    file: u32,
    slot: u32,
    number: u64,
) -> Result<(), BankError>
    requires below { slot ≤ 4194304 }
    requires long { IfTold file (S.world store.old) (λ bytes. slot_place slot ≤ length bytes) }
    ensures run { OnlyReads file (S.world store.old) (S.world store.new) }
    ensures answer { IfTold file (S.world store.old) (IsDamageBefore number slot result) }
    ensures refusal { IsSlotsRefusal result }
    ensures fault { result ≡ Err BankError.Fault
        → FileCountRose file (S.world store.old) (S.world store.new) }
{
    for n in 0..slot {
        check_slot(alloc, store, file, n, number)?;
    }
    Ok(())
}

/// What memory keeps of the slots of a file whose limit is so many extents.
fn slots_in<S: Store>(
    alloc: Global,
    store: &mut S,
    file: u32,
    limit: u32,
    number: u64,
) -> Result<Frozen<Kept>, BankError>
    requires limit { limit ≤ 4096 }
    ensures run { OnlyReads file (S.world store.old) (S.world store.new) }
    ensures answer { IfTold file (S.world store.old) (IsSlotsAnswer number limit result) }
    ensures sound { IfOk result (AreKeptInside (1024 * limit)) }
    ensures refusal { IsSlotsRefusal result }
    ensures fault { result ≡ Err BankError.Fault
        → FileCountRose file (S.world store.old) (S.world store.new) }
{
    let length = store.length(file)?;
    if length < place_of(1024 * limit) {
        return Err(BankError::Damaged { at: length });
    }
    match scan(alloc, store, file, limit) {
        Ok(items) => kept_items(alloc, items.as_slice(), number),
        Err(SlotError::Malformed { slot }) => {
            damage_before(alloc, store, file, slot.min(1024 * limit), number)?;
            Err(BankError::Damaged { at: place_of(slot) })
        }
        Err(refused) => Err(refused.into()),
    }
}

/// The same as a tree.
fn tree_in<S: Store>(
    alloc: Global,
    store: &mut S,
    file: u32,
    limit: u32,
    number: u64,
) -> Result<Tree, BankError>
    requires limit { limit ≤ 4096 }
    ensures run { OnlyReads file (S.world store.old) (S.world store.new) }
    ensures answer { IfTold file (S.world store.old) (IsSlotsAnswer number limit result) }
    ensures sound { IfOk result (AreKeptApart (1024 * limit)) }
    ensures refusal { IsSlotsRefusal result }
    ensures fault { result ≡ Err BankError.Fault
        → FileCountRose file (S.world store.old) (S.world store.new) }
{
    let slots = slots_in(alloc, store, file, limit, number)?;
    Ok(tree_of(alloc, slots.into_vec())?)
}

/// The tree of these records, in the time of a search for each. The error is want of memory.
fn tree_of(alloc: Global, mut slots: Vec<Kept>) -> Result<Tree, AllocError>
    ensures { IfOk result (IsPermutation slots.items) }
{
    let mut tree = Tree::new();
    while let Some(it) = slots.pop() {
        tree.put(Placed::new(alloc, it)?);
    }
    Ok(tree)
}
