//! The beginning of a turn: a run of entries behind closed gates.
ghost use Rattle.std.specs.Prelude.{◌≡◌, ◌≢◌, ◌⊎◌, ◌*◌, ◌+◌, ◌≤◌, ◌++◌, ◌<◌, ℕ, max, List as ListOf, length, map, not, Err, IfErr, IfOk, OnOk, OnErr};
ghost use Rattle.std.specs.List.{All, AllPairs, filter};
ghost use Rattle.std.specs.List.Sorted.{IsPermutation};
ghost use Rattle.odb_device.specs.World.{file_of};
ghost use Rattle.odb_device.specs.Images.{EachImage};
ghost use Rattle.odb_device.specs.Calls.{FileCountRose, HasCause};
ghost use Rattle.odb_device.specs.Moments.{ChangesOnly, Runs};
ghost use Rattle.odb_codec.specs.Image.{IsStorable};
ghost use Rattle.odb_extent.specs.Standing.{limit_of};
ghost use Rattle.odb_slots.specs.Sets.{IsOneOf};
ghost use Rattle.odb_slots.specs.Tearing.{TearsGates, TearsBodies};
ghost use Rattle.odb_bank.specs.Closing.{is_doubtful, closing_of, staying_of};
ghost use Rattle.odb_bank.specs.Files.{StandsAt};
ghost use Rattle.odb_bank.specs.Gates.{with_gate};
ghost use Rattle.odb_bank.specs.History.{History};

use crate::assigning::{items_of, kept_of};
use crate::closing::{closing_slots, staying_slots};
use crate::growing::grow_to;
use crate::latest::{Addition, latest};
use crate::room::{SLOTS, free_slots};
use crate::tree::{Placed, Tree};
use crate::{Bank, BankError, Gate, Phase};
use odb_device::Store;
use odb_model::Entry;
use odb_slots::{SlotItem, close_stale, put_bodies};
use std::alloc::Global;
use std::mem;

/// What a turn is to do, with all memory that it needs.
#[derive(Debug, Drop)]
struct Plan {
    /// The slots that it closes.
    closing: Vec<u32>,
    /// The records that it adds, in the order of their keys.
    additions: Vec<Addition>,
    /// The slots that these get.
    run: Vec<u32>,
    /// Their items.
    items: Vec<SlotItem>,
    /// What memory keeps of them, with the memory that it takes.
    kept: Vec<Placed>,
    /// The number that the turn reaches.
    reached: u64,
}

impl Bank {
    ghost use Rattle.odb_bank.specs.Bank.{Stands, StandsFor, file_number};
    ghost use Rattle.odb_bank.specs.Answers.{IsQuietly};
    ghost use Rattle.odb_bank.specs.Begun.{AreConsecutive, IsReachAnswer, IsPlanAnswer, IsBodiesAnswer, IsReady, AreTaken, with_kept, HasGrown, HasRun, HasItsGate, IsFilled, IsStillIdle, ClosesTold, KeepsTold};
    ghost use Rattle.odb_bank.specs.Filling.{AreOf};

    /// Closes the gates of the slots that are stale, and puts them on the disk: one write a slot,
    /// and one sync. After `Fault` they are in doubt, and are closed by the next try.
    fn close<S: Store>(&mut self, store: &mut S, closing: &[u32]) -> Result<(), BankError>
        requires idle { self.old.phase ≡ Phase.Idle }
        requires closing { closing.now ≡ closing_of self.old }
        requires stands { Stands self.old (file_of (file_number self.old) (S.world store.old)) }
        ensures frame { TearsGates (file_number self.old) closing.now
            (S.world store.old) (S.world store.new) }
        ensures run { (h : History)
            → StandsFor h self.old (file_of (file_number self.old) (S.world store.old))
            → Runs (file_number self.old) (EachImage (StandsAt self.old.bank h self.old.mark))
            (S.world store.old) (S.world store.new) }
        ensures stands { Stands self.new (file_of (file_number self.old) (S.world store.new)) }
        ensures history { (h : History)
            → StandsFor h self.old (file_of (file_number self.old) (S.world store.old))
            → StandsFor h self.new (file_of (file_number self.old) (S.world store.new)) }
        ensures closed { OnOk result (self.new ≡ with_kept self.old (staying_of self.old)) }
        ensures gates { OnOk result (All (λ it. it.gate ≡ Gate.Open) self.new.slots) }
        ensures told { OnOk result (ClosesTold self.old self.new
            (file_of (file_number self.old) (S.world store.old))
            (file_of (file_number self.old) (S.world store.new))) }
        ensures broken { OnErr result (self.new
            ≡ with_kept self.old (map (with_gate closing.now Gate.Doubtful) self.old.slots)) }
        ensures refusal { IfErr result (λ e. e ≡ BankError.Fault) }
        ensures cause { HasCause (file_number self.old)
            (S.world store.old) (S.world store.new) result }
    {
        // Asked for what its contract says: which limits and fields each image holds.
        let _limit = self.extents.limit();
        self.slots.note(closing, Gate::Doubtful);
        match close_stale(store, self.file, closing) {
            Ok(()) => {
                keep_known(&mut self.slots);
                Ok(())
            }
            Err(_) => Err(BankError::Fault),
        }
    }

    /// Adds extents until there are so many.
    fn make_room<S: Store>(&mut self, store: &mut S, limit: u32) -> Result<(), BankError>
        requires idle { self.old.phase ≡ Phase.Idle }
        requires limit { limit ≤ 4096 }
        requires stands { Stands self.old (file_of (file_number self.old) (S.world store.old)) }
        ensures only { ChangesOnly (file_number self.old) (S.world store.old) (S.world store.new) }
        ensures run { (h : History)
            → StandsFor h self.old (file_of (file_number self.old) (S.world store.old))
            → Runs (file_number self.old) (EachImage (StandsAt self.old.bank h self.old.mark))
            (S.world store.old) (S.world store.new) }
        ensures stands { Stands self.new (file_of (file_number self.old) (S.world store.new)) }
        ensures history { (h : History)
            → StandsFor h self.old (file_of (file_number self.old) (S.world store.old))
            → StandsFor h self.new (file_of (file_number self.old) (S.world store.new)) }
        ensures grown { HasGrown self.old self.new }
        ensures told { KeepsTold self.old self.new
            (file_of (file_number self.old) (S.world store.old))
            (file_of (file_number self.old) (S.world store.new)) }
        ensures exact { OnOk result
            (limit_of self.new.extents ≡ max (limit_of self.old.extents) limit) }
        ensures refusal { IfErr result (λ e. e ≡ BankError.Fault) }
        ensures cause { HasCause (file_number self.old)
            (S.world store.old) (S.world store.new) result }
    {
        // Asked for what its contract says: which limits and fields each image holds.
        let _limit = self.extents.limit();
        match grow_to(&mut self.extents, store, limit) {
            Ok(()) => Ok(()),
            Err(_) => Err(BankError::Fault),
        }
    }

    /// Writes the records of a run into their slots, behind closed gates, and puts them on the disk.
    /// After `Fault` memory keeps what it kept.
    fn fill<S: Store>(&mut self, store: &mut S, plan: Plan) -> Result<(), BankError>
        requires idle { self.old.phase ≡ Phase.Idle }
        requires gates { All (λ it. it.gate ≡ Gate.Open) self.old.slots }
        requires stands { Stands self.old (file_of (file_number self.old) (S.world store.old)) }
        requires plan { IsReady self.old plan }
        ensures frame { TearsBodies (file_number self.old) plan.items.items
            (S.world store.old) (S.world store.new) }
        ensures run { (h : History)
            → StandsFor h self.old (file_of (file_number self.old) (S.world store.old))
            → Runs (file_number self.old) (EachImage (StandsAt self.old.bank h self.old.mark))
            (S.world store.old) (S.world store.new) }
        ensures stands { Stands self.new (file_of (file_number self.old) (S.world store.new)) }
        ensures history { (h : History) (entries : ListOf Entry)
            → StandsFor h self.old (file_of (file_number self.old) (S.world store.old))
            → AreTaken h self.old entries plan
            → StandsFor h self.new (file_of (file_number self.old) (S.world store.new)) }
        ensures broken { OnErr result (self.new ≡ self.old) }
        ensures filled { OnOk result
            (HasRun self.old plan.kept.items plan.run.items plan.reached self.new) }
        ensures closed { OnOk result (All (HasItsGate self.new.run) self.new.slots) }
        ensures told { OnOk result (KeepsTold self.old self.new
            (file_of (file_number self.old) (S.world store.old))
            (file_of (file_number self.old) (S.world store.new))) }
        ensures refusal { IfErr result (λ e. e ≡ BankError.Fault) }
        ensures cause { HasCause (file_number self.old)
            (S.world store.old) (S.world store.new) result }
    {
        // Asked for what its contract says: which limits and fields each image holds.
        let _limit = self.extents.limit();
        match put_bodies(store, self.file, plan.items.as_slice()) {
            Ok(()) => {
                put_all(&mut self.slots, plan.kept);
                self.run = plan.run;
                self.reached = plan.reached;
                self.phase = Phase::Bodies;
                Ok(())
            }
            Err(_) => Err(BankError::Fault),
        }
    }

    /// Begins a turn with these entries, which are the next ones behind the mark, and answers the
    /// number that it reaches; with no entry that is the mark, and stale slots are freed all the
    /// same.
    ///
    /// It closes the stale slots, adds extents where the free slots are too few, and writes the last
    /// write of each key of the databank into the least free slots, in key order, behind closed
    /// gates. The condition is what the type of an entry doesn't say: its writes ascend, and each
    /// has an image.
    ///
    /// A sync for the gates that it closes and one for the bodies; and an extent that it adds costs
    /// what `Extents::grow` says. All memory is taken before the first call of the store, also what
    /// `gates` and `raise_mark` will need. A search in each entry for each key that they write; and
    /// one pass over what memory keeps, with a search or two for each record.
    ///
    /// - `Phase`: a turn is begun.
    /// - `NotNext`: the first entry isn't the one behind the mark.
    /// - `Limit`: the slots that are free, those that closing stale ones frees, and those of all
    ///   extents that may be added, are fewer than the keys. Neither of the three, nor `NoMemory`,
    ///   changes anything or calls the store.
    /// - `Fault`: a call of the store failed. The mark and the records are as before, no turn is
    ///   begun, and the call may be made again.
    pub fn bodies<S: Store>(
        &mut self,
        alloc: Global,
        store: &mut S,
        entries: &[Entry],
    ) -> Result<u64, BankError>
        requires consecutive { AreConsecutive entries.now }
        requires storable { All IsStorable entries.now }
        requires stands { Stands self.old (file_of (file_number self.old) (S.world store.old)) }
        ensures answer { IsBodiesAnswer self.old entries.now result }
        ensures quiet { IsQuietly result → (self.new ≡ self.old) × (store.new ≡ store.old) }
        ensures only { ChangesOnly (file_number self.old) (S.world store.old) (S.world store.new) }
        ensures run { (h : History) → self.old.phase ≡ Phase.Idle
            → StandsFor h self.old (file_of (file_number self.old) (S.world store.old))
            → Runs (file_number self.old) (EachImage (StandsAt self.old.bank h self.old.mark))
            (S.world store.old) (S.world store.new) }
        ensures stands { Stands self.new (file_of (file_number self.old) (S.world store.new)) }
        ensures history { (h : History)
            → StandsFor h self.old (file_of (file_number self.old) (S.world store.old))
            → AreOf h self.old.bank entries.now
            → StandsFor h self.new (file_of (file_number self.old) (S.world store.new)) }
        ensures filled { IfOk result (λ n. IsFilled entries.now n self.old self.new) }
        ensures broken { result ≡ Err BankError.Fault → IsStillIdle self.old self.new }
        ensures closed { OnOk result (ClosesTold self.old self.new
            (file_of (file_number self.old) (S.world store.old))
            (file_of (file_number self.old) (S.world store.new))) }
        ensures fault { result ≡ Err BankError.Fault
            → FileCountRose (file_number self.old) (S.world store.old) (S.world store.new) }
    {
        let plan = self.plan(alloc, entries)?;
        let reached = plan.reached;
        self.close(store, plan.closing.as_slice())?;
        self.make_room(store, extents_for(plan.run.as_slice()))?;
        self.fill(store, plan)?;
        Ok(reached)
    }

    /// The number that a turn with these entries reaches, where it may begin.
    fn reaching(&self, entries: &[Entry]) -> Result<u64, BankError>
        requires { AreConsecutive entries.now }
        ensures { IsReachAnswer self.now entries.now result }
    {
        if self.phase != Phase::Idle {
            return Err(BankError::Phase { now: self.phase });
        }
        let (Some(first), Some(last)) = (entries.first(), entries.last()) else {
            return Ok(self.mark);
        };
        if first.number.checked_sub(1) != Some(self.mark) {
            return Err(BankError::NotNext {
                mark: self.mark,
                first: first.number,
            });
        }
        Ok(last.number)
    }

    /// What a turn with these entries is to do, with all memory that it needs.
    fn plan(&self, alloc: Global, entries: &[Entry]) -> Result<Plan, BankError>
        requires consecutive { AreConsecutive entries.now }
        requires storable { All IsStorable entries.now }
        ensures { IsPlanAnswer self.now entries.now result }
    {
        let reached = self.reaching(entries)?;
        let closing = closing_slots(alloc, &self.slots, self.mark)?;
        let staying = staying_slots(alloc, &self.slots, self.mark)?;
        let additions = latest(alloc, entries, self.bank)?;
        if staying.len() + additions.len() > SLOTS as usize {
            return Err(BankError::Limit);
        }
        let run = free_slots(alloc, &staying, additions.len())?;
        let items = items_of(alloc, &run, &additions)?;
        let kept = kept_of(alloc, &run, &additions)?;
        Ok(Plan {
            closing,
            additions,
            run,
            items,
            kept,
            reached,
        })
    }
}

/// Keeps what isn't in doubt.
fn keep_known(slots: &mut Tree)
    ensures { slots.new ≡ filter (λ it. not (is_doubtful it.gate)) slots.old }
{
    let all = mem::replace(slots, Tree::new());
    *slots = all.known();
}

/// Puts records in their places, in the time of a search for each. It takes no memory.
fn put_all(slots: &mut Tree, mut kept: Vec<Placed>)
    ensures { IsPermutation (slots.old ++ kept.items) slots.new }
{
    while let Some(placed) = kept.pop() {
        slots.put(placed);
    }
}

/// How many extents have these slots, which ascend.
fn extents_for(run: &[u32]) -> u32
    requires ascending { AllPairs (λ a c. a < c) run.now }
    requires small { All (λ n. n < 4194304) run.now }
    ensures few { result ≤ 4096 }
    ensures inside { All (λ n. n < 1024 * result) run.now }
    ensures last { (result ≡ 0) ⊎ ((n : ℕ) × IsOneOf run.now n × (1024 * result ≤ n + 1024)) }
{
    match run.last() {
        None => 0,
        Some(slot) => slot / 1024 + 1,
    }
}
