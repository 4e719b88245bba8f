//! The turns by which a databank file takes up entries.
ghost use Rattle.std.specs.Prelude.{◌≡◌, ◌≢◌, ◌⊎◌, ℕ, Err, IfOk, OnOk, OnErr};
ghost use Rattle.odb_device.specs.World.{file_of};
ghost use Rattle.odb_device.specs.Images.{EachImage};
ghost use Rattle.odb_device.specs.Calls.{FileCountRose};
ghost use Rattle.odb_device.specs.Moments.{Runs, WritesWithin};
ghost use Rattle.odb_slots.specs.Tearing.{TearsGates};
ghost use Rattle.odb_bank.specs.History.{History};
ghost use Rattle.odb_bank.specs.Files.{StandsAt};
ghost use Rattle.odb_bank.specs.Gates.{noted_as};

use crate::{Bank, BankError, BankFields, Gate, Phase};
use odb_device::Store;
use odb_slots::open_gates;

impl Bank {
    ghost use Rattle.odb_bank.specs.Bank.{Stands, StandsFor, StandsByMark, file_number};
    ghost use Rattle.odb_bank.specs.Answers.{IsStepAnswer, IsQuietly, IsMoved};

    /// Opens the gates of the run, and puts them on the disk: one write a slot, and one sync.
    ///
    /// At each moment a crash leaves any of them open, and the file stands, complete to the mark.
    /// `Phase`: the run doesn't stand behind its gates; nothing has changed. `Fault`: a call of the
    /// store failed; the call may be made again, and until its Ok `get` and `next_key` answer as
    /// before the run.
    pub fn gates<S: Store>(&mut self, store: &mut S) -> Result<(), BankError>
        requires { Stands self.old (file_of (file_number self.old) (S.world store.old)) }
        ensures answer { IsStepAnswer Phase.Bodies self.old.phase result }
        ensures quiet { IsQuietly result → (self.new ≡ self.old) × (store.new ≡ store.old) }
        ensures frame { TearsGates (file_number self.old) self.old.run
            (S.world store.old) (S.world store.new) }
        ensures run { (h : History) → self.old.phase ≡ Phase.Bodies
            → StandsFor h self.old (file_of (file_number self.old) (S.world store.old))
            → Runs (file_number self.old) (EachImage (StandsByMark h self.old))
            (S.world store.old) (S.world store.new) }
        ensures stands { Stands self.new (file_of (file_number self.old) (S.world store.new)) }
        ensures history { (h : History)
            → StandsFor h self.old (file_of (file_number self.old) (S.world store.old))
            → StandsFor h self.new (file_of (file_number self.old) (S.world store.new)) }
        ensures opened { OnOk result (self.new ≡ noted_as Phase.Gates Gate.Open self.old) }
        ensures broken { result ≡ Err BankError.Fault
            → self.new ≡ noted_as Phase.Bodies Gate.Doubtful self.old }
        ensures fault { result ≡ Err BankError.Fault
            → FileCountRose (file_number self.old) (S.world store.old) (S.world store.new) }
    {
        if self.phase != Phase::Bodies {
            return Err(BankError::Phase { now: self.phase });
        }
        // Asked for what its contract says: which limits and fields each image holds.
        let _limit = self.extents.limit();
        self.slots.note_run(&self.run, Gate::Doubtful);
        match open_gates(store, self.file, self.run.as_slice()) {
            Ok(()) => {
                self.slots.note_run(&self.run, Gate::Open);
                self.phase = Phase::Gates;
                Ok(())
            }
            Err(_) => Err(BankError::Fault),
        }
    }

    /// Puts the number reached as the mark, which ends the turn, and answers it. One put of the
    /// pair: at most three writes and three syncs.
    ///
    /// At each moment a crash leaves the old mark or the new one, and the file stands, complete to
    /// the one that it holds; after Ok it holds the new one. `Phase`: the gates of the run aren't
    /// open; nothing has changed. `Fault`: a call of the store failed; the old mark is kept, and the
    /// call may be made again.
    pub fn raise_mark<S: Store>(&mut self, store: &mut S) -> Result<u64, BankError>
        requires { Stands self.old (file_of (file_number self.old) (S.world store.old)) }
        ensures answer { IsStepAnswer Phase.Gates self.old.phase result }
        ensures number { IfOk result (λ n. n ≡ self.old.reached) }
        ensures quiet { IsQuietly result → (self.new ≡ self.old) × (store.new ≡ store.old) }
        ensures frame { WritesWithin (file_number self.old) 0 1024
            (S.world store.old) (S.world store.new) }
        ensures run { (h : History) → self.old.phase ≡ Phase.Gates
            → StandsFor h self.old (file_of (file_number self.old) (S.world store.old))
            → Runs (file_number self.old) (EachImage (StandsByMark h self.old))
            (S.world store.old) (S.world store.new) }
        ensures complete { (h : History)
            → StandsFor h self.old (file_of (file_number self.old) (S.world store.old))
            → IfOk result (λ n. EachImage (StandsAt self.old.bank h n)
            (file_of (file_number self.old) (S.world store.new))) }
        ensures stands { Stands self.new (file_of (file_number self.old) (S.world store.new)) }
        ensures history { (h : History)
            → StandsFor h self.old (file_of (file_number self.old) (S.world store.old))
            → StandsFor h self.new (file_of (file_number self.old) (S.world store.new)) }
        ensures raised { IfOk result (λ n. IsMoved Phase.Idle n self.old self.new) }
        ensures broken { OnErr result (IsMoved self.old.phase self.old.mark self.old self.new) }
        ensures fault { result ≡ Err BankError.Fault
            → FileCountRose (file_number self.old) (S.world store.old) (S.world store.new) }
    {
        if self.phase != Phase::Gates {
            return Err(BankError::Phase { now: self.phase });
        }
        let fields = BankFields {
            format: 1,
            bank: self.bank,
            mark: self.reached,
        };
        match self.extents.put_fields(store, &fields.image()) {
            Ok(()) => {
                self.mark = self.reached;
                self.phase = Phase::Idle;
                Ok(self.mark)
            }
            Err(_) => Err(BankError::Fault),
        }
    }
}
