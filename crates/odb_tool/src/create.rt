//! Making a database.
ghost use Rattle.std.specs.Prelude.{◌≡◌, ℕ, true, IfSome, IfErr, OnOk};
ghost use Rattle.odb_device.specs.World.{file_of};
ghost use Rattle.odb_device.specs.Calls.{FileCountRose, HasCause};
ghost use Rattle.odb_device.specs.Moments.{Runs};
ghost use Rattle.odb_pair.specs.Places.{opened as pair_opened};
ghost use Rattle.odb_tool.specs.Words.{IsSide};
ghost use Rattle.odb_tool.specs.Created.{is_made, IsNewDatabank, HasDatabase, MakesFiles, KeepsLog, LeavesLog, MakesInOrder, IsCreationOf, CreateOutcome, LeavesDatabase, IsCreateStatus};

use odb_bank::Bank;
use odb_device::Store;
use odb_model::Status;
use odb_pair::{Pair, PairError};
use odb_transdb::Transdb;

/// The format of the databases that are made.
const FORMAT: u16 = 1;

/// The databank of the dictionary, the file of its master, and that of its shadow.
const SYSDB: u32 = 2;

const SHADOW: u32 = 3;

/// The databank of the first tables, and the file of its master.
const MAIN: u32 = 4;

/// Makes a database, where the pair of file 0 has no open place yet: the files 2, 3 and 4 of the
/// databanks, and then TRANSDB, file 0.
///
/// A pair that has one is left as it is: `Exists`, and a fault of reading it, come before a byte is
/// written. Else it makes each databank file, of 1 MiB, and writes both sides of TRANSDB as zeros, in
/// pieces of 64 KiB, and its pair last. A side has so many KiB.
pub(crate) fn create<S: Store>(store: &mut S, side_kib: u32) -> Status
    requires side { IsSide side_kib }
    ensures created { CreateOutcome side_kib result (S.world store.old) (S.world store.new) }
    ensures creation { IfSome (file_of 0 (S.world store.old))
        (λ f. IsCreationOf result (pair_opened f.bytes)) }
    ensures leaves { LeavesDatabase (S.world store.old) (S.world store.new) }
    ensures statuses { IsCreateStatus result }
    ensures silent { MakesFiles (S.world store.old) (S.world store.new) }
    ensures order { MakesInOrder side_kib LeavesLog (S.world store.old) (S.world store.new) }
    ensures file_fault { (file : ℕ) → result ≡ Status.FileFault file
        → (is_made file ≡ true) × FileCountRose file (S.world store.old) (S.world store.new) }
{
    match Pair::open(store, 0) {
        Err(PairError::NoOpenPlace) => {}
        Err(PairError::Fault) => return Status::FileFault { file: 0 },
        Ok(_) | Err(PairError::Malformed) => return Status::Exists,
    }
    match make_files(store, side_kib) {
        Ok(()) => Status::Done,
        Err(file) => Status::FileFault { file },
    }
}

/// Makes the files of a database; the error is the file on which a call failed.
fn make_files<S: Store>(store: &mut S, side_kib: u32) -> Result<(), u32>
    requires side { IsSide side_kib }
    ensures made { OnOk result (HasDatabase side_kib (S.world store.new)) }
    ensures only { MakesFiles (S.world store.old) (S.world store.new) }
    ensures order { MakesInOrder side_kib KeepsLog (S.world store.old) (S.world store.new) }
    ensures cause { IfErr result (λ file. (is_made file ≡ true)
        × FileCountRose file (S.world store.old) (S.world store.new)) }
{
    make_databank(store, SYSDB, SYSDB)?;
    make_databank(store, SHADOW, SYSDB)?;
    make_databank(store, MAIN, MAIN)?;
    match Transdb::create(store, side_kib, FORMAT) {
        Ok(()) => Ok(()),
        Err(_) => Err(0),
    }
}

/// Makes the file of a databank, without a row and with the mark 0; the error is its number.
fn make_databank<S: Store>(store: &mut S, file: u32, bank: u32) -> Result<(), u32>
    ensures run { Runs file (λ _. Unit {0}) (S.world store.old) (S.world store.new) }
    ensures made { OnOk result (IsNewDatabank bank file (S.world store.new)) }
    ensures refusal { IfErr result (λ failed. failed ≡ file) }
    ensures cause { HasCause file (S.world store.old) (S.world store.new) result }
{
    match Bank::format(store, file, bank, 0, FORMAT) {
        Ok(()) => Ok(()),
        Err(_) => Err(file),
    }
}
