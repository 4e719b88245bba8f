//! Opening the files of a database.
ghost use Rattle.std.specs.Prelude.{◌≡◌, ℕ, Err, IfOk, IfErr, IfSome, OnOk};
ghost use Rattle.odb_device.specs.World.{file_of};
ghost use Rattle.odb_device.specs.Calls.{FileCountRose};
ghost use Rattle.odb_transdb.specs.Opened.{opened};
ghost use Rattle.odb_transdb.specs.Worlds.{OpensAsBefore, OnlyClosesGates, HasClosedGates};
ghost use Rattle.odb_play.specs.Started.{IsStarted, RefusesOpening, status_of};
ghost use Rattle.odb_play.specs.Opening.{IsOpeningOf, IsRefused};

use odb_device::Host;
use odb_model::Status;
use odb_system::System;
use odb_transdb::{Transdb, TransdbError};
use std::alloc::Global;

/// The databank of the dictionary, whose entries are wanted first.
const SYSDB: u32 = 2;

/// The system of the entries that TRANSDB holds; or the status that refuses it.
///
/// Either way, and at each moment, each image of TRANSDB opens as one from before and is that one,
/// but for open gates behind the lists of the sides that hold entries; and nothing was taken or
/// said.
pub(crate) fn open_system<H: Host>(alloc: Global, host: &mut H) -> Result<System, Status>
    ensures run { OpensAsBefore (H.world host.old) (H.world host.new) }
    ensures bytes { OnlyClosesGates (H.world host.old) (H.world host.new) }
    ensures closed { OnOk result (HasClosedGates (H.world host.old) (H.world host.new)) }
    ensures refused { IfErr result
        (λ status. IsRefused status (H.world host.old) (H.world host.new)) }
    ensures started { IfOk result
        (λ system. IsStarted system (H.world host.old) (H.world host.new)) }
    ensures refusal { IfErr result RefusesOpening }
    ensures opened { IfSome (file_of 0 (H.world host.old))
        (λ f. IfErr result (λ status. IsOpeningOf status (opened f.bytes))) }
    ensures cause { (file : ℕ) → result ≡ Err (Status.FileFault file)
        → (file ≡ 0) × FileCountRose 0 (H.world host.old) (H.world host.new) }
{
    let opened = match Transdb::open_with_entries(alloc, host) {
        Ok(opened) => opened,
        Err(error) => return Err(status_of(error)),
    };
    let first = opened.transdb.first();
    if first != 1 {
        return Err(Status::NotHeld {
            bank: SYSDB,
            mark: 0,
            first,
        });
    }
    match System::start(alloc, opened.transdb, opened.entries) {
        Ok(system) => Ok(system),
        Err(_) => Err(Status::NoMemory),
    }
}

/// The status that a refused opening ends with.
fn status_of(error: TransdbError) -> Status
    ensures { result ≡ status_of error }
{
    match error {
        TransdbError::NoDatabase => Status::NoDatabase,
        TransdbError::Damaged { at } => Status::Damaged { file: 0, at },
        TransdbError::NoMemory => Status::NoMemory,
        TransdbError::Fault
        | TransdbError::FaultBefore
        | TransdbError::Full { .. }
        | TransdbError::NotClean
        | TransdbError::Held { .. }
        | TransdbError::InDoubt { .. } => Status::FileFault { file: 0 },
    }
}
