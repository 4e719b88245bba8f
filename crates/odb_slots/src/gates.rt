//! The gates of slots.
ghost use Rattle.std.specs.Prelude.{◌≡◌, ◌^◌, ◌<◌, length, slice_index, EachIndex, OnOk, IfErr};
ghost use Rattle.odb_device.specs.World.{file_of};
ghost use Rattle.odb_device.specs.Images.{EachImage};
ghost use Rattle.odb_device.specs.Calls.{HasCause};
ghost use Rattle.odb_slots.specs.Slots.{OPEN};
ghost use Rattle.odb_slots.specs.Sets.{HaveGates};
ghost use Rattle.odb_slots.specs.Tearing.{TearsGates};

use crate::SlotError;
use odb_device::{Failed, Store};

/// A gate is open exactly where it is this byte.
pub(crate) const OPEN: u8 = 0xA5;

/// Writes this byte over the gate of each slot, and syncs.
fn write_gates<S: Store>(store: &mut S, file: u32, slots: &[u32], gate: u8) -> Result<(), Failed>
    requires { EachIndex slots.now (λ k. slice_index slots.now k < 4194304) }
    ensures run { TearsGates file slots.now (S.world store.old) (S.world store.new) }
    ensures done { OnOk result (EachImage (HaveGates gate slots.now (length slots.now))
        (file_of file (S.world store.new))) }
    ensures cause { HasCause file (S.world store.old) (S.world store.new) result }
{
    for slot in slots {
        store.write_at(file, 1024 + 1024 * u64::from(*slot), &[gate])?;
    }
    store.sync(file)
}

/// Opens the gates of these slots, and puts them on the disk. One write a slot, and one sync.
///
/// Of whatever stood there before only these gates may have changed, at each moment and after
/// Fault: then any of them may be open. After Ok all of them are.
pub fn open_gates<S: Store>(store: &mut S, file: u32, slots: &[u32]) -> Result<(), SlotError>
    requires { EachIndex slots.now (λ k. slice_index slots.now k < 4194304) }
    ensures run { TearsGates file slots.now (S.world store.old) (S.world store.new) }
    ensures done { OnOk result (EachImage (HaveGates OPEN slots.now (length slots.now))
        (file_of file (S.world store.new))) }
    ensures refusal { IfErr result (λ e. e ≡ SlotError.Fault) }
    ensures cause { HasCause file (S.world store.old) (S.world store.new) result }
{
    write_gates(store, file, slots, OPEN)?;
    Ok(())
}

/// Closes the gates of these slots, and puts them on the disk. One write a slot, and one sync.
///
/// Of whatever stood there before only these gates may have changed, at each moment and after
/// Fault: then any of them may be open. After Ok none of them is.
pub fn close_stale<S: Store>(store: &mut S, file: u32, slots: &[u32]) -> Result<(), SlotError>
    requires { EachIndex slots.now (λ k. slice_index slots.now k < 4194304) }
    ensures run { TearsGates file slots.now (S.world store.old) (S.world store.new) }
    ensures done { OnOk result (EachImage (HaveGates 0 slots.now (length slots.now))
        (file_of file (S.world store.new))) }
    ensures refusal { IfErr result (λ e. e ≡ SlotError.Fault) }
    ensures cause { HasCause file (S.world store.old) (S.world store.new) result }
{
    write_gates(store, file, slots, 0)?;
    Ok(())
}
