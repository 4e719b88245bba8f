//! The bodies of slots, written behind closed gates.
ghost use Rattle.std.specs.Prelude.{◌≡◌, ◌≢◌, ◌+◌, ◌<◌, ◌≤◌, length, take, drop, ◌++◌, OnOk, IfErr};
ghost use Rattle.std.specs.List.{All, AllPairs};
ghost use Rattle.odb_device.specs.World.{file_of};
ghost use Rattle.odb_device.specs.Images.{EachImage};
ghost use Rattle.odb_device.specs.Calls.{HasCause};
ghost use Rattle.odb_device.specs.Told.{IfTold};
ghost use Rattle.odb_slots.specs.Bodies.{IsInGrammar, IsTyped, slot_image};
ghost use Rattle.odb_slots.specs.Sets.{HasRoom, HasItems};
ghost use Rattle.odb_slots.specs.Tearing.{TearsBodies};

use crate::head::HEAD;
use crate::{SlotError, SlotItem};
use odb_device::Store;

/// How many bytes a body has.
const BODY: usize = 1023;

/// Puts bytes over those of a buffer from a place on.
fn put(out: &mut [u8], at: usize, bytes: &[u8])
    requires { at + length bytes.now ≤ length out.old }
    ensures front { take (at + length bytes.now) out.new ≡ take at out.old ++ bytes.now }
    ensures rest { drop (at + length bytes.now) out.new ≡ drop (at + length bytes.now) out.old }
{
    out[at..at + bytes.len()].copy_from_slice(bytes);
}

/// The body of an item's slot.
fn body_of(item: &SlotItem) -> [u8; BODY]
    requires { IsInGrammar item.now }
    ensures image { result ≡ slot_image item.now }
    ensures typed { IsTyped item.now }
{
    let table = item.table;
    let stamp = item.stamp;
    let key = item.key.as_slice();
    let row = item.row.as_slice();
    let mut body = [0; BODY];
    put(&mut body, 0, &[item.kind]);
    put(&mut body, 1, &table.to_be_bytes());
    put(&mut body, 5, &stamp.to_be_bytes());
    put(&mut body, 13, &(key.len() as u16).to_be_bytes());
    put(&mut body, 15, &(row.len() as u16).to_be_bytes());
    put(&mut body, HEAD, key);
    put(&mut body, HEAD + key.len(), row);
    body
}

/// Writes the bodies of these items into their slots, and puts them on the disk. One write a slot,
/// since between two bodies there is a gate, and one sync. No gate is written.
///
/// At each moment, and after Fault, only the bodies of these slots may have changed. After Ok each
/// image has them.
pub fn put_bodies<S: Store>(store: &mut S, file: u32, items: &[SlotItem]) -> Result<(), SlotError>
    requires below { All (λ item. item.slot < 4194304) items.now }
    requires apart { AllPairs (λ a b. a.slot ≢ b.slot) items.now }
    requires grammar { All IsInGrammar items.now }
    requires room { IfTold file (S.world store.old) (HasRoom items.now) }
    ensures run { TearsBodies file items.now (S.world store.old) (S.world store.new) }
    ensures done { OnOk result (EachImage (HasItems items.now) (file_of file (S.world store.new))) }
    ensures refusal { IfErr result (λ e. e ≡ SlotError.Fault) }
    ensures cause { HasCause file (S.world store.old) (S.world store.new) result }
{
    for item in items {
        store.write_at(file, 1025 + 1024 * u64::from(item.slot), &body_of(item))?;
    }
    store.sync(file)?;
    Ok(())
}
