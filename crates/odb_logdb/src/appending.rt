//! Adding entries to the log.
ghost use Rattle.std.specs.Prelude.{◌≡◌, ◌≢◌, ℕ, ◌+◌, ◌-◌, ◌^◌, ◌<◌, length, drop, map, Err, OnOk, OnErr, IfOk, IfErr};
ghost use Rattle.std.specs.List.{All};
ghost use Rattle.odb_device.specs.World.{file_of};
ghost use Rattle.odb_device.specs.Calls.{FileCountRose};
ghost use Rattle.odb_device.specs.Told.{IfTold};
ghost use Rattle.odb_codec.specs.Image.{IsStorable, HasImage, entry_image};
ghost use Rattle.odb_model.specs.State.{IsNumberedFrom};
ghost use Rattle.odb_logdb.specs.Adding.{AreEntries};

use crate::adding::add_all;
use crate::error::AddError;
use crate::logdb::content_end;
use crate::opening::open_log;
use crate::{ListState, Logdb, LogdbError};
use odb_codec::{CodecError, encode_entry};
use odb_device::Store;
use odb_model::Entry;
use odb_values::{Bytes, Frozen, List};
use std::alloc::Global;

impl Logdb {
    ghost use Rattle.odb_logdb.specs.Standing.{Stands, first_of, next_of, held};
    ghost use Rattle.odb_logdb.specs.Worlds.{OpensAsBefore};
    ghost use Rattle.odb_logdb.specs.Appending.{AppendsThrough, CountsMore, Advances, IsFull, IsAppendRefusal, IsReady, AddsRead, MovesImages};

    /// Adds entries behind the last one, in their order: they continue `last()`.
    ///
    /// Where a call failed at the last record's gate before, the list is read again first, by one
    /// sync and a walk over the records; that record may turn out to be there, and then counts in
    /// the place of the first entry given, which is the same entry where it is given again. A Dirty log
    /// is made zeros and Live first. Each entry is then one record: three writes and two syncs, and
    /// no read, where what stands behind the last record is clear; after an opening and after a
    /// fault it is cleared first. An extent is added where the record goes beyond the last one, by
    /// sixteen writes and a put of the pair.
    ///
    /// At each moment a crash leaves what was held before, and behind it a front of these entries.
    ///
    /// Memory is taken for the images of the entries, which are made before the first call.
    ///
    /// - `LogFull`: the next record needs more bytes than are left of 1,024 extents; the entries
    ///   before it are held, and the log may be used on.
    /// - `Fault`: a call of the store failed. The entries before the one at which that happened are
    ///   held, and perhaps that one, which `last()` doesn't count. The call may be made again.
    /// - `NoMemory`: there is none for the images; nothing has changed.
    pub fn append_through<S: Store>(
        &mut self,
        alloc: Global,
        store: &mut S,
        entries: &[Entry],
    ) -> Result<(), LogdbError>
        requires stands { Stands self.old (file_of 1 (S.world store.old)) }
        requires numbers { IsNumberedFrom (next_of self.old - 1 + 1) entries.now }
        requires storable { All IsStorable entries.now }
        ensures run { AppendsThrough self.old entries.now (S.world store.old) (S.world store.new) }
        ensures stands { Stands self.new (file_of 1 (S.world store.new)) }
        ensures held { IfTold 1 (S.world store.new) (λ _. CountsMore self.old entries.now result
            (file_of 1 (S.world store.old)) (held self.new (file_of 1 (S.world store.new)))) }
        ensures first { first_of self.new ≡ first_of self.old }
        ensures known { OnOk result (self.new.state ≡ ListState.Known) }
        ensures moves { self.old.state ≢ ListState.Unknown
            → Advances entries.now result self.old self.new }
        ensures full { (need room : ℕ) → result ≡ Err (LogdbError.LogFull need room)
            → IsFull entries.now need room self.new }
        ensures refusal { IsAppendRefusal result }
        ensures memory { result ≡ Err LogdbError.NoMemory
            → (self.new ≡ self.old) × (store.new ≡ store.old) }
        ensures cause { result ≡ Err LogdbError.Fault
            → FileCountRose 1 (S.world store.old) (S.world store.new) }
    {
        let next = self.next_number();
        let images = images_of(alloc, entries)?;
        self.make_ready(store)?;
        let there = self.next_number().saturating_sub(next);
        self.add_images(store, behind(images.as_slice(), there))
    }

    /// Makes a list known: reads it again where a record is in doubt, and makes a Dirty log Live.
    fn make_ready<S: Store>(&mut self, store: &mut S) -> Result<(), LogdbError>
        requires stands { Stands self.old (file_of 1 (S.world store.old)) }
        ensures run { OpensAsBefore (S.world store.old) (S.world store.new) }
        ensures stands { Stands self.new (file_of 1 (S.world store.new)) }
        ensures ready { IsReady self.old self.new result
            (file_of 1 (S.world store.old)) (file_of 1 (S.world store.new)) }
        ensures refusal { IfErr result (λ e. e ≡ LogdbError.Fault) }
        ensures cause { OnErr result (FileCountRose 1 (S.world store.old) (S.world store.new)) }
    {
        match self.state {
            ListState::Known => Ok(()),
            ListState::Unknown => self.reopen(store),
            ListState::Dirty => self.finish(store),
        }
    }

    /// Reads the list again, where the record behind it is in doubt.
    fn reopen<S: Store>(&mut self, store: &mut S) -> Result<(), LogdbError>
        requires unknown { self.old.state ≡ ListState.Unknown }
        requires stands { Stands self.old (file_of 1 (S.world store.old)) }
        ensures run { OpensAsBefore (S.world store.old) (S.world store.new) }
        ensures stands { Stands self.new (file_of 1 (S.world store.new)) }
        ensures ready { IsReady self.old self.new result
            (file_of 1 (S.world store.old)) (file_of 1 (S.world store.new)) }
        ensures refusal { IfErr result (λ e. e ≡ LogdbError.Fault) }
        ensures cause { OnErr result (FileCountRose 1 (S.world store.old) (S.world store.new)) }
    {
        let end = content_end(self.extents.limit());
        let start = self.start();
        self.log = open_log(store, start, end, self.fields.first)?;
        self.state = ListState::Known;
        Ok(())
    }

    /// Adds records with these payloads to a list that is known.
    fn add_images<S: Store>(&mut self, store: &mut S, images: &[Bytes]) -> Result<(), LogdbError>
        requires known { self.old.state ≡ ListState.Known }
        requires stands { Stands self.old (file_of 1 (S.world store.old)) }
        requires read { AreEntries (next_of self.old) images.now }
        requires short { All (λ image. length image < 2 ^ 32) images.now }
        ensures adds { AddsRead images.now result self.old self.new
            (S.world store.old) (S.world store.new) }
        ensures moves { MovesImages images.now result self.old self.new }
        ensures first { first_of self.new ≡ first_of self.old }
        ensures known { OnOk result (self.new.state ≡ ListState.Known) }
        ensures refusal { IsAppendRefusal result }
        ensures memory { result ≢ Err LogdbError.NoMemory }
        ensures cause { result ≡ Err LogdbError.Fault
            → FileCountRose 1 (S.world store.old) (S.world store.new) }
    {
        match add_all(&mut self.extents, &mut self.log, store, images) {
            Ok(()) => Ok(()),
            Err(AddError::Fault) => Err(LogdbError::Fault),
            Err(AddError::InDoubt) => {
                self.state = ListState::Unknown;
                Err(LogdbError::Fault)
            }
            Err(AddError::Full { need, room }) => Err(LogdbError::LogFull { need, room }),
        }
    }
}

/// The images behind the first so many.
fn behind(images: &[Bytes], there: u64) -> &[Bytes]
    ensures { result.now ≡ drop there images.now }
{
    let from = (there as usize).min(images.len());
    &images[from..]
}

/// The images of entries, in their order.
fn images_of(alloc: Global, entries: &[Entry]) -> Result<Frozen<Bytes>, LogdbError>
    requires { All IsStorable entries.now }
    ensures images { IfOk result (λ images. images ≡ map entry_image entries.now) }
    ensures lawful { OnOk result (All HasImage entries.now) }
    ensures short { IfOk result (λ images. All (λ image. length image < 2 ^ 32) images) }
    ensures refusal { IfErr result (λ e. e ≡ LogdbError.NoMemory) }
{
    let mut images: List<Bytes> = List::new(alloc);
    for entry in entries {
        let image = image_of(alloc, entry)?;
        images.reserve()?;
        images.push(image);
    }
    Ok(Frozen::new(images))
}

/// The image of an entry.
fn image_of(alloc: Global, entry: &Entry) -> Result<Bytes, LogdbError>
    requires { IsStorable entry.now }
    ensures image { IfOk result (λ image. image ≡ entry_image entry.now) }
    ensures lawful { OnOk result (HasImage entry.now) }
    ensures short { IfOk result (λ image. length image < 2 ^ 32) }
    ensures refusal { IfErr result (λ e. e ≡ LogdbError.NoMemory) }
{
    match encode_entry(alloc, entry) {
        Ok(image) => Ok(image),
        Err(CodecError::NoMemory) => Err(LogdbError::NoMemory),
        Err(CodecError::Malformed { .. }) => unreachable!(),
    }
}
