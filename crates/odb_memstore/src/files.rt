//! Numbered files in memory.
ghost use Rattle.std.specs.Prelude.{◌≡◌, ◌+◌, ◌^◌, ◌<◌, ◌≤◌, ◌++◌, [], length, take, drop, replicate, vec_len, vec_capacity, IfOk, OnOk};
ghost use Rattle.odb_device.specs.Images.{overwritten};
ghost use Rattle.odb_memstore.specs.Numbered.{bytes_of, with_bytes, with_changed, lengths_of, AreSameBut, IsThere, extended, pasted};
ghost use Rattle.odb_memstore.specs.Shelf.{HasRoomTo, LosesNoSpace};
ghost use Rattle.odb_memstore.specs.Layout.{held_length, place_of, start_of, length_of, Enters};

use std::alloc::{AllocError, Global};
use std::marker::Model;

/// How many bytes a file has. They lie behind those of the entries before it.
#[derive(Clone, Copy, Debug)]
pub(crate) struct Held {
    file: u32,
    len: usize,
}

/// Where a file's entry stands, where its bytes begin, and how many there are.
#[derive(Clone, Copy, Debug)]
struct Spot {
    place: usize,
    start: usize,
    len: usize,
}

/// Numbered files, each with its bytes.
///
/// All lie in one piece of memory, one behind another in the order in which they came: a file that
/// grows moves those behind it.
#[derive(Drop)]
pub(crate) struct Files {
    held: Vec<Held>,
    bytes: Vec<u8>,
}

impl Model for Files {
    ghost use Rattle.std.specs.Prelude.{vec_capacity};
    ghost use Rattle.odb_memstore.specs.Shelf.{Shelf};

    ghost Value = { Shelf };

    ghost use Rattle.odb_memstore.specs.Layout.{contents, IsLaid};

    ghost view = { λ f. record {
      files = contents f.held.items f.bytes.items;
      places = vec_capacity f.held;
      room = vec_capacity f.bytes;
    } };

    ghost invariant = { λ f. IsLaid f.held.items f.bytes.items };
}

/// The spot of a file; with no entry it lies past the last, and has no bytes.
fn spot_of(held: &[Held], file: u32) -> Spot
    requires { held_length held.now < 2 ^ 63 }
    ensures place { result.place ≡ place_of held.now file }
    ensures start { result.start ≡ start_of held.now file }
    ensures len { result.len ≡ length_of held.now file }
    ensures within { result.start + result.len ≤ held_length held.now }
{
    let mut start = 0;
    for (place, entry) in held.iter().enumerate() {
        if entry.file == file {
            return Spot {
                place,
                start,
                len: entry.len,
            };
        }
        start += entry.len;
    }
    Spot {
        place: held.len(),
        start,
        len: 0,
    }
}

impl Files {
    /// No files, with places for so many and room for so many bytes of all together.
    pub(crate) fn new(alloc: Global, places: usize, room: usize) -> Result<Files, AllocError>
        ensures files { IfOk result (λ f. f.files ≡ []) }
        ensures places { IfOk result (λ f. places ≤ f.places) }
        ensures room { IfOk result (λ f. room ≤ f.room) }
    {
        Ok(Files {
            held: Vec::with_capacity(alloc, places)?,
            bytes: Vec::with_capacity(alloc, room)?,
        })
    }

    /// How many files there are.
    pub(crate) fn count(&self) -> usize
        ensures count { result ≡ length self.now.files }
        ensures few { result < 2 ^ 63 }
    {
        self.held.len()
    }

    /// The lengths of all files together.
    pub(crate) fn total(&self) -> usize
        ensures total { result ≡ lengths_of self.now.files }
        ensures few { result < 2 ^ 63 }
    {
        self.bytes.len()
    }

    /// The bytes of a file; none where it isn't there.
    pub(crate) fn bytes(&self, file: u32) -> &[u8]
        ensures { result.now ≡ bytes_of self.now.files file }
    {
        let spot = spot_of(&self.held, file);
        &self.bytes[spot.start..spot.start + spot.len]
    }
}

impl Files {
    /// Writes the bytes over those of the file from `at` on, and past its end.
    ///
    /// A gap between the old end and `at` gets zeros.
    pub(crate) fn write(&mut self, file: u32, at: usize, piece: &[u8])
        requires end { at + length piece.now < 2 ^ 63 }
        requires place { length self.old.files < self.old.places }
        requires room { HasRoomTo self.old file (at + length piece.now) }
        ensures files { self.new.files
            ≡ with_changed self.old.files file (overwritten at piece.now) }
        ensures space { LosesNoSpace self.old self.new }
    {
        self.grow(file, at + piece.len());
        self.copy_in(file, at, piece);
    }

    /// Gives the file just these bytes.
    pub(crate) fn set(&mut self, file: u32, bytes: &[u8])
        requires place { length self.old.files < self.old.places }
        requires room { lengths_of self.old.files + length bytes.now ≤ self.old.room }
        ensures files { self.new.files ≡ with_bytes self.old.files file bytes.now }
        ensures space { LosesNoSpace self.old self.new }
    {
        self.cut(file);
        self.write(file, 0, bytes);
    }

    /// Makes places for so many more files, and room for so many more bytes.
    pub(crate) fn reserve(&mut self, files: usize, bytes: usize) -> Result<(), AllocError>
        ensures files { self.new.files ≡ self.old.files }
        ensures space { LosesNoSpace self.old self.new }
        ensures more_places { OnOk result (length self.old.files + files ≤ self.new.places) }
        ensures more_room { OnOk result (lengths_of self.old.files + bytes ≤ self.new.room) }
    {
        self.held.reserve(files)?;
        self.bytes.reserve(bytes)?;
        Ok(())
    }

    /// The same files, with at least so many places and so much room.
    pub(crate) fn copy(
        &self,
        alloc: Global,
        places: usize,
        room: usize,
    ) -> Result<Files, AllocError>
        ensures files { IfOk result (λ f. f.files ≡ self.now.files) }
        ensures places { IfOk result (λ f. places ≤ f.places) }
        ensures room { IfOk result (λ f. room ≤ f.room) }
    {
        let mut held = Vec::with_capacity(alloc, places)?;
        held.extend_from_slice(&self.held)?;
        let mut bytes = Vec::with_capacity(alloc, room)?;
        bytes.extend_from_slice(&self.bytes)?;
        Ok(Files { held, bytes })
    }

    /// Takes all its bytes from the file.
    fn cut(&mut self, file: u32)
        ensures empty { bytes_of self.new.files file ≡ [] }
        ensures same { AreSameBut file self.old.files self.new.files }
        ensures count { length self.new.files ≡ length self.old.files }
        ensures total { lengths_of self.new.files ≤ lengths_of self.old.files }
        ensures space { LosesNoSpace self.old self.new }
    {
        let spot = spot_of(&self.held, file);
        if spot.len > 0 {
            remove(&mut self.bytes, spot.start, spot.len);
            self.held[spot.place].len = 0;
        }
    }

    /// Makes the file at least so long, with zeros behind what it has.
    pub(crate) fn grow(&mut self, file: u32, end: usize)
        requires place { length self.old.files < self.old.places }
        requires room { HasRoomTo self.old file end }
        ensures files { self.new.files ≡ with_changed self.old.files file (extended end) }
        ensures space { LosesNoSpace self.old self.new }
    {
        let spot = enter(&mut self.held, file);
        if end > spot.len {
            insert_zeros(&mut self.bytes, spot.start + spot.len, end - spot.len);
            self.held[spot.place].len = end;
        }
    }

    /// Writes over bytes that the file has.
    fn copy_in(&mut self, file: u32, at: usize, piece: &[u8])
        requires there { IsThere self.old.files file }
        requires within { at + length piece.now ≤ length (bytes_of self.old.files file) }
        ensures files { self.new.files ≡ with_changed self.old.files file (pasted at piece.now) }
        ensures space { LosesNoSpace self.old self.new }
    {
        let spot = spot_of(&self.held, file);
        paste(&mut self.bytes, spot.start + at, piece);
    }
}

/// The spot of a file's entry, which is put behind the others where there is none.
fn enter(held: &mut Vec<Held>, file: u32) -> Spot
    requires size { held_length held.old.items < 2 ^ 63 }
    requires place { vec_len held.old < vec_capacity held.old }
    ensures within { result.place < length held.new.items }
    ensures place { result.place ≡ place_of held.new.items file }
    ensures start { result.start ≡ start_of held.new.items file }
    ensures len { result.len ≡ length_of held.new.items file }
    ensures end { result.start + result.len ≤ held_length held.old.items }
    ensures files { Enters file held.old.items held.new.items }
    ensures size { held_length held.new.items ≡ held_length held.old.items }
    ensures capacity { vec_capacity held.new ≡ vec_capacity held.old }
{
    let spot = spot_of(held, file);
    if spot.place >= held.len() {
        held.push_reserved(Held { file, len: 0 });
    }
    spot
}

/// Writes over what is there from the byte `at` on.
fn paste(bytes: &mut Vec<u8>, at: usize, piece: &[u8])
    requires { at + length piece.now ≤ vec_len bytes.old }
    ensures bytes { bytes.new.items ≡ pasted at piece.now bytes.old.items }
    ensures capacity { vec_capacity bytes.new ≡ vec_capacity bytes.old }
{
    bytes[at..at + piece.len()].copy_from_slice(piece);
}

/// Puts zeros before the byte `at`.
fn insert_zeros(bytes: &mut Vec<u8>, at: usize, n: usize)
    requires within { at ≤ vec_len bytes.old }
    requires room { vec_len bytes.old + n ≤ vec_capacity bytes.old }
    ensures bytes { bytes.new.items
        ≡ take at bytes.old.items ++ replicate n 0 ++ drop at bytes.old.items }
    ensures capacity { vec_capacity bytes.old ≤ vec_capacity bytes.new }
{
    if bytes.resize(bytes.len() + n, 0).is_err() {
        unreachable!();
    }
    bytes[at..].rotate_right(n);
}

/// Takes the n bytes from the byte `at` on away.
fn remove(bytes: &mut Vec<u8>, at: usize, n: usize)
    requires { at + n ≤ vec_len bytes.old }
    ensures bytes { bytes.new.items ≡ take at bytes.old.items ++ drop (at + n) bytes.old.items }
    ensures capacity { vec_capacity bytes.old ≤ vec_capacity bytes.new }
{
    let rest = bytes.len() - n;
    bytes[at..].rotate_left(n);
    bytes.truncate(rest);
}
