//! The record of the calls made, and which of them are to fail.
ghost use Rattle.std.specs.Prelude.{◌≡◌, ◌==◌, ◌<◌, [], ◌∷◌, ◌++◌, length, map, IfOk, OnOk, OnErr};
ghost use Rattle.std.specs.List.{list_any};
ghost use Rattle.odb_memstore.specs.Recording.{is_on, forgotten};

use std::alloc::{AllocError, Global};
use std::marker::Model;

/// What was called.
#[derive(Clone, Copy, Debug, PartialEq, Eq)]
pub enum Call {
    /// `length` or `read_at`, which leave the file; a `write_at` past its room; or any call on a
    /// file whose bytes `set_file` has given since.
    Look {
        file: u32,
    },
    /// `write_at`, from the byte `at` of the file on. The bytes are `len` of the pieces kept, from
    /// `from` on.
    Write {
        file: u32,
        at: u64,
        from: usize,
        len: usize,
    },
    /// `sync`.
    Sync {
        file: u32,
    },
    /// `take`.
    Take,
    /// `say` of so many bytes.
    Say {
        len: usize,
    },
}

/// A call on the record.
#[derive(Clone, Copy, Debug, PartialEq, Eq)]
pub struct Recorded {
    /// What was called.
    pub call: Call,
    /// It was listed or past its room, and so answered `Failed`.
    pub failed: bool,
}

/// How many calls aren't on the record, since they found no place, or a `say` no room; each count
/// stands still at its type's end.
#[derive(Clone, Copy, Debug, PartialEq, Eq)]
pub struct Refused {
    /// Calls of the store, on whichever file.
    pub store: u64,
    /// Calls of `take`, which need a place alone.
    pub take: u64,
    /// Calls of `say`.
    pub say: u64,
}

/// The record, with a fixed number of places.
#[derive(Drop)]
pub(crate) struct Recorder {
    places: usize,
    failing: Vec<u32>,
    calls: Vec<Recorded>,
    refused: Refused,
}

impl Model for Recorder {
    ghost use Rattle.std.specs.Prelude.{◌≤◌, ◌<◌, ◌^◌, length, vec_capacity};
    ghost use Rattle.odb_memstore.specs.Recording.{Recording};

    ghost Value = { Recording };

    ghost view = { λ r. record {
      places = r.places;
      failing = r.failing.items;
      calls = r.calls.items;
      refused = r.refused;
    } };

    ghost invariant = { λ r.
        (r.places < 2 ^ 32)
        × (r.places ≤ vec_capacity r.calls)
        × (length r.calls.items ≤ r.places) };
}

impl Recorder {
    ghost use Rattle.std.specs.Prelude.{◌≤◌, ◌+◌, ◌-◌, ◌^◌, min, not};
    ghost use Rattle.odb_memstore.specs.Recording.{no_calls, asked, past_write, refused, fails, is_full, places_left, with_listed};
    ghost use Rattle.odb_memstore.specs.Tape.{faults_on};

    /// An empty record with so many places.
    pub(crate) fn new(alloc: Global, places: u32) -> Result<Recorder, AllocError>
        ensures { IfOk result (λ r. r ≡ no_calls places) }
    {
        Ok(Recorder {
            places: places as usize,
            failing: Vec::new(alloc),
            calls: Vec::with_capacity(alloc, places as usize)?,
            refused: Refused {
                store: 0,
                take: 0,
                say: 0,
            },
        })
    }

    /// Lists a call that is to fail, by its number from 0.
    pub(crate) fn fail(&mut self, call: u32) -> Result<(), AllocError>
        ensures ok { OnOk result (self.new ≡ with_listed call self.old) }
        ensures err { OnErr result (self.new ≡ self.old) }
    {
        self.failing.push(call)?;
        Ok(())
    }

    /// How many places there are.
    pub(crate) fn places(&self) -> u32
        ensures { result ≡ self.now.places }
    {
        self.places as u32
    }

    /// How many places are left.
    pub(crate) fn places_left(&self) -> usize
        ensures left { result ≡ places_left self.now }
        ensures few { result < 2 ^ 32 }
    {
        self.places - self.calls.len()
    }

    /// The calls on the record, the first at 0.
    pub(crate) fn calls(&self) -> &[Recorded]
        ensures value { result.now ≡ self.now.calls }
        ensures within { length self.now.calls ≤ self.now.places }
        ensures few { self.now.places < 2 ^ 32 }
    {
        self.calls.as_slice()
    }

    /// How many calls on a file failed, and how many of the store weren't recorded, up to the end
    /// of the type.
    pub(crate) fn faults(&self, file: u32) -> u64
        ensures { result ≡ faults_on file self.now }
    {
        let failed = self
            .calls
            .iter()
            .filter(|recorded| is_on(recorded.call, file) && recorded.failed)
            .count();
        self.refused.store.saturating_add(failed as u64)
    }

    /// No place is left.
    pub(crate) fn is_full(&self) -> bool
        ensures { result ≡ is_full self.now }
    {
        self.places <= self.calls.len()
    }

    /// Records a call, or counts it where no place is left, and answers whether it is to go on.
    pub(crate) fn ask(&mut self, call: Call) -> bool
        ensures goes_on { result ≡ not (fails self.old) }
        ensures next { self.new ≡ asked call self.old }
    {
        if self.is_full() {
            self.refuse(call);
            return false;
        }
        let failed = is_listed(&self.failing, self.calls.len());
        self.calls.push_reserved(Recorded { call, failed });
        !failed
    }

    /// Records a write past its room as a look that failed, or counts it where no place is left.
    pub(crate) fn note_past_write(&mut self, file: u32)
        ensures { self.new ≡ past_write file self.old }
    {
        let call = Call::Look { file };
        if self.is_full() {
            self.refuse(call);
            return;
        }
        self.calls.push_reserved(Recorded { call, failed: true });
    }

    /// Counts a call that isn't recorded.
    pub(crate) fn refuse(&mut self, call: Call)
        ensures { self.new ≡ refused call self.old }
    {
        match call {
            Call::Take => self.refused.take = self.refused.take.saturating_add(1),
            Call::Say { .. } => self.refused.say = self.refused.say.saturating_add(1),
            _ => self.refused.store = self.refused.store.saturating_add(1),
        }
    }

    /// Makes mere looks of the calls on this file.
    pub(crate) fn forget(&mut self, file: u32)
        ensures { self.new ≡ record self.old { calls = map (forgotten file) self.old.calls } }
    {
        forget_all(&mut self.calls, file);
    }
}

/// This number is listed.
fn is_listed(failing: &[u32], number: usize) -> bool
    ensures { result ≡ list_any (λ n. n == number) failing.now }
{
    failing.iter().any(|listed| *listed as usize == number)
}

/// Makes mere looks of the calls on this file.
fn forget_all(calls: &mut [Recorded], file: u32)
    ensures { calls.new ≡ map (forgotten file) calls.old }
{
    for recorded in calls.iter_mut() {
        *recorded = without(*recorded, file);
    }
}

/// A mere look where the call is on this file.
fn without(recorded: Recorded, file: u32) -> Recorded
    ensures { result ≡ forgotten file recorded }
{
    if is_on(recorded.call, file) {
        return Recorded {
            call: Call::Look { file },
            failed: recorded.failed,
        };
    }
    recorded
}

/// The call is on this file.
fn is_on(call: Call, file: u32) -> bool
    ensures { result ≡ is_on file call }
{
    match call {
        Call::Look { file: of } | Call::Write { file: of, .. } | Call::Sync { file: of } => of
            == file,
        Call::Take | Call::Say { .. } => false,
    }
}
