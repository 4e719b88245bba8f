//! The last entries of the history.
ghost use Rattle.std.specs.Prelude.{◌≡◌, ◌+◌, ◌<◌, ◌≤◌, false, [], length, IsTrue, IsOk, OnOk, OnErr};
ghost use Rattle.odb_model.specs.Window.{write_count, start_within, window_writes};
ghost use Rattle.odb_validate.specs.Window.{last_number, reserve, forget, put_last, push};
ghost use Rattle.odb_validate.specs.Validation.{validated};

use crate::oldest::oldest_number;
use crate::overwriting::conflict_from;
use crate::{Aged, WindowError};
use odb_model::{Entry, Read};
use std::alloc::Global;
use std::collections::VecDeque;
use std::marker::Model;

/// How many writes the entries of a window have at most, all together.
pub const WINDOW_WRITES: usize = 262_144;

/// The last entries of the history: the longest suffix of those that were pushed whose entries have
/// at most `WINDOW_WRITES` writes in all. Contracts see the number of entries before it, its
/// entries, and whether the place of the next one is reserved.
///
/// `reserve` is the step that may want memory, and `push` into the reserved place can't fail. The
/// memory of a window grows with its entries and their writes; it doesn't grow with the history.
#[derive(Drop)]
pub struct Window {
    start: u64,
    last: u64,
    entries: VecDeque<Entry>,
    writes: usize,
    is_reserved: bool,
}

impl Model for Window {
    ghost use Rattle.std.specs.Prelude.{◌<◌};
    ghost use Rattle.std.specs.Bool.{OnTrue};
    ghost use Rattle.std.specs.VecDeque.{deque_len, deque_capacity};
    ghost use Rattle.odb_validate.specs.Window.{Windowed, windowed_code, IsKept};

    ghost Value = { Windowed };

    ghost coded = { windowed_code };

    ghost view = { λ a. record {
      start = a.start;
      entries = a.entries.items;
      is_reserved = a.is_reserved;
    } };

    ghost invariant = { λ a. IsKept a.start a.last a.entries.items a.writes
        × OnTrue a.is_reserved (deque_len a.entries < deque_capacity a.entries) };
}

impl Window {
    /// The window of a history of so many entries, none of which it has: transactions that read
    /// earlier are too old for it. It takes no memory, and keeps the allocator.
    pub fn new(alloc: Global, start: u64) -> Window
        ensures { result ≡ record { start = start; entries = []; is_reserved = false } }
    {
        Window {
            start,
            last: start,
            entries: VecDeque::new(alloc),
            writes: 0,
            is_reserved: false,
        }
    }

    /// How many entries the history has before the window.
    pub fn start(&self) -> u64
        ensures { result ≡ self.now.start }
    {
        self.start
    }

    /// The number of the last entry, which is how many entries the history has.
    pub fn last(&self) -> u64
        ensures { result ≡ last_number self.now }
    {
        self.last
    }

    /// Reserves the place of the next entry. The error is want of memory; where the place is
    /// reserved already, none is taken. A window that grows by one entry at a time takes new memory
    /// only when it has doubled.
    pub fn reserve(&mut self) -> Result<(), WindowError>
        ensures ok { OnOk result (self.new ≡ reserve self.old) }
        ensures err { OnErr result (self.new ≡ self.old) }
        ensures again { IsTrue self.old.is_reserved → IsOk result }
    {
        self.entries.reserve(1)?;
        self.is_reserved = true;
        Ok(())
    }

    /// Puts the history's next entry into the reserved place, and forgets the oldest entries for as
    /// long as there are more than `WINDOW_WRITES` writes; an entry that has more by itself is
    /// forgotten too. It takes no memory. Each entry is forgotten once, so a push costs the same on
    /// average however long the history is.
    pub fn push(&mut self, entry: Entry)
        requires place { IsTrue self.old.is_reserved }
        requires next { entry.number ≡ last_number self.old + 1 }
        ensures pushed { self.new ≡ push self.old entry }
        ensures last { last_number self.new ≡ entry.number }
    {
        let writes = entry.writes.len();
        if writes <= WINDOW_WRITES {
            self.make_room(WINDOW_WRITES - writes);
            self.put_last(entry);
        } else {
            self.forget_all(entry);
        }
    }

    /// The number of the first entry that came after one of these reads and wrote a key of its
    /// range, or None where the reads still hold. It takes no memory.
    ///
    /// Aged comes exactly where the oldest read is below the start. Else only the entries after the
    /// oldest read are looked at, up to the one that conflicts: each of their writes against every
    /// read that is older than its entry, by its table first.
    pub fn first_conflict(&self, reads: &[Read]) -> Result<Option<u64>, Aged>
        ensures { result ≡ validated self.now.start self.now.entries reads.now }
    {
        match oldest_number(reads) {
            None => Ok(None),
            Some(oldest) if oldest < self.start => Err(Aged {
                oldest,
                start: self.start,
            }),
            Some(oldest) => {
                let place = (oldest - self.start) as usize;
                Ok(conflict_from(&self.entries, place, reads))
            }
        }
    }

    /// How many writes the entries have.
    fn writes(&self) -> usize
        ensures { result ≡ write_count self.now.entries }
    {
        self.writes
    }

    /// Forgets the oldest entries until the others have at most so many writes.
    fn make_room(&mut self, most: usize)
        ensures { self.new ≡ forget self.old (start_within most self.old.entries) }
    {
        while self.writes() > most {
            self.forget_first();
        }
    }

    /// Forgets the oldest entry.
    fn forget_first(&mut self)
        requires { 0 < length self.old.entries }
        ensures { self.new ≡ forget self.old 1 }
    {
        if let Some(entry) = self.entries.pop_front() {
            self.start = entry.number;
            self.writes -= entry.writes.len();
        }
    }

    /// Puts an entry for which there is room behind the last one.
    fn put_last(&mut self, entry: Entry)
        requires place { IsTrue self.old.is_reserved }
        requires next { entry.number ≡ last_number self.old + 1 }
        requires room { write_count self.old.entries + length entry.writes ≤ window_writes }
        ensures { self.new ≡ put_last self.old entry }
    {
        self.last = entry.number;
        self.writes += entry.writes.len();
        self.entries.push_back_reserved(entry);
        self.is_reserved = false;
    }

    /// Forgets all entries, and this one behind them.
    fn forget_all(&mut self, entry: Entry)
        requires { entry.number ≡ last_number self.old + 1 }
        ensures { self.new ≡ record {
          start = entry.number;
          entries = [];
          is_reserved = false;
        } }
    {
        self.start = entry.number;
        self.last = entry.number;
        self.entries.clear();
        self.writes = 0;
        self.is_reserved = false;
    }
}
