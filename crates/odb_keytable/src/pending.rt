//! Entries that wait to be folded into a table.
ghost use Rattle.std.specs.Prelude.{◌≡◌, ◌+◌, ◌^◌, ◌<◌, [], ◌∷◌, ◌++◌, length, drop, slice_get, IfOk};
ghost use Rattle.std.specs.Option.{option_copied};

use crate::TableError;
use odb_model::Entry;
use std::alloc::Global;
use std::collections::LinkedList;
use std::marker::Model;

/// Entries in their order, each in memory of its own, so that adding one takes none. Contracts see
/// the list.
#[derive(Drop)]
pub struct Pending {
    entries: LinkedList<Entry>,
}

impl Model for Pending {
    ghost use Rattle.std.specs.Prelude.{List};
    ghost use Rattle.odb_model.specs.declared.entry.Entry.{Entry};

    ghost Value = { List Entry };

    ghost view = { λ a. a.entries };
}

/// An entry with the memory that its place among pending entries takes. Contracts see the entry.
#[derive(Drop)]
pub struct Placed {
    entries: LinkedList<Entry>,
}

impl Model for Placed {
    ghost use Rattle.std.specs.Prelude.{◌≡◌, length};
    ghost use Rattle.odb_model.specs.declared.entry.Entry.{Entry};

    ghost Value = { Entry };

    ghost use Rattle.odb_keytable.specs.Pending.{only_entry};

    ghost view = { λ a. only_entry a.entries };

    ghost invariant = { λ a. length a.entries ≡ 1 };
}

impl Placed {
    /// The entry.
    pub fn entry(&self) -> &Entry
        ensures { result.now ≡ self.now }
    {
        self.entries.front().unwrap()
    }
}

impl Pending {
    /// No entry. It takes no memory, and keeps the allocator.
    pub fn new(alloc: Global) -> Pending
        ensures { result ≡ [] }
    {
        Pending {
            entries: LinkedList::new(alloc),
        }
    }

    /// Gives an entry the memory of its place. The error is want of memory.
    pub fn place(alloc: Global, entry: Entry) -> Result<Placed, TableError>
        ensures { IfOk result (λ placed. placed ≡ entry) }
    {
        let mut entries = LinkedList::new(alloc);
        match entries.push_back(entry) {
            Ok(()) => Ok(Placed { entries }),
            Err(_) => Err(TableError::NoMemory),
        }
    }

    /// Adds an entry behind the last one. It takes no memory, and the same time for each list.
    ///
    /// The condition bounds the count of entries, which a history of fewer than 2^63 keeps.
    pub fn push(&mut self, placed: Placed)
        requires { length self.old + 1 < 2 ^ 63 }
        ensures { self.new ≡ self.old ++ placed ∷ [] }
    {
        let Placed { mut entries } = placed;
        let _joined = self.entries.append(&mut entries);
    }

    /// How many entries there are.
    pub fn len(&self) -> usize
        ensures { result ≡ length self.now }
    {
        self.entries.len()
    }

    /// The first entry, which is folded next.
    pub fn first(&self) -> Option<&Entry>
        ensures { option_copied result ≡ slice_get self.now 0 }
    {
        self.entries.front()
    }

    /// Takes the first entry off, as once it is folded.
    pub fn take_first(&mut self) -> Option<Entry>
        ensures first { result ≡ slice_get self.old 0 }
        ensures rest { self.new ≡ drop 1 self.old }
    {
        self.entries.pop_front()
    }
}
