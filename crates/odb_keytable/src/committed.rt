//! The rows that stand committed.
ghost use Rattle.std.specs.Prelude.{◌≡◌, ◌+◌, ◌^◌, ◌<◌, ◌≤◌, OnOk, OnErr, reverse};
ghost use Rattle.std.specs.FinMap as map;
ghost use Rattle.odb_model.specs.State.{after_writes};
ghost use Rattle.odb_keytable.specs.Committed.{state_with, waiting_with};

use crate::{KeyTable, Pending, Placed, Rows, TableError};
use odb_model::{Entry, Write};
use std::alloc::Global;
use std::marker::Model;

/// The rows that stand after the entries of a history: a table, and the last entries where they
/// wait to be folded into it. Contracts see the state after all of the entries, and how many wait.
///
/// A commit adds its entry by `push`, which takes no memory and so can't fail once the commit is
/// durable. `settle` moves what waits into the table, before rows are read: no write is copied.
#[derive(Drop)]
pub struct CommittedRows {
    table: KeyTable,
    /// Where memory was missing in the midst of an entry, its writes that aren't in the table, the
    /// next one last.
    begun: Vec<Write>,
    pending: Pending,
}

impl Model for CommittedRows {
    ghost use Rattle.std.specs.Prelude.{◌<◌, ◌^◌};
    ghost use Rattle.odb_keytable.specs.Committed.{Committed, committed_code, state_with, waiting_with};

    ghost Value = { Committed };

    ghost coded = { committed_code };

    ghost view = { λ a. record {
      state = state_with a.table a.begun.items a.pending;
      waiting = waiting_with a.begun.items a.pending;
    } };

    ghost invariant = { λ a. waiting_with a.begun.items a.pending < 2 ^ 63 };
}

impl CommittedRows {
    /// The rows of the empty history, which are none. It takes no memory, and keeps the allocator.
    pub fn new(alloc: Global) -> CommittedRows
        ensures { result ≡ record { state = map.empty; waiting = 0 } }
    {
        CommittedRows {
            table: KeyTable::new(alloc),
            begun: Vec::new(alloc),
            pending: Pending::new(alloc),
        }
    }

    /// Adds the entry behind the last one. It takes no memory, and the same time whatever stands
    /// committed; the entry waits to be folded in.
    ///
    /// The condition bounds the count of entries that wait, which a history of fewer than 2^63
    /// keeps.
    pub fn push(&mut self, placed: Placed)
        requires { self.old.waiting + 1 < 2 ^ 63 }
        ensures { self.new ≡ record {
          state = after_writes self.old.state placed.writes;
          waiting = self.old.waiting + 1;
        } }
    {
        self.pending.push(placed);
    }

    /// How many entries wait to be folded in.
    pub fn waiting(&self) -> usize
        ensures { result ≡ self.now.waiting }
    {
        if self.begun.is_empty() {
            self.pending.len()
        } else {
            self.pending.len() + 1
        }
    }

    /// Folds the entries that wait into the table, in the time of a search for each of their
    /// writes. The error is want of memory: then some of them may wait still, and the state is the
    /// same.
    pub fn settle(&mut self, _alloc: Global) -> Result<(), TableError>
        ensures ok { OnOk result (self.new ≡ record { state = self.old.state; waiting = 0 }) }
        ensures err { OnErr result (self.new.state ≡ self.old.state) }
        ensures fewer { self.new.waiting ≤ self.old.waiting }
    {
        fold_pending(&mut self.table, &mut self.begun, &mut self.pending)
    }

    /// The rows as a source. The condition is met once [`CommittedRows::settle`] answered Ok, until
    /// the next `push`.
    pub fn rows(&self) -> Rows<'_>
        requires { self.now.waiting ≡ 0 }
        ensures { result.table.now ≡ self.now.state }
    {
        Rows::new(&self.table)
    }
}

/// Moves the writes that are left of an entry into a table, and then those of the entries that wait,
/// the first of them first.
fn fold_pending(
    table: &mut KeyTable,
    begun: &mut Vec<Write>,
    pending: &mut Pending,
) -> Result<(), TableError>
    ensures state { state_with table.new begun.new.items pending.new
        ≡ state_with table.old begun.old.items pending.old }
    ensures ok { OnOk result (waiting_with begun.new.items pending.new ≡ 0) }
    ensures fewer { waiting_with begun.new.items pending.new
        ≤ waiting_with begun.old.items pending.old }
{
    table.take_in(begun)?;
    while let Some(entry) = pending.take_first() {
        *begun = turned(entry);
        table.take_in(begun)?;
    }
    Ok(())
}

/// The writes of an entry, the last of them first.
fn turned(entry: Entry) -> Vec<Write>
    ensures { reverse result.items ≡ entry.writes }
{
    let Entry {
        number: _number,
        by: _by,
        writes,
    } = entry;
    let mut turned = writes.into_vec();
    turned.reverse();
    turned
}
