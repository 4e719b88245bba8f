//! An open transaction.
ghost use Rattle.std.specs.Prelude.{◌≡◌, OnOk, OnErr, IfOk};
ghost use Rattle.odb_model.specs.Intentions.{intended};
ghost use Rattle.odb_model.specs.Script.{IsSession};
ghost use Rattle.odb_model.specs.Storable.{IsStorableList};
ghost use Rattle.odb_model.specs.Window.{oldest_number};
ghost use Rattle.odb_txn.specs.Transaction.{IsKept, nothing_kept, kept_with, CanBeKept, writes_found_rows};

use crate::{ReadSet, TxnError};
use odb_model::{Outcome, Statement, Writes};
use odb_rowsource::Intentions;
use std::alloc::Global;
use std::marker::Model;

/// What is kept of an open transaction: the session that runs it, the ranges that its statements
/// read, and what it intends for each row that it wrote. The statements themselves and their
/// replies aren't kept, nor any but the last write to a row.
#[derive(Debug, Drop)]
pub struct Transaction {
    session: u32,
    reads: ReadSet,
    own: Intentions,
}

impl Model for Transaction {
    ghost use Rattle.odb_txn.specs.Transaction.{Kept, IsKept};

    ghost Value = { Kept };

    ghost view = { λ a. record {
      session = a.session;
      reads = a.reads.items;
      own = a.own.items;
    } };

    ghost invariant = { λ a. IsKept (record {
      session = a.session;
      reads = a.reads.items;
      own = a.own.items;
    }) };
}

impl Transaction {
    /// A transaction of a session from 1 to 64 that has done nothing yet. It takes no memory, and
    /// keeps the allocator.
    pub fn new(alloc: Global, session: u32) -> Transaction
        requires { IsSession session }
        ensures { result ≡ nothing_kept session }
    {
        Transaction {
            session,
            reads: ReadSet::new(alloc),
            own: Intentions::new(alloc),
        }
    }

    /// The session that runs it, from 1 to 64.
    pub fn session(&self) -> u32
        ensures value { result ≡ self.now.session }
        ensures always { IsSession result }
    {
        self.session
    }

    /// Adds what a statement read and wrote where the history had so many entries, also of one that
    /// was refused, which has read too.
    ///
    /// The condition is met by each outcome of a statement of the transaction, since a statement
    /// that writes is refused before it breaks it. All memory is taken first: an `Err` is want of
    /// memory, and nothing is added. Beside that it costs a search in the reads for each range and
    /// one in the intentions for each write, and moves those behind a new one by one place. A range
    /// that was read before is not kept twice, so a transaction that reads the same again and again
    /// doesn't grow.
    pub fn add(
        &mut self,
        statement: &Statement,
        outcome: Outcome,
        number: u64,
    ) -> Result<(), TxnError>
        requires { CanBeKept self.old statement.now outcome }
        ensures ok { OnOk result (self.new ≡ kept_with self.old statement.now outcome number) }
        ensures err { OnErr result (self.new ≡ self.old) }
    {
        self.reads.reserve(outcome.reads.len())?;
        self.own.reserve(outcome.writes.len())?;
        let Outcome {
            reply: _reply,
            writes,
            reads,
        } = outcome;
        self.reads.put_all(reads, number);
        self.own.put_all(writes, writes_found_rows(statement));
        Ok(())
    }

    /// The ranges read.
    pub fn reads(&self) -> &ReadSet
        ensures { result.now.items ≡ self.now.reads }
    {
        &self.reads
    }

    /// What it intends for each row that it wrote: what lies over the committed rows for its own
    /// statements.
    pub fn own(&self) -> &Intentions
        ensures value { result.now.items ≡ self.now.own }
        ensures always { IsKept self.now }
    {
        &self.own
    }

    /// Copies of the writes that a commit would put into the history, in ascending order of table
    /// and key: the last write to each row, but for a row that wasn't there before the first write
    /// to it and isn't to be there. Where there are some, they can be stored as one entry. The
    /// error is want of memory.
    pub fn net_writes(&self, alloc: Global) -> Result<Writes, TxnError>
        ensures writes { IfOk result (λ writes. writes ≡ intended self.now.own) }
        ensures storable { IfOk result IsStorableList }
    {
        Ok(self.own.net_writes(alloc)?)
    }

    /// The least number of entries that the history had when a range was read, or None where none
    /// was: what decides whether the reads are too old to be judged.
    pub fn oldest(&self) -> Option<u64>
        ensures { result ≡ oldest_number self.now.reads }
    {
        self.reads.oldest()
    }
}

/// Whether a statement writes rows that are there before it: an INSERT doesn't, an UPDATE or a
/// DELETE does.
fn writes_found_rows(statement: &Statement) -> bool
    ensures { result ≡ writes_found_rows statement.now }
{
    !matches!(statement, Statement::Insert { .. })
}
