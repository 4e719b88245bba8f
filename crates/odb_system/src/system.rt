//! The machine: a book, the rows of its history, and the sessions; each statement is one step.
ghost use Rattle.std.specs.Prelude.{◌≡◌, ◌<◌, ◌-◌, replicate, None, IfOk, IsTrue, true};
ghost use Rattle.odb_device.specs.World.{World, file_of, present};
ghost use Rattle.odb_model.specs.Definitions.{IsSpelled, is_definition};
ghost use Rattle.odb_model.specs.Script.{IsSession};
ghost use Rattle.odb_system.specs.Held.{none_open};

use crate::SystemError;
use crate::carrying::carry_out;
use crate::defining::planned_writes;
use crate::executing::run_statement;
use crate::replies::{ends_transaction, turn_reply};
use crate::taking::rows_after;
use odb_commit::Book;
use odb_device::Host;
use odb_keytable::CommittedRows;
use odb_model::{Control, Entries, Event, Reply, SESSIONS, StateReply, Statement};
use odb_transdb::Transdb;
use odb_txn::Transaction;
use odb_validate::Window;
use odb_values::Frozen;
use std::alloc::{AllocError, Global};
use std::marker::Model;

/// How many entries a history may have: 2^48.
const MOST_ENTRIES: u64 = 281_474_976_710_656;

/// The book, which judges and seals commits; the rows of its history; and for each session its open
/// transaction.
///
/// The history isn't kept: its last entries are in the book's window, and all of it is in the log and
/// in what the rows are. Contracts see the book but for its reserved place, the sessions, and the
/// state that the rows are.
#[derive(Drop)]
pub struct System {
    /// The log of commits, which has each entry of the history, and the window of the last ones.
    book: Book,
    /// The rows of the history; the entries of the last commits may wait to be folded in.
    rows: CommittedRows,
    sessions: Vec<Option<Transaction>>,
}

impl Model for System {
    ghost use Rattle.std.specs.Prelude.{◌≤◌};
    ghost use Rattle.odb_commit.specs.Parts.{count};
    ghost use Rattle.odb_system.specs.Held.{Held, held_code, IsHeld, without_place};

    ghost Value = { Held };

    ghost coded = { held_code };

    ghost view = { λ a. record {
      book = without_place a.book;
      sessions = a.sessions.items;
      rows = a.rows.state;
    } };

    ghost invariant = { λ a. IsHeld (record {
      book = without_place a.book;
      sessions = a.sessions.items;
      rows = a.rows.state;
    }) × (a.rows.waiting ≤ count a.book) };
}

impl System {
    ghost use Rattle.odb_machine.specs.Machine.{Machine, first_machine};
    ghost use Rattle.odb_commit.specs.Standing.{sides_of};
    ghost use Rattle.odb_system.specs.Held.{session_at, Begins, HeldStarts, HeldRollsBack, HeldExecutes, HeldCommits, HeldDefines, HeldRuns, HeldTurns, state_held, HeldControls, StandsFor, IsAsked};
    ghost use Rattle.odb_system.specs.Durable.{IsDurable, ChangesLog};
    ghost use Rattle.odb_system.specs.Kept.{Rests, Stepped};

    /// The machine that begins with these entries, all that the log holds; all sessions are idle.
    /// It makes no call of a store, and finds the pair of the log settled. More than 2^48 entries are
    /// refused for memory. The entries are gone over once, with a search in the rows for
    /// each of their writes, and none of them is kept: the window begins behind them, since no
    /// session has read yet.
    pub fn start(alloc: Global, transdb: Transdb, entries: Entries) -> Result<System, SystemError>
        requires begins { Begins transdb entries }
        requires settled { transdb.pair.settled ≡ true }
        ensures stands { IfOk result
            (λ system. StandsFor system
            (first_machine transdb.header.format (sides_of transdb.header) entries)) }
        ensures log { IfOk result
            (λ system. (system.book.transdb ≡ transdb) × (system.book.halted ≡ None)) }
    {
        let count = entries.len() as u64;
        if count > MOST_ENTRIES {
            return Err(SystemError::NoMemory);
        }
        let rows = rows_after(alloc, entries)?;
        let sessions = idle_sessions(alloc)?;
        let window = Window::new(alloc, transdb.last());
        Ok(System {
            book: Book::new(alloc, transdb, window),
            rows,
            sessions,
        })
    }

    /// One step of the machine: the reply to a statement of a session, or to a control line, of which
    /// TURN and STATE are built. Want of memory is the reply `Memory`.
    ///
    /// A COMMIT that leaves writes, a CREATE TABLE and a DROP TABLE force a record: two syncs and three
    /// writes of file 0 where the log's tail is clear; behind a TURN that was answered FAULT the pair of
    /// file 0 is settled first, in three writes and three syncs at most. TURN puts the pair, in as many.
    /// At each moment a crash leaves the history before the step, or the one after it. No other
    /// statement makes a call of the host.
    ///
    /// A statement on rows costs what [`odb_exec::execute`] costs over an ordered map and the
    /// transaction's own writes: where its WHERE fixes the key one search of each, and for a range
    /// what lies in it. Before it, and before a definition, the entries of commits that no statement
    /// has followed are folded into the map, once each. A COMMIT costs a look at each entry since the
    /// transaction's oldest read, and memory for the net writes, a copy of them and the image of the
    /// entry. A definition costs what [`odb_catalog::plan_definition`] costs, and the same memory.
    /// ROLLBACK takes no memory. What is kept grows with the rows and the window, and not with the
    /// history.
    pub fn step<H: Host>(&mut self, alloc: Global, host: &mut H, event: &Event) -> Reply
        requires asked { IsAsked event.now }
        requires durable { IsDurable self.old (file_of 0 (H.world host.old)) }
        ensures step { (m : Machine) → StandsFor self.old m → Rests m (present (H.world host.old))
            → Stepped m event.now result self.new (H.world host.old) (H.world host.new) }
        ensures only { ChangesLog (H.world host.old) (H.world host.new) }
        ensures durable { IsDurable self.new (file_of 0 (H.world host.new)) }
    {
        match event {
            Event::Session { session, statement } => self.ask(alloc, host, *session, statement),
            Event::Control(line) => self.control(alloc, host, *line),
        }
    }

    /// A control line, of which TURN and STATE are built.
    fn control<H: Host>(&mut self, alloc: Global, host: &mut H, line: Control) -> Reply
        requires durable { IsDurable self.old (file_of 0 (H.world host.old)) }
        ensures controls { HeldControls self.old line result self.new
            (H.world host.old) (H.world host.new) }
    {
        match line {
            Control::Turn => self.turn(host),
            Control::State => self.state(alloc),
            _ => Reply::NotYet,
        }
    }

    /// STATE: the number of entries and what TRANSDB is at. It makes no call of the host and takes no
    /// memory.
    fn state(&self, alloc: Global) -> Reply
        ensures { result ≡ Reply.State (state_held self.now) }
    {
        let transdb = self.book.transdb();
        Reply::State(StateReply {
            number: self.book.count(),
            active: transdb.active(),
            other: transdb.other(),
            first: transdb.first(),
            log: None,
            copies: Frozen::empty(alloc),
        })
    }

    /// TURN. It takes no memory.
    fn turn<H: Host>(&mut self, host: &mut H) -> Reply
        requires durable { IsDurable self.old (file_of 0 (H.world host.old)) }
        ensures turns { HeldTurns self.old result self.new
            (H.world host.old) (H.world host.new) }
    {
        if let Some(number) = self.book.halted() {
            return Reply::Halted(number);
        }
        let next = self.book.count() + 1;
        let turned = self.book.turn(host);
        turn_reply(turned, self.book.transdb().active(), next)
    }

    /// A statement of this session.
    fn ask<H: Host>(
        &mut self,
        alloc: Global,
        host: &mut H,
        session: u32,
        statement: &Statement,
    ) -> Reply
        requires session { IsSession session }
        requires spelled { IsSpelled statement.now }
        requires durable { IsDurable self.old (file_of 0 (H.world host.old)) }
        ensures runs { HeldRuns self.old (session - 1) statement.now result self.new
            (H.world host.old) (H.world host.new) }
    {
        let at = session as usize - 1;
        match statement {
            Statement::Start => self.start_transaction(alloc, at),
            Statement::Commit => self.commit(alloc, host, at),
            Statement::Rollback => self.roll_back(at),
            Statement::Select {
                what: _,
                table: _,
                filter: _,
            } => self.execute(alloc, at, statement),
            Statement::Insert {
                table: _,
                tuples: _,
            } => self.execute(alloc, at, statement),
            Statement::Update {
                table: _,
                sets: _,
                filter: _,
            } => self.execute(alloc, at, statement),
            Statement::Delete {
                table: _,
                filter: _,
            } => self.execute(alloc, at, statement),
            Statement::CreateTable {
                name: _,
                columns: _,
                key: _,
                bank: _,
            } => self.define(alloc, host, at, statement),
            Statement::DropTable { name: _ } => self.define(alloc, host, at, statement),
            _ => Reply::NotYet,
        }
    }

    fn start_transaction(&mut self, alloc: Global, at: usize) -> Reply
        requires { at < SESSIONS }
        ensures { (w : World)
            → HeldStarts self.old at (session_at self.old at) result self.new w w }
    {
        if self.sessions[at].is_some() {
            return Reply::InTransaction;
        }
        self.sessions[at] = Some(Transaction::new(alloc, at as u32 + 1));
        Reply::Okay
    }

    /// ROLLBACK. It takes no memory.
    fn roll_back(&mut self, at: usize) -> Reply
        requires { at < SESSIONS }
        ensures { (w : World)
            → HeldRollsBack self.old at (session_at self.old at) result self.new w w }
    {
        if self.sessions[at].is_none() {
            return Reply::NoTransaction;
        }
        self.sessions[at] = None;
        Reply::Okay
    }

    /// A statement on rows.
    fn execute(&mut self, alloc: Global, at: usize, statement: &Statement) -> Reply
        requires { at < SESSIONS }
        ensures { (w : World) → HeldExecutes self.old at statement.now (session_at self.old at)
            result self.new w w }
    {
        let number = self.book.count();
        let format = self.book.transdb().format();
        let Some(transaction) = &mut self.sessions[at] else {
            return Reply::NoTransaction;
        };
        match run_statement(
            alloc,
            &mut self.rows,
            transaction,
            statement,
            number,
            format,
        ) {
            Ok(reply) => reply,
            Err(_) => Reply::Memory,
        }
    }

    /// COMMIT: the book judges the transaction, and seals its entry where it leaves writes.
    fn commit<H: Host>(&mut self, alloc: Global, host: &mut H, at: usize) -> Reply
        requires place { at < SESSIONS }
        requires durable { IsDurable self.old (file_of 0 (H.world host.old)) }
        ensures { HeldCommits self.old at (session_at self.old at) result self.new
            (H.world host.old) (H.world host.new) }
    {
        let Some(transaction) = &self.sessions[at] else {
            return Reply::NoTransaction;
        };
        let prepared = self.book.prepare(alloc, transaction);
        let reply = carry_out(&mut self.book, &mut self.rows, alloc, host, prepared);
        if ends_transaction(&reply) {
            self.sessions[at] = None;
        }
        reply
    }

    /// CREATE TABLE or DROP TABLE: one commit step, of a session that is in no transaction.
    fn define<H: Host>(
        &mut self,
        alloc: Global,
        host: &mut H,
        at: usize,
        statement: &Statement,
    ) -> Reply
        requires place { at < SESSIONS }
        requires definition { IsTrue (is_definition statement.now) }
        requires spelled { IsSpelled statement.now }
        requires durable { IsDurable self.old (file_of 0 (H.world host.old)) }
        ensures { HeldDefines self.old at statement.now (session_at self.old at) result self.new
            (H.world host.old) (H.world host.new) }
    {
        if self.sessions[at].is_some() {
            return Reply::InTransaction;
        }
        if let Some(number) = self.book.halted() {
            return Reply::Halted(number);
        }
        let writes = match planned_writes(alloc, &mut self.rows, statement) {
            Ok(writes) => writes,
            Err(reply) => return reply,
        };
        let prepared = self.book.prepare_writes(alloc, at as u32 + 1, writes);
        carry_out(&mut self.book, &mut self.rows, alloc, host, prepared)
    }
}

/// The sessions, all of them idle.
fn idle_sessions(alloc: Global) -> Result<Vec<Option<Transaction>>, AllocError>
    ensures { IfOk result (λ sessions. sessions.items ≡ replicate SESSIONS none_open) }
{
    let mut sessions = Vec::with_capacity(alloc, SESSIONS as usize)?;
    for _session in 0..SESSIONS {
        sessions.push(None)?;
    }
    Ok(sessions)
}
