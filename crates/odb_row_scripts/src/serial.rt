//! Committed transactions compared with the plain execution of their statements alone.

use crate::replies::first_line;
use crate::stop::{Stop, wrong};
use odb_model::{Entry, Event, Head, Reply, Statement, Write, Writes};
use odb_plain::{SerialRun, alone};
use odb_play::event_of;
use odb_reply::print_reply;
use odb_rowfile::number_of;
use odb_values::Same;
use std::alloc::{AllocError, Global};

/// The format of the databases that are played.
const FORMAT: u16 = 1;

/// A transaction that is open: the lines of its statements that ran, and what was said to them.
#[derive(Drop)]
struct Transaction {
    session: u32,
    lines: Vec<u8>,
    said: Vec<u8>,
}

/// What a statement is to the transaction that it stands in.
#[derive(Clone, Copy)]
enum Part {
    /// It begins the transaction.
    Start,
    /// It ends the transaction.
    Commit,
    /// It ends the transaction without a trace.
    Rollback,
    /// It runs in the transaction.
    Inside,
}

/// Transactions, as a script and its replies tell them.
#[derive(Drop)]
struct Sessions<'a> {
    /// The row's line that has the play made.
    line: u64,
    /// The entries of the history, from number 1 on.
    entries: &'a [Entry],
    open: Vec<Transaction>,
    compared: u64,
}

/// Compares each COMMITTED and each ENDED that was said with the transaction run alone at its
/// place, and answers how many there were.
///
/// Alone it has to get the replies that it got. What it leaves written has to be the entry of that
/// number, or nothing.
pub(crate) fn compare_alone(
    alloc: Global,
    line: u64,
    script: &[u8],
    said: &[u8],
    entries: &[Entry],
) -> Result<u64, Stop> {
    let mut sessions = Sessions {
        line,
        entries,
        open: Vec::new(alloc),
        compared: 0,
    };
    let mut lines = script;
    let mut replies = said;
    for _ in 0..script.len() {
        if lines.is_empty() || replies.is_empty() {
            break;
        }
        let (first, later) = first_line(lines);
        let (reply, others) = first_reply(replies);
        sessions.answered(alloc, first, reply)?;
        lines = later;
        replies = others;
    }
    Ok(sessions.compared)
}

/// The first reply, and what follows it.
///
/// A reply is one line, but for two: any number of rows with the line behind them, and what STATE
/// tells, which begins with the number of entries and ends with the log and the files.
fn first_reply(said: &[u8]) -> (&[u8], &[u8]) {
    let mut rest = said;
    for _ in 0..said.len() {
        let (first, later) = first_line(rest);
        rest = later;
        if !goes_on(first, later) {
            break;
        }
    }
    said.split_at(said.len().saturating_sub(rest.len()))
}

/// Whether the reply that this line stands in goes on behind it.
fn goes_on(line: &[u8], later: &[u8]) -> bool {
    let text = after_head(line);
    let next = after_head(first_line(later).0);
    text.starts_with(b"ROW ")
        || text.starts_with(b"NUMBER ")
        || next.starts_with(b"LOGDB ")
        || next.starts_with(b"FILE ")
}

/// What follows the head of a reply and its space.
fn after_head(reply: &[u8]) -> &[u8] {
    match reply.iter().position(|byte| *byte == b' ') {
        Some(at) => reply.split_at(at + 1).1,
        None => b"",
    }
}

/// A line as it is read: without its LF and one CR before that.
fn without_end(line: &[u8]) -> &[u8] {
    match line {
        [text @ .., b'\r', b'\n'] | [text @ .., b'\n'] => text,
        _ => line,
    }
}

/// The number behind this word, where the text of a reply is just that.
fn number_behind(text: &[u8], word: &[u8]) -> Option<u64> {
    let digits = text.strip_prefix(word)?.strip_suffix(b"\n")?;
    number_of(str::from_utf8(digits).ok()?)
}

impl Sessions<'_> {
    /// A line of the script, and the reply to it.
    fn answered(&mut self, alloc: Global, line: &[u8], reply: &[u8]) -> Result<(), Stop> {
        match part_of(alloc, line) {
            Some((session, Part::Start)) => self.started(alloc, session, after_head(reply)),
            Some((session, Part::Commit)) => self.ended(alloc, session, after_head(reply)),
            Some((session, Part::Rollback)) => {
                self.rolled_back(alloc, session, after_head(reply))
            }
            Some((session, Part::Inside)) => Ok(self.asked(session, line, reply)?),
            None => Ok(()),
        }
    }

    /// That the play isn't serial.
    fn wrong(&self, alloc: Global, why: &str) -> Stop {
        wrong(alloc, self.line, why)
    }

    /// The place of a session's transaction among those that are open.
    fn place_of(&self, session: u32) -> Option<usize> {
        self.open.iter().position(|one| one.session == session)
    }

    fn started(&mut self, alloc: Global, session: u32, text: &[u8]) -> Result<(), Stop> {
        if text != b"OK\n".as_slice() {
            return Ok(());
        }
        let transaction = Transaction {
            session,
            lines: Vec::new(alloc),
            said: Vec::new(alloc),
        };
        self.open.push(transaction).map_err(AllocError::from)?;
        Ok(())
    }

    /// A statement that ran in a session's transaction, with its reply.
    fn asked(&mut self, session: u32, line: &[u8], reply: &[u8]) -> Result<(), AllocError> {
        if after_head(reply) == b"REFUSED MEMORY\n".as_slice() {
            return Ok(());
        }
        let Some(at) = self.place_of(session) else {
            return Ok(());
        };
        if let Some(transaction) = self.open.get_mut(at) {
            transaction.lines.extend_from_slice(line)?;
            transaction.said.extend_from_slice(reply)?;
        }
        Ok(())
    }

    /// The reply to COMMIT.
    fn ended(&mut self, alloc: Global, session: u32, text: &[u8]) -> Result<(), Stop> {
        let committed = number_behind(text, b"COMMITTED ");
        let ended = number_behind(text, b"ENDED ");
        let is_over = text.starts_with(b"REFUSED CONFLICT ")
            || text.starts_with(b"REFUSED AGED ")
            || text.starts_with(b"INDOUBT ");
        if committed.is_none() && ended.is_none() && !is_over {
            return Ok(());
        }
        let Some(at) = self.place_of(session) else {
            return Err(self.wrong(alloc, "a COMMIT of no transaction is answered"));
        };
        if self.open.len() <= at {
            return Ok(());
        }
        let transaction = self.open.swap_remove(at);
        self.compare(alloc, &transaction, committed, ended)
    }

    /// The reply to ROLLBACK.
    fn rolled_back(&mut self, alloc: Global, session: u32, text: &[u8]) -> Result<(), Stop> {
        if text != b"OK\n".as_slice() {
            return Ok(());
        }
        let Some(at) = self.place_of(session) else {
            return Err(self.wrong(alloc, "a ROLLBACK of no transaction is answered"));
        };
        if at < self.open.len() {
            let _over = self.open.swap_remove(at);
        }
        Ok(())
    }

    /// The transaction was answered COMMITTED or ENDED with such a number, or is over without one.
    fn compare(
        &mut self,
        alloc: Global,
        transaction: &Transaction,
        committed: Option<u64>,
        ended: Option<u64>,
    ) -> Result<(), Stop> {
        match (committed, ended) {
            (Some(number), _) => self.compare_committed(alloc, transaction, number),
            (None, Some(number)) => self.compare_ended(alloc, transaction, number),
            (None, None) => Ok(()),
        }
    }

    /// The transaction was answered COMMITTED with this number.
    fn compare_committed(
        &mut self,
        alloc: Global,
        transaction: &Transaction,
        number: u64,
    ) -> Result<(), Stop> {
        let before = usize::try_from(number.saturating_sub(1)).unwrap_or(usize::MAX);
        let Some((history, [entry, ..])) = self.entries.split_at_checked(before) else {
            return Err(self.wrong(alloc, "a COMMITTED has no entry"));
        };
        let net = self.run_alone(alloc, transaction, history)?;
        self.compare_entry(alloc, transaction, number, entry, net.as_slice())
    }

    /// The entry of a transaction has its number, its session and these writes.
    fn compare_entry(
        &mut self,
        alloc: Global,
        transaction: &Transaction,
        number: u64,
        entry: &Entry,
        net: &[Write],
    ) -> Result<(), Stop> {
        if entry.number != number || entry.by != transaction.session {
            return Err(self.wrong(alloc, "a COMMITTED has another entry"));
        }
        if !are_same(net, entry.writes.as_slice()) {
            return Err(self.wrong(alloc, "alone, its writes aren't those of its entry"));
        }
        self.compared = self.compared.saturating_add(1);
        Ok(())
    }

    /// The transaction was answered ENDED with this number.
    fn compare_ended(
        &mut self,
        alloc: Global,
        transaction: &Transaction,
        number: u64,
    ) -> Result<(), Stop> {
        let before = usize::try_from(number).unwrap_or(usize::MAX);
        let Some((history, _)) = self.entries.split_at_checked(before) else {
            return Err(self.wrong(alloc, "an ENDED has no place"));
        };
        let net = self.run_alone(alloc, transaction, history)?;
        if !net.is_empty() {
            return Err(self.wrong(alloc, "alone, one that was ENDED writes something"));
        }
        self.compared = self.compared.saturating_add(1);
        Ok(())
    }

    /// What the transaction leaves written where it runs alone behind these entries, if it gets the
    /// replies then that it got.
    fn run_alone(
        &self,
        alloc: Global,
        transaction: &Transaction,
        history: &[Entry],
    ) -> Result<Writes, Stop> {
        let statements = statements_of(alloc, transaction.lines.as_slice())?;
        let SerialRun { replies, net } = ran_alone(alloc, statements.as_slice(), history)?;
        self.compare_said(alloc, transaction, replies.as_slice())?;
        Ok(net)
    }

    /// These replies were said to the transaction.
    fn compare_said(
        &self,
        alloc: Global,
        transaction: &Transaction,
        replies: &[Reply],
    ) -> Result<(), Stop> {
        let said = printed(alloc, transaction.session, replies)?;
        if said.as_slice() != transaction.said.as_slice() {
            return Err(self.wrong(alloc, "alone, a transaction gets other replies"));
        }
        Ok(())
    }
}

/// What statements answer and leave, run alone. It has no clause, so that none is known of what is
/// made of it.
fn ran_alone(
    alloc: Global,
    statements: &[Statement],
    history: &[Entry],
) -> Result<SerialRun, AllocError> {
    alone(alloc, statements, history, FORMAT)
}

/// The session of a line, and what its statement is to a transaction.
///
/// None where it spells none that runs.
fn part_of(alloc: Global, line: &[u8]) -> Option<(u32, Part)> {
    match asked(alloc, line) {
        Some(event) => part_in(&event),
        None => None,
    }
}

/// The event of a line. It has no clause, so that none is known of what is made of it.
fn asked(alloc: Global, line: &[u8]) -> Option<Event> {
    match event_of(alloc, without_end(line)) {
        Ok(event) => Some(event),
        Err(_) => None,
    }
}

fn part_in(event: &Event) -> Option<(u32, Part)> {
    match event {
        Event::Session { session, statement } => Some((*session, part_by(statement)?)),
        Event::Control(_) => None,
    }
}

fn part_by(statement: &Statement) -> Option<Part> {
    match statement {
        Statement::Start => Some(Part::Start),
        Statement::Commit => Some(Part::Commit),
        Statement::Rollback => Some(Part::Rollback),
        Statement::Select { .. }
        | Statement::Insert { .. }
        | Statement::Update { .. }
        | Statement::Delete { .. } => Some(Part::Inside),
        _ => None,
    }
}

/// The statement of a line.
fn statement_of(alloc: Global, line: &[u8]) -> Option<Statement> {
    match asked(alloc, line) {
        Some(event) => statement_in(event),
        None => None,
    }
}

fn statement_in(event: Event) -> Option<Statement> {
    match event {
        Event::Session {
            session: _,
            statement,
        } => Some(statement),
        Event::Control(_) => None,
    }
}

/// The statements of a transaction's lines.
fn statements_of(alloc: Global, lines: &[u8]) -> Result<Vec<Statement>, AllocError> {
    let mut statements = Vec::new(alloc);
    let mut rest = lines;
    for _ in 0..lines.len() {
        if rest.is_empty() {
            break;
        }
        let (first, later) = first_line(rest);
        rest = later;
        if let Some(statement) = statement_of(alloc, first) {
            statements.push(statement)?;
        }
    }
    Ok(statements)
}

/// The texts of replies to a session, one after another.
fn printed(alloc: Global, session: u32, replies: &[Reply]) -> Result<Vec<u8>, Stop> {
    let mut text = Vec::new(alloc);
    for reply in replies {
        put_reply(alloc, &mut text, session, reply)?;
    }
    Ok(text)
}

fn put_reply(alloc: Global, text: &mut Vec<u8>, session: u32, reply: &Reply) -> Result<(), Stop> {
    let bytes = print_reply(alloc, Head::Session(session), reply)?;
    Ok(text.extend_from_slice(bytes.as_slice())?)
}

/// The writes are the same, in the same order.
fn are_same(some: &[Write], others: &[Write]) -> bool {
    some.len() == others.len()
        && some
            .iter()
            .zip(others)
            .all(|(one, other)| is_same(one, other))
}

fn is_same(one: &Write, other: &Write) -> bool {
    if one.bank != other.bank || one.table != other.table || !one.key.same(&other.key) {
        return false;
    }
    match (&one.row, &other.row) {
        (Some(one), Some(other)) => one.same(other),
        (None, None) => true,
        _ => false,
    }
}
