//! The steps of the script, and the line of each.
ghost use Rattle.std.specs.Prelude.{◌≡◌, ◌+◌, ◌<◌, ◌≤◌, ℕ, string_bytes, IfOk};
ghost use Rattle.odb_lex.specs.Written.{Appends};
ghost use Rattle.odb_generate.specs.Script.{taken_from, added_to, less_by_key, more_by_key, insert_line, first_row};
ghost use Rattle.odb_generate.specs.Steps.{line_of, steps_of};

use std::alloc::{AllocError, Global};

/// A step of the script, whose line depends on the round alone.
#[derive(Clone, Copy, Debug, PartialEq, Eq)]
pub(crate) enum Step {
    /// A session begins a transaction.
    Start(u32),
    /// Session 1 inserts the first rows.
    Insert,
    /// A session takes 1 from a value.
    Less(u32),
    /// A session adds 1 to a value.
    More(u32),
    /// A session commits.
    Commit(u32),
    /// LOGDB takes over entries.
    Log,
    /// The three steps of a turn on a file.
    Bodies(u32),
    Gates(u32),
    Mark(u32),
    /// The sides of TRANSDB are turned, and the other one is emptied.
    Turn,
    Clean,
    /// Session 1 asks for the sum of all values.
    Sum,
}

/// Before the first round.
pub(crate) static OPENING: [Step; 3] = [Step::Start(1), Step::Insert, Step::Commit(1)];

/// Behind the last round.
pub(crate) static CLOSING: [Step; 3] = [Step::Start(1), Step::Sum, Step::Commit(1)];

/// A tenth round.
static TENTH: [Step; 24] = [
    Step::Start(1),
    Step::Start(2),
    Step::Start(3),
    Step::Less(1),
    Step::Less(2),
    Step::Less(3),
    Step::More(1),
    Step::More(2),
    Step::More(3),
    Step::Commit(1),
    Step::Commit(2),
    Step::Commit(3),
    Step::Log,
    Step::Bodies(2),
    Step::Gates(2),
    Step::Mark(2),
    Step::Bodies(3),
    Step::Gates(3),
    Step::Mark(3),
    Step::Bodies(4),
    Step::Gates(4),
    Step::Mark(4),
    Step::Turn,
    Step::Clean,
];

/// Any other round: without the last two steps of a tenth one.
static OTHER: [Step; 22] = [
    Step::Start(1),
    Step::Start(2),
    Step::Start(3),
    Step::Less(1),
    Step::Less(2),
    Step::Less(3),
    Step::More(1),
    Step::More(2),
    Step::More(3),
    Step::Commit(1),
    Step::Commit(2),
    Step::Commit(3),
    Step::Log,
    Step::Bodies(2),
    Step::Gates(2),
    Step::Mark(2),
    Step::Bodies(3),
    Step::Gates(3),
    Step::Mark(3),
    Step::Bodies(4),
    Step::Gates(4),
    Step::Mark(4),
];

/// The steps of a round.
pub(crate) fn steps_of(round: u32) -> &'static [Step]
    ensures { result.now ≡ steps_of round }
{
    if round % 10 == 0 {
        TENTH.as_slice()
    } else {
        OTHER.as_slice()
    }
}

impl Step {
    /// The line of the step in a round, without an end of line. The error is want of memory.
    pub(crate) fn line(self, alloc: Global, round: u32) -> Result<String, AllocError>
        ensures { IfOk result (λ line. string_bytes line ≡ line_of round self) }
    {
        match self {
            Step::Start(session) => format!(in alloc; "{session} START"),
            Step::Insert => insert_line(alloc),
            Step::Less(session) => less_line(alloc, session, taken_from(round, session)),
            Step::More(session) => more_line(alloc, session, added_to(round, session)),
            Step::Commit(session) => format!(in alloc; "{session} COMMIT"),
            Step::Log => format!(in alloc; "! LOG"),
            Step::Bodies(file) => format!(in alloc; "! APPLY {file} BODIES"),
            Step::Gates(file) => format!(in alloc; "! APPLY {file} GATES"),
            Step::Mark(file) => format!(in alloc; "! APPLY {file} MARK"),
            Step::Turn => format!(in alloc; "! TURN"),
            Step::Clean => format!(in alloc; "! CLEAN"),
            Step::Sum => format!(in alloc; "1 SELECT SUM(V) FROM KV"),
        }
    }
}

/// The key from whose value a session takes 1 in a round.
fn taken_from(round: u32, session: u32) -> u64
    ensures { result ≡ taken_from round session }
{
    (7 * u64::from(round) + 3 * u64::from(session)) % 100
}

/// The key to whose value a session adds 1 in a round.
fn added_to(round: u32, session: u32) -> u64
    ensures { result ≡ added_to round session }
{
    (11 * u64::from(round) + 5 * u64::from(session) + 1) % 100
}

/// A session takes 1 from the value of a key.
fn less_line(alloc: Global, session: u32, key: u64) -> Result<String, AllocError>
    ensures { IfOk result (λ line. string_bytes line ≡ less_by_key session key) }
{
    let mut line = format!(in alloc; "{session} UPDATE KV SET V = V - 1 WHERE K = ")?;
    write!(line, "{key}")?;
    Ok(line)
}

/// A session adds 1 to the value of a key.
fn more_line(alloc: Global, session: u32, key: u64) -> Result<String, AllocError>
    ensures { IfOk result (λ line. string_bytes line ≡ more_by_key session key) }
{
    let mut line = format!(in alloc; "{session} UPDATE KV SET V = V + 1 WHERE K = ")?;
    write!(line, "{key}")?;
    Ok(line)
}

/// The insert of the first rows.
fn insert_line(alloc: Global) -> Result<String, AllocError>
    ensures { IfOk result (λ line. string_bytes line ≡ insert_line) }
{
    let mut line = String::from_str(alloc, "1 INSERT INTO KV VALUES ")?;
    for key in 0..100 {
        put_row(&mut line, key)?;
    }
    Ok(line)
}

/// The row of a key, behind a comma but for the first.
fn put_row(out: &mut String, key: u32) -> Result<(), AllocError>
    ensures { Appends result out.old out.new (first_row key) }
{
    out.push_str(if key == 0 { "(" } else { ", (" })?;
    write!(out, "{key},100)")
}
