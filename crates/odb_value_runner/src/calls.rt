//! Calls of the crates that lines are about, with no clause: what those crates promise is of no use
//! here, and would be among what is known in each function behind a call of theirs.
use crate::scene::FORMAT;
use odb_model::{Entry, Event, Head, Outcome, Reply, Statement, Write};
use odb_plain::execute;
use odb_play::{LineRefusal, event_of};
use odb_reply::print_reply;
use odb_row_values::LineError;
use odb_values::Bytes;
use std::alloc::{AllocError, Global};

/// The event of a line, or the refusal.
pub fn asked(alloc: Global, line: &[u8]) -> Result<Event, LineRefusal> {
    event_of(alloc, line)
}

/// The bytes of a reply.
pub fn replied(alloc: Global, head: Head, reply: &Reply) -> Result<Bytes, LineError> {
    match print_reply(alloc, head, reply) {
        Ok(bytes) => Ok(bytes),
        Err(_) => Err(LineError::Memory(AllocError)),
    }
}

/// What a statement does where a transaction has made its own writes on a history.
pub fn outcome(
    alloc: Global,
    statement: &Statement,
    history: &[Entry],
    write_set: &[Write],
) -> Result<Outcome, LineError> {
    Ok(execute(alloc, statement, history, write_set, FORMAT)?)
}
