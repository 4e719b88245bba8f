//! Calls of the crates that lines are about, with no clause: what those crates promise is of no use
//! here, and would be among what is known in each function behind a call of theirs.
use crate::error::LineError;
use odb_model::Statement;
use odb_parse::{ParseError, parse};
use odb_print::print_statement;
use odb_values::Bytes;
use std::alloc::{AllocError, Global};

/// The statement of a text, or the refusal.
pub fn parsed(alloc: Global, text: &[u8]) -> Result<Statement, ParseError> {
    parse(alloc, text)
}

/// The canonical text of a statement. The error is want of memory.
pub(crate) fn printed(alloc: Global, statement: &Statement) -> Result<Bytes, LineError> {
    match print_statement(alloc, statement) {
        Ok(text) => Ok(text),
        Err(_) => Err(LineError::Memory(AllocError)),
    }
}
