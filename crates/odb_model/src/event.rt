//! What is asked of the machine.
use crate::{Control, Statement};
use odb_values::Duplicate;
use std::alloc::{AllocError, Global};

/// One step that is asked of the machine.
#[derive(Debug, Drop)]
pub enum Event {
    /// A statement of a session from 1 to 64.
    Session { session: u32, statement: Statement },
    /// A step of upkeep.
    Control(Control),
}

impl Duplicate for Event {
    fn copy(&self, alloc: Global) -> Result<Event, AllocError> {
        match self {
            Event::Session { session, statement } => Ok(Event::Session {
                session: *session,
                statement: statement.copy(alloc)?,
            }),
            Event::Control(control) => Ok(Event::Control(*control)),
        }
    }
}
