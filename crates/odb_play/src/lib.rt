//! The lines of a script, the events that they ask for, and how a script is played.
//!
//! [`event_of`] reads one line: it gives the event that the line asks for, or the refusal that
//! answers it. [`LineRefusal`] says by which head and reply. [`play`] opens TRANSDB and answers all
//! lines of the host's input, each as one step of the system.
#![tactic(auto)]

mod bytes;
mod event;
mod front;
mod number;
mod opening;
mod player;
mod refusal;
mod script;

pub use event::event_of;
pub use front::{LONGEST_LINE, reads_fronts};
pub use refusal::LineRefusal;
pub use script::play;
