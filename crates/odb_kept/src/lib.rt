//! What a crash leaves of many files, as a machine asks it of each: at each moment of a step, and
//! by the replies said at each moment of a run.
//!
//! No machine is named. The words take what a machine asks of the file with a number, `kept m`,
//! and of an answer the machine after it and its text; how a step wins its claim on the one file
//! that it writes is left to whoever writes it. The laws about them are the contracts of the
//! functions here, for machines whose asking is decided.
#![tactic(auto)]

mod laws;

pub use laws::{keeps_along, keeps_by_step};
