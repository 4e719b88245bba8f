//! The bytes that answer a line of a script.
//!
//! [`print_reply`] gives what `reply_text` of `odb_model` says, byte by byte: a line for each row
//! of a SELECT, and one line that says how the statement ended.
#![tactic(auto)]

mod error;
mod print;
mod state;
mod values;

pub use error::ReplyError;
pub use print::print_reply;
