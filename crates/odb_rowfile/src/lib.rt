//! Row files: text files of worked rows, which a runner of the row's own kind runs and this library
//! counts.
//!
//! A file has a line for each thing that is said. Blanks at the front of a line are passed over;
//! what begins with `#`, and an empty line, says nothing. `row NAME` begins a row, and `wrong row
//! NAME` one that has to be found wrong; a name is unique in its file. Each other line belongs to
//! the row above it, and the runner reads it. `for i 1..64` repeats the lines up to its `end` with
//! each number from the first to the last, in whose place they say `{i}`; one `for` may stand
//! inside another.
#![tactic(auto)]

mod error;
mod expanding;
mod program;
mod reading;
mod running;
mod words;

pub use error::{RowError, TextError};
pub use program::run_program;
pub use reading::{Row, RowLine, read_rows};
pub use running::{RowRunner, Verdict, run_file};
pub use words::{bytes_of_hex, number_of, split_word, unescape};
