//! What the rows of scripts say: the words of their lines, a script with the replies that are
//! wanted, and what replies are compared with: those, the canonical text of a statement, and the
//! transactions of the script run alone.
//!
//! A line of a row that says a part of a script is one of these:
//!
//! - `words WORD ..`, `word TEXT`: the words of the command line, which are `play` alone unless it
//!   is said; one word more.
//! - `fail CALL`: this call on the host fails, counted from 0 in the play; it may stand again.
//! - `< TEXT`, `<| TEXT`, `<* COUNT TEXT`: a line of the script; a text without LF; a text so many
//!   times without LF.
//! - `> TEXT`, `>..`: a line that is said; any number of lines up to the next one that is wanted,
//!   or to the end. `>| TEXT` and `>* COUNT TEXT` are for a text without LF.
//!
//! A row stops with [`Stop`]: at a line that doesn't hold or can't be read, or for want of memory.
#![tactic(auto)]

mod canonical;
mod line;
mod replies;
mod script;
mod serial;
mod stop;

pub use line::Line;
pub use replies::Wanted;
pub use script::Script;
pub use stop::{Stop, wrong};
