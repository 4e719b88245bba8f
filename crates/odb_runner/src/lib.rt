//! Rows of whole scripts: each is played through `odb_tool::run` over a host in memory, and
//! compared with what it says.
//!
//! A row has plays, one after another over the same files. A play's lines come in this order: what
//! is there before it, the script with its replies, and what holds then. The first line of the last
//! kind has the play made, and so has the end of the row.
//!
//! What is there before:
//!
//! - `room KIB`: how large all files, all writes and all replies may be, 1,024 KiB unless it is
//!   said. It forgets all files.
//! - `create KIB`: file 0 is a new database with sides of so many KiB.
//! - `with NAME`: the files are those that the row NAME kept, which stands above it.
//! - `put FILE AT HEX`, `cut FILE LENGTH`, `no FILE`: bytes are put over those of a file, it is
//!   cut, it is empty.
//!
//! The script with its replies, the words of the command line and the calls that fail stand in
//! lines of which `odb_row_scripts` tells the forms.
//!
//! What holds then:
//!
//! - `status NUMBER`, `status TEXT`: how the play ended.
//! - `calls COUNT`: how many calls on the host were made.
//! - `bytes FILE AT HEX`, `bytes FILE AT HEX ..`: what a file has from a place to its end; or first
//!   from there on.
//! - `same FILE`: the file has the bytes that it had before the play.
//! - `opens LAST`, `opens none`, `opens damaged AT`: what file 0 opens to, by its last entry; or
//!   that it is refused.
//! - `read FROM COUNT`: so many entries are read again from a number on.
//! - `crash FIRST..LAST PICK .. opens ..`: what a crash behind so many calls leaves file 0 to open
//!   to. One number may stand for both, and the last may be left out. A pick says what ranges that
//!   weren't synced hold: `old`, `new`, `a5`, and `210` and `012`, which go over the ranges by
//!   turns (a5, new, old; old, new, a5); `*` is each of these.
//! - `keep`: later rows may begin with the files that are there now.
//! - `next`, `next crash CALLS PICK`: another play begins, over the files as they are; or as a
//!   crash leaves them.
//!
//! In the place of a play there may stand, behind the script and its replies:
//!
//! - `canonical`: the script is one statement, and the replies are its canonical text, which is its
//!   own.
//! - `alone`: the replies are taken for said, and compared with the transactions run alone behind
//!   the entries of file 0.
//!
//! Beside what a row says, each COMMITTED and ENDED that a play answers is compared with the
//! transaction run alone at its place.
#![tactic(auto)]

mod crashes;
mod found;
mod machine;
mod outcome;
mod play;
mod runner;
mod setup;

pub use runner::ScriptRunner;
