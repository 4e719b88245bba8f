//! Rows over a pair, a record log and bare files on the store in memory, crashed behind any of its
//! calls and with any of them failing.
//!
//! A row has a store of its own, whose calls are numbered from 0. Each of its lines does something,
//! or says what is to be found; what follows is the whole of both.
//!
//! Numbers of calls (C): a decimal, `now` for how many were made so far, a name given by `mark`,
//! and each with `+` or `-` and a decimal behind it. Bytes (HEX) are pairs of hexadecimal digits,
//! and `nothing` where there are none.
//!
//! The store and file 0:
//!
//! - `store ROOM CALLS`: a store with so much room and so many places for calls; without it a row
//!   has 4194304 and 1024.
//! - `fill LENGTH HEX`: file 0 has so many bytes of this one; `at PLACE HEX` puts bytes over them,
//!   and `cut LENGTH` drops the rest.
//! - `first GATE NUMBER VALUE`, `second GATE NUMBER VALUE`: a place of a pair: the byte of its
//!   gate, the number, and the first byte of the value, whose others are 0.
//! - `fail C`: that call fails. `mark NAME`: the number of calls so far gets a name. `calls C`: so
//!   many were made.
//! - `write FILE PLACE HEX ANSWER`, `sync FILE ANSWER`, where the answer is `ok` or `failed`; `read
//!   FILE HEX`: a read gives just these bytes, or `failed`; `faults FILE NUMBER`.
//!
//! A pair in file 0, whose values are 40 times one byte:
//!
//! - `format VALUE ANSWER`, `put VALUE ANSWER`, `settle ANSWER`, where the answer is `ok` or
//!   `fault`.
//! - `opens FOUND`: opened from its bytes, it gives the value that begins with this byte, or `no
//!   open place`, `malformed` or `fault`.
//! - `keeps VALUE settled`, `keeps VALUE unsettled`: what the pair in memory says.
//!
//! A log in file 0, from byte 1,024 to the file's end, with the number 1 for its first record:
//!
//! - `payload NAME HEX`: a name for a payload. `log ANSWER`: opens the log.
//! - `add NAME ANSWER`: clears the tail, writes the body and opens the gate; `body NAME ANSWER`
//!   leaves the gate closed. The answer is the record's number (`ok` for `body`), `full NEED ROOM`
//!   or `fault`.
//! - `room NUMBER`, `next NUMBER`, `place NUMBER`: what the log in memory says.
//! - `holds NAME ..`: its list, as the definition gives it, as it is read record by record, and as
//!   it is read at once.
//!
//! Extents, slots and databank files in file 0: the lines that begin with `extents`, `slots`,
//! `bank` and `entry`, which the head of `odb_row_banks` tells.
//!
//! A crash: `crash CALLS PICK .. FOUND`. CALLS is a number of calls or a range as `0..6`. A pick
//! says what the ranges hold that weren't synced, in their order: `old`, `new`, `a5`, or digits
//! that are said over and over, 0 for what was there, 1 for what was written and 2 for bytes A5;
//! `*` is `old new a5 210 012`. What is found is `opens FOUND`, `holds NAME ..`, `leaves FILE HEX`,
//! or one of `extents FOUND`, `slots FOUND`, `bank FOUND`, `rows TABLE FOUND` and `stands yes`.
#![tactic(auto)]

mod bench;
mod crash;
mod files;
mod log;
mod pair;
mod runner;

pub use runner::DiskRunner;
