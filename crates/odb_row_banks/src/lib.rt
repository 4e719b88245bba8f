//! Lines of rows about extents, slots and databank files, all in file 0 of the store of a row.
//!
//! Each line puts what it gives behind what is told, and answers what it wants. BYTE is a decimal
//! below 256, HEX pairs of hexadecimal digits without blanks or `nothing`, KEY and ROW are tuples
//! of values without blanks as `(1,'a')` or `()`. A call that fails gives `fault`.
//!
//! Extents, whose fields are 36 times one byte:
//!
//! - `extents format MOST BYTE ANSWER`, `extents grow ANSWER`, `extents put BYTE ANSWER`, where the
//!   answer is `ok` or `limit`.
//! - `extents open MOST FOUND`: the limit and the byte, `no open place` or `malformed`.
//! - `extents keeps FOUND`: the limit and the byte that memory keeps.
//!
//! Slots, where a record is told as `SLOT KIND TABLE STAMP HEX HEX`, with the images of its key and
//! its row:
//!
//! - `slots read SLOT FOUND`: the record, `none` or `malformed SLOT`. `slots scan LIMIT FOUND`: the
//!   records, parted by `; `, `none` or `malformed SLOT`.
//! - `slots body SLOT KIND TABLE STAMP HEX HEX ANSWER`: puts the body of a record. `slots open
//!   SLOTS ANSWER`, `slots close SLOTS ANSWER`: opens or closes the gates of slots that are parted
//!   by commas. The answer is `ok`.
//!
//! A databank file:
//!
//! - `entry NUMBER put BANK TABLE KEY ROW`, `entry NUMBER delete BANK TABLE KEY`: a write of an
//!   entry of the history, behind those that the history has; they have to ascend in table and key.
//! - `bank format BANK MARK ANSWER`, where the answer is `ok`.
//! - `bank open BANK NUMBER FOUND`: opened for that databank and a history with so many entries, it
//!   has the mark of `mark MARK`, or it is `damaged AT`.
//! - `bank gates ANSWER`, `bank mark ANSWER`: `ok` and the mark that is put, or `phase NAME`, where
//!   the name is `idle`, `bodies` or `gates`. `bank is NAME MARK REACHED`: what memory keeps.
//! - `bank get TABLE KEY FOUND`: a row or `none`. `bank next TABLE KEY LOW HIGH AFTER FOUND`: the
//!   least key of a range behind the key AFTER, or `none`; an edge is as `>=3`, `<7` or `*`, and
//!   AFTER may be `*`. `bank rows TABLE FOUND`: each key with its row, parted by `; `, or `none`.
//!
//! What a crash leaves is told by `extents FOUND`, by `slots FOUND`, and, opened for the databank
//! in memory and the number of the last entry, by `bank FOUND`, `rows TABLE FOUND` and `stands
//! yes`. For the last one the file is compared with the history, gone over plainly: each key that
//! it writes has the row of its last write up to the file's mark, or that of a later one.
#![tactic(auto)]

mod banks;
mod calls;
mod extents;
mod history;
mod reading;
mod slots;
mod standing;
mod telling;

pub use banks::Banks;
pub use standing::Left;
