//! What lines of rows spell, how values and statements are told, and the lines that are about
//! nothing else: texts of statements, tokens, texts, and keys in their order.
//!
//! A function that is named `.._line` puts what the line of that kind gives behind what is told.
//! Want of memory is [`LineError::Memory`]; what can't be read is [`LineError::Unreadable`].
#![tactic(auto)]

mod calls;
mod error;
mod order;
mod parts;
mod statements;
mod telling;
mod tokens;
mod values;

pub use calls::parsed;
pub use error::LineError;
pub use order::{ascending_line, compare_line, keyed_line, range_line, text_line};
pub use parts::{Parts, answer, bytes_of, hex_of, part, parts_of, push, put};
pub use statements::{parse_line, put_bytes, put_canonical, tell_line, worded_line};
pub use tokens::{meaning_line, tokens_line};
pub use values::{key_of, number_in, range_in, tell_tuple, tell_value, tuples_of, values_of};
