//! Images of keys, rows and entries: the bytes that stand for them where they are stored.
//! A call without `alloc` takes no memory.
#![tactic(auto)]

mod decode;
mod encode;
mod error;
mod fault;
mod laws;
mod number;
mod put;
mod value;
mod write;

pub use decode::{decode_entry, decode_key, decode_row};
pub use encode::{encode_entry, encode_key, encode_row};
pub use error::CodecError;
pub use laws::{measures_images, reads_images};
