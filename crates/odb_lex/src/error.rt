//! Why no token stands at a place.
use thiserror::Error;

/// Why no token stands at a place. Places count bytes from 0 in the text.
#[derive(Clone, Copy, Debug, PartialEq, Eq, Error)]
pub enum LexError {
    /// 1: a byte that can't stand there: one that begins no token, the 33rd byte of a name, or in a
    /// quoted text a control byte other than tab, the first byte of an ill-formed UTF-8 sequence,
    /// or the 801st byte of the value.
    #[error("the byte at {at} can't stand there")]
    BadCharacter { at: usize },
    /// 2: a quoted text without its last quote, and with no wrong byte. The place is that of its
    /// first quote.
    #[error("the text at {at} has no end")]
    OpenText { at: usize },
    /// 3: a number above 9223372036854775808. The place is that of its first digit.
    #[error("the number at {at} is too large")]
    NumberTooWide { at: usize },
}
