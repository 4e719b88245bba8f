//! Why a file or a text isn't read.

use std::alloc::AllocError;
use thiserror::Error;

/// Why a file has no rows that can be run. Lines are numbered from 1.
#[derive(Debug, Drop, Error)]
pub enum RowError {
    /// There is no memory for it.
    #[error("out of memory")]
    NoMemory,
    /// The bytes are no UTF-8 text.
    #[error("no UTF-8 text")]
    NotText,
    /// No line begins a row.
    #[error("no row")]
    NoRow,
    /// More than 2^20 lines, once each `for` is written out.
    #[error("too many lines")]
    TooLong,
    /// It belongs to no row.
    #[error("line {line}: before the first row")]
    OutsideRow { line: u64 },
    /// A row without a name.
    #[error("line {line}: a row without a name")]
    NoName { line: u64 },
    /// A row above has this name.
    #[error("line {line}: a name that another row has")]
    NameTwice { line: u64 },
    /// It begins with `for` and doesn't go on with a word and two numbers, as `i 1..64`.
    #[error("line {line}: no `for NAME FIRST..LAST`")]
    BadFor { line: u64 },
    /// An `end` of no `for`.
    #[error("line {line}: an `end` without a `for`")]
    EndAlone { line: u64 },
    /// A `for` without its `end`.
    #[error("line {line}: a `for` without an `end`")]
    NoEnd { line: u64 },
    /// A `for` inside two others.
    #[error("line {line}: a `for` inside two others")]
    TooDeep { line: u64 },
}

impl From<AllocError> for RowError {
    fn from(_error: AllocError) -> RowError {
        RowError::NoMemory
    }
}

/// Why a text stands for no bytes.
#[derive(Clone, Copy, Debug, PartialEq, Eq, Error)]
pub enum TextError {
    /// There is no memory for them.
    #[error("out of memory")]
    NoMemory,
    /// A `\` that doesn't begin `\\`, `\n`, `\r`, `\t` or `\x` with two hexadecimal digits.
    #[error("no escape")]
    BadEscape,
    /// Something else than pairs of hexadecimal digits with blanks between them.
    #[error("no pairs of hexadecimal digits")]
    BadHex,
}

impl From<AllocError> for TextError {
    fn from(_error: AllocError) -> TextError {
        TextError::NoMemory
    }
}
