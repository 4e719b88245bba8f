//! Why a text spells no statement.
use odb_lex::LexError;
use std::alloc::AllocError;
use thiserror::Error;

/// Why a text spells no statement. Places count bytes from 0 in the text.
#[derive(Clone, Copy, Debug, PartialEq, Eq, Error)]
pub enum ParseError {
    /// 1: a byte that can't stand there.
    #[error("the byte at {at} can't stand there")]
    BadCharacter { at: usize },
    /// 2: a quoted text without its last quote. The place is that of its first quote.
    #[error("the text at {at} has no end")]
    OpenText { at: usize },
    /// 3: a number above 9223372036854775808. The place is that of its first digit.
    #[error("the number at {at} is too large")]
    NumberTooWide { at: usize },
    /// 4: a token with which no statement goes on. The place is that of its first byte.
    #[error("no statement goes on with the token at {at}")]
    Unexpected { at: usize },
    /// 5: the text ends where a statement wants more.
    #[error("the statement wants more")]
    End,
    /// Memory ran out: what was read of the statement is dropped.
    #[error("out of memory")]
    NoMemory,
}

impl From<AllocError> for ParseError {
    ghost use Rattle.std.specs.Prelude.{◌≡◌};
    ghost use Rattle.odb_parse.specs.declared.error.ParseError.TheVariants.{NoMemory};

    ghost from_gives = { λ _ e. e ≡ NoMemory };

    fn from(_: AllocError) -> ParseError {
        ParseError::NoMemory
    }
}

impl<T: Drop> From<std::alloc::AllocFailed<T>> for ParseError {
    ghost use Rattle.std.specs.Prelude.{◌≡◌};
    ghost use Rattle.odb_parse.specs.declared.error.ParseError.TheVariants.{NoMemory};

    ghost from_gives = { λ _ e. e ≡ NoMemory };

    fn from(_: std::alloc::AllocFailed<T>) -> ParseError {
        ParseError::NoMemory
    }
}

impl From<LexError> for ParseError {
    ghost use Rattle.std.specs.Prelude.{◌≡◌};
    ghost use Rattle.odb_parse.specs.Error.{lex_refusal};

    ghost from_gives = { λ wrong e. e ≡ lex_refusal wrong };

    fn from(wrong: LexError) -> ParseError {
        match wrong {
            LexError::BadCharacter { at } => ParseError::BadCharacter { at },
            LexError::OpenText { at } => ParseError::OpenText { at },
            LexError::NumberTooWide { at } => ParseError::NumberTooWide { at },
        }
    }
}
