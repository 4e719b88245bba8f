//! What a parser chooses by.
use odb_model::{Keyword, Sign};

/// What stands next in a text, as far as a parser chooses by it.
#[derive(Clone, Copy, Debug, PartialEq, Eq)]
pub enum Kind {
    /// No token.
    Nothing,
    Word(Keyword),
    Name,
    Number,
    Quoted,
    Symbol(Sign),
}
