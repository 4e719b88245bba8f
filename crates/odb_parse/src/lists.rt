//! Comma lists.
ghost use Rattle.odb_parse.specs.Reading.{Reader, ReadsAs, name};
ghost use Rattle.odb_parse.specs.Statements as statements;
ghost use Rattle.odb_parse.specs.Sums as sums;

use crate::ParseError;
use crate::statements::assignment;
use crate::sums::{literal, tuple};
use crate::tokens::Tokens;
use odb_model::{Assignment, Sign};
use odb_values::{Frozen, Text, Value, Values};
use std::alloc::Global;

/// What a comma list may have as its items.
pub trait ListItem {
    /// The reading function of one.
    ghost reader: { Reader Self };

    /// Reads one.
    fn read(alloc: Global, tokens: &mut Tokens<'_>) -> Result<Self, ParseError>
        ensures reads { ReadsAs reader tokens.old result tokens.new };
}

/// `item {, item}`
pub fn listed<T: ListItem + Drop>(
    alloc: Global,
    tokens: &mut Tokens<'_>,
) -> Result<Frozen<T>, ParseError>
    ensures reads { ReadsAs (sums.listed T.reader) tokens.old result tokens.new }
{
    let mut items = Vec::new(alloc);
    'more: loop {
        items.push(T::read(alloc, tokens)?)?;
        if !tokens.eat_sign(Sign::Comma)? {
            return Ok(Frozen::from_vec(items));
        }
    }
}

/// A name.
impl ListItem for Text {
    ghost reader = { name };

    fn read(alloc: Global, tokens: &mut Tokens<'_>) -> Result<Text, ParseError> {
        tokens.name(alloc)
    }
}

/// A literal.
impl ListItem for Value {
    ghost reader = { sums.literal };

    fn read(alloc: Global, tokens: &mut Tokens<'_>) -> Result<Value, ParseError> {
        literal(alloc, tokens)
    }
}

/// A tuple of an INSERT.
impl ListItem for Values {
    ghost reader = { sums.tuple };

    fn read(alloc: Global, tokens: &mut Tokens<'_>) -> Result<Values, ParseError> {
        tuple(alloc, tokens)
    }
}

impl ListItem for Assignment {
    ghost reader = { statements.assignment };

    fn read(alloc: Global, tokens: &mut Tokens<'_>) -> Result<Assignment, ParseError> {
        assignment(alloc, tokens)
    }
}
