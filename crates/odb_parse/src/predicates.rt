//! What a WHERE asks.
ghost use Rattle.std.specs.Prelude.{◌≡◌};
ghost use Rattle.odb_parse.specs.Reading.{ReadsAs};
ghost use Rattle.odb_parse.specs.Predicates as spec;

use crate::ParseError;
use crate::kind::Kind;
use crate::sums::operand;
use crate::tokens::Tokens;
use odb_model::{Compare, Keyword, Operand, Predicate, Sign};
use sqlite_items::Boxed;
use std::alloc::Global;

/// How many NOTs and opening parentheses stand inside one another at most.
const MOST_NESTED: u32 = 64;

/// `[WHERE pred]`
#[tactic(auto, unfolding(crate::specs::Predicates::filter))]
pub fn filter(alloc: Global, tokens: &mut Tokens<'_>) -> Result<Option<Predicate>, ParseError>
    ensures reads { ReadsAs spec.filter tokens.old result tokens.new }
{
    if tokens.eat_word(Keyword::Where)? {
        Ok(Some(predicate(alloc, tokens, MOST_NESTED)?))
    } else {
        Ok(None)
    }
}

/// `conjunction {OR conjunction}`, with room for so many NOTs and parentheses inside one another.
#[cycle(predicate)]
#[tactic(auto, unfolding(crate::specs::Predicates::predicate, crate::specs::Predicates::whole_of))]
fn predicate(alloc: Global, tokens: &mut Tokens<'_>, room: u32) -> Result<Predicate, ParseError>
    ensures reads { ReadsAs (spec.predicate room) tokens.old result tokens.new }
{
    let mut all = conjunction(alloc, tokens, room)?;
    'ors: while tokens.eat_word(Keyword::Or)? {
        let next = Boxed::new(alloc, conjunction(alloc, tokens, room)?)?;
        all = Predicate::Or(Boxed::new(alloc, all)?, next);
    }
    Ok(all)
}

/// `negation {AND negation}`
#[cycle(predicate)]
#[tactic(auto, unfolding(crate::specs::Predicates::conjunction, crate::specs::Predicates::conjunction_of))]
fn conjunction(alloc: Global, tokens: &mut Tokens<'_>, room: u32) -> Result<Predicate, ParseError>
    ensures reads { ReadsAs (spec.conjunction room) tokens.old result tokens.new }
{
    let mut all = negation(alloc, tokens, room)?;
    'ands: while tokens.eat_word(Keyword::And)? {
        let next = Boxed::new(alloc, negation(alloc, tokens, room)?)?;
        all = Predicate::And(Boxed::new(alloc, all)?, next);
    }
    Ok(all)
}

/// `NOT negation | ( pred ) | test`
#[cycle(predicate)]
#[tactic(auto, unfolding(crate::specs::Predicates::negation))]
fn negation(alloc: Global, tokens: &mut Tokens<'_>, room: u32) -> Result<Predicate, ParseError>
    ensures reads { ReadsAs (spec.negation room) tokens.old result tokens.new }
{
    if room == 0 {
        return test(alloc, tokens);
    }
    match tokens.peek() {
        Kind::Word(Keyword::Not) => {
            tokens.skip()?;
            let negated = negation(alloc, tokens, room - 1)?;
            Ok(Predicate::Not(Boxed::new(alloc, negated)?))
        }
        Kind::Symbol(Sign::Open) => {
            tokens.skip()?;
            let inner = predicate(alloc, tokens, room - 1)?;
            tokens.expect_sign(Sign::Close)?;
            Ok(inner)
        }
        _ => test(alloc, tokens),
    }
}

/// `operand (= | <> | < | <= | > | >=) operand | name IS [NOT] NULL`
#[tactic(auto, unfolding(crate::specs::Predicates::single_test))]
fn test(alloc: Global, tokens: &mut Tokens<'_>) -> Result<Predicate, ParseError>
    ensures reads { ReadsAs spec.single_test tokens.old result tokens.new }
{
    let left = operand(alloc, tokens)?;
    if tokens.sees_word(Keyword::Is) {
        return null_test(tokens, left);
    }
    let Some(op) = compares(tokens.peek()) else {
        return Err(tokens.refuse());
    };
    tokens.skip()?;
    let right = operand(alloc, tokens)?;
    Ok(Predicate::Test { op, left, right })
}

/// `name IS [NOT] NULL`, from IS on
#[tactic(auto, unfolding(crate::specs::Predicates::null_test))]
fn null_test(tokens: &mut Tokens<'_>, left: Operand) -> Result<Predicate, ParseError>
    ensures reads { ReadsAs (spec.null_test left) tokens.old result tokens.new }
{
    let Operand::Column(column) = left else {
        return Err(tokens.refuse());
    };
    tokens.skip()?;
    let negated = tokens.eat_word(Keyword::Not)?;
    tokens.expect_word(Keyword::Null)?;
    Ok(Predicate::Null { column, negated })
}

/// How a sign compares.
fn compares(kind: Kind) -> Option<Compare>
    ensures { result ≡ spec.compares kind }
{
    match kind {
        Kind::Symbol(Sign::Equal) => Some(Compare::Eq),
        Kind::Symbol(Sign::Unequal) => Some(Compare::Ne),
        Kind::Symbol(Sign::Less) => Some(Compare::Lt),
        Kind::Symbol(Sign::AtMost) => Some(Compare::Le),
        Kind::Symbol(Sign::Greater) => Some(Compare::Gt),
        Kind::Symbol(Sign::AtLeast) => Some(Compare::Ge),
        _ => None,
    }
}
