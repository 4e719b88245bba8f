//! Literals, operands, sums and tuples.
ghost use Rattle.std.specs.Prelude.{◌≡◌, ◌≤◌, pos, neg_ℤ};
ghost use Rattle.odb_parse.specs.Reading.{ReadsAs};
ghost use Rattle.odb_parse.specs.Sums as spec;

use crate::ParseError;
use crate::kind::Kind;
use crate::lists::listed;
use crate::tokens::Tokens;
use odb_model::{Expression, Keyword, Operand, Sign, Term};
use odb_values::{Frozen, Value, Values};
use std::alloc::Global;

/// The greatest number without a `-` before it.
pub const GREATEST: u64 = 9_223_372_036_854_775_807;

/// `[-] number | text | NULL`
#[tactic(auto, unfolding(crate::specs::Sums::literal))]
pub fn literal(alloc: Global, tokens: &mut Tokens<'_>) -> Result<Value, ParseError>
    ensures reads { ReadsAs spec.literal tokens.old result tokens.new }
{
    match tokens.peek() {
        Kind::Symbol(Sign::Minus) => {
            tokens.skip()?;
            Ok(Value::Int(negated(tokens.number(GREATEST + 1)?)))
        }
        Kind::Number => Ok(Value::Int(tokens.number(GREATEST)? as i64)),
        Kind::Quoted => Ok(Value::Text(tokens.quoted(alloc)?)),
        _ => {
            tokens.expect_word(Keyword::Null)?;
            Ok(Value::Null)
        }
    }
}

/// The number below 0 by this one.
fn negated(number: u64) -> i64
    requires { number ≤ 9223372036854775808 }
    ensures { result ≡ neg_ℤ (pos number) }
{
    match i64::try_from(number) {
        Ok(number) => -number,
        Err(_) => i64::MIN,
    }
}

/// `name | literal`
#[tactic(auto, unfolding(crate::specs::Sums::operand))]
pub fn operand(alloc: Global, tokens: &mut Tokens<'_>) -> Result<Operand, ParseError>
    ensures reads { ReadsAs spec.operand tokens.old result tokens.new }
{
    match tokens.peek() {
        Kind::Name => Ok(Operand::Column(tokens.name(alloc)?)),
        _ => Ok(Operand::Literal(literal(alloc, tokens)?)),
    }
}

/// Whether a `+` (false) or a `-` (true) goes on with a sum.
fn adds(kind: Kind) -> Option<bool>
    ensures { result ≡ spec.adds kind }
{
    match kind {
        Kind::Symbol(Sign::Plus) => Some(false),
        Kind::Symbol(Sign::Minus) => Some(true),
        _ => None,
    }
}

/// `{(+ | -) operand}`
fn terms(alloc: Global, tokens: &mut Tokens<'_>) -> Result<Frozen<Term>, ParseError>
    ensures reads { ReadsAs spec.terms tokens.old result tokens.new }
{
    let mut terms = Vec::new(alloc);
    'more: while let Some(minus) = adds(tokens.peek()) {
        tokens.skip()?;
        let operand = operand(alloc, tokens)?;
        terms.push(Term { minus, operand })?;
    }
    Ok(Frozen::from_vec(terms))
}

/// `operand {(+ | -) operand}`
#[tactic(auto, unfolding(crate::specs::Sums::expression))]
pub fn expression(alloc: Global, tokens: &mut Tokens<'_>) -> Result<Expression, ParseError>
    ensures reads { ReadsAs spec.expression tokens.old result tokens.new }
{
    let first = operand(alloc, tokens)?;
    let rest = terms(alloc, tokens)?;
    Ok(Expression { first, rest })
}

/// `( literal {, literal} )`
#[tactic(auto, unfolding(crate::specs::Sums::tuple))]
pub fn tuple(alloc: Global, tokens: &mut Tokens<'_>) -> Result<Values, ParseError>
    ensures reads { ReadsAs spec.tuple tokens.old result tokens.new }
{
    tokens.expect_sign(Sign::Open)?;
    let values = listed(alloc, tokens)?;
    tokens.expect_sign(Sign::Close)?;
    Ok(values)
}
