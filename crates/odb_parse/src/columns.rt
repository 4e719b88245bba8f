//! The columns of a CREATE TABLE.
ghost use Rattle.odb_parse.specs.Reading.{ReadsAs};
ghost use Rattle.odb_parse.specs.Statements as spec;

use crate::ParseError;
use crate::sums::GREATEST;
use crate::tokens::Tokens;
use odb_model::{ColumnText, ColumnTexts, Keyword, Sign};
use odb_values::Frozen;
use std::alloc::Global;

/// `column {, column} , PRIMARY`
pub fn columns(alloc: Global, tokens: &mut Tokens<'_>) -> Result<ColumnTexts, ParseError>
    ensures reads { ReadsAs spec.columns tokens.old result tokens.new }
{
    let mut columns = Vec::new(alloc);
    'more: loop {
        columns.push(column(alloc, tokens)?)?;
        tokens.expect_sign(Sign::Comma)?;
        if tokens.eat_word(Keyword::Primary)? {
            return Ok(Frozen::from_vec(columns));
        }
    }
}

/// `name (INTEGER | VARCHAR ( number )) [NOT NULL]`
#[tactic(auto, unfolding(crate::specs::Statements::column))]
fn column(alloc: Global, tokens: &mut Tokens<'_>) -> Result<ColumnText, ParseError>
    ensures reads { ReadsAs spec.column tokens.old result tokens.new }
{
    let name = tokens.name(alloc)?;
    let length = column_length(tokens)?;
    let not_null = not_null(tokens)?;
    Ok(ColumnText {
        name,
        length,
        not_null,
    })
}

/// `INTEGER | VARCHAR ( number )`
#[tactic(auto, unfolding(crate::specs::Statements::column_length))]
fn column_length(tokens: &mut Tokens<'_>) -> Result<Option<u64>, ParseError>
    ensures reads { ReadsAs spec.column_length tokens.old result tokens.new }
{
    if tokens.sees_word(Keyword::Varchar) {
        tokens.skip()?;
        tokens.expect_sign(Sign::Open)?;
        let most = tokens.number(GREATEST)?;
        tokens.expect_sign(Sign::Close)?;
        return Ok(Some(most));
    }
    tokens.expect_word(Keyword::Integer)?;
    Ok(None)
}

/// `[NOT NULL]`
#[tactic(auto, unfolding(crate::specs::Statements::not_null))]
fn not_null(tokens: &mut Tokens<'_>) -> Result<bool, ParseError>
    ensures reads { ReadsAs spec.not_null tokens.old result tokens.new }
{
    if !tokens.eat_word(Keyword::Not)? {
        return Ok(false);
    }
    tokens.expect_word(Keyword::Null)?;
    Ok(true)
}
