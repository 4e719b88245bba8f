//! Texts of one statement.
ghost use Rattle.odb_parse.specs.Answering.{IsAnswerTo};
ghost use Rattle.odb_parse.specs.Reading.{Reads};
ghost use Rattle.odb_parse.specs.Statements as spec;

use crate::ParseError;
use crate::statements::statement;
use crate::tokens::Tokens;
use odb_lex::tokens_stand;
use odb_model::{Sign, Statement};
use std::alloc::Global;

/// The statement that a text spells, or the first refusal from the left.
///
/// It goes over the text once, in time linear in its bytes, and recurs no deeper than NOTs and
/// parentheses may stand inside one another, 64. It takes no memory but what the statement keeps.
pub fn parse(alloc: Global, text: &[u8]) -> Result<Statement, ParseError>
    ensures { IsAnswerTo text.now result }
{
    tokens_stand();
    let mut tokens = Tokens::new(text)?;
    whole(alloc, &mut tokens)
}

/// A statement, and the end of its text.
#[tactic(auto, unfolding(crate::specs::Statements::whole, crate::specs::Statements::end))]
fn whole(alloc: Global, tokens: &mut Tokens<'_>) -> Result<Statement, ParseError>
    ensures { Reads (spec.whole tokens.old) result tokens.new }
{
    let statement = statement(alloc, tokens)?;
    end(tokens)?;
    Ok(statement)
}

/// `[;]`, and nothing behind it
#[tactic(auto, unfolding(crate::specs::Statements::end))]
fn end(tokens: &mut Tokens<'_>) -> Result<(), ParseError>
    ensures { Reads (spec.end tokens.old) result tokens.new }
{
    tokens.eat_sign(Sign::Semicolon)?;
    tokens.finish()
}
