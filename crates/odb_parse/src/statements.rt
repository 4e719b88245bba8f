//! Statements on rows, and those that begin and end a transaction.
ghost use Rattle.odb_parse.specs.Reading.{ReadsAs};
ghost use Rattle.odb_parse.specs.Statements as spec;

use crate::ParseError;
use crate::definitions::{alter, create, drop_object, restore, set_object};
use crate::kind::Kind;
use crate::lists::listed;
use crate::predicates::filter;
use crate::sums::expression;
use crate::tokens::Tokens;
use odb_model::{Assignment, Keyword, Sign, Statement, What};
use std::alloc::Global;

/// A statement, up to its `;`.
#[tactic(auto, unfolding(crate::specs::Statements::statement))]
pub fn statement(alloc: Global, tokens: &mut Tokens<'_>) -> Result<Statement, ParseError>
    ensures reads { ReadsAs spec.statement tokens.old result tokens.new }
{
    let Kind::Word(word) = tokens.peek() else {
        return Err(tokens.refuse());
    };
    match word {
        Keyword::Start => alone(tokens, Statement::Start),
        Keyword::Commit => alone(tokens, Statement::Commit),
        Keyword::Rollback => alone(tokens, Statement::Rollback),
        Keyword::Select => select(alloc, tokens),
        Keyword::Insert => insert(alloc, tokens),
        Keyword::Update => update(alloc, tokens),
        Keyword::Delete => delete(alloc, tokens),
        Keyword::Create => create(alloc, tokens),
        Keyword::Drop => drop_object(alloc, tokens),
        Keyword::Set => set_object(alloc, tokens),
        Keyword::Alter => alter(alloc, tokens),
        Keyword::Restore => restore(alloc, tokens),
        _ => Err(tokens.refuse()),
    }
}

/// A statement of one word, which stands next.
fn alone(tokens: &mut Tokens<'_>, statement: Statement) -> Result<Statement, ParseError>
    ensures reads { ReadsAs (spec.alone statement) tokens.old result tokens.new }
{
    tokens.skip()?;
    Ok(statement)
}

/// `SELECT what FROM name filter`, where SELECT stands next
#[tactic(auto, unfolding(crate::specs::Statements::select))]
fn select(alloc: Global, tokens: &mut Tokens<'_>) -> Result<Statement, ParseError>
    ensures reads { ReadsAs spec.select tokens.old result tokens.new }
{
    tokens.skip()?;
    let what = what(alloc, tokens)?;
    tokens.expect_word(Keyword::From)?;
    let table = tokens.name(alloc)?;
    let filter = filter(alloc, tokens)?;
    Ok(Statement::Select {
        what,
        table,
        filter,
    })
}

/// `* | name {, name} | COUNT ( * ) | SUM ( name )`
#[tactic(auto, unfolding(crate::specs::Statements::what))]
fn what(alloc: Global, tokens: &mut Tokens<'_>) -> Result<What, ParseError>
    ensures reads { ReadsAs spec.what tokens.old result tokens.new }
{
    match tokens.peek() {
        Kind::Symbol(Sign::Star) => {
            tokens.skip()?;
            Ok(What::All)
        }
        Kind::Word(Keyword::Count) => {
            tokens.skip()?;
            tokens.expect_sign(Sign::Open)?;
            tokens.expect_sign(Sign::Star)?;
            tokens.expect_sign(Sign::Close)?;
            Ok(What::Count)
        }
        Kind::Word(Keyword::Sum) => {
            tokens.skip()?;
            tokens.expect_sign(Sign::Open)?;
            let column = tokens.name(alloc)?;
            tokens.expect_sign(Sign::Close)?;
            Ok(What::Sum(column))
        }
        _ => Ok(What::Columns(listed(alloc, tokens)?)),
    }
}

/// `INSERT INTO name VALUES tuple {, tuple}`, where INSERT stands next
#[tactic(auto, unfolding(crate::specs::Statements::insert))]
fn insert(alloc: Global, tokens: &mut Tokens<'_>) -> Result<Statement, ParseError>
    ensures reads { ReadsAs spec.insert tokens.old result tokens.new }
{
    tokens.skip()?;
    tokens.expect_word(Keyword::Into)?;
    let table = tokens.name(alloc)?;
    tokens.expect_word(Keyword::Values)?;
    let tuples = listed(alloc, tokens)?;
    Ok(Statement::Insert { table, tuples })
}

/// `UPDATE name SET set {, set} filter`, where UPDATE stands next
#[tactic(auto, unfolding(crate::specs::Statements::update))]
fn update(alloc: Global, tokens: &mut Tokens<'_>) -> Result<Statement, ParseError>
    ensures reads { ReadsAs spec.update tokens.old result tokens.new }
{
    tokens.skip()?;
    let table = tokens.name(alloc)?;
    tokens.expect_word(Keyword::Set)?;
    let sets = listed(alloc, tokens)?;
    let filter = filter(alloc, tokens)?;
    Ok(Statement::Update {
        table,
        sets,
        filter,
    })
}

/// `name = expr`
#[tactic(auto, unfolding(crate::specs::Statements::assignment))]
pub fn assignment(alloc: Global, tokens: &mut Tokens<'_>) -> Result<Assignment, ParseError>
    ensures reads { ReadsAs spec.assignment tokens.old result tokens.new }
{
    let column = tokens.name(alloc)?;
    tokens.expect_sign(Sign::Equal)?;
    let value = expression(alloc, tokens)?;
    Ok(Assignment { column, value })
}

/// `DELETE FROM name filter`, where DELETE stands next
#[tactic(auto, unfolding(crate::specs::Statements::delete))]
fn delete(alloc: Global, tokens: &mut Tokens<'_>) -> Result<Statement, ParseError>
    ensures reads { ReadsAs spec.delete tokens.old result tokens.new }
{
    tokens.skip()?;
    tokens.expect_word(Keyword::From)?;
    let table = tokens.name(alloc)?;
    let filter = filter(alloc, tokens)?;
    Ok(Statement::Delete { table, filter })
}
