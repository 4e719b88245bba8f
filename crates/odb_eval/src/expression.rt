//! Expressions whose names are bound to places.
ghost use Rattle.std.specs.Prelude.{◌≡◌, IfOk, map};
ghost use Rattle.odb_eval.specs.Bound.{bound_term, bound_expression, IsExpressionOf};

use crate::Source;
use crate::source::operand_source;
use odb_catalog::TableDef;
use odb_model::{Expression, Term};
use odb_values::Frozen;
use std::alloc::{AllocError, Global};

/// A bound operand with the `+` or `-` before it.
#[derive(Debug, Drop)]
pub struct BoundTerm {
    pub minus: bool,
    pub source: Source,
}

/// What follows the first operand of a bound sum.
pub type BoundTerms = Frozen<BoundTerm>;

/// A bound operand, and what is added to it or taken from it, from left to right.
#[derive(Debug, Drop)]
pub struct BoundExpression {
    pub first: Source,
    pub rest: BoundTerms,
}

impl BoundExpression {
    /// Binds the names of an expression to places of a table's keys and rows. A column that isn't
    /// there counts as Null. It takes memory for each operand; the error is want of it.
    pub fn of(
        alloc: Global,
        table: &TableDef,
        expression: &Expression,
    ) -> Result<BoundExpression, AllocError>
        ensures { IfOk result (IsExpressionOf table.now expression.now) }
    {
        bound_expression(alloc, table, expression)
    }
}

fn bound_expression(
    alloc: Global,
    table: &TableDef,
    expression: &Expression,
) -> Result<BoundExpression, AllocError>
    ensures { IfOk result (λ bound. bound ≡ bound_expression table.now expression.now) }
{
    Ok(BoundExpression {
        first: operand_source(alloc, table, &expression.first)?,
        rest: bound_terms(alloc, table, expression.rest.as_slice())?,
    })
}

fn bound_terms(alloc: Global, table: &TableDef, terms: &[Term]) -> Result<BoundTerms, AllocError>
    ensures { IfOk result (λ bound. bound ≡ map (bound_term table.now) terms.now) }
{
    let mut bound = Vec::new(alloc);
    for term in terms {
        bound.push(BoundTerm {
            minus: term.minus,
            source: operand_source(alloc, table, &term.operand)?,
        })?;
    }
    Ok(Frozen::from_vec(bound))
}
