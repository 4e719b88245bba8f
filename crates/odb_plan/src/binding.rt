//! Statements with their names bound to places.
ghost use Rattle.std.specs.Prelude.{◌≡◌, IfOk, IfErr, IsSome};
ghost use Rattle.odb_model.specs.Table.{column_place};
ghost use Rattle.odb_model.specs.Binding.{binding_refusal};
ghost use Rattle.odb_plan.specs.Bound.{IsBound, IsRefused, HasParts, IsWhere, IsSetOf, AreSetsOf, HasColumns, IsBindingReply, IsErrorOf};

use crate::what::{BoundWhat, bound_what};
use crate::{PlanError, binding_refusal, range_of};
use odb_catalog::TableDef;
use odb_eval::{BoundExpression, Filter};
use odb_model::{Assignment, Predicate, Reply, Statement};
use odb_values::{Frozen, Range};
use std::alloc::{AllocError, Global};

/// A column, by its place in the table from 0, and the value that it is set to.
#[derive(Debug, Drop)]
pub struct Set {
    pub place: u32,
    pub value: BoundExpression,
}

/// What an UPDATE sets, in the order of its text.
pub type Sets = Frozen<Set>;

/// A statement on rows with its names bound to places of its table. Where the statement has no such
/// part, `what` is the number of rows, `sets` is empty, `filter` keeps each row and `range` is the
/// one that no WHERE reads. The tuples of an INSERT stay with the statement.
#[derive(Debug, Drop)]
pub struct BoundStatement {
    /// What a SELECT gives of the rows.
    pub what: BoundWhat,
    /// What an UPDATE sets.
    pub sets: Sets,
    /// Which rows the WHERE keeps.
    pub filter: Option<Filter>,
    /// The keys that the WHERE reads.
    pub range: Range,
}

/// Binds the assignments of an UPDATE. The error is want of memory.
fn bound_sets(alloc: Global, table: &TableDef, sets: &[Assignment]) -> Result<Sets, AllocError>
    requires { HasColumns table.now sets.now }
    ensures { IfOk result (AreSetsOf table.now sets.now) }
{
    let mut bound = Vec::new(alloc);
    for set in sets {
        bound.push(bound_set(alloc, table, set)?)?;
    }
    Ok(Frozen::from_vec(bound))
}

/// Binds an assignment. The error is want of memory.
fn bound_set(alloc: Global, table: &TableDef, set: &Assignment) -> Result<Set, AllocError>
    requires { IsSome (column_place table.now.columns set.now.column) }
    ensures { IfOk result (IsSetOf table.now set.now) }
{
    match table.column_place(&set.column) {
        Some(place) => {
            let value = BoundExpression::of(alloc, table, &set.value)?;
            Ok(Set { place, value })
        }
        None => unreachable!(),
    }
}

/// A statement with this WHERE, these assignments and this that is given of the rows. The error is
/// want of memory.
fn with_where(
    alloc: Global,
    table: &TableDef,
    what: BoundWhat,
    sets: Sets,
    filter: &Option<Predicate>,
) -> Result<BoundStatement, AllocError>
    ensures filter { IfOk result (IsWhere table.now filter.now) }
    ensures what { IfOk result (λ bound. bound.what ≡ what) }
    ensures sets { IfOk result (λ bound. bound.sets ≡ sets) }
{
    Ok(BoundStatement {
        what,
        sets,
        filter: Filter::of_where(alloc, table, filter)?,
        range: range_of(alloc, table, filter)?,
    })
}

/// Binds the parts of a statement that isn't refused. The error is want of memory.
fn bound_parts(
    alloc: Global,
    table: &TableDef,
    statement: &Statement,
) -> Result<BoundStatement, AllocError>
    requires { binding_refusal table.now statement.now ≡ None }
    ensures { IfOk result (HasParts table.now statement.now) }
{
    match statement {
        Statement::Select {
            what,
            table: _,
            filter,
        } => {
            let what = bound_what(alloc, table, what)?;
            with_where(alloc, table, what, Frozen::empty(alloc), filter)
        }
        Statement::Update {
            table: _,
            sets,
            filter,
        } => {
            let sets = bound_sets(alloc, table, sets.as_slice())?;
            with_where(alloc, table, BoundWhat::Count, sets, filter)
        }
        Statement::Delete { table: _, filter } => {
            with_where(alloc, table, BoundWhat::Count, Frozen::empty(alloc), filter)
        }
        _ => with_where(alloc, table, BoundWhat::Count, Frozen::empty(alloc), &None),
    }
}

/// The error of a statement that is refused so.
fn refused_by(reply: &Reply) -> PlanError
    requires { IsBindingReply reply.now }
    ensures { IsErrorOf reply.now result }
{
    match reply {
        Reply::NoColumn => PlanError::NoColumn,
        Reply::KindMismatch => PlanError::KindMismatch,
        Reply::KeyColumn => PlanError::KeyColumn,
        Reply::ColumnCount => PlanError::ColumnCount,
        _ => unreachable!(),
    }
}

/// Binds the names of a statement on rows to places of its table, or refuses it by its text and the
/// dictionary alone: its text is gone through from left to right, and the first refusal comes.
///
/// It goes over the statement a few times, and takes memory for its parts.
pub fn bind(
    alloc: Global,
    table: &TableDef,
    statement: &Statement,
) -> Result<BoundStatement, PlanError>
    ensures bound { IfOk result (IsBound table.now statement.now) }
    ensures refused { IfErr result (IsRefused table.now statement.now) }
{
    if let Some(reply) = binding_refusal(table, statement) {
        return Err(refused_by(&reply));
    }
    Ok(bound_parts(alloc, table, statement)?)
}
