//! Predicates whose names are bound to places.
ghost use Rattle.std.specs.Prelude.{◌≡◌, IfOk};
ghost use Rattle.odb_eval.specs.Bound.{bound_filter, IsFilterOf, IsWhereOf};

use crate::Source;
use crate::joint::{Joint, joined};
use crate::source::operand_source;
use odb_catalog::TableDef;
use odb_model::{Compare, Predicate};
use sqlite_items::Boxed;
use std::alloc::{AllocError, Global};

/// A predicate whose names are bound to places of key and row.
#[derive(Debug)]
pub enum Filter {
    /// A comparison of two operands.
    Test {
        op: Compare,
        left: Source,
        right: Source,
    },
    /// `IS NULL`, or `IS NOT NULL` where it is negated.
    Null {
        source: Source,
        negated: bool,
    },
    /// True where the part is False.
    Not(Boxed<Filter>),
    /// False where a part is False, True where both are True.
    And(Boxed<Filter>, Boxed<Filter>),
    /// True where a part is True, False where both are False.
    Or(Boxed<Filter>, Boxed<Filter>),
}

/// A long chain of ANDs and ORs is deep on its left alone, where this goes by a loop.
impl Drop for Filter {
    fn drop(mut self) {
        loop {
            match self {
                Filter::Test {
                    op: _,
                    left: _left,
                    right: _right,
                } => return,
                Filter::Null {
                    source: _source,
                    negated: _,
                } => return,
                Filter::Not(f) => self = f.into_inner(),
                Filter::And(f, g) => {
                    drop(g.into_inner());
                    self = f.into_inner();
                }
                Filter::Or(f, g) => {
                    drop(g.into_inner());
                    self = f.into_inner();
                }
            }
        }
    }
}

impl Filter {
    /// Binds the names of a predicate to places of a table's keys and rows. A column that isn't
    /// there counts as Null.
    ///
    /// It goes over the predicate once, by a loop along its left, and takes memory for each of its
    /// parts. The error is want of memory.
    pub fn of(alloc: Global, table: &TableDef, predicate: &Predicate) -> Result<Filter, AllocError>
        ensures { IfOk result (IsFilterOf table.now predicate.now) }
    {
        bound_filter(alloc, table, predicate)
    }

    /// Binds the names of a WHERE, where there is one. The error is want of memory.
    pub fn of_where(
        alloc: Global,
        table: &TableDef,
        filter: &Option<Predicate>,
    ) -> Result<Option<Filter>, AllocError>
        ensures { IfOk result (IsWhereOf table.now filter.now) }
    {
        match filter {
            None => Ok(None),
            Some(predicate) => Ok(Some(Filter::of(alloc, table, predicate)?)),
        }
    }
}

/// A long chain of ANDs and ORs is deep on its left alone, where this goes by loops. It calls itself
/// for right parts.
fn bound_filter(
    alloc: Global,
    table: &TableDef,
    predicate: &Predicate,
) -> Result<Filter, AllocError>
    ensures { IfOk result (λ filter. filter ≡ bound_filter table.now predicate.now) }
{
    let mut joints = Vec::new(alloc);
    let mut part = predicate;
    loop {
        match part {
            Predicate::Test { op, left, right } => {
                let test = Filter::Test {
                    op: *op,
                    left: operand_source(alloc, table, left)?,
                    right: operand_source(alloc, table, right)?,
                };
                return joined(alloc, joints, test);
            }
            Predicate::Null { column, negated } => {
                let null = Filter::Null {
                    source: Source::of_column(table, column),
                    negated: *negated,
                };
                return joined(alloc, joints, null);
            }
            Predicate::Not(p) => {
                joints.push(Joint::Not)?;
                part = p.get();
            }
            Predicate::And(p, q) => {
                joints.push(Joint::And(bound_filter(alloc, table, q.get())?))?;
                part = p.get();
            }
            Predicate::Or(p, q) => {
                joints.push(Joint::Or(bound_filter(alloc, table, q.get())?))?;
                part = p.get();
            }
        }
    }
}
