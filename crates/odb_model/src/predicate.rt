//! Comparisons and what is made of them: what a WHERE asks of a row.
use crate::joint::{Joint, joined};
use odb_values::{Duplicate, Text, Value};
use sqlite_items::Boxed;
use std::alloc::{AllocError, Global};

/// How two values are compared.
#[derive(Clone, Copy, Debug, PartialEq, Eq)]
pub enum Compare {
    /// The values are equal.
    Eq,
    /// They are not equal.
    Ne,
    /// The left one is less.
    Lt,
    /// The left one is less or equal.
    Le,
    /// The left one is greater.
    Gt,
    /// The left one is greater or equal.
    Ge,
}

/// A side of a comparison, or a part of a sum.
#[derive(Debug, Drop)]
pub enum Operand {
    /// The value of the column of this name.
    Column(Text),
    /// This value.
    Literal(Value),
}

/// What a WHERE asks of a row.
#[derive(Debug)]
pub enum Predicate {
    /// A comparison of two operands.
    Test {
        op: Compare,
        left: Operand,
        right: Operand,
    },
    /// `IS NULL`, or `IS NOT NULL` where it is negated.
    Null {
        column: Text,
        negated: bool,
    },
    /// True where the part is False.
    Not(Boxed<Predicate>),
    /// False where a part is False, True where both are True.
    And(Boxed<Predicate>, Boxed<Predicate>),
    /// True where a part is True, False where both are False.
    Or(Boxed<Predicate>, Boxed<Predicate>),
}

/// A long chain of ANDs and ORs is deep on its left alone, where this goes by a loop.
impl Drop for Predicate {
    fn drop(mut self) {
        loop {
            match self {
                Predicate::Test {
                    op: _,
                    left: _left,
                    right: _right,
                } => return,
                Predicate::Null {
                    column: _column,
                    negated: _,
                } => return,
                Predicate::Not(p) => self = p.into_inner(),
                Predicate::And(p, q) => {
                    drop(q.into_inner());
                    self = p.into_inner();
                }
                Predicate::Or(p, q) => {
                    drop(q.into_inner());
                    self = p.into_inner();
                }
            }
        }
    }
}

impl Duplicate for Operand {
    fn copy(&self, alloc: Global) -> Result<Operand, AllocError> {
        match self {
            Operand::Column(name) => Ok(Operand::Column(name.copy(alloc)?)),
            Operand::Literal(value) => Ok(Operand::Literal(value.copy(alloc)?)),
        }
    }
}

/// A long chain of ANDs and ORs is deep on its left alone, where this goes by loops.
impl Duplicate for Predicate {
    fn copy(&self, alloc: Global) -> Result<Predicate, AllocError> {
        let mut joints = Vec::new(alloc);
        let mut part = self;
        loop {
            match part {
                Predicate::Test { op, left, right } => {
                    let test = Predicate::Test {
                        op: *op,
                        left: left.copy(alloc)?,
                        right: right.copy(alloc)?,
                    };
                    return joined(alloc, joints, test);
                }
                Predicate::Null { column, negated } => {
                    let null = Predicate::Null {
                        column: column.copy(alloc)?,
                        negated: *negated,
                    };
                    return joined(alloc, joints, null);
                }
                Predicate::Not(p) => {
                    joints.push(Joint::Not)?;
                    part = p.get();
                }
                Predicate::And(p, q) => {
                    joints.push(Joint::And(q.get().copy(alloc)?))?;
                    part = p.get();
                }
                Predicate::Or(p, q) => {
                    joints.push(Joint::Or(q.get().copy(alloc)?))?;
                    part = p.get();
                }
            }
        }
    }
}
