//! The comparisons of columns with values that a WHERE joins by AND at its top.
ghost use Rattle.std.specs.Prelude.{◌≡◌, ◌++◌, filter, reverse, OnOk, IfOk, ◌&&◌, ◌==◌};
ghost use Rattle.std.specs.Option.{option_copied};
ghost use Rattle.odb_model.specs.Table.{column_place};
ghost use Rattle.odb_model.specs.Where.{flipped, test_at, column_tests, tests_of, is_equal, equal_to, tests_at};
ghost use Rattle.odb_plan.specs.Tests.{tests_in};
ghost use Rattle.odb_plan.specs.Sides.{edge_by, edge_of};

use crate::edge::{Side, edge_by, tighter};
use odb_catalog::TableDef;
use odb_model::{Compare, Operand, Predicate};
use odb_values::{Duplicate, Edge, Text, Value};
use std::alloc::{AllocError, Global};
use std::marker::Model;

/// A comparison of a column, by its place, with a value that isn't Null. Contracts see it as the
/// definitions' `ColumnTest`.
#[derive(Drop)]
pub struct Test {
    place: u32,
    op: Compare,
    value: Value,
}

impl Model for Test {
    ghost use Rattle.odb_model.specs.Where.{ColumnTest};

    ghost Value = { ColumnTest };

    ghost view = { λ a. record { place = a.place; op = a.op; value = a.value } };
}

impl Test {
    /// The edge on this side that it gives. The error is want of memory.
    fn edge(&self, alloc: Global, side: Side) -> Result<Edge, AllocError>
        ensures { IfOk result (λ edge. edge ≡ edge_by side self.now.op self.now.value) }
    {
        edge_by(alloc, side, self.op, &self.value)
    }

    /// Whether it is of the column at this place.
    fn is_at(&self, place: u32) -> bool
        ensures { result ≡ (self.now.place == place) }
    {
        self.place == place
    }

    /// Whether it asks the column at this place to be equal to its value.
    fn equals_at(&self, place: u32) -> bool
        ensures { result ≡ ((self.now.place == place) && is_equal self.now.op) }
    {
        self.place == place && is_equal(self.op)
    }

    /// The value that the column is compared with.
    fn value(&self) -> &Value
        ensures { result.now ≡ self.now.value }
    {
        &self.value
    }
}

fn is_equal(op: Compare) -> bool
    ensures { result ≡ is_equal op }
{
    match op {
        Compare::Eq => true,
        Compare::Ne | Compare::Lt | Compare::Le | Compare::Gt | Compare::Ge => false,
    }
}

/// The comparison with its sides exchanged.
fn flipped(op: Compare) -> Compare
    ensures { result ≡ flipped op }
{
    match op {
        Compare::Eq => Compare::Eq,
        Compare::Ne => Compare::Ne,
        Compare::Lt => Compare::Gt,
        Compare::Le => Compare::Ge,
        Compare::Gt => Compare::Lt,
        Compare::Ge => Compare::Le,
    }
}

/// Puts the comparison of the column of this name with a value behind the others, unless the column
/// isn't there or the value is Null. The error is want of memory.
fn put_test(
    alloc: Global,
    tests: &mut Vec<Test>,
    table: &TableDef,
    op: Compare,
    name: &Text,
    value: &Value,
) -> Result<(), AllocError>
    ensures { OnOk result (tests.new.items ≡ tests.old.items
        ++ test_at (column_place table.now.columns name.now) op value.now) }
{
    let Some(place) = table.column_place(name) else {
        return Ok(());
    };
    if value.is_null() {
        return Ok(());
    }
    tests.push(Test {
        place,
        op,
        value: value.copy(alloc)?,
    })?;
    Ok(())
}

/// Puts a comparison behind the others, where it is one of a column with a value.
fn put_operands(
    alloc: Global,
    tests: &mut Vec<Test>,
    table: &TableDef,
    op: Compare,
    left: &Operand,
    right: &Operand,
) -> Result<(), AllocError>
    ensures { OnOk result (tests.new.items ≡ tests.old.items
        ++ column_tests table.now.columns op left.now right.now) }
{
    match (left, right) {
        (Operand::Column(name), Operand::Literal(value)) => {
            put_test(alloc, tests, table, op, name, value)
        }
        (Operand::Literal(value), Operand::Column(name)) => {
            put_test(alloc, tests, table, flipped(op), name, value)
        }
        (Operand::Column(_), Operand::Column(_)) => Ok(()),
        (Operand::Literal(_), Operand::Literal(_)) => Ok(()),
    }
}

/// Puts the comparisons of a predicate that are joined by AND at its top behind the others, the last
/// of the text first.
///
/// A long chain of ANDs is deep on its left alone, where this goes by a loop. It calls itself for
/// right parts. The error is want of memory.
fn put_tests(
    alloc: Global,
    tests: &mut Vec<Test>,
    table: &TableDef,
    predicate: &Predicate,
) -> Result<(), AllocError>
    ensures { OnOk result (tests.new.items ≡ tests.old.items
        ++ reverse (tests_in table.now.columns predicate.now)) }
{
    let mut part = predicate;
    loop {
        match part {
            Predicate::Test { op, left, right } => {
                return put_operands(alloc, tests, table, *op, left, right);
            }
            Predicate::And(p, q) => {
                put_tests(alloc, tests, table, q.get())?;
                part = p.get();
            }
            Predicate::Null { .. } | Predicate::Not(_) | Predicate::Or(..) => return Ok(()),
        }
    }
}

/// The comparisons that a WHERE joins by AND at its top, the last of the text first. The error is
/// want of memory.
pub fn tests_backward(
    alloc: Global,
    table: &TableDef,
    filter: &Option<Predicate>,
) -> Result<Vec<Test>, AllocError>
    ensures { IfOk result
        (λ tests. tests.items ≡ reverse (tests_of table.now.columns filter.now)) }
{
    let mut tests = Vec::new(alloc);
    if let Some(predicate) = filter {
        put_tests(alloc, &mut tests, table, predicate)?;
    }
    Ok(tests)
}

/// The first value of the text that the column at a place has to be equal to.
pub fn equal_to(backward: &[Test], place: u32) -> Option<&Value>
    ensures { option_copied result ≡ equal_to (reverse backward.now) place }
{
    let mut found = None;
    for test in backward {
        if test.equals_at(place) {
            found = Some(test.value());
        }
    }
    found
}

/// The tightest edge on this side that the comparisons of the column at a place give; Free without a
/// place. The error is want of memory.
pub fn edge_at(
    alloc: Global,
    side: Side,
    backward: &[Test],
    place: Option<u32>,
) -> Result<Edge, AllocError>
    ensures { IfOk result (λ edge. edge
        ≡ edge_of side (tests_at (reverse backward.now) place)) }
{
    match place {
        None => Ok(Edge::Free),
        Some(place) => edge_on(alloc, side, backward, place),
    }
}

fn edge_on(alloc: Global, side: Side, backward: &[Test], place: u32) -> Result<Edge, AllocError>
    ensures { IfOk result (λ edge. edge
        ≡ edge_of side (filter (λ test. test.place == place) (reverse backward.now))) }
{
    let mut edge = Edge::Free;
    for test in backward {
        if test.is_at(place) {
            edge = tighter(side, test.edge(alloc, side)?, edge);
        }
    }
    Ok(edge)
}
