//! The comparisons of columns with values that a WHERE joins by AND at its top.
ghost use Rattle.std.specs.Prelude.{◌≡◌, ◌++◌, ◌&&◌, ◌==◌, reverse, OnOk, IfOk};
ghost use Rattle.std.specs.Option.{option_copied};
ghost use Rattle.odb_model.specs.Table.{column_place};
ghost use Rattle.odb_model.specs.Where.{flipped, test_at, column_tests, tests_of, is_equal, equal_to};
ghost use Rattle.odb_plain.specs.Tests.{tests_in};

use odb_catalog::TableDef;
use odb_model::{Compare, Operand, Predicate};
use odb_values::{Duplicate, Text, Value};
use std::alloc::{AllocError, Global};
use std::marker::Model;

/// A comparison of a column, by its place, with a value that isn't Null. Contracts see it as the
/// definitions' `ColumnTest`.
#[derive(Drop)]
pub(crate) struct Test {
    place: u32,
    op: Compare,
    value: Value,
}

impl Model for Test {
    ghost use Rattle.odb_model.specs.Where.{ColumnTest};

    ghost Value = { ColumnTest };

    ghost view = { λ a. record { place = a.place; op = a.op; value = a.value } };
}

impl Test {
    /// How the column is compared with the value.
    pub(crate) fn op(&self) -> Compare
        ensures { result ≡ self.now.op }
    {
        self.op
    }

    /// Whether it is of the column at this place.
    pub(crate) fn is_at(&self, place: u32) -> bool
        ensures { result ≡ (self.now.place == place) }
    {
        self.place == place
    }

    /// Whether it asks the column at this place to be equal to its value.
    fn equals_at(&self, place: u32) -> bool
        ensures { result ≡ ((self.now.place == place) && is_equal self.now.op) }
    {
        self.place == place && is_equal(self.op)
    }

    /// The value that the column is compared with.
    pub(crate) fn value(&self) -> &Value
        ensures { result.now ≡ self.now.value }
    {
        &self.value
    }
}

fn is_equal(op: Compare) -> bool
    ensures { result ≡ is_equal op }
{
    match op {
        Compare::Eq => true,
        Compare::Ne | Compare::Lt | Compare::Le | Compare::Gt | Compare::Ge => false,
    }
}

/// The comparison with its sides exchanged.
fn flipped(op: Compare) -> Compare
    ensures { result ≡ flipped op }
{
    match op {
        Compare::Eq => Compare::Eq,
        Compare::Ne => Compare::Ne,
        Compare::Lt => Compare::Gt,
        Compare::Le => Compare::Ge,
        Compare::Gt => Compare::Lt,
        Compare::Ge => Compare::Le,
    }
}

/// Puts the comparison of the column of this name with a value behind the others, unless the column
/// isn't there or the value is Null. The error is want of memory.
fn put_test(
    alloc: Global,
    tests: &mut Vec<Test>,
    table: &TableDef,
    op: Compare,
    name: &Text,
    value: &Value,
) -> Result<(), AllocError>
    ensures { OnOk result (tests.new.items ≡ tests.old.items
        ++ test_at (column_place table.now.columns name.now) op value.now) }
{
    let Some(place) = table.column_place(name) else {
        return Ok(());
    };
    if value.is_null() {
        return Ok(());
    }
    tests.push(Test {
        place,
        op,
        value: value.copy(alloc)?,
    })?;
    Ok(())
}

/// Puts a comparison behind the others, where it is one of a column with a value.
fn put_operands(
    alloc: Global,
    tests: &mut Vec<Test>,
    table: &TableDef,
    op: Compare,
    left: &Operand,
    right: &Operand,
) -> Result<(), AllocError>
    ensures { OnOk result (tests.new.items ≡ tests.old.items
        ++ column_tests table.now.columns op left.now right.now) }
{
    match (left, right) {
        (Operand::Column(name), Operand::Literal(value)) => {
            put_test(alloc, tests, table, op, name, value)
        }
        (Operand::Literal(value), Operand::Column(name)) => {
            put_test(alloc, tests, table, flipped(op), name, value)
        }
        (Operand::Column(_), Operand::Column(_)) => Ok(()),
        (Operand::Literal(_), Operand::Literal(_)) => Ok(()),
    }
}

/// Puts the comparisons of a predicate that are joined by AND at its top behind the others, the last
/// of the text first.
///
/// A long chain of ANDs is deep on its left alone, where this goes by a loop. It calls itself for
/// right parts. The error is want of memory.
fn put_tests(
    alloc: Global,
    tests: &mut Vec<Test>,
    table: &TableDef,
    predicate: &Predicate,
) -> Result<(), AllocError>
    ensures { OnOk result (tests.new.items ≡ tests.old.items
        ++ reverse (tests_in table.now.columns predicate.now)) }
{
    let mut part = predicate;
    loop {
        match part {
            Predicate::Test { op, left, right } => {
                return put_operands(alloc, tests, table, *op, left, right);
            }
            Predicate::And(p, q) => {
                put_tests(alloc, tests, table, q.get())?;
                part = p.get();
            }
            Predicate::Null { .. } | Predicate::Not(_) | Predicate::Or(..) => return Ok(()),
        }
    }
}

/// The comparisons that a WHERE joins by AND at its top, in the order of the text. The error is want
/// of memory.
pub(crate) fn tests_of(
    alloc: Global,
    table: &TableDef,
    filter: &Option<Predicate>,
) -> Result<Vec<Test>, AllocError>
    ensures { IfOk result
        (λ tests. tests.items ≡ tests_of table.now.columns filter.now) }
{
    let mut tests = Vec::new(alloc);
    if let Some(predicate) = filter {
        put_tests(alloc, &mut tests, table, predicate)?;
    }
    tests.reverse();
    Ok(tests)
}

/// The first value that the column at a place has to be equal to.
pub(crate) fn equal_to(tests: &[Test], place: u32) -> Option<&Value>
    ensures { option_copied result ≡ equal_to tests.now place }
{
    for test in tests {
        if test.equals_at(place) {
            return Some(test.value());
        }
    }
    None
}
