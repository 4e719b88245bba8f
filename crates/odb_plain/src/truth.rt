//! When a predicate is True, False or Unknown on a row, by the three-valued logic of ISO/IEC 9075.
ghost use Rattle.std.specs.Prelude.{◌≡◌, unwrap_or};
ghost use Rattle.std.specs.Option.{option_copied};
ghost use Rattle.odb_values.specs.declared.value.Value.TheVariants.{Null};
ghost use Rattle.odb_model.specs.Table.{column_value};
ghost use Rattle.odb_model.specs.Truth.{truth_if, holds, compared, not_of, truth_of, is_true, matches};
ghost use Rattle.odb_plain.specs.Truth.{null_truth};

use crate::above::Above;
use crate::columns::{column_value, operand_value};
use odb_catalog::TableDef;
use odb_model::{Compare, Predicate, Truth};
use odb_values::{Text, Value, cmp_value};
use std::cmp::Ordering;

fn truth_if(holds: bool) -> Truth
    ensures { result ≡ truth_if holds }
{
    if holds { Truth::True } else { Truth::False }
}

/// Whether a comparison holds of two values in this order.
fn holds(op: Compare, order: Ordering) -> bool
    ensures { result ≡ holds op order }
{
    match op {
        Compare::Eq => order == Ordering::Equal,
        Compare::Ne => order != Ordering::Equal,
        Compare::Lt => order == Ordering::Less,
        Compare::Le => order != Ordering::Greater,
        Compare::Gt => order == Ordering::Greater,
        Compare::Ge => order != Ordering::Less,
    }
}

/// The truth of a comparison; None stands for Null, with which it is Unknown.
fn compared(op: Compare, left: Option<&Value>, right: Option<&Value>) -> Truth
    ensures { result ≡ compared op (unwrap_or (option_copied left.entry) Null)
        (unwrap_or (option_copied right.entry) Null) }
{
    match (left, right) {
        (Some(left), Some(right)) => compared_values(op, left, right),
        _ => Truth::Unknown,
    }
}

fn compared_values(op: Compare, left: &Value, right: &Value) -> Truth
    ensures { result ≡ compared op left.now right.now }
{
    if left.is_null() || right.is_null() {
        return Truth::Unknown;
    }
    truth_if(holds(op, cmp_value(left, right)))
}

fn not_of(truth: Truth) -> Truth
    ensures { result ≡ not_of truth }
{
    match truth {
        Truth::True => Truth::False,
        Truth::False => Truth::True,
        Truth::Unknown => Truth::Unknown,
    }
}

/// The truth of `IS NULL` for the column of this name, or of `IS NOT NULL`.
fn null_truth(table: &TableDef, values: &[Value], name: &Text, negated: bool) -> Truth
    ensures { result
        ≡ null_truth negated (column_value table.now.columns values.now name.now) }
{
    let is_null = match column_value(table, values, name) {
        Some(value) => value.is_null(),
        None => true,
    };
    if negated {
        not_of(truth_if(is_null))
    } else {
        truth_if(is_null)
    }
}

/// Whether a predicate holds of a row, whose values are given in column order.
///
/// A long chain of ANDs and ORs is deep on its left alone, where this goes by a loop. It calls itself
/// for right parts.
fn truth_of(table: &TableDef, values: &[Value], predicate: &Predicate) -> Truth
    ensures { result ≡ truth_of table.now.columns values.now predicate.now }
{
    let mut above = Above::whole();
    let mut part = predicate;
    loop {
        match part {
            Predicate::Test { op, left, right } => {
                let left = operand_value(table, values, left);
                let truth = compared(*op, left, operand_value(table, values, right));
                return above.truth(truth);
            }
            Predicate::Null { column, negated } => {
                return above.truth(null_truth(table, values, column, *negated));
            }
            Predicate::Not(p) => {
                above = above.with_not();
                part = p.get();
            }
            Predicate::And(p, q) => {
                above = above.with_and(truth_of(table, values, q.get()));
                part = p.get();
            }
            Predicate::Or(p, q) => {
                above = above.with_or(truth_of(table, values, q.get()));
                part = p.get();
            }
        }
    }
}

fn is_true(truth: Truth) -> bool
    ensures { result ≡ is_true truth }
{
    match truth {
        Truth::True => true,
        Truth::False => false,
        Truth::Unknown => false,
    }
}

/// Whether a WHERE has a row, whose values are given in column order: at True alone; without WHERE
/// every row.
pub(crate) fn matches(table: &TableDef, filter: &Option<Predicate>, values: &[Value]) -> bool
    ensures { result ≡ matches table.now.columns filter.now values.now }
{
    match filter {
        None => true,
        Some(predicate) => is_true(truth_of(table, values, predicate)),
    }
}
