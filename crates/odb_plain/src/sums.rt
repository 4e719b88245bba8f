//! The values of expressions, and sums.
ghost use Rattle.std.specs.Prelude.{◌≡◌, ◌≤ℤ◌, pos, neg_ℤ, map, unwrap_or, IfOk};
ghost use Rattle.std.specs.Option.{option_copied};
ghost use Rattle.std.specs.List.{list_any, list_all};
ghost use Rattle.odb_values.specs.declared.value.Value.TheVariants.{Null};
ghost use Rattle.odb_values.specs.Value.{is_null};
ghost use Rattle.odb_model.specs.Truth.{operand_value};
ghost use Rattle.odb_model.specs.Binding.{is_sum};
ghost use Rattle.odb_model.specs.Sums.{number_of, int_sum, number_value, addend, sum_of, operand_values, value_of, total_of};

use crate::columns::{copied, operand_value};
use odb_catalog::TableDef;
use odb_model::{Expression, Term};
use odb_values::Value;
use std::alloc::{AllocError, Global};

/// Whether a value is Null, for which None may stand.
fn is_null(value: Option<&Value>) -> bool
    ensures { result ≡ is_null (unwrap_or (option_copied value.entry) Null) }
{
    match value {
        Some(value) => value.is_null(),
        None => true,
    }
}

/// The number of a value; Null, for which None may stand, and a text add nothing.
fn number_of(value: Option<&Value>) -> i64
    ensures { result ≡ number_of (unwrap_or (option_copied value.entry) Null) }
{
    match value {
        Some(Value::Int(number)) => *number,
        _ => 0,
    }
}

/// The value of a number of 64 bits; None is an overflow.
fn number_value(number: i128) -> Option<Value>
    ensures { result ≡ number_value number }
{
    match i64::try_from(number) {
        Ok(number) => Some(Value::Int(number)),
        Err(_) => None,
    }
}

/// What a term adds: a number that is taken from a sum counts as its opposite.
fn addend(table: &TableDef, values: &[Value], term: &Term) -> i128
    ensures value { result ≡ addend table.now.columns values.now term.now }
    ensures least { neg_ℤ (pos 9223372036854775808) ≤ℤ result }
    ensures most { result ≤ℤ pos 9223372036854775808 }
{
    let number = number_of(operand_value(table, values, &term.operand)) as i128;
    if term.minus { -number } else { number }
}

/// The sum of the operands' numbers. As many as there may be, it stays inside 128 bits.
fn sum_of(table: &TableDef, values: &[Value], expression: &Expression) -> i128
    ensures { result ≡ sum_of table.now.columns values.now expression.now }
{
    let mut sum = number_of(operand_value(table, values, &expression.first)) as i128;
    for term in expression.rest.as_slice() {
        sum += addend(table, values, term);
    }
    sum
}

/// Whether an expression has several operands.
pub(crate) fn is_sum(expression: &Expression) -> bool
    ensures { result ≡ is_sum expression.now }
{
    match expression.rest.as_slice() {
        [] => false,
        [_, ..] => true,
    }
}

/// Whether a term's operand is Null.
fn is_some_null(table: &TableDef, values: &[Value], terms: &[Term]) -> bool
    ensures { result ≡ list_any (λ term. is_null
        (operand_value table.now.columns values.now term.operand)) terms.now }
{
    terms.iter().any(|term| is_null(operand_value(table, values, &term.operand)))
}

/// Whether an operand is Null.
fn has_null(table: &TableDef, values: &[Value], expression: &Expression) -> bool
    ensures { result
        ≡ list_any is_null (operand_values table.now.columns values.now expression.now) }
{
    is_null(operand_value(table, values, &expression.first))
        || is_some_null(table, values, expression.rest.as_slice())
}

/// The value of an expression on a row, whose values are given in column order: that of a single
/// operand; of several Null where one is, else the sum. None is an overflow. The error is want of
/// memory.
pub(crate) fn value_of(
    alloc: Global,
    table: &TableDef,
    values: &[Value],
    expression: &Expression,
) -> Result<Option<Value>, AllocError>
    ensures { IfOk result
        (λ value. value ≡ value_of table.now.columns values.now expression.now) }
{
    if !is_sum(expression) {
        let first = operand_value(table, values, &expression.first);
        return Ok(Some(copied(alloc, first)?));
    }
    if has_null(table, values, expression) {
        return Ok(Some(Value::Null));
    }
    Ok(number_value(sum_of(table, values, expression)))
}

/// Whether each value is Null.
fn are_null(values: &[Value]) -> bool
    ensures { result ≡ list_all is_null values.now }
{
    values.iter().all(|value| value.is_null())
}

/// The sum of values' numbers. As many as there may be, it stays inside 128 bits.
fn int_sum(values: &[Value]) -> i128
    ensures { result ≡ int_sum (map number_of values.now) }
{
    let mut sum = 0i128;
    for value in values {
        sum += number_of(Some(value)) as i128;
    }
    sum
}

/// The sum of the values that aren't Null, or Null where there is none; None is an overflow.
pub(crate) fn total_of(values: &[Value]) -> Option<Value>
    ensures { result ≡ total_of values.now }
{
    if are_null(values) {
        return Some(Value::Null);
    }
    number_value(int_sum(values))
}
