//! The value of a bound expression.
ghost use Rattle.std.specs.Prelude.{◌≡◌, ◌↔◌, pos, ◌≤ℤ◌, neg_ℤ, IfOk, IfErr, IsErrOf};
ghost use Rattle.std.specs.List.{list_any};
ghost use Rattle.odb_values.specs.Value.{is_null};
ghost use Rattle.odb_model.specs.Sums.{number_of, number_value};
ghost use Rattle.odb_eval.specs.Bound.{source_value, bound_value, sum_value, bound_sum, has_null, bound_addend};

use crate::{BoundExpression, BoundTerm, EvalError, Source};
use odb_values::{Duplicate, Key, Row, Value};
use std::alloc::{AllocError, Global};

/// The value of a bound expression on a row. An expression of one operand is its value; a longer one
/// is Null where an operand is, else the sum. It takes memory for a text.
pub fn value_of(
    alloc: Global,
    expression: &BoundExpression,
    key: &Key,
    row: &Row,
) -> Result<Value, EvalError>
    ensures value { IfOk result
        (λ v. bound_value key.now row.now expression.now ≡ Some v) }
    ensures overflow { IsErrOf result EvalError.Overflow
        ↔ (bound_value key.now row.now expression.now ≡ None) }
{
    let key = key.as_slice();
    let row = row.as_slice();
    match expression.rest.as_slice() {
        [] => Ok(copied(alloc, &expression.first, key, row)?),
        [_, ..] => sum_value(expression, key, row),
    }
}

/// The value of a bound expression of several operands.
fn sum_value(expression: &BoundExpression, key: &[Value], row: &[Value]) -> Result<Value, EvalError>
    ensures value { IfOk result
        (λ v. sum_value key.now row.now expression.now ≡ Some v) }
    ensures overflow { IsErrOf result EvalError.Overflow
        ↔ (sum_value key.now row.now expression.now ≡ None) }
    ensures cause { IfErr result (λ error. error ≡ EvalError.Overflow) }
{
    if has_null(expression, key, row) {
        return Ok(Value::Null);
    }
    number_value(sum(expression, key, row))
}

/// The value of a number, where it is one of 64 bits.
fn number_value(number: i128) -> Result<Value, EvalError>
    ensures value { IfOk result (λ v. number_value number ≡ Some v) }
    ensures overflow { IsErrOf result EvalError.Overflow ↔ (number_value number ≡ None) }
    ensures cause { IfErr result (λ error. error ≡ EvalError.Overflow) }
{
    match i64::try_from(number) {
        Ok(number) => Ok(Value::Int(number)),
        Err(_) => Err(EvalError::Overflow),
    }
}

/// A copy of an operand's value.
fn copied(alloc: Global, source: &Source, key: &[Value], row: &[Value]) -> Result<Value, AllocError>
    ensures { IfOk result (λ v. v ≡ source_value key.now row.now source.now) }
{
    match source.value(key, row) {
        Some(value) => value.copy(alloc),
        None => Ok(Value::Null),
    }
}

/// Whether an operand is Null.
fn is_null(source: &Source, key: &[Value], row: &[Value]) -> bool
    ensures { result ≡ is_null (source_value key.now row.now source.now) }
{
    match source.value(key, row) {
        Some(value) => value.is_null(),
        None => true,
    }
}

/// Whether some operand is Null.
fn has_null(expression: &BoundExpression, key: &[Value], row: &[Value]) -> bool
    ensures { result ≡ has_null key.now row.now expression.now }
{
    is_null(&expression.first, key, row) || is_some_null(expression.rest.as_slice(), key, row)
}

/// Whether some term's operand is Null.
fn is_some_null(terms: &[BoundTerm], key: &[Value], row: &[Value]) -> bool
    ensures { result
        ≡ list_any (λ term. is_null (source_value key.now row.now term.source)) terms.now }
{
    terms.iter().any(|term| is_null(&term.source, key, row))
}

/// The number of an operand; Null and a text add nothing.
fn number(source: &Source, key: &[Value], row: &[Value]) -> i64
    ensures { result ≡ number_of (source_value key.now row.now source.now) }
{
    match source.value(key, row) {
        Some(Value::Int(number)) => *number,
        _ => 0,
    }
}

/// The number that a term adds.
fn addend(term: &BoundTerm, key: &[Value], row: &[Value]) -> i128
    ensures value { result ≡ bound_addend key.now row.now term.now }
    ensures least { neg_ℤ (pos 9223372036854775808) ≤ℤ result }
    ensures most { result ≤ℤ pos 9223372036854775808 }
{
    let number = number(&term.source, key, row) as i128;
    if term.minus { -number } else { number }
}

/// The sum of the operands' numbers. As many as there may be, it stays inside 128 bits.
fn sum(expression: &BoundExpression, key: &[Value], row: &[Value]) -> i128
    ensures { result ≡ bound_sum key.now row.now expression.now }
{
    let mut sum = number(&expression.first, key, row) as i128;
    for term in expression.rest.as_slice() {
        sum += addend(term, key, row);
    }
    sum
}
