//! The truth of a bound predicate.
ghost use Rattle.std.specs.Prelude.{◌≡◌};
ghost use Rattle.odb_model.specs.Truth.{compared, not_of, truth_if, is_true};
ghost use Rattle.odb_values.specs.Value.{is_null};
ghost use Rattle.odb_eval.specs.Bound.{source_value, filter_truth, null_truth, keeps};

use crate::above::Above;
use crate::compare::{compared, not_of, truth_if};
use crate::{Filter, Source};
use odb_model::{Compare, Truth};
use odb_values::{Key, Row, Value};

/// Whether a bound predicate holds of a row, by the three-valued logic of ISO/IEC 9075. It takes no
/// memory, and looks at each part of the predicate once.
pub fn truth(filter: &Filter, key: &Key, row: &Row) -> Truth
    ensures { result ≡ filter_truth key.now row.now filter.now }
{
    truth_on(filter, key.as_slice(), row.as_slice())
}

/// Whether a WHERE keeps a row: its predicate is True there, or there is none. It takes no memory.
pub fn keeps(filter: &Option<Filter>, key: &Key, row: &Row) -> bool
    ensures { result ≡ keeps key.now row.now filter.now }
{
    match filter {
        None => true,
        Some(filter) => is_true(truth(filter, key, row)),
    }
}

fn is_true(truth: Truth) -> bool
    ensures { result ≡ is_true truth }
{
    match truth {
        Truth::True => true,
        Truth::False => false,
        Truth::Unknown => false,
    }
}

/// A long chain of ANDs and ORs is deep on its left alone, where this goes by a loop. It calls itself
/// for right parts.
fn truth_on(filter: &Filter, key: &[Value], row: &[Value]) -> Truth
    ensures { result ≡ filter_truth key.now row.now filter.now }
{
    let mut above = Above::whole();
    let mut part = filter;
    loop {
        match part {
            Filter::Test { op, left, right } => {
                return above.truth(test_truth(*op, left, right, key, row));
            }
            Filter::Null { source, negated } => {
                return above.truth(null_truth(source, *negated, key, row));
            }
            Filter::Not(f) => {
                above = above.with_not();
                part = f.get();
            }
            Filter::And(f, g) => {
                above = above.with_and(truth_on(g.get(), key, row));
                part = f.get();
            }
            Filter::Or(f, g) => {
                above = above.with_or(truth_on(g.get(), key, row));
                part = f.get();
            }
        }
    }
}

fn test_truth(op: Compare, left: &Source, right: &Source, key: &[Value], row: &[Value]) -> Truth
    ensures { result ≡ compared op (source_value key.now row.now left.now)
        (source_value key.now row.now right.now) }
{
    match (left.value(key, row), right.value(key, row)) {
        (Some(left), Some(right)) => compared(op, left, right),
        _ => Truth::Unknown,
    }
}

fn null_truth(source: &Source, negated: bool, key: &[Value], row: &[Value]) -> Truth
    ensures { result ≡ null_truth negated (source_value key.now row.now source.now) }
{
    let is_null = match source.value(key, row) {
        Some(value) => value.is_null(),
        None => true,
    };
    if negated {
        not_of(truth_if(is_null))
    } else {
        truth_if(is_null)
    }
}
