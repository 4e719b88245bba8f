//! What refuses a predicate.
ghost use Rattle.std.specs.Prelude.{◌≡◌};
ghost use Rattle.std.specs.Option.{option_or};
ghost use Rattle.odb_model.specs.Binding.{predicate_refusal, filter_refusal};

use crate::operands::{column_refusal, test_refusal};
use odb_catalog::TableDef;
use odb_model::{Predicate, Reply};

/// The first of two refusals.
fn earlier(first: Option<Reply>, later: Option<Reply>) -> Option<Reply>
    ensures { result ≡ option_or first later }
{
    match first {
        Some(reply) => Some(reply),
        None => later,
    }
}

/// The first refusal of a predicate, from left to right.
///
/// A long chain of ANDs and ORs is deep on its left alone, where this goes by a loop: `later` is
/// what refuses all to the right of the part. It calls itself for right parts.
pub fn predicate_refusal(table: &TableDef, predicate: &Predicate) -> Option<Reply>
    ensures { result ≡ predicate_refusal table.now.columns predicate.now }
{
    let mut later = None;
    let mut part = predicate;
    loop {
        match part {
            Predicate::Test { op: _, left, right } => {
                return earlier(test_refusal(table, left, right), later);
            }
            Predicate::Null { column, negated: _ } => {
                return earlier(column_refusal(table, column), later);
            }
            Predicate::Not(p) => part = p.get(),
            Predicate::And(p, q) => {
                later = earlier(predicate_refusal(table, q.get()), later);
                part = p.get();
            }
            Predicate::Or(p, q) => {
                later = earlier(predicate_refusal(table, q.get()), later);
                part = p.get();
            }
        }
    }
}

/// The first refusal of a WHERE.
pub fn filter_refusal(table: &TableDef, filter: &Option<Predicate>) -> Option<Reply>
    ensures { result ≡ filter_refusal table.now.columns filter.now }
{
    match filter {
        None => None,
        Some(predicate) => predicate_refusal(table, predicate),
    }
}
