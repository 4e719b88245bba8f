//! What refuses a statement by its text and the dictionary alone.
ghost use Rattle.std.specs.Prelude.{◌≡◌};
ghost use Rattle.std.specs.List.{zip};
ghost use Rattle.odb_model.specs.Binding.{first_refusal, predicate_refusal, filter_refusal, item_refusal, tuple_refusal, what_refusal, binding_refusal};

use crate::kind::{column_kind, differ, is_words, named_kind, value_kind};
use crate::names::{column_refusal, columns_refusal, earlier, refuse_if, test_refusal};
use crate::sets::sets_refusal;
use odb_catalog::{ColumnDef, TableDef};
use odb_model::{Predicate, Reply, Statement, What};
use odb_values::{Value, Values};

/// The first refusal of a predicate, from left to right.
///
/// A long chain of ANDs and ORs is deep on its left alone, where this goes by a loop: `later` is
/// what refuses all to the right of the part. It calls itself for right parts.
fn predicate_refusal(table: &TableDef, predicate: &Predicate) -> Option<Reply>
    ensures { result ≡ predicate_refusal table.now.columns predicate.now }
{
    let mut later = None;
    let mut part = predicate;
    loop {
        match part {
            Predicate::Test { op: _, left, right } => {
                return earlier(test_refusal(table, left, right), later);
            }
            Predicate::Null { column, negated: _ } => {
                return earlier(column_refusal(table, column), later);
            }
            Predicate::Not(p) => part = p.get(),
            Predicate::And(p, q) => {
                later = earlier(predicate_refusal(table, q.get()), later);
                part = p.get();
            }
            Predicate::Or(p, q) => {
                later = earlier(predicate_refusal(table, q.get()), later);
                part = p.get();
            }
        }
    }
}

/// The first refusal of a WHERE.
fn filter_refusal(table: &TableDef, filter: &Option<Predicate>) -> Option<Reply>
    ensures { result ≡ filter_refusal table.now.columns filter.now }
{
    match filter {
        None => None,
        Some(predicate) => predicate_refusal(table, predicate),
    }
}

/// The first refusal of what a SELECT gives: a sum is of numbers.
fn what_refusal(table: &TableDef, what: &What) -> Option<Reply>
    ensures { result ≡ what_refusal table.now.columns what.now }
{
    match what {
        What::All => None,
        What::Columns(names) => columns_refusal(table, names.as_slice()),
        What::Count => None,
        What::Sum(name) => {
            let of_texts = refuse_if(is_words(named_kind(table, name)), Reply::KindMismatch);
            earlier(column_refusal(table, name), of_texts)
        }
    }
}

/// The refusal of a value at its column.
fn item_refusal(column: &ColumnDef, value: &Value) -> Option<Reply>
    ensures { result ≡ item_refusal (column.now, value.now) }
{
    let mixed = differ(Some(column_kind(column)), value_kind(value));
    refuse_if(mixed, Reply::KindMismatch)
}

/// The first refusal of values at their columns.
fn items_refusal(columns: &[ColumnDef], values: &[Value]) -> Option<Reply>
    ensures { result ≡ first_refusal item_refusal (zip columns.now values.now) }
{
    match columns {
        [] => None,
        [column, columns @ ..] => match values {
            [] => None,
            [value, values @ ..] => {
                let first = item_refusal(column, value);
                earlier(first, items_refusal(columns, values))
            }
        },
    }
}

/// The first refusal of a tuple, which has a value for each column.
fn tuple_refusal(columns: &[ColumnDef], values: &[Value]) -> Option<Reply>
    ensures { result ≡ tuple_refusal columns.now values.now }
{
    if values.len() != columns.len() {
        return Some(Reply::ColumnCount);
    }
    items_refusal(columns, values)
}

/// The first refusal of tuples.
fn tuples_refusal(columns: &[ColumnDef], tuples: &[Values]) -> Option<Reply>
    ensures { result ≡ first_refusal (tuple_refusal columns.now) tuples.now }
{
    for tuple in tuples {
        if let Some(reply) = tuple_refusal(columns, tuple.as_slice()) {
            return Some(reply);
        }
    }
    None
}

/// The first refusal of a statement on rows of this table, whose text is gone through from left to
/// right. Other statements aren't refused. It takes no memory.
pub(crate) fn binding_refusal(table: &TableDef, statement: &Statement) -> Option<Reply>
    ensures { result ≡ binding_refusal table.now statement.now }
{
    match statement {
        Statement::Select {
            what,
            table: _,
            filter,
        } => earlier(what_refusal(table, what), filter_refusal(table, filter)),
        Statement::Insert { table: _, tuples } => {
            tuples_refusal(table.columns(), tuples.as_slice())
        }
        Statement::Update {
            table: _,
            sets,
            filter,
        } => {
            let left = sets_refusal(table, sets.as_slice());
            earlier(left, filter_refusal(table, filter))
        }
        Statement::Delete { table: _, filter } => filter_refusal(table, filter),
        _ => None,
    }
}
