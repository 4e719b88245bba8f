//! What refuses a statement by its text and the dictionary alone.
ghost use Rattle.std.specs.Prelude.{◌≡◌};
ghost use Rattle.odb_model.specs.Binding.{what_refusal, binding_refusal};

use crate::kind::{is_words, named_kind};
use crate::operands::{column_refusal, columns_refusal, refuse_if};
use crate::predicates::filter_refusal;
use crate::sets::sets_refusal;
use crate::tuples::tuples_refusal;
use odb_catalog::TableDef;
use odb_model::{Reply, Statement, What};

/// The first refusal of what a SELECT gives.
fn what_refusal(table: &TableDef, what: &What) -> Option<Reply>
    ensures { result ≡ what_refusal table.now.columns what.now }
{
    match what {
        What::All => None,
        What::Columns(names) => columns_refusal(table, names.as_slice()),
        What::Count => None,
        What::Sum(name) => {
            if let Some(reply) = column_refusal(table, name) {
                return Some(reply);
            }
            refuse_if(is_words(named_kind(table, name)), Reply::KindMismatch)
        }
    }
}

/// The first refusal of a statement on rows of this table, whose text is gone through from left to
/// right: NOCOLUMN, KINDMISMATCH, KEYCOLUMN or COLUMNCOUNT. Other statements aren't refused. It takes
/// no memory.
pub fn binding_refusal(table: &TableDef, statement: &Statement) -> Option<Reply>
    ensures { result ≡ binding_refusal table.now statement.now }
{
    match statement {
        Statement::Select {
            what,
            table: _,
            filter,
        } => {
            if let Some(reply) = what_refusal(table, what) {
                return Some(reply);
            }
            filter_refusal(table, filter)
        }
        Statement::Insert { table: _, tuples } => tuples_refusal(table, tuples.as_slice()),
        Statement::Update {
            table: _,
            sets,
            filter,
        } => {
            if let Some(reply) = sets_refusal(table, sets.as_slice()) {
                return Some(reply);
            }
            filter_refusal(table, filter)
        }
        Statement::Delete { table: _, filter } => filter_refusal(table, filter),
        _ => None,
    }
}
