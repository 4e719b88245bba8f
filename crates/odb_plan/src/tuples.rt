//! What refuses the tuples of an INSERT.
ghost use Rattle.std.specs.Prelude.{◌≡◌};
ghost use Rattle.std.specs.List.{zip};
ghost use Rattle.odb_model.specs.Binding.{first_refusal, item_refusal, tuple_refusal};

use crate::kind::{column_kind, differ, value_kind};
use crate::operands::refuse_if;
use odb_catalog::{ColumnDef, TableDef};
use odb_model::Reply;
use odb_values::{Value, Values};

/// The first refusal of values at their columns.
fn items_refusal(columns: &[ColumnDef], values: &[Value]) -> Option<Reply>
    ensures { result ≡ first_refusal item_refusal (zip columns.now values.now) }
{
    match columns {
        [] => None,
        [column, columns @ ..] => match values {
            [] => None,
            [value, values @ ..] => {
                let mixed = differ(Some(column_kind(column)), value_kind(value));
                if let Some(reply) = refuse_if(mixed, Reply::KindMismatch) {
                    return Some(reply);
                }
                items_refusal(columns, values)
            }
        },
    }
}

/// The first refusal of a tuple, which has a value for each column.
fn tuple_refusal(columns: &[ColumnDef], values: &[Value]) -> Option<Reply>
    ensures { result ≡ tuple_refusal columns.now values.now }
{
    if values.len() != columns.len() {
        return Some(Reply::ColumnCount);
    }
    items_refusal(columns, values)
}

/// The first refusal of tuples.
pub fn tuples_refusal(table: &TableDef, tuples: &[Values]) -> Option<Reply>
    ensures { result ≡ first_refusal (tuple_refusal table.now.columns) tuples.now }
{
    let columns = table.columns();
    for tuple in tuples {
        if let Some(reply) = tuple_refusal(columns, tuple.as_slice()) {
            return Some(reply);
        }
    }
    None
}
