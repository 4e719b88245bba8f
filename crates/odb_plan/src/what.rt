//! What a SELECT gives of the rows, with its names bound to places.
ghost use Rattle.std.specs.Prelude.{◌≡◌, IfOk, map};
ghost use Rattle.odb_model.specs.Table.{places};
ghost use Rattle.odb_eval.specs.Bound.{place_source, column_source};
ghost use Rattle.odb_plan.specs.Bound.{IsWhatOf, what_bound};

use odb_catalog::TableDef;
use odb_eval::Source;
use odb_model::What;
use odb_values::{Frozen, Text};
use std::alloc::{AllocError, Global};

/// Where the values of columns lie.
pub type Sources = Frozen<Source>;

/// What a SELECT gives of the rows, with its names bound to places.
#[derive(Debug, Drop)]
pub enum BoundWhat {
    /// The values of these columns: those that the SELECT names, or all in their order.
    Columns(Sources),
    /// How many rows there are.
    Count,
    /// The sum of this column's values.
    Sum(Source),
}

/// Binds what a SELECT gives of the rows. A column that isn't there counts as Null. It takes memory
/// for each column; the error is want of it.
pub fn bound_what(alloc: Global, table: &TableDef, what: &What) -> Result<BoundWhat, AllocError>
    ensures { IfOk result (IsWhatOf table.now what.now) }
{
    what_bound(alloc, table, what)
}

fn what_bound(alloc: Global, table: &TableDef, what: &What) -> Result<BoundWhat, AllocError>
    ensures { IfOk result (λ bound. bound ≡ what_bound table.now what.now) }
{
    match what {
        What::All => Ok(BoundWhat::Columns(all_sources(alloc, table)?)),
        What::Columns(names) => {
            let sources = named_sources(alloc, table, names.as_slice())?;
            Ok(BoundWhat::Columns(sources))
        }
        What::Count => Ok(BoundWhat::Count),
        What::Sum(name) => Ok(BoundWhat::Sum(Source::of_column(table, name))),
    }
}

/// Where the values of all columns lie, in column order.
fn all_sources(alloc: Global, table: &TableDef) -> Result<Sources, AllocError>
    ensures { IfOk result (λ sources. sources ≡ map (place_source table.now) (places table.now)) }
{
    let mut sources = Vec::new(alloc);
    for place in 0..table.columns().len() as u32 {
        sources.push(Source::of_place(table, place))?;
    }
    Ok(Frozen::from_vec(sources))
}

/// Where the values of the columns of these names lie.
fn named_sources(alloc: Global, table: &TableDef, names: &[Text]) -> Result<Sources, AllocError>
    ensures { IfOk result (λ sources. sources ≡ map (column_source table.now) names.now) }
{
    let mut sources = Vec::new(alloc);
    for name in names {
        sources.push(Source::of_column(table, name))?;
    }
    Ok(Frozen::from_vec(sources))
}
