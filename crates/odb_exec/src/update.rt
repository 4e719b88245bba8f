//! UPDATE.
ghost use Rattle.std.specs.Prelude.{◌≡◌, None, IfOk, IfErr};
ghost use Rattle.odb_model.specs.Meaning.{updated};
ghost use Rattle.odb_rowsource.specs.RowSource.{NoneFell};
ghost use Rattle.odb_plan.specs.Bound.{AreSetsOf};
ghost use Rattle.odb_exec.specs.Walk.{rows_left};
ghost use Rattle.odb_exec.specs.Written.{keys_written};
ghost use Rattle.odb_exec.specs.Effect.{IsEffectOf};
ghost use Rattle.odb_exec.specs.Outcome.{IsCaused};

use crate::Trouble;
use crate::changes::Changes;
use crate::columns::{columns_after, new_columns};
use crate::effect::{Effect, without_writes};
use crate::rows::{RowChange, row_change};
use crate::walk::{key_shown, next_kept};
use odb_catalog::TableDef;
use odb_eval::Filter;
use odb_model::Assignment;
use odb_plan::Set;
use odb_rowsource::{Intentions, RowSource, ShownRow};
use odb_values::Range;
use std::alloc::Global;

/// Sets columns of the rows of a range that a WHERE keeps. It goes over the range once, and takes
/// memory for 4,096 writes at most.
pub fn update<R: RowSource>(
    rows: &mut R,
    alloc: Global,
    table: &TableDef,
    range: &Range,
    filter: &Option<Filter>,
    assigned: &[Assignment],
    sets: &[Set],
    written: &Intentions,
    format: u16,
) -> Result<Effect, Trouble>
    requires { AreSetsOf table.now assigned.now sets.now }
    ensures state { R.state rows.new ≡ R.state rows.old }
    ensures counts { NoneFell (R.faults rows.old) (R.faults rows.new) }
    ensures effect { IfOk result (IsEffectOf (updated table.now assigned.now
        (rows_left range.now filter.now None (R.state rows.old))
        (keys_written written.now.items) format)) }
    ensures cause { IfErr result (IsCaused (R.faults rows.old) (R.faults rows.new)) }
{
    let columns = new_columns(alloc, table, assigned)?;
    let mut changes = Changes::new(alloc, written);
    let mut last: Option<R::Shown> = None;
    while let Some(row) = next_kept(rows, alloc, range, filter, key_shown(&last))? {
        let key = row.key();
        let values = columns_after(alloc, sets, columns.as_slice(), key, row.row())?;
        match row_change(alloc, format, table, range.table, key, values)? {
            RowChange::Refused(reply) => return Ok(without_writes(alloc, reply)),
            RowChange::Put(write) => changes = changes.with(written, write)?,
        }
        last = Some(row);
    }
    Ok(changes.into_effect(alloc))
}
