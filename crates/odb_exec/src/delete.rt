//! DELETE.
ghost use Rattle.std.specs.Prelude.{◌≡◌, None, IfOk, IfErr};
ghost use Rattle.odb_model.specs.Meaning.{deleted};
ghost use Rattle.odb_rowsource.specs.RowSource.{NoneFell};
ghost use Rattle.odb_exec.specs.Outcome.{IsCaused};
ghost use Rattle.odb_exec.specs.Walk.{rows_left};
ghost use Rattle.odb_exec.specs.Written.{keys_written};
ghost use Rattle.odb_exec.specs.Effect.{IsEffectOf};

use crate::Trouble;
use crate::changes::Changes;
use crate::effect::Effect;
use crate::walk::{key_shown, next_kept};
use odb_catalog::TableDef;
use odb_eval::Filter;
use odb_model::Write;
use odb_rowsource::{Intentions, RowSource, ShownRow};
use odb_values::{Duplicate, Range};
use std::alloc::Global;

/// Deletes the rows of a range that a WHERE keeps. It goes over the range once, and takes memory for
/// 4,096 writes at most.
pub fn delete<R: RowSource>(
    rows: &mut R,
    alloc: Global,
    table: &TableDef,
    range: &Range,
    filter: &Option<Filter>,
    written: &Intentions,
) -> Result<Effect, Trouble>
    ensures state { R.state rows.new ≡ R.state rows.old }
    ensures counts { NoneFell (R.faults rows.old) (R.faults rows.new) }
    ensures effect { IfOk result (IsEffectOf (deleted table.now
        (rows_left range.now filter.now None (R.state rows.old))
        (keys_written written.now.items))) }
    ensures cause { IfErr result (IsCaused (R.faults rows.old) (R.faults rows.new)) }
{
    let mut changes = Changes::new(alloc, written);
    let mut last: Option<R::Shown> = None;
    while let Some(row) = next_kept(rows, alloc, range, filter, key_shown(&last))? {
        let write = Write {
            bank: table.bank(),
            table: range.table,
            key: row.key().copy(alloc)?,
            row: None,
        };
        changes = changes.with(written, write)?;
        last = Some(row);
    }
    Ok(changes.into_effect(alloc))
}
