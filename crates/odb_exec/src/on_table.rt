//! The execution of a statement on the rows of a table.
ghost use Rattle.std.specs.Prelude.{◌≡◌, ◌++◌, IfOk, IfErr, OnOk};
ghost use Rattle.odb_model.specs.Table.{IsTable};
ghost use Rattle.odb_model.specs.Dictionary.{table_of};
ghost use Rattle.odb_model.specs.Meaning.{executed};
ghost use Rattle.odb_model.specs.Reads.{table_reads};
ghost use Rattle.odb_rowsource.specs.RowSource.{NoneFell};
ghost use Rattle.odb_plan.specs.Bound.{IsBound};
ghost use Rattle.odb_exec.specs.Written.{keys_written};
ghost use Rattle.odb_exec.specs.Effect.{IsEffectOf};
ghost use Rattle.odb_exec.specs.Outcome.{IsOutcomeOf, IsCaused, IsOnRows};
ghost use Rattle.odb_exec.specs.Replies.{IsReplyTo};

use crate::Trouble;
use crate::delete::delete;
use crate::effect::{Effect, without_writes};
use crate::insert::insert;
use crate::reads::{dictionary_row, put_points};
use crate::told::told;
use crate::update::update;
use odb_catalog::TableDef;
use odb_model::{Outcome, Reply, Statement};
use odb_plan::{BoundStatement, PlanError, bind};
use odb_rowsource::{Intentions, RowSource};
use odb_values::{Duplicate, Frozen, Range, Text};
use std::alloc::{AllocError, Global};

/// An effect, with the ranges that were read for it.
fn with_reads(effect: Effect, reads: Vec<Range>) -> Outcome
    ensures { result ≡ record {
      reply = effect.reply;
      writes = effect.writes;
      reads = reads.items;
    } }
{
    let Effect { reply, writes } = effect;
    Outcome {
        reply,
        writes,
        reads: Frozen::from_vec(reads),
    }
}

/// What a statement on the rows of a table does, as `execute` has it, where the table is looked up
/// already: it is the one of this name in the dictionary that the source tells, or None where there
/// is none, and the statement names it.
pub fn execute_on<R: RowSource>(
    rows: &mut R,
    alloc: Global,
    table: &Option<TableDef>,
    name: &Text,
    statement: &Statement,
    written: &Intentions,
    format: u16,
) -> Result<Outcome, Trouble>
    ensures state { R.state rows.new ≡ R.state rows.old }
    ensures counts { NoneFell (R.faults rows.old) (R.faults rows.new) }
    ensures outcome { IsOnRows statement.now name.now
        → table.now ≡ table_of (R.state rows.old) name.now → IfOk result
        (IsOutcomeOf statement.now (R.state rows.old) (keys_written written.now.items) format) }
    ensures cause { IfErr result (IsCaused (R.faults rows.old) (R.faults rows.new)) }
{
    let mut reads = vec![in alloc; dictionary_row(alloc, name)?]?;
    match table {
        None => Ok(with_reads(without_writes(alloc, Reply::NoTable), reads)),
        Some(table) => match bind(alloc, table, statement) {
            Err(error) => {
                let reply = reply_to(error)?;
                Ok(with_reads(without_writes(alloc, reply), reads))
            }
            Ok(bound) => {
                put_reads(alloc, &mut reads, table, statement, &bound)?;
                let effect = executed(rows, alloc, table, statement, &bound, written, format)?;
                Ok(with_reads(effect, reads))
            }
        },
    }
}

/// The reply to a statement that isn't bound. The error is want of memory.
fn reply_to(error: PlanError) -> Result<Reply, AllocError>
    ensures { IfOk result (IsReplyTo error) }
{
    match error {
        PlanError::NoColumn => Ok(Reply::NoColumn),
        PlanError::KindMismatch => Ok(Reply::KindMismatch),
        PlanError::KeyColumn => Ok(Reply::KeyColumn),
        PlanError::ColumnCount => Ok(Reply::ColumnCount),
        PlanError::NoMemory => Err(AllocError),
    }
}

/// Puts the ranges that a bound statement reads of its table behind others. The error is want of
/// memory.
fn put_reads(
    alloc: Global,
    reads: &mut Vec<Range>,
    table: &TableDef,
    statement: &Statement,
    bound: &BoundStatement,
) -> Result<(), AllocError>
    requires { IsBound table.now statement.now bound.now }
    ensures { OnOk result (reads.new.items
        ≡ reads.old.items ++ table_reads table.now statement.now) }
{
    match statement {
        Statement::Insert { table: _, tuples } => {
            put_points(alloc, reads, table, tuples.as_slice())?;
        }
        Statement::Select {
            what: _,
            table: _,
            filter: _,
        } => reads.push(bound.range.copy(alloc)?)?,
        Statement::Update {
            table: _,
            sets: _,
            filter: _,
        } => reads.push(bound.range.copy(alloc)?)?,
        Statement::Delete {
            table: _,
            filter: _,
        } => reads.push(bound.range.copy(alloc)?)?,
        _ => {}
    }
    Ok(())
}

/// What a bound statement does to the rows of its table.
fn executed<R: RowSource>(
    rows: &mut R,
    alloc: Global,
    table: &TableDef,
    statement: &Statement,
    bound: &BoundStatement,
    written: &Intentions,
    format: u16,
) -> Result<Effect, Trouble>
    requires { IsBound table.now statement.now bound.now }
    ensures state { R.state rows.new ≡ R.state rows.old }
    ensures counts { NoneFell (R.faults rows.old) (R.faults rows.new) }
    ensures effect { IsTable table.now → IfOk result (IsEffectOf
        (executed table.now statement.now (R.state rows.old) (keys_written written.now.items)
        format)) }
    ensures cause { IfErr result (IsCaused (R.faults rows.old) (R.faults rows.new)) }
{
    let range = &bound.range;
    let filter = &bound.filter;
    match statement {
        Statement::Select {
            what: _,
            table: _,
            filter: _,
        } => {
            let reply = told(rows, alloc, range, filter, &bound.what)?;
            Ok(without_writes(alloc, reply))
        }
        Statement::Insert { table: _, tuples } => {
            insert(rows, alloc, table, tuples.as_slice(), written, format)
        }
        Statement::Update {
            table: _,
            sets,
            filter: _,
        } => update(
            rows,
            alloc,
            table,
            range,
            filter,
            sets.as_slice(),
            bound.sets.as_slice(),
            written,
            format,
        ),
        Statement::Delete {
            table: _,
            filter: _,
        } => delete(rows, alloc, table, range, filter, written),
        _ => Ok(without_writes(alloc, Reply::NotYet)),
    }
}
