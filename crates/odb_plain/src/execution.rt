//! The statements of a transaction, one at a time.
ghost use Rattle.std.specs.Prelude.{◌≡◌, [], ◌∷◌, IfOk};
ghost use Rattle.odb_model.specs.Dictionary.{table_of};
ghost use Rattle.odb_model.specs.Meaning.{kept_values, selected, executed, on_table};
ghost use Rattle.odb_model.specs.Reads.{dictionary_row, reads_on};
ghost use Rattle.odb_model.specs.Transaction.{table_keys};
ghost use Rattle.odb_plain.specs.Outcome.{IsOutcomeOf, IsOutcomeOn, with_reads};

use crate::Rows;
use crate::binding::binding_refusal;
use crate::effect::Effect;
use crate::insert::inserted;
use crate::kept::kept_values;
use crate::reads::table_reads;
use crate::state::state_after;
use crate::table::table_of;
use crate::told::told;
use crate::update::{deleted, updated};
use odb_catalog::{TableDef, dictionary_range};
use odb_model::{Entry, Outcome, Predicate, Reply, Statement, What, Write};
use odb_values::{Frozen, Range, Text};
use std::alloc::{AllocError, Global};

/// What a statement does where the transaction's write set is laid over this history, in a database
/// of this format, 1 or 2: its reply, its writes in their order, and the ranges that it reads. The
/// history and the write set stay as they are.
///
/// It goes over the whole history, and takes memory for all rows that it leaves; the rest is as
/// [`execute_on`] has it.
pub fn execute(
    alloc: Global,
    statement: &Statement,
    history: &[Entry],
    write_set: &[Write],
    format: u16,
) -> Result<Outcome, AllocError>
    ensures { IfOk result (IsOutcomeOf statement.now history.now write_set.now format) }
{
    let rows = state_after(alloc, history, write_set)?;
    execute_on(alloc, statement, &rows, write_set, format)
}

/// What a statement does on these rows, in which its transaction has made this write set already, in
/// a database of this format.
///
/// A SELECT, an UPDATE or a DELETE goes over all rows once, an INSERT looks up each of its keys. Where
/// a transaction may have written more than 4,096 keys they are counted, which takes memory for the
/// last write of each. The error is want of memory.
pub fn execute_on(
    alloc: Global,
    statement: &Statement,
    rows: &Rows,
    write_set: &[Write],
    format: u16,
) -> Result<Outcome, AllocError>
    ensures { IfOk result
        (IsOutcomeOn statement.now rows.now (table_keys write_set.now) format) }
{
    match statement {
        Statement::Start | Statement::Commit | Statement::Rollback => {
            let effect = Effect::refused(alloc, Reply::Okay);
            Ok(with_reads(effect, Vec::new(alloc)))
        }
        Statement::Select {
            what: _,
            table,
            filter: _,
        } => on_table(alloc, table, statement, rows, write_set, format),
        Statement::Insert { table, tuples: _ } => {
            on_table(alloc, table, statement, rows, write_set, format)
        }
        Statement::Update {
            table,
            sets: _,
            filter: _,
        } => on_table(alloc, table, statement, rows, write_set, format),
        Statement::Delete { table, filter: _ } => {
            on_table(alloc, table, statement, rows, write_set, format)
        }
        _ => {
            let effect = Effect::refused(alloc, Reply::NotYet);
            Ok(with_reads(effect, Vec::new(alloc)))
        }
    }
}

/// An effect, and the ranges that were read for it.
fn with_reads(effect: Effect, reads: Vec<Range>) -> Outcome
    ensures { result ≡ with_reads effect reads.items }
{
    let Effect { reply, writes } = effect;
    Outcome {
        reply,
        writes,
        reads: Frozen::from_vec(reads),
    }
}

/// What a statement on the rows of the table of this name does. The error is want of memory.
fn on_table(
    alloc: Global,
    name: &Text,
    statement: &Statement,
    rows: &Rows,
    write_set: &[Write],
    format: u16,
) -> Result<Outcome, AllocError>
    ensures { IfOk result (λ outcome. outcome ≡ with_reads
        (on_table (table_of rows.now name.now) statement.now rows.now
        (table_keys write_set.now) format)
        (dictionary_row name.now ∷ reads_on (table_of rows.now name.now) statement.now)) }
{
    let mut reads = vec![in alloc; dictionary_range(alloc, name)?]?;
    let Some(table) = table_of(alloc, rows, name)? else {
        return Ok(with_reads(Effect::refused(alloc, Reply::NoTable), reads));
    };
    if let Some(reply) = binding_refusal(&table, statement) {
        return Ok(with_reads(Effect::refused(alloc, reply), reads));
    }
    let mut of_table = table_reads(alloc, &table, statement)?;
    reads.append(&mut of_table)?;
    let effect = executed(alloc, &table, statement, rows, write_set, format)?;
    Ok(with_reads(effect, reads))
}

/// What a SELECT of the rows that a WHERE keeps tells. The error is want of memory.
fn selected(
    alloc: Global,
    table: &TableDef,
    what: &What,
    filter: &Option<Predicate>,
    rows: &Rows,
) -> Result<Effect, AllocError>
    ensures { IfOk result (λ effect. effect
        ≡ selected table.now what.now (kept_values table.now filter.now rows.now)) }
{
    let kept = kept_values(alloc, table, filter, rows)?;
    Ok(Effect {
        reply: told(alloc, table, what, kept)?,
        writes: Frozen::empty(alloc),
    })
}

/// What a statement that binds does with the rows of its table. The error is want of memory.
fn executed(
    alloc: Global,
    table: &TableDef,
    statement: &Statement,
    rows: &Rows,
    write_set: &[Write],
    format: u16,
) -> Result<Effect, AllocError>
    ensures { IfOk result (λ effect. effect ≡ executed table.now statement.now rows.now
        (table_keys write_set.now) format) }
{
    match statement {
        Statement::Select {
            what,
            table: _,
            filter,
        } => selected(alloc, table, what, filter, rows),
        Statement::Insert { table: _, tuples } => {
            inserted(alloc, table, tuples.as_slice(), rows, write_set, format)
        }
        Statement::Update {
            table: _,
            sets,
            filter,
        } => {
            let sets = sets.as_slice();
            updated(alloc, table, sets, filter, rows, write_set, format)
        }
        Statement::Delete { table: _, filter } => deleted(alloc, table, filter, rows, write_set),
        _ => Ok(Effect::refused(alloc, Reply::NotYet)),
    }
}
