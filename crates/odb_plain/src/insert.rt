//! INSERT.
ghost use Rattle.std.specs.Prelude.{◌≡◌, IfOk};
ghost use Rattle.std.specs.List.{flat_map};
ghost use Rattle.odb_values.specs.Key.{IsKey};
ghost use Rattle.odb_model.specs.State.{State};
ghost use Rattle.odb_model.specs.Table.{key_of};
ghost use Rattle.odb_model.specs.Fitting.{row_refusal};
ghost use Rattle.odb_model.specs.Meaning.{writes_of, duplicate_refusal, tuples_refusal, inserted};
ghost use Rattle.odb_model.specs.Transaction.{table_keys};
ghost use Rattle.odb_plain.specs.Changes.{IsChangeOf, AreChangesOf, next_refusal, Joins, JoinsAfter};

use crate::Rows;
use crate::changes::{Change, Changes};
use crate::columns::{key_of, row_of};
use crate::effect::Effect;
use crate::effect_of::effect_of;
use crate::fitting::row_refusal;
use crate::names::refuse_if;
use odb_catalog::TableDef;
use odb_model::{Reply, TableKey, Write};
use odb_values::{Frozen, Key, Row, Values};
use std::alloc::{AllocError, Global};

/// The key of values that are one.
fn key_with(values: Values) -> Key
    requires { IsKey values }
    ensures { result ≡ values }
{
    match Key::new(values) {
        Ok(key) => key,
        Err(_) => unreachable!(),
    }
}

/// The write that puts a tuple, where the row fits. The error is want of memory.
fn tuple_change(
    alloc: Global,
    format: u16,
    table: &TableDef,
    tuple: &Values,
) -> Result<Change, AllocError>
    ensures { IfOk result (IsChangeOf
        (row_refusal format table.now (key_of table.now tuple.now) tuple.now)
        (writes_of table.now tuple.now)) }
{
    let values = tuple.as_slice();
    let key = key_of(alloc, table, values)?;
    let row = row_of(alloc, table, values)?;
    match row_refusal(format, table, key.as_slice(), values, row.as_slice()) {
        Some(reply) => Ok(Change::Refused(reply)),
        None => Ok(Change::Made(Write {
            bank: table.bank(),
            table: table.number(),
            key: key_with(key),
            row: Some(Row::new(row)),
        })),
    }
}

/// The refusal of a write whose key has a row, or is that of an earlier tuple. The error is want of
/// memory.
fn duplicate_refusal(
    alloc: Global,
    rows: &Rows,
    earlier: &Rows,
    write: &Write,
) -> Result<Option<Reply>, AllocError>
    ensures { (s : State) → Joins s rows.now earlier.now
        → IfOk result (λ refusal. refusal ≡ duplicate_refusal s write.now) }
{
    let at = TableKey::of(alloc, write)?;
    Ok(refuse_if(rows.has(&at) || earlier.has(&at), Reply::Duplicate))
}

/// The write that puts a tuple behind earlier ones, where nothing refuses it; it is put to these
/// then. The error is want of memory.
fn next_change(
    alloc: Global,
    format: u16,
    table: &TableDef,
    rows: &Rows,
    earlier: &mut Rows,
    tuple: &Values,
) -> Result<Change, AllocError>
    ensures change { (s : State) → Joins s rows.now earlier.old → IfOk result (IsChangeOf
        (next_refusal format table.now s tuple.now) (writes_of table.now tuple.now)) }
    ensures earlier { (s : State) → Joins s rows.now earlier.old
        → IfOk result (JoinsAfter s rows.now earlier.new) }
{
    let write = match tuple_change(alloc, format, table, tuple)? {
        Change::Refused(reply) => return Ok(Change::Refused(reply)),
        Change::Made(write) => write,
    };
    if let Some(reply) = duplicate_refusal(alloc, rows, earlier, &write)? {
        return Ok(Change::Refused(reply));
    }
    earlier.put(alloc, &write)?;
    Ok(Change::Made(write))
}

/// The writes that put tuples, in their order, where nothing refuses one. The error is want of
/// memory.
fn tuples_changes(
    alloc: Global,
    format: u16,
    table: &TableDef,
    rows: &Rows,
    tuples: &[Values],
) -> Result<Changes, AllocError>
    ensures { IfOk result (AreChangesOf (tuples_refusal format table.now rows.now tuples.now)
        (flat_map (writes_of table.now) tuples.now)) }
{
    let mut earlier = Rows::new(alloc);
    let mut writes = Vec::new(alloc);
    for tuple in tuples {
        match next_change(alloc, format, table, rows, &mut earlier, tuple)? {
            Change::Refused(reply) => return Ok(Changes::Refused(reply)),
            Change::Made(write) => writes.push(write)?,
        }
    }
    Ok(Changes::Made(Frozen::from_vec(writes)))
}

/// What an INSERT of these tuples does. It costs a look-up for each. The error is want of memory.
pub(crate) fn inserted(
    alloc: Global,
    table: &TableDef,
    tuples: &[Values],
    rows: &Rows,
    write_set: &[Write],
    format: u16,
) -> Result<Effect, AllocError>
    ensures { IfOk result (λ effect. effect
        ≡ inserted table.now tuples.now rows.now (table_keys write_set.now) format) }
{
    let changes = tuples_changes(alloc, format, table, rows, tuples)?;
    effect_of(alloc, write_set, tuples.len(), changes)
}
