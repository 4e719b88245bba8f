//! INSERT.
ghost use Rattle.std.specs.Prelude.{◌≡◌, ◌||◌, ℕ, List, [], ◌∷◌, IfOk, IfErr};
ghost use Rattle.std.specs.Ordering.{eq_by_cmp};
ghost use Rattle.odb_values.specs.declared.value.Value.{Value as Cell};
ghost use Rattle.odb_values.specs.Key.{IsKey};
ghost use Rattle.odb_values.specs.Value.{values_cmp};
ghost use Rattle.odb_model.specs.Table.{key_of};
ghost use Rattle.odb_model.specs.declared.reply.Reply.TheVariants.{Duplicate};
ghost use Rattle.odb_model.specs.Binding.{refuse_if};
ghost use Rattle.odb_model.specs.Meaning.{inserted, writes_of};
ghost use Rattle.odb_rowsource.specs.RowSource.{NoneFell};
ghost use Rattle.odb_exec.specs.Rows.{IsChangeOf, is_among, tuple_refusal, IsPutAmong};
ghost use Rattle.odb_exec.specs.Written.{keys_written};
ghost use Rattle.odb_exec.specs.Effect.{IsEffectOf};
ghost use Rattle.odb_exec.specs.Outcome.{IsCaused};

use crate::Trouble;
use crate::changes::Changes;
use crate::effect::{Effect, without_writes};
use crate::fitting::row_refusal;
use crate::placing::{key_of, row_of};
use crate::rows::RowChange;
use odb_catalog::TableDef;
use odb_model::{Reply, Write};
use odb_rowsource::{Intentions, RowSource};
use odb_values::{Duplicate, Key, Row, Value, Values};
use std::alloc::{AllocError, Global};
use std::collections::BTreeSet;

/// Keys of the tuples that have been judged, in order.
type Keys = BTreeSet<Key>;

/// Puts tuples into a table. Each is judged in its turn, against the rows that are there and the
/// tuples before it; it costs a look-up in the source, and where there are several one among the
/// earlier keys. It takes memory for 4,096 writes at most, and for the keys of several tuples.
pub fn insert<R: RowSource>(
    rows: &mut R,
    alloc: Global,
    table: &TableDef,
    tuples: &[Values],
    written: &Intentions,
    format: u16,
) -> Result<Effect, Trouble>
    ensures state { R.state rows.new ≡ R.state rows.old }
    ensures counts { NoneFell (R.faults rows.old) (R.faults rows.new) }
    ensures effect { IfOk result (IsEffectOf (inserted table.now tuples.now (R.state rows.old)
        (keys_written written.now.items) format)) }
    ensures cause { IfErr result (IsCaused (R.faults rows.old) (R.faults rows.new)) }
{
    match tuples {
        [tuple] => insert_one(rows, alloc, table, tuple, written, format),
        _ => insert_all(rows, alloc, table, tuples, written, format),
    }
}

/// Puts one tuple into a table.
fn insert_one<R: RowSource>(
    rows: &mut R,
    alloc: Global,
    table: &TableDef,
    tuple: &Values,
    written: &Intentions,
    format: u16,
) -> Result<Effect, Trouble>
    ensures state { R.state rows.new ≡ R.state rows.old }
    ensures counts { NoneFell (R.faults rows.old) (R.faults rows.new) }
    ensures effect { IfOk result (IsEffectOf (inserted table.now (tuple.now ∷ [])
        (R.state rows.old) (keys_written written.now.items) format)) }
    ensures cause { IfErr result (IsCaused (R.faults rows.old) (R.faults rows.new)) }
{
    let none = Changes::new(alloc, written);
    match change_alone(rows, alloc, format, table, tuple.as_slice())? {
        RowChange::Refused(reply) => Ok(without_writes(alloc, reply)),
        RowChange::Put(write) => {
            let changes = none.with(written, write)?;
            Ok(changes.into_effect(alloc))
        }
    }
}

/// Puts tuples into a table, and keeps the keys of those that were judged.
fn insert_all<R: RowSource>(
    rows: &mut R,
    alloc: Global,
    table: &TableDef,
    tuples: &[Values],
    written: &Intentions,
    format: u16,
) -> Result<Effect, Trouble>
    ensures state { R.state rows.new ≡ R.state rows.old }
    ensures counts { NoneFell (R.faults rows.old) (R.faults rows.new) }
    ensures effect { IfOk result (IsEffectOf (inserted table.now tuples.now (R.state rows.old)
        (keys_written written.now.items) format)) }
    ensures cause { IfErr result (IsCaused (R.faults rows.old) (R.faults rows.new)) }
{
    let mut changes = Changes::new(alloc, written);
    let mut earlier = BTreeSet::new(alloc);
    for tuple in tuples {
        match tuple_change(rows, alloc, format, table, &mut earlier, tuple.as_slice())? {
            RowChange::Refused(reply) => return Ok(without_writes(alloc, reply)),
            RowChange::Put(write) => changes = changes.with(written, write)?,
        }
    }
    Ok(changes.into_effect(alloc))
}

/// What an INSERT makes of a tuple behind tuples with these keys, to which its own is added where the
/// rows that are there don't refuse it.
fn tuple_change<R: RowSource>(
    rows: &mut R,
    alloc: Global,
    format: u16,
    table: &TableDef,
    earlier: &mut Keys,
    values: &[Value],
) -> Result<RowChange, Trouble>
    ensures state { R.state rows.new ≡ R.state rows.old }
    ensures counts { NoneFell (R.faults rows.old) (R.faults rows.new) }
    ensures change { IfOk result (IsChangeOf
        (tuple_refusal format table.now (R.state rows.old) earlier.old.keys values.now)
        (writes_of table.now values.now)) }
    ensures earlier { IfOk result
        (IsPutAmong earlier.old.keys earlier.new.keys (key_of table.now values.now)) }
    ensures cause { IfErr result (IsCaused (R.faults rows.old) (R.faults rows.new)) }
{
    match change_alone(rows, alloc, format, table, values)? {
        RowChange::Refused(reply) => Ok(RowChange::Refused(reply)),
        RowChange::Put(write) => Ok(put_behind(alloc, earlier, write)?),
    }
}

/// Puts a tuple's write behind tuples with these keys, to which its own is added; it is refused where
/// it is among them. The error is want of memory.
fn put_behind(alloc: Global, earlier: &mut Keys, write: Write) -> Result<RowChange, AllocError>
    ensures change { IfOk result
        (IsChangeOf (refuse_if (is_among earlier.old.keys write.key) Duplicate) (write ∷ [])) }
    ensures earlier { IfOk result (IsPutAmong earlier.old.keys earlier.new.keys write.key) }
{
    if earlier.insert(write.key.copy(alloc)?)? {
        Ok(RowChange::Put(write))
    } else {
        Ok(RowChange::Refused(Reply::Duplicate))
    }
}

/// What an INSERT makes of a tuple with none before it.
fn change_alone<R: RowSource>(
    rows: &mut R,
    alloc: Global,
    format: u16,
    table: &TableDef,
    values: &[Value],
) -> Result<RowChange, Trouble>
    ensures state { R.state rows.new ≡ R.state rows.old }
    ensures counts { NoneFell (R.faults rows.old) (R.faults rows.new) }
    ensures change { IfOk result (IsChangeOf
        (tuple_refusal format table.now (R.state rows.old) [] values.now)
        (writes_of table.now values.now)) }
    ensures cause { IfErr result (IsCaused (R.faults rows.old) (R.faults rows.new)) }
{
    let key = key_of(alloc, table, values)?;
    let row = row_of(alloc, table, values)?;
    if let Some(reply) = row_refusal(format, table, key.as_slice(), values, row.as_slice()) {
        return Ok(RowChange::Refused(reply));
    }
    let key = key_with(key);
    if rows.get(alloc, table.number(), &key)?.is_some() {
        return Ok(RowChange::Refused(Reply::Duplicate));
    }
    Ok(RowChange::Put(Write {
        bank: table.bank(),
        table: table.number(),
        key,
        row: Some(Row::new(row)),
    }))
}

/// The key of values that are one.
fn key_with(values: Values) -> Key
    requires { IsKey values }
    ensures { result ≡ values }
{
    match Key::new(values) {
        Ok(key) => key,
        Err(_) => unreachable!(),
    }
}
