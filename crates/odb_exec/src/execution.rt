//! The execution of a statement.
ghost use Rattle.std.specs.Prelude.{◌≡◌, [], IfOk, IfErr};
ghost use Rattle.odb_rowsource.specs.RowSource.{NoneFell};
ghost use Rattle.odb_exec.specs.Written.{keys_written};
ghost use Rattle.odb_exec.specs.Outcome.{IsOutcomeOf, IsCaused, IsOnRows};

use crate::Trouble;
use crate::on_table::execute_on;
use odb_catalog::table_named;
use odb_model::{Outcome, Reply, Statement};
use odb_rowsource::{Intentions, RowSource};
use odb_values::{Frozen, Text};
use std::alloc::Global;

/// What a statement does on the rows that a source tells, in a transaction that intends this and a
/// database of this format, 1 or 2: its reply, its writes in their order, and the ranges that it has
/// read. A statement that is refused writes nothing and has read all the same. START, COMMIT and
/// ROLLBACK do nothing to rows; those that aren't on rows aren't built.
///
/// A SELECT, UPDATE or DELETE looks its table up, binds its names once, and asks the source for each
/// row of its range once; an INSERT looks each of its keys up. It takes memory for the reply, the
/// ranges and at most 4,096 writes, and for the keys of an INSERT of several tuples. Nothing has
/// changed on an error.
pub fn execute<R: RowSource>(
    rows: &mut R,
    alloc: Global,
    statement: &Statement,
    written: &Intentions,
    format: u16,
) -> Result<Outcome, Trouble>
    ensures state { R.state rows.new ≡ R.state rows.old }
    ensures counts { NoneFell (R.faults rows.old) (R.faults rows.new) }
    ensures outcome { IfOk result (IsOutcomeOf statement.now (R.state rows.old)
        (keys_written written.now.items) format) }
    ensures cause { IfErr result (IsCaused (R.faults rows.old) (R.faults rows.new)) }
{
    match statement {
        Statement::Start => Ok(mark(alloc, Reply::Okay)),
        Statement::Commit => Ok(mark(alloc, Reply::Okay)),
        Statement::Rollback => Ok(mark(alloc, Reply::Okay)),
        Statement::Select {
            what: _,
            table,
            filter: _,
        } => on_named(rows, alloc, table, statement, written, format),
        Statement::Insert { table, tuples: _ } => {
            on_named(rows, alloc, table, statement, written, format)
        }
        Statement::Update {
            table,
            sets: _,
            filter: _,
        } => on_named(rows, alloc, table, statement, written, format),
        Statement::Delete { table, filter: _ } => {
            on_named(rows, alloc, table, statement, written, format)
        }
        _ => Ok(mark(alloc, Reply::NotYet)),
    }
}

/// A statement that does nothing to rows. It takes no memory.
fn mark(alloc: Global, reply: Reply) -> Outcome
    ensures { result ≡ record { reply = reply; writes = []; reads = [] } }
{
    Outcome {
        reply,
        writes: Frozen::empty(alloc),
        reads: Frozen::empty(alloc),
    }
}

/// A statement on the rows of the table of this name.
fn on_named<R: RowSource>(
    rows: &mut R,
    alloc: Global,
    name: &Text,
    statement: &Statement,
    written: &Intentions,
    format: u16,
) -> Result<Outcome, Trouble>
    requires { IsOnRows statement.now name.now }
    ensures state { R.state rows.new ≡ R.state rows.old }
    ensures counts { NoneFell (R.faults rows.old) (R.faults rows.new) }
    ensures outcome { IfOk result (IsOutcomeOf statement.now (R.state rows.old)
        (keys_written written.now.items) format) }
    ensures cause { IfErr result (IsCaused (R.faults rows.old) (R.faults rows.new)) }
{
    let table = table_named(rows, alloc, name)?;
    execute_on(rows, alloc, &table, name, statement, written, format)
}
