//! A statement of an open transaction.
ghost use Rattle.std.specs.Prelude.{◌≡◌, ◌≤◌, IfOk, IfErr, OnOk, OnErr};
ghost use Rattle.odb_rowsource.specs.Intentions.{laid_over};
ghost use Rattle.odb_exec.specs.declared.error.Trouble.TheVariants.{NoMemory};
ghost use Rattle.odb_exec.specs.Written.{keys_written};
ghost use Rattle.odb_exec.specs.Outcome.{IsOutcomeOf};
ghost use Rattle.odb_txn.specs.Transaction.{IsKept};
ghost use Rattle.odb_system.specs.Open.{HasKeyedRows, meaning_on, grown_on};

use odb_exec::{Trouble, execute};
use odb_keytable::{CommittedRows, Rows};
use odb_model::{Outcome, Reply, Statement};
use odb_rowsource::Overlay;
use odb_txn::Transaction;
use std::alloc::{AllocError, Global};

/// Runs a statement of a transaction on the committed rows, with those that the transaction has
/// written laid over them, where the history has so many entries and in a database of this format,
/// which is 1: its reply. What it read and wrote is added to the transaction. The error is want of
/// memory: then the transaction is as before.
///
/// Entries that wait are folded into the rows first; beside that it costs what
/// [`odb_exec::execute`] costs over both.
pub(crate) fn run_statement(
    alloc: Global,
    rows: &mut CommittedRows,
    transaction: &mut Transaction,
    statement: &Statement,
    number: u64,
    format: u16,
) -> Result<Reply, AllocError>
    requires format { format ≡ 1 }
    requires keys { HasKeyedRows rows.old.state transaction.old }
    ensures reply { IfOk result (λ reply. reply
        ≡ (meaning_on rows.old.state statement.now transaction.old format).reply) }
    ensures ok { OnOk result (transaction.new
        ≡ grown_on rows.old.state statement.now transaction.old number format) }
    ensures err { OnErr result (transaction.new ≡ transaction.old) }
    ensures state { rows.new.state ≡ rows.old.state }
    ensures fewer { rows.new.waiting ≤ rows.old.waiting }
{
    let Ok(()) = rows.settle(alloc) else {
        return Err(AllocError);
    };
    let Outcome {
        reply,
        writes,
        reads,
    } = match outcome_in(alloc, rows.rows(), transaction, statement, format) {
        Ok(outcome) => outcome,
        Err(Trouble::NoMemory) => return Err(AllocError),
        Err(Trouble::RowFault { file: _ }) => unreachable!(),
    };
    let done = Outcome {
        reply: Reply::Okay,
        writes,
        reads,
    };
    let Ok(()) = transaction.add(statement, done, number) else {
        return Err(AllocError);
    };
    Ok(reply)
}

/// What a statement does on these rows with those that a transaction has written laid over them. The
/// rows are read from no file, so the error is want of memory.
fn outcome_in(
    alloc: Global,
    rows: Rows<'_>,
    transaction: &Transaction,
    statement: &Statement,
    format: u16,
) -> Result<Outcome, Trouble>
    ensures outcome { IfOk result (IsOutcomeOf statement.now
        (laid_over rows.entry.table.now transaction.now.own) (keys_written transaction.now.own) format) }
    ensures kept { IsKept transaction.now }
    ensures cause { IfErr result (λ error. error ≡ NoMemory) }
{
    let own = transaction.own();
    let mut seen = Overlay { base: rows, own };
    execute(&mut seen, alloc, statement, own, format)
}
