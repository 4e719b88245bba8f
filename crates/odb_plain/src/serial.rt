//! A transaction that runs alone, as in a serial execution.
ghost use Rattle.std.specs.Prelude.{◌≡◌, IfOk};
ghost use Rattle.odb_model.specs.State.{replay};
ghost use Rattle.odb_model.specs.Transaction.{alone};

use crate::execution::execute_on;
use crate::net_writes;
use crate::state::{put_all, state_after};
use odb_model::{Entry, Outcome, Reply, Statement, Writes};
use odb_values::{Frozen, List};
use std::alloc::{AllocError, Global};

/// What a transaction that runs alone answers and leaves.
#[derive(Debug, Drop)]
pub struct SerialRun {
    /// The reply to each statement, in their order.
    pub replies: Frozen<Reply>,
    /// The net writes, by table and then in key order.
    pub net: Writes,
}

/// Runs the statements of a transaction one after another on the rows that a history leaves, in a
/// database of this format. The history stays as it is.
///
/// It goes over the history once, and takes memory for all rows that it leaves; then it costs what
/// [`crate::execute_on`] costs for each statement, and what [`net_writes`] costs once. The error is
/// want of memory.
pub fn alone(
    alloc: Global,
    statements: &[Statement],
    history: &[Entry],
    format: u16,
) -> Result<SerialRun, AllocError>
    ensures replies { IfOk result
        (λ run. run.replies ≡ (alone statements.now (replay history.now) format).replies) }
    ensures net { IfOk result
        (λ run. run.net ≡ (alone statements.now (replay history.now) format).net) }
{
    let mut replies = List::new(alloc);
    let mut write_set = List::new(alloc);
    let mut rows = state_after(alloc, history, &[])?;
    for statement in statements {
        let Outcome {
            reply,
            writes,
            reads: _,
        } = execute_on(alloc, statement, &rows, write_set.as_slice(), format)?;
        replies.reserve()?;
        replies.push(reply);
        put_all(alloc, &mut rows, writes.as_slice())?;
        write_set.append(writes)?;
    }
    Ok(SerialRun {
        replies: Frozen::new(replies),
        net: net_writes(alloc, history, write_set.as_slice())?,
    })
}
