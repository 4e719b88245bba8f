//! What the book and the catalog answer, as replies.
ghost use Rattle.std.specs.Prelude.{◌≡◌};
ghost use Rattle.odb_machine.specs.Book.{ends_transaction};
ghost use Rattle.odb_system.specs.Held.{reply_of, turn_reply};

use odb_commit::CommitError;
use odb_model::Reply;
use odb_transdb::TransdbError;

/// The reply that tells why a commit isn't made, or isn't known to be.
pub(crate) fn reply_of(error: CommitError) -> Reply
    ensures { result ≡ reply_of error }
{
    match error {
        CommitError::Halted { number } => Reply::Halted(number),
        CommitError::Aged { oldest, start } => Reply::Aged { oldest, start },
        CommitError::Conflict { number } => Reply::Conflict(number),
        CommitError::Full { need, room } => Reply::Full { need, room },
        CommitError::FaultBefore => Reply::Fault(0),
        CommitError::InDoubt { number } => Reply::InDoubt(number),
        CommitError::HistoryFull => Reply::HistoryFull,
        CommitError::NoMemory => Reply::Memory,
    }
}

/// What TURN is answered, where this side takes the entries from this number on behind it.
pub(crate) fn turn_reply(turned: Result<(), TransdbError>, side: u32, next: u64) -> Reply
    ensures { result ≡ turn_reply side next turned }
{
    match turned {
        Ok(()) => Reply::Turned { side, first: next },
        Err(error) => match error {
            TransdbError::NotClean => Reply::NotClean,
            TransdbError::NoDatabase
            | TransdbError::Damaged { .. }
            | TransdbError::Full { .. }
            | TransdbError::FaultBefore
            | TransdbError::InDoubt { .. }
            | TransdbError::Held { .. }
            | TransdbError::Fault
            | TransdbError::NoMemory => Reply::Fault(0),
        },
    }
}

/// Whether a transaction is over behind the reply to its COMMIT.
pub(crate) fn ends_transaction(reply: &Reply) -> bool
    ensures { result ≡ ends_transaction reply.now }
{
    match reply {
        Reply::Committed(_)
        | Reply::Ended(_)
        | Reply::InDoubt(_)
        | Reply::Aged { .. }
        | Reply::Conflict(_) => true,
        _ => false,
    }
}
