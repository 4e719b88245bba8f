//! The reply and the writes of a statement.
ghost use Rattle.std.specs.Prelude.{◌≡◌, IfOk};
ghost use Rattle.odb_model.specs.Meaning.{refused, done};
ghost use Rattle.odb_model.specs.Transaction.{table_keys};

use crate::net::are_too_many;
use odb_model::{Reply, Write, Writes};
use odb_values::Frozen;
use std::alloc::{AllocError, Global};
use std::marker::Model;

/// The reply and the writes of a statement. Contracts see it as the definitions' `Meaning`.
#[derive(Drop)]
pub(crate) struct Effect {
    pub(crate) reply: Reply,
    pub(crate) writes: Writes,
}

impl Model for Effect {
    ghost use Rattle.odb_model.specs.Meaning.{Meaning};

    ghost Value = { Meaning };

    ghost view = { λ a. record { reply = a.reply; writes = a.writes } };
}

impl Effect {
    /// A statement that answers this and writes nothing. It takes no memory.
    pub(crate) fn refused(alloc: Global, reply: Reply) -> Effect
        ensures { result ≡ refused reply }
    {
        Effect {
            reply,
            writes: Frozen::empty(alloc),
        }
    }

    /// A statement that changes so many rows by these writes, unless its transaction would have
    /// written too many keys. The error is want of memory.
    pub(crate) fn done(
        alloc: Global,
        write_set: &[Write],
        count: usize,
        writes: Writes,
    ) -> Result<Effect, AllocError>
        ensures { IfOk result
            (λ effect. effect ≡ done (table_keys write_set.now) count writes) }
    {
        if are_too_many(alloc, write_set, writes.as_slice())? {
            return Ok(Effect::refused(alloc, Reply::TooManyWrites));
        }
        Ok(Effect {
            reply: Reply::Done(count as u64),
            writes,
        })
    }
}
