//! What a statement makes of rows.
ghost use Rattle.std.specs.Prelude.{◌≡◌, List, Option, IfOk};
ghost use Rattle.odb_model.specs.declared.write.Write.{Write};
ghost use Rattle.odb_model.specs.declared.reply.Reply.{Reply};
ghost use Rattle.odb_model.specs.Meaning.{refused_or, done};
ghost use Rattle.odb_model.specs.Transaction.{table_keys};
ghost use Rattle.odb_plain.specs.Changes.{AreChangesOf};

use crate::changes::Changes;
use crate::effect::Effect;
use odb_model::Write;
use std::alloc::{AllocError, Global};

/// What a statement does whose changes these are, so many rows in all. The error is want of memory.
pub(crate) fn effect_of(
    alloc: Global,
    write_set: &[Write],
    count: usize,
    changes: Changes,
) -> Result<Effect, AllocError>
    ensures { (refusal : Option Reply) (writes : List Write) → AreChangesOf refusal writes changes
        → IfOk result (λ effect. effect
        ≡ refused_or refusal (done (table_keys write_set.now) count writes)) }
{
    match changes {
        Changes::Refused(reply) => Ok(Effect::refused(alloc, reply)),
        Changes::Made(writes) => Effect::done(alloc, write_set, count, writes),
    }
}
