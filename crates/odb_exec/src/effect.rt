//! What a statement does to rows.
ghost use Rattle.std.specs.Prelude.{◌≡◌};
ghost use Rattle.odb_model.specs.Meaning.{refused};
ghost use Rattle.odb_exec.specs.Effect.{IsEffectOf};

use odb_model::{Reply, Writes};
use odb_values::Frozen;
use std::alloc::Global;

/// What a statement does to rows: its reply, and its writes in their order.
#[derive(Debug, Drop)]
pub struct Effect {
    pub reply: Reply,
    pub writes: Writes,
}

/// A statement with this reply that writes nothing. It takes no memory.
pub fn without_writes(alloc: Global, reply: Reply) -> Effect
    ensures { IsEffectOf (refused reply) result }
{
    Effect {
        reply,
        writes: Frozen::empty(alloc),
    }
}
