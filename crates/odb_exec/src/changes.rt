//! The writes of a statement while they are gathered.
ghost use Rattle.std.specs.Prelude.{◌≡◌, ◌+◌, List, [], ◌∷◌, ◌++◌, length, not, is_some, IfOk, if◌then◌else◌};
ghost use Rattle.odb_model.specs.declared.write.Write.{Write};
ghost use Rattle.odb_model.specs.declared.table_key.TableKey.{TableKey};
ghost use Rattle.odb_model.specs.State.{table_key_of};
ghost use Rattle.odb_model.specs.Meaning.{done};
ghost use Rattle.odb_rowsource.specs.Intentions.{intention_at};
ghost use Rattle.odb_exec.specs.Written.{keys_written, IsUnwritten};
ghost use Rattle.odb_exec.specs.Changes.{StandsFor};
ghost use Rattle.odb_exec.specs.Effect.{IsEffectOf};

use crate::effect::{Effect, without_writes};
use crate::kept::Kept;
use odb_model::{Reply, Write};
use odb_rowsource::Intentions;
use odb_values::Frozen;
use std::alloc::{AllocError, Global};

/// The most keys that a transaction may write.
const MOST_WRITES: usize = 4096;

/// The writes of a statement as far as it has come.
///
/// They are kept as long as the transaction may write so many keys, so there are never more than
/// 4,096; behind that they are dropped, and the statement only looks for what refuses it before.
#[derive(Drop)]
pub enum Changes {
    /// These.
    Few(Kept),
    /// More than may be written.
    TooMany,
}

impl Changes {
    /// No write, of a transaction that intends this. It takes no memory.
    pub fn new(alloc: Global, written: &Intentions) -> Changes
        ensures { StandsFor (keys_written written.now.items) [] result }
    {
        Changes::Few(Kept {
            writes: Vec::new(alloc),
            keys: written.as_slice().len(),
        })
    }

    /// With a write more, to a key that the statement hasn't written. It costs a look-up among the
    /// intentions. The error is want of memory.
    pub fn with(self, written: &Intentions, write: Write) -> Result<Changes, AllocError>
        ensures { (writes : List Write)
            → StandsFor (keys_written written.now.items) writes self
            → IsUnwritten (table_key_of write) writes
            → IfOk result
            (StandsFor (keys_written written.now.items) (writes ++ write ∷ [])) }
    {
        match self {
            Changes::TooMany => Ok(Changes::TooMany),
            Changes::Few(kept) => kept_with(kept, written, write),
        }
    }

    /// What the statement does where nothing refuses it, each write changing a row. It takes no
    /// memory.
    pub fn into_effect(self, alloc: Global) -> Effect
        ensures { (written : List TableKey) (writes : List Write) → StandsFor written writes self
            → IsEffectOf (done written (length writes) writes) result }
    {
        match self {
            Changes::TooMany => without_writes(alloc, Reply::TooManyWrites),
            Changes::Few(kept) => {
                let Kept { writes, keys: _ } = kept;
                Effect {
                    reply: Reply::Done(writes.len() as u64),
                    writes: Frozen::from_vec(writes),
                }
            }
        }
    }
}

/// Puts a write behind those that are kept, where the transaction may write one more key.
fn kept_with(kept: Kept, written: &Intentions, write: Write) -> Result<Changes, AllocError>
    ensures { (writes : List Write)
        → StandsFor (keys_written written.now.items) writes (Changes.Few kept)
        → IsUnwritten (table_key_of write) writes
        → IfOk result (StandsFor (keys_written written.now.items) (writes ++ write ∷ [])) }
{
    let Kept { mut writes, keys } = kept;
    let keys = keys + new_keys(written, &write);
    if keys > MOST_WRITES {
        return Ok(Changes::TooMany);
    }
    writes.push(write)?;
    Ok(Changes::Few(Kept { writes, keys }))
}

/// 1 where a transaction hasn't written the key of a write, else 0.
fn new_keys(written: &Intentions, write: &Write) -> usize
    ensures { result ≡ (if is_some (intention_at (table_key_of write.now) written.now.items)
        then 0 else 1) }
{
    match written.get(write.table, &write.key) {
        Some(_) => 0,
        None => 1,
    }
}
