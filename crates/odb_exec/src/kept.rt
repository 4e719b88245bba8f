//! Writes that are kept.
ghost use Rattle.std.specs.Prelude.{◌≤◌};

use odb_model::Write;

/// Writes, and how many different keys the transaction has written with them: at most 4,096.
#[derive(Drop)]
pub struct Kept {
    pub writes: Vec<Write>,
    pub keys: usize,
    ghost few: { keys ≤ 4096 },
}
