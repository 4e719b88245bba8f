//! Counts of faults.
ghost use Rattle.std.specs.Prelude.{◌≡◌, ◌+◌, ◌≤◌, Ok, IsOk, IfOk, OnErr};
ghost use Rattle.odb_device.specs.Counts.{Rose};

use odb_device::Failed;
use std::io;

/// How often each part of a host failed so far, and whether the end of the input was met. Each count
/// stands still at the end of its type.
#[derive(Clone, Copy, Debug)]
pub struct Counts {
    /// Calls of the store that failed, on whichever file.
    pub file_faults: u64,
    /// Calls of `take` that failed.
    pub take_faults: u64,
    /// Calls of `say` that failed.
    pub say_faults: u64,
    /// Whether some `take` found the input at its end.
    pub has_ended: bool,
}

/// What std answered. An error is counted as one more fault, where the type of the count has room
/// for it.
pub(crate) fn counted<T>(answer: io::Result<T>, faults: &mut u64) -> Result<T, Failed>
    ensures ok { IfOk answer (λ value. result ≡ Ok value) }
    ensures ok_only { IfOk result (λ value. answer ≡ Ok value) }
    ensures same { IsOk answer → faults.new ≡ faults.old }
    ensures risen { OnErr result (Rose faults.old faults.new) }
    ensures kept { faults.old ≤ faults.new }
    ensures once { faults.new ≤ faults.old + 1 }
{
    match answer {
        Ok(value) => Ok(value),
        Err(_) => {
            *faults = faults.saturating_add(1);
            Err(Failed)
        }
    }
}
