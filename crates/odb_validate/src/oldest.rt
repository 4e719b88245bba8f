//! The oldest of some reads.
ghost use Rattle.std.specs.Prelude.{◌≡◌, Some};
ghost use Rattle.odb_model.specs.Window.{least_with, oldest_number};

use odb_model::Read;

/// The least number of the reads, or None where there is none. Each is looked at once.
pub(crate) fn oldest_number(reads: &[Read]) -> Option<u64>
    ensures { result ≡ oldest_number reads.now }
{
    let mut oldest = None;
    for read in reads {
        oldest = Some(least_with(read.number, oldest));
    }
    oldest
}

/// The lesser of a number and another, where there is another.
fn least_with(number: u64, other: Option<u64>) -> u64
    ensures { Some result ≡ least_with number other }
{
    match other {
        None => number,
        Some(other) => number.min(other),
    }
}
