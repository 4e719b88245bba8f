//! Whether entries are a history.
ghost use Rattle.std.specs.Bool.{OnTrue};
ghost use Rattle.odb_model.specs.State.{IsHistory, IsNumberedFrom};

use odb_model::Entry;

/// Whether the n-th entry has the number n.
pub fn is_history(entries: &[Entry]) -> bool
    ensures { OnTrue result (IsHistory entries.now) }
{
    are_numbered(entries, 1)
}

/// Whether the entries have ascending numbers from this one on.
fn are_numbered(entries: &[Entry], first: u64) -> bool
    ensures { OnTrue result (IsNumberedFrom first entries.now) }
{
    match entries {
        [] => true,
        [entry, rest @ ..] => match first.checked_add(1) {
            Some(next) => entry.number == first && are_numbered(rest, next),
            None => false,
        },
    }
}
