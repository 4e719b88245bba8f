//! The laws of the window, each the contract of a function with nothing to do.
ghost use Rattle.std.specs.Prelude.{◌≡◌, ℕ, ◌<◌, ◌≤◌, List, [], ◌∷◌, ◌++◌, All, length, drop, Bool};
ghost use Rattle.odb_model.specs.declared.entry.Entry.{Entry};
ghost use Rattle.odb_model.specs.declared.outcome.Read.{Read};
ghost use Rattle.odb_model.specs.State.{IsHistory};
ghost use Rattle.odb_model.specs.Window.{write_count, window_start, window_writes};
ghost use Rattle.odb_validate.specs.Window.{Windowed, last_number, push, reserve, IsWindow};
ghost use Rattle.odb_validate.specs.Validation.{validated};

/// The start of a history's window is the number of entries before its longest suffix that has at
/// most 262,144 writes: that suffix has no more, and each longer one has.
pub fn finds_longest_suffix()
    ensures within { (h : List Entry) → window_start h ≤ length h }
    ensures fits { (h : List Entry) → write_count (drop (window_start h) h) ≤ window_writes }
    ensures longest { (h : List Entry) (n : ℕ)
        → n < window_start h → window_writes < write_count (drop n h) }
{}

/// The window of a history answers to reads what the whole history would. It is made where the
/// history has `since` entries, and follows the history by `reserve` and `push`. Reads are never
/// below `since`, since the transactions that made them were begun later.
pub fn stands_for_history()
    ensures begins { (h : List Entry) (reserved : Bool)
        → IsWindow (length h) h
        (record { start = length h; entries = []; is_reserved = reserved }) }
    ensures reserves { (since : ℕ) (h : List Entry) (w : Windowed)
        → IsWindow since h w → IsWindow since h (reserve w) }
    ensures grows { (since : ℕ) (h : List Entry) (w : Windowed) (e : Entry)
        → IsWindow since h w → IsWindow since (h ++ e ∷ []) (push w e) }
    ensures last { (since : ℕ) (h : List Entry) (w : Windowed)
        → IsWindow since h w → last_number w ≡ length h }
    ensures judges { (since : ℕ) (h : List Entry) (w : Windowed) (reads : List Read)
        → IsHistory h → IsWindow since h w → All (λ r. since ≤ r.number) reads
        → validated w.start w.entries reads ≡ validated (window_start h) h reads }
{}
