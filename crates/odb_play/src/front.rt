//! How much of a line tells its answer.
ghost use Rattle.std.specs.Prelude.{ℕ, ◌<◌, ◌≤◌, List, length, take};
ghost use Rattle.odb_model.specs.declared.reply.Head.{Head};
ghost use Rattle.odb_model.specs.declared.reply.Reply.{Reply};
ghost use Rattle.odb_model.specs.declared.event.Event.{Event};
ghost use Rattle.odb_model.specs.Script.{IsRequest, IsRefused};

/// The most bytes of a line that asks for anything: two digits of its session, a space, and the
/// longest text. No control line is that long.
///
/// Who keeps one byte more of a longer line, or any more of its front, has all that its answer
/// takes.
pub const LONGEST_LINE: usize = 65_539;

/// The law by which a longer line is answered from its front: it does nothing.
///
/// Lines are meant as [`crate::event_of`] takes them, without LF or the CR before it.
pub fn reads_fronts()
    // A front of more bytes asks for nothing, and the whole line is refused as the front is.
    ensures front { (line : List ℕ) (n : ℕ) → LONGEST_LINE < n → n < length line
        → (event : Event) → IsRequest (take n line) event → ⊥ }
    ensures refused { (line : List ℕ) (n : ℕ) → LONGEST_LINE < n → n < length line
        → (head : Head) (reply : Reply)
        → IsRefused (take n line) head reply → IsRefused line head reply }

    // Nor does any longer line ask for anything.
    ensures short { (line : List ℕ) (event : Event) → IsRequest line event
        → length line ≤ LONGEST_LINE }
{}
