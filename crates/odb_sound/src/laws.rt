//! The law of sound machines, the contract of a function with nothing to do.
ghost use Rattle.std.specs.Prelude.{◌≡◌, ◌≤◌, ℕ, List, [], ◌++◌};
ghost use Rattle.odb_model.specs.declared.entry.Entry.{Entry};
ghost use Rattle.odb_model.specs.declared.event.Event.{Event};
ghost use Rattle.odb_model.specs.declared.reply.Reply.{Reply};
ghost use Rattle.odb_model.specs.State.{replay};
ghost use Rattle.odb_model.specs.Databanks.{next_number};
ghost use Rattle.odb_machine.specs.Sides.{Sides};
ghost use Rattle.odb_machine.specs.Book.{Seen};
ghost use Rattle.odb_machine.specs.Machine.{Machine, Step, first_machine};
ghost use Rattle.odb_sound.specs.Sound.{IsSoundHistory, IsSound, IsSpelledEvent};

/// A new database is sound, and in a database of format 1 every step of the machine keeps it so: a
/// control, or a statement that some text spells. The next number of a sound history is at least
/// that of each of its beginnings.
pub fn stays_sound()
    ensures begins { (format : ℕ) (sides : Sides) → IsSound (first_machine format sides []) }
    ensures kept { (m after : Machine) (event : Event) (seen : Seen) (reply : Reply)
        → m.format ≡ 1 → IsSpelledEvent event → IsSound m → Step m event seen reply after
        → IsSound after }
    ensures rises { (h more : List Entry) → IsSoundHistory (h ++ more)
        → next_number (replay h) ≤ next_number (replay (h ++ more)) }
{}
