//! The laws about the machine, each the contract of a function with nothing to do.
ghost use Rattle.std.specs.Prelude.{ℕ, List};
ghost use Rattle.odb_model.specs.declared.entry.Entry.{Entry};
ghost use Rattle.odb_model.specs.State.{IsHistory};
ghost use Rattle.odb_machine.specs.Sides.{Sides};
ghost use Rattle.odb_machine.specs.Machine.{Machine, first_machine};
ghost use Rattle.odb_machine.specs.Answered.{AnsweredFromSnapshots};
ghost use Rattle.odb_machine.specs.Play.{Answer, IsRun, AllSerial};

/// Whatever lines are answered from a machine on whose open transactions have got their replies,
/// each transaction that is committed is serial at its place. The first machine of a history is
/// such a machine.
pub fn runs_serially()
    ensures first { (format : ℕ) (sides : Sides) (h : List Entry)
        → IsHistory h → AnsweredFromSnapshots (first_machine format sides h) }
    ensures serial { (m : Machine) (lines : List (List ℕ)) (answers : List Answer)
        → AnsweredFromSnapshots m → IsRun m lines answers → AllSerial m answers }
{}
