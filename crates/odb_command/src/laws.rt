//! The laws of command words, each the contract of a function with nothing to do.
ghost use Rattle.std.specs.Prelude.{◌≡◌, ℕ, List};
ghost use Rattle.odb_command.specs.declared.command.Command.{Command};
ghost use Rattle.odb_command.specs.Command.{IsCommand};

/// Words ask for one command at most, which follows from nothing but the words.
pub fn asks_for_one()
    ensures { (words : List (List ℕ)) (c d : Command)
        → IsCommand words c → IsCommand words d → c ≡ d }
{}
