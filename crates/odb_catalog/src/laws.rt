//! The law of definitions, the contract of a function with nothing to do.
ghost use Rattle.std.specs.Prelude.{◌≡◌, List};
ghost use Rattle.odb_model.specs.declared.statement.Statement.{Statement};
ghost use Rattle.odb_model.specs.declared.write.Write.{Write};
ghost use Rattle.odb_model.specs.State.{State, after_writes};
ghost use Rattle.odb_model.specs.Definitions.{IsSpelled, Plans, planned};
ghost use Rattle.odb_catalog.specs.Telling.{HasDone, AreUsed};

/// What a definition writes is what the dictionary then tells: after a CREATE TABLE the table that was
/// asked for, under the next number, and after a DROP TABLE none of the name; no other row changes.
/// Numbers are never used again: where those of all tables and databanks and of their files are below
/// the next number, as those of a new database are, each definition keeps them so, and the next number
/// never falls.
pub fn tells_what_is_planned()
    ensures done { (st : Statement) (s : State) (writes : List Write)
        → IsSpelled st → planned st s ≡ Plans writes → HasDone st s (after_writes s writes) }
    ensures used { (st : Statement) (s : State) (writes : List Write)
        → IsSpelled st → planned st s ≡ Plans writes → AreUsed s
        → AreUsed (after_writes s writes) }
{}
