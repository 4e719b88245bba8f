//! The law of the printed text, the contract of a function with nothing to do.
ghost use Rattle.std.specs.Prelude.{ℕ, List};
ghost use Rattle.odb_model.specs.declared.statement.Statement.{Statement};
ghost use Rattle.odb_model.specs.Answer.{IsStatementText};
ghost use Rattle.odb_model.specs.Canonical.{statement_text};

/// What some text spells, the statement's printed text spells too: reading it gives the statement
/// back.
pub fn prints_back()
    ensures { (text : List ℕ) (st : Statement) → IsStatementText text st →
        IsStatementText (statement_text st) st }
{}
