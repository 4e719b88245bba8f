//! The laws about the definitions, each the contract of a function with nothing to do.
ghost use Rattle.std.specs.Prelude.{length};
ghost use Rattle.odb_lex.specs.Laws.{ForEachToken};
ghost use Rattle.odb_lex.specs.Token.{IsTokenOf, StandsIn};

/// Tokens stand behind the place from which they are asked for, ascend, and are what their kinds
/// say.
pub fn tokens_stand()
    ensures stands { ForEachToken (λ text at token. StandsIn at token (length text)) }
    ensures slice { ForEachToken (λ text _ token. IsTokenOf text token) }
{}
