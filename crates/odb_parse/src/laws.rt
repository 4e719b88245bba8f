//! The laws about the definitions, each the contract of a function with nothing to do.
ghost use Rattle.odb_parse.specs.Answering.{AnswersOnce};

/// Each text has one answer at most: it spells one statement, or is refused for one reason at one
/// place.
pub fn answers_once()
    ensures { AnswersOnce }
{}
