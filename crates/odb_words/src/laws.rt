//! The rule as laws, each the contract of a function with nothing to do.
ghost use Rattle.odb_words.specs.Steps.{Starts, LoadKeeps, AppendKeeps, SplitKeeps, MakeKeeps};
ghost use Rattle.odb_words.specs.Steps.{JoinKeeps, HearKeeps, OnePen, OneRight, OneOfEach};
ghost use Rattle.odb_words.specs.Steps.{ViewRules, BookAlone, OneOpening, ListsNumbered};

/// The rule holds of a new word, and each kind of step keeps it. So it holds between any two steps,
/// whatever threads take them and in whatever order.
pub fn steps_keep_the_rule()
    ensures starts { Starts }
    ensures load { LoadKeeps }
    ensures append { AppendKeeps }
    ensures split { SplitKeeps }
    ensures make { MakeKeeps }
    ensures join { JoinKeeps }
    ensures hear { HearKeeps }
{}

/// What the rule says: one opening, one seat of each kind, one pen, one right for each session, and
/// lists that are prefixes of one list, which the word counts.
pub fn the_rule_says()
    ensures opened { OneOpening }
    ensures numbered { ListsNumbered }
    ensures each { OneOfEach }
    ensures pen { OnePen }
    ensures right { OneRight }
    ensures view { ViewRules }
    ensures book { BookAlone }
{}
