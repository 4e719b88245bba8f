//! The rule of the word, and the names of the steps on it.
use crate::opening::Opening;
use crate::view::SeatView;
use atomic_table::{Join, Play, Split, TableRule};
use odb_model::Entry;

/// The rule of the word.
pub struct Counts;

impl TableRule<Entry, SeatView, Opening> for Counts {
    ghost use Rattle.odb_words.specs.Rule.{IsRuled};
    ghost use Rattle.odb_words.specs.Moves.{first_view};

    ghost holds = { IsRuled };

    ghost first = { first_view };
}

/// The Book makes the next seat.
pub struct Makes;

impl Split<SeatView> for Makes {
    ghost use Rattle.odb_words.specs.Moves.{counted, made_next};

    ghost left = { counted };

    ghost right = { made_next };
}

/// A seat gives a Note of its list.
pub struct Notes;

impl Split<SeatView> for Notes {
    ghost use Rattle.odb_words.specs.Moves.{note_of};

    ghost left = { λ v. v };

    ghost right = { note_of };
}

/// A seat gives a Note of its list, with the pen.
pub struct LendsPen;

impl Split<SeatView> for LendsPen {
    ghost use Rattle.odb_words.specs.Moves.{without_pen, note_with_pen};

    ghost left = { without_pen };

    ghost right = { note_with_pen };
}

/// A seat gives a Note of its list, with its right.
pub struct LendsRight;

impl Split<SeatView> for LendsRight {
    ghost use Rattle.odb_words.specs.Moves.{without_right, note_with_right};

    ghost left = { without_right };

    ghost right = { note_with_right };
}

/// A seat takes a Note in, and the longer list.
pub struct Meets;

impl Join<SeatView> for Meets {
    ghost use Rattle.odb_words.specs.Moves.{met, spent};

    ghost both = { met };

    ghost spent = { spent };
}

/// A seat that has the whole list takes a Note in, and keeps its own list.
pub struct Hears;

impl Join<SeatView> for Hears {
    ghost use Rattle.odb_words.specs.Moves.{heard, spent};

    ghost both = { heard };

    ghost spent = { spent };
}

/// A seat loads the count.
pub struct Looks;

impl Play<Entry, SeatView> for Looks {
    ghost use Rattle.odb_words.specs.Moves.{Looked};

    ghost then = { Looked };
}

/// The View appends an entry.
pub struct Appends;

impl Play<Entry, SeatView> for Appends {
    ghost use Rattle.odb_words.specs.Moves.{Appended};

    ghost then = { Appended };
}
