//! The steps that seats take, each a single one on the word.
ghost use Rattle.std.specs.Prelude.{◌≡◌, ◌+◌, ◌<◌, ℕ, [], length, true, false, Some};
ghost use Rattle.odb_model.specs.State.{IsNumberedFrom};
ghost use Rattle.odb_words.specs.declared.view.Kind.{Kind};
ghost use Rattle.odb_words.specs.Views.{is_view, has_all, pens, rights};
ghost use Rattle.odb_words.specs.Rule.{Fits};
ghost use Rattle.odb_words.specs.Moves.{note_of, note_with_pen, note_with_right, without_pen};
ghost use Rattle.odb_words.specs.Moves.{without_right, met, heard, appended, settled, counted};
ghost use Rattle.odb_words.specs.Moves.{made_next};
ghost use Rattle.odb_words.specs.Seats.{IsSeat};

use crate::opening::Opening;
use crate::rule::{Appends, Counts, Hears, LendsPen, LendsRight, Looks, Makes, Meets, Notes};
use crate::view::SeatView;
use atomic_table::{Seat, Table};
use odb_model::Entry;
use std::alloc::Global;

/// The table of the word.
pub type Words = Table<Entry, SeatView, Opening, Counts, Global>;

/// A seat at the table. It has no bytes.
pub type Place = Seat<Entry, SeatView>;

/// Gives a Note of the seat's list.
pub(crate) fn note_from(words: &Words, place: &mut Place) -> Place
    requires seat { IsSeat words.now.shared.table_id place.old }
    requires made { place.old.me.0.kind ≡ Kind.Book → 1 < place.old.me.0.made }
    ensures same { place.new.table_id ≡ place.old.table_id }
    ensures same_note { result.table_id ≡ place.old.table_id }
    ensures kept { place.new.me ≡ place.old.me }
    ensures given { result.me ≡ (note_of place.old.me.0, []) }
{
    words.shared.split_seat::<Notes>(place)
}

/// Gives a Note with the pen, where the seat has it.
pub(crate) fn lend_pen(words: &Words, place: &mut Place) -> Place
    requires seat { IsSeat words.now.shared.table_id place.old }
    requires made { place.old.me.0.kind ≡ Kind.Book → 1 < place.old.me.0.made }
    ensures same { place.new.table_id ≡ place.old.table_id }
    ensures same_note { result.table_id ≡ place.old.table_id }
    ensures kept { place.new.me ≡ (without_pen place.old.me.0, []) }
    ensures given { result.me ≡ (note_with_pen place.old.me.0, []) }
{
    words.shared.split_seat::<LendsPen>(place)
}

/// Gives a Note with the right, where the seat has one.
pub(crate) fn lend_right(words: &Words, place: &mut Place) -> Place
    requires seat { IsSeat words.now.shared.table_id place.old }
    requires made { place.old.me.0.kind ≡ Kind.Book → 1 < place.old.me.0.made }
    ensures same { place.new.table_id ≡ place.old.table_id }
    ensures same_note { result.table_id ≡ place.old.table_id }
    ensures kept { place.new.me ≡ (without_right place.old.me.0, []) }
    ensures given { result.me ≡ (note_with_right place.old.me.0, []) }
{
    words.shared.split_seat::<LendsRight>(place)
}

/// Takes a Note in, where the seat may lack entries. The conditions on pen and right say that the
/// Note brings each only where the seat has none.
pub(crate) fn take_in(words: &Words, place: &mut Place, note: Place)
    requires seat { IsSeat words.now.shared.table_id place.old }
    requires apart { is_view place.old.me.0.kind ≡ false }
    requires note { (note.me.1 ≡ []) × (note.me.0.kind ≡ Kind.Note) }
    requires names { note.table_id ≡ place.old.table_id }
    requires pen { pens (met place.old.me.0 note.me.0) ≡ pens place.old.me.0 + pens note.me.0 }
    requires right { (t : ℕ) → rights t (met place.old.me.0 note.me.0)
        ≡ rights t place.old.me.0 + rights t note.me.0 }
    ensures same { place.new.table_id ≡ place.old.table_id }
    ensures after { place.new.me ≡ (met place.old.me.0 note.me.0, []) }
{
    words.shared.join_seat::<Meets>(place, note);
}

/// Takes a Note in, where the seat has the whole list.
pub(crate) fn hear(words: &Words, place: &mut Place, note: Place)
    requires seat { IsSeat words.now.shared.table_id place.old }
    requires all { has_all place.old.me.0 ≡ true }
    requires note { (note.me.1 ≡ []) × (note.me.0.kind ≡ Kind.Note) }
    requires names { note.table_id ≡ place.old.table_id }
    requires pen { pens (heard place.old.me.0 note.me.0)
        ≡ pens place.old.me.0 + pens note.me.0 }
    requires right { (t : ℕ) → rights t (heard place.old.me.0 note.me.0)
        ≡ rights t place.old.me.0 + rights t note.me.0 }
    ensures same { place.new.table_id ≡ place.old.table_id }
    ensures after { place.new.me ≡ (heard place.old.me.0 note.me.0, []) }
{
    words.shared.join_seat::<Hears>(place, note);
}

/// Appends an entry: the View does it, with the pen and the right of the entry's session.
pub(crate) fn write(words: &Words, place: &mut Place, entry: &Entry)
    requires seat { IsSeat words.now.shared.table_id place.old }
    requires view { is_view place.old.me.0.kind ≡ true }
    requires pen { place.old.me.0.pen ≡ true }
    requires right { (place.old.me.0.right ≡ Some entry.now.by) × (0 < entry.now.by) }
    requires number { entry.now.number ≡ place.old.me.0.number + length place.old.me.0.list + 1 }
    ensures same { place.new.table_id ≡ place.old.table_id }
    ensures after { place.new.me ≡ (appended entry.now place.old.me.0, []) }
{
    let number = entry.number;
    words
        .shared
        .compare_exchange_with::<Appends>(place, 0, number - 1, number, entry);
}

/// Loads the count, and learns what the rule says of the seat's view.
pub(crate) fn look(words: &Words, place: &mut Place) -> u64
    requires { IsSeat words.now.shared.table_id place.old }
    ensures same { place.new.table_id ≡ place.old.table_id }
    ensures after { place.new.me ≡ (settled place.old.me.0, []) }
    ensures knows { (log : _) × (made : _) × Fits log made place.old.me.0
        × (result ≡ place.old.me.0.number + length log)
        × IsNumberedFrom (place.old.me.0.number + 1) log }
{
    words.shared.load::<Looks>(place, 0)
}

/// The Book makes the next seat.
pub(crate) fn make_next(words: &Words, place: &mut Place) -> Place
    requires seat { IsSeat words.now.shared.table_id place.old }
    requires book { place.old.me.0.kind ≡ Kind.Book }
    ensures same { place.new.table_id ≡ place.old.table_id }
    ensures same_next { result.table_id ≡ place.old.table_id }
    ensures kept { place.new.me ≡ (counted place.old.me.0, []) }
    ensures given { result.me ≡ (made_next place.old.me.0, []) }
{
    words.shared.split_seat::<Makes>(place)
}
