//! The seats of the server's parts, and what they do with one another.
ghost use Rattle.std.specs.Prelude.{◌≡◌, ℕ, ◌+◌, ◌<◌, ◌≤◌, [], ◌∷◌, ◌++◌, length, true, false};
ghost use Rattle.std.specs.Prelude.{Some};
ghost use mathlib.Core.List.{IsPrefix};
ghost use Rattle.odb_model.specs.State.{IsNumberedFrom};
ghost use Rattle.odb_words.specs.Views.{by_session, is_view, has_all};
ghost use Rattle.odb_words.specs.Moves.{longer, met, heard, settled};
ghost use Rattle.odb_words.specs.Seats.{IsSeat, IsNote, IsPass, IsBook, IsView, IsCopy};
ghost use Rattle.odb_words.specs.Seats.{name_of, list_of, number_of};

use crate::steps::{Place, Words, hear, lend_pen, lend_right, look, note_from, take_in, write};
use odb_model::Entry;
use std::alloc::Global;
use std::sync::Arc;

/// A copy of what a seat has seen, for another seat. It has no bytes.
#[derive(Drop)]
pub struct Note {
    pub(crate) place: Place,
    ghost is_note: { IsNote place.me.0 },
    ghost empty: { place.me.1 ≡ [] },
}

/// A session's seat. It has the one right of its session, without which no entry by that session is
/// appended.
#[derive(Drop)]
pub struct Pass {
    pub(crate) words: Arc<Words, Global>,
    pub(crate) place: Place,
    pub(crate) session: u32,
    ghost is_seat: { IsSeat words.value.shared.table_id place },
    ghost is_pass: { IsPass session place.me.0 },
    ghost in_range: { session ≤ 64 },
}

/// The seat beside the part that decides commits. It has the pen between calls.
#[derive(Drop)]
pub struct BookSeat {
    pub(crate) words: Arc<Words, Global>,
    pub(crate) place: Place,
    ghost is_seat: { IsSeat words.value.shared.table_id place },
    ghost is_book: { IsBook place.me.0 },
    ghost is_made: { 1 < place.me.0.made },
}

/// The seat beside the rows that statements read. It alone appends.
#[derive(Drop)]
pub struct ViewSeat {
    pub(crate) words: Arc<Words, Global>,
    pub(crate) place: Place,
    ghost is_seat: { IsSeat words.value.shared.table_id place },
    ghost is_view: { IsView place.me.0 },
}

/// The seat of a copy, or of LOGDB.
#[derive(Drop)]
pub struct CopySeat {
    pub(crate) words: Arc<Words, Global>,
    pub(crate) place: Place,
    ghost is_seat: { IsSeat words.value.shared.table_id place },
    ghost is_copy: { IsCopy place.me.0 },
}

impl BookSeat {
    /// A copy of what the seat has seen. It takes no memory and one step.
    pub fn note(&mut self) -> Note
        ensures name { name_of self.new.place ≡ name_of self.old.place }
        ensures kept { list_of self.new.place ≡ list_of self.old.place }
        ensures given { name_of result.place ≡ name_of self.old.place }
        ensures list { list_of result.place ≡ list_of self.old.place }
    {
        Note {
            place: note_from(&self.words, &mut self.place),
        }
    }

    /// Shows that what the Note saw is a prefix of what the seat has. It takes no memory and two
    /// steps.
    pub fn seen(&mut self, note: Note)
        requires { name_of note.place ≡ name_of self.old.place }
        ensures name { name_of self.new.place ≡ name_of self.old.place }
        ensures kept { list_of self.new.place ≡ list_of self.old.place }
        ensures shown { IsPrefix (list_of note.place) (list_of self.old.place) }
        ensures numbered { IsNumberedFrom
            (number_of self.old.place + 1) (list_of self.old.place) }
    {
        show_to(&self.words, &mut self.place, note);
    }
}

impl ViewSeat {
    /// A copy of what the seat has seen. It takes no memory and one step.
    pub fn note(&mut self) -> Note
        ensures name { name_of self.new.place ≡ name_of self.old.place }
        ensures kept { list_of self.new.place ≡ list_of self.old.place }
        ensures given { name_of result.place ≡ name_of self.old.place }
        ensures list { list_of result.place ≡ list_of self.old.place }
    {
        Note {
            place: note_from(&self.words, &mut self.place),
        }
    }

    /// Shows that what the Note saw is a prefix of what the seat has. It takes no memory and two
    /// steps.
    pub fn seen(&mut self, note: Note)
        requires { name_of note.place ≡ name_of self.old.place }
        ensures name { name_of self.new.place ≡ name_of self.old.place }
        ensures kept { list_of self.new.place ≡ list_of self.old.place }
        ensures shown { IsPrefix (list_of note.place) (list_of self.old.place) }
        ensures numbered { IsNumberedFrom
            (number_of self.old.place + 1) (list_of self.old.place) }
    {
        show_to(&self.words, &mut self.place, note);
    }

    /// Appends an entry by the pass's session, whose number is one above the Book's list. The three
    /// lists are then that list with the entry; the Book's and the View's were equal, and what the
    /// pass lacked of it has no entry by its session. It answers the entry's number, takes no
    /// memory, and twelve steps.
    pub fn append(&mut self, book: &mut BookSeat, pass: &mut Pass, entry: &Entry) -> u64
        requires book_name { name_of book.old.place ≡ name_of self.old.place }
        requires pass_name { name_of pass.old.place ≡ name_of self.old.place }
        requires session { entry.now.by ≡ pass.old.session }
        requires number { entry.now.number
            ≡ number_of book.old.place + length (list_of book.old.place) + 1 }
        ensures names { (name_of self.new.place ≡ name_of self.old.place)
            × (name_of book.new.place ≡ name_of self.old.place)
            × (name_of pass.new.place ≡ name_of self.old.place) }
        ensures session { pass.new.session ≡ pass.old.session }
        ensures equal { list_of self.old.place ≡ list_of book.old.place }
        ensures view { list_of self.new.place ≡ list_of book.old.place ++ entry.now ∷ [] }
        ensures book { list_of book.new.place ≡ list_of book.old.place ++ entry.now ∷ [] }
        ensures pass { list_of pass.new.place ≡ list_of book.old.place ++ entry.now ∷ [] }
        ensures grows { IsPrefix (list_of pass.old.place) (list_of book.old.place) }
        ensures mine { by_session pass.old.session (list_of book.old.place)
            ≡ by_session pass.old.session (list_of pass.old.place) }
        ensures numbered { IsNumberedFrom
            (number_of book.old.place + 1) (list_of book.old.place) }
        ensures number { result ≡ entry.now.number }
    {
        append_with(
            &self.words,
            &mut self.place,
            &mut book.place,
            &mut pass.place,
            entry,
        );
        entry.number
    }
}

impl CopySeat {
    /// A copy of what the seat has seen. It takes no memory and one step.
    pub fn note(&mut self) -> Note
        ensures name { name_of self.new.place ≡ name_of self.old.place }
        ensures kept { list_of self.new.place ≡ list_of self.old.place }
        ensures given { name_of result.place ≡ name_of self.old.place }
        ensures list { list_of result.place ≡ list_of self.old.place }
    {
        Note {
            place: note_from(&self.words, &mut self.place),
        }
    }

    /// Takes the longer of its list and the Note's; both are prefixes of it. It takes no memory and
    /// two steps.
    pub fn meet(&mut self, note: Note)
        requires { name_of note.place ≡ name_of self.old.place }
        ensures name { name_of self.new.place ≡ name_of self.old.place }
        ensures list { list_of self.new.place
            ≡ longer (list_of self.old.place) (list_of note.place) }
        ensures own { IsPrefix (list_of self.old.place) (list_of self.new.place) }
        ensures theirs { IsPrefix (list_of note.place) (list_of self.new.place) }
        ensures numbered { IsNumberedFrom
            (number_of self.new.place + 1) (list_of self.new.place) }
    {
        meet_with(&self.words, &mut self.place, note);
    }
}

impl Pass {
    /// The session whose seat it is, from 1 to 64.
    pub fn session(&self) -> u32
        ensures session { result ≡ self.now.session }
        ensures range { (0 < result) × (result ≤ 64) }
    {
        self.session
    }

    /// A copy of what the seat has seen. It takes no memory and one step.
    pub fn note(&mut self) -> Note
        ensures name { name_of self.new.place ≡ name_of self.old.place }
        ensures session { self.new.session ≡ self.old.session }
        ensures kept { list_of self.new.place ≡ list_of self.old.place }
        ensures given { name_of result.place ≡ name_of self.old.place }
        ensures list { list_of result.place ≡ list_of self.old.place }
    {
        Note {
            place: note_from(&self.words, &mut self.place),
        }
    }

    /// Takes the longer of its list and the Note's; both are prefixes of it, and what it adds has
    /// no entry by the pass's session. It takes no memory and two steps.
    pub fn meet(&mut self, note: Note)
        requires { name_of note.place ≡ name_of self.old.place }
        ensures name { name_of self.new.place ≡ name_of self.old.place }
        ensures session { self.new.session ≡ self.old.session }
        ensures list { list_of self.new.place
            ≡ longer (list_of self.old.place) (list_of note.place) }
        ensures own { IsPrefix (list_of self.old.place) (list_of self.new.place) }
        ensures theirs { IsPrefix (list_of note.place) (list_of self.new.place) }
        ensures numbered { IsNumberedFrom
            (number_of self.new.place + 1) (list_of self.new.place) }
        ensures mine { by_session self.old.session (list_of self.new.place)
            ≡ by_session self.old.session (list_of self.old.place) }
    {
        meet_with(&self.words, &mut self.place, note);
    }
}

// A seat that may lack entries takes a Note in.
fn meet_with(words: &Words, place: &mut Place, note: Note)
    requires seat { IsSeat words.now.shared.table_id place.old }
    requires apart { is_view place.old.me.0.kind ≡ false }
    requires names { note.place.table_id ≡ place.old.table_id }
    ensures same { place.new.table_id ≡ place.old.table_id }
    ensures after { place.new.me ≡ (settled (met place.old.me.0 note.place.me.0), []) }
    ensures own { IsPrefix (list_of place.old) (list_of place.new) }
    ensures theirs { IsPrefix (list_of note.place) (list_of place.new) }
    ensures numbered { IsNumberedFrom (number_of place.new + 1) (list_of place.new) }
    ensures mine { (s : ℕ) → place.new.me.0.right ≡ Some s
        → by_session s (list_of place.new) ≡ place.new.me.0.mine }
{
    let Note { place: other } = note;
    take_in(words, place, other);
    look(words, place);
}

// A seat with the whole list is shown a Note.
fn show_to(words: &Words, place: &mut Place, note: Note)
    requires seat { IsSeat words.now.shared.table_id place.old }
    requires all { has_all place.old.me.0 ≡ true }
    requires names { note.place.table_id ≡ place.old.table_id }
    ensures same { place.new.table_id ≡ place.old.table_id }
    ensures after { place.new.me ≡ (settled (heard place.old.me.0 note.place.me.0), []) }
    ensures shown { IsPrefix (list_of note.place) (list_of place.old) }
    ensures numbered { IsNumberedFrom (number_of place.old + 1) (list_of place.old) }
{
    let Note { place: other } = note;
    hear(words, place, other);
    look(words, place);
}

// Pen and right go to the View by two Notes, and come back by two more.
fn append_with(words: &Words, view: &mut Place, book: &mut Place, pass: &mut Place, entry: &Entry)
    requires view { IsSeat words.now.shared.table_id view.old × IsView view.old.me.0 }
    requires book { IsSeat words.now.shared.table_id book.old × IsBook book.old.me.0
        × (1 < book.old.me.0.made) }
    requires pass { IsSeat words.now.shared.table_id pass.old
        × IsPass entry.now.by pass.old.me.0 }
    requires number { (entry.now.number ≡ number_of book.old + length (list_of book.old) + 1)
        × (number_of view.old ≡ number_of book.old) }
    ensures view_seat { (name_of view.new ≡ name_of view.old) × (view.new.me.1 ≡ [])
        × IsView view.new.me.0 }
    ensures book_seat { (name_of book.new ≡ name_of book.old) × (book.new.me.1 ≡ [])
        × IsBook book.new.me.0 × (book.new.me.0.made ≡ book.old.me.0.made) }
    ensures pass_seat { (name_of pass.new ≡ name_of pass.old) × (pass.new.me.1 ≡ [])
        × IsPass entry.now.by pass.new.me.0 }
    ensures equal { list_of view.old ≡ list_of book.old }
    ensures view { list_of view.new ≡ list_of book.old ++ entry.now ∷ [] }
    ensures book { list_of book.new ≡ list_of book.old ++ entry.now ∷ [] }
    ensures pass { list_of pass.new ≡ list_of book.old ++ entry.now ∷ [] }
    ensures grows { IsPrefix (list_of pass.old) (list_of book.old) }
    ensures mine { by_session entry.now.by (list_of book.old)
        ≡ by_session entry.now.by (list_of pass.old) }
    ensures numbered { IsNumberedFrom (number_of book.old + 1) (list_of book.old) }
{
    let pen = lend_pen(words, book);
    hear(words, view, pen);
    look(words, view);
    let right = lend_right(words, pass);
    hear(words, view, right);
    look(words, view);
    write(words, view, entry);
    let pen = lend_pen(words, view);
    take_in(words, book, pen);
    let right = lend_right(words, view);
    take_in(words, pass, right);
    look(words, pass);
}
