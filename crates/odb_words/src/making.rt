//! A new word with all its seats.
ghost use Rattle.std.specs.Prelude.{◌≡◌, ℕ, ◌+◌, ◌<◌, ◌≤◌, [], length, map, replicate, Some, IfOk};
ghost use Rattle.std.specs.Prelude.{All};
ghost use Rattle.odb_words.specs.Seats.{IsSeat, IsMaking, Name, named, name_of, list_of};
ghost use Rattle.odb_words.specs.Seats.{number_of, opened_state};
ghost use Rattle.odb_words.specs.Passes.{SitFrom, list_in};

use crate::WordError;
use crate::opening::{OpenedRows, Opening};
use crate::pass_list::PassList;
use crate::seats::{BookSeat, CopySeat, Pass, ViewSeat};
use crate::steps::{Place, Words, make_next};
use odb_rowsource::RowSource;
use std::alloc::{AllocError, Global};
use std::sync::Arc;

/// The seats of the copies.
#[derive(Drop)]
pub struct CopySeats {
    /// One for each of the 16 places.
    pub places: Vec<CopySeat, Global>,
    /// The one beside LOGDB.
    pub log: CopySeat,
}

/// All seats of a new word.
#[derive(Drop)]
pub struct WordParts {
    /// The passes, one for each session from 1 to 64.
    pub passes: PassList,
    /// The seat beside the part that decides commits.
    pub book: BookSeat,
    /// The seat beside the rows that statements read.
    pub view: ViewSeat,
    /// The seats of the copies.
    pub copies: CopySeats,
}

/// The word with its seats: see [`Passes::new`].
pub struct Passes;

impl Passes {
    /// Makes the word, at the number of entries that there are, and all its seats, each with an
    /// empty list. The rows tell the state after these entries; they aren't kept, and no row is
    /// read.
    ///
    /// It takes memory for 64 passes and 16 copies, and is refused only for want of it.
    pub fn new<R: RowSource>(alloc: Global, count: u64, rows: &R) -> Result<WordParts, WordError>
        ensures number { IfOk result (λ p. number_of p.book.place ≡ count) }
        ensures state { IfOk result (λ p. opened_state p.book.place ≡ R.state rows.now) }
        ensures book { IfOk result (λ p. list_of p.book.place ≡ []) }
        ensures view { IfOk result (λ p.
            (name_of p.view.place ≡ name_of p.book.place) × (list_of p.view.place ≡ [])) }
        ensures copies { IfOk result (λ p. length p.copies.places.items ≡ 16) }
        ensures places { IfOk result (λ p. All
            (λ copy. (name_of copy.place ≡ name_of p.book.place) × (list_of copy.place ≡ []))
            p.copies.places.items) }
        ensures log { IfOk result (λ p. (name_of p.copies.log.place ≡ name_of p.book.place)
            × (list_of p.copies.log.place ≡ [])) }
        ensures passes { IfOk result (λ p. (p.passes.name ≡ name_of p.book.place)
            × (p.passes.lists ≡ replicate 64 (Some []))) }
    {
        let opening = Opening {
            number: count,
            rows: OpenedRows::of(rows),
        };
        Ok(parts_of(alloc, &opening)?)
    }
}

fn parts_of(alloc: Global, opening: &Opening) -> Result<WordParts, AllocError>
    ensures number { IfOk result (λ p. number_of p.book.place ≡ opening.now.number) }
    ensures state { IfOk result (λ p. opened_state p.book.place ≡ opening.now.rows.state) }
    ensures book { IfOk result (λ p. list_of p.book.place ≡ []) }
    ensures view { IfOk result (λ p.
        (name_of p.view.place ≡ name_of p.book.place) × (list_of p.view.place ≡ [])) }
    ensures copies { IfOk result (λ p. length p.copies.places.items ≡ 16) }
    ensures places { IfOk result (λ p. All
        (λ copy. (name_of copy.place ≡ name_of p.book.place) × (list_of copy.place ≡ []))
        p.copies.places.items) }
    ensures log { IfOk result (λ p. (name_of p.copies.log.place ≡ name_of p.book.place)
        × (list_of p.copies.log.place ≡ [])) }
    ensures passes { IfOk result (λ p. (p.passes.name ≡ name_of p.book.place)
        × (p.passes.lists ≡ replicate 64 (Some []))) }
{
    let (table, mut place) = Words::of_words(alloc, &[opening.number], opening)?;
    let words = Arc::new(alloc, table)?;
    let view = make_view(&words, &mut place)?;
    let copies = make_copies(alloc, &words, &mut place)?;
    let passes = make_passes(alloc, &words, &mut place)?;
    Ok(WordParts {
        passes: PassList::new(Arc::try_clone(&words)?, passes),
        book: BookSeat { words, place },
        view,
        copies,
    })
}

fn make_view(words: &Arc<Words, Global>, book: &mut Place) -> Result<ViewSeat, AllocError>
    requires seat { IsSeat words.now.value.shared.table_id book.old }
    requires book { IsMaking 1 book.old.me.0 }
    ensures kept { (name_of book.new ≡ name_of book.old) × (book.new.me.1 ≡ []) }
    ensures made { IsMaking 2 book.new.me.0 }
    ensures given { IfOk result (λ seat.
        (name_of seat.place ≡ name_of book.old) × (list_of seat.place ≡ [])) }
{
    let place = make_next(words, book);
    Ok(ViewSeat {
        words: Arc::try_clone(words)?,
        place,
    })
}

fn make_copy(
    words: &Arc<Words, Global>,
    book: &mut Place,
    number: u64,
) -> Result<CopySeat, AllocError>
    requires seat { IsSeat words.now.value.shared.table_id book.old }
    requires book { IsMaking (number + 2) book.old.me.0 }
    requires number { number < 17 }
    ensures kept { (name_of book.new ≡ name_of book.old) × (book.new.me.1 ≡ []) }
    ensures made { IsMaking (number + 3) book.new.me.0 }
    ensures given { IfOk result (λ seat.
        (name_of seat.place ≡ name_of book.old) × (list_of seat.place ≡ [])) }
{
    let place = make_next(words, book);
    Ok(CopySeat {
        words: Arc::try_clone(words)?,
        place,
    })
}

fn make_copies(
    alloc: Global,
    words: &Arc<Words, Global>,
    book: &mut Place,
) -> Result<CopySeats, AllocError>
    requires seat { IsSeat words.now.value.shared.table_id book.old }
    requires book { IsMaking 2 book.old.me.0 }
    ensures kept { IfOk result (λ _.
        (name_of book.new ≡ name_of book.old) × (book.new.me.1 ≡ [])) }
    ensures made { IfOk result (λ _. IsMaking 19 book.new.me.0) }
    ensures count { IfOk result (λ copies. length copies.places.items ≡ 16) }
    ensures places { IfOk result (λ copies. All
        (λ copy. (name_of copy.place ≡ name_of book.old) × (list_of copy.place ≡ []))
        copies.places.items) }
    ensures log { IfOk result (λ copies.
        (name_of copies.log.place ≡ name_of book.old) × (list_of copies.log.place ≡ [])) }
{
    let mut places = Vec::new(alloc);
    for number in 0..16 {
        places.push(make_copy(words, book, number)?)?;
    }
    let log = make_copy(words, book, 16)?;
    Ok(CopySeats { places, log })
}

fn make_pass(words: &Arc<Words, Global>, book: &mut Place, session: u32) -> Result<Pass, AllocError>
    requires seat { IsSeat words.now.value.shared.table_id book.old }
    requires book { IsMaking (session + 18) book.old.me.0 }
    requires session { (0 < session) × (session ≤ 64) }
    ensures kept { (name_of book.new ≡ name_of book.old) × (book.new.me.1 ≡ []) }
    ensures made { IsMaking (session + 19) book.new.me.0 }
    ensures given { IfOk result (λ pass.
        (name_of pass.place ≡ name_of book.old) × (list_of pass.place ≡ [])) }
    ensures session { IfOk result (λ pass. pass.session ≡ session) }
{
    let place = make_next(words, book);
    Ok(Pass {
        words: Arc::try_clone(words)?,
        place,
        session,
    })
}

fn make_passes(
    alloc: Global,
    words: &Arc<Words, Global>,
    book: &mut Place,
) -> Result<Vec<Option<Pass>, Global>, AllocError>
    requires seat { IsSeat words.now.value.shared.table_id book.old }
    requires book { IsMaking 19 book.old.me.0 }
    ensures kept { IfOk result (λ _.
        (name_of book.new ≡ name_of book.old) × (book.new.me.1 ≡ [])) }
    ensures made { IfOk result (λ _. IsMaking 83 book.new.me.0) }
    ensures sit { IfOk result (λ passes. SitFrom (name_of book.old) 1 passes.items) }
    ensures lists { IfOk result (λ passes. map list_in passes.items ≡ replicate 64 (Some [])) }
{
    let mut passes = Vec::new(alloc);
    for session in 1..65 {
        passes.push(Some(make_pass(words, book, session)?))?;
    }
    Ok(passes)
}
