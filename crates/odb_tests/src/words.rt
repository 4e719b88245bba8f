//! That the calls of a word run, in one thread.
ghost use Rattle.std.specs.Prelude.{◌≡◌, [], ◌∷◌};
ghost use Rattle.odb_words.specs.Seats.{name_of, list_of, number_of};

use odb_model::Entry;
use odb_rowsource::{KeyedRow, RowError, RowSource};
use odb_values::{Frozen, Key, Range, Row};
use odb_words::{BookSeat, Pass, Passes, ViewSeat, WordParts};
use std::alloc::Global;
use std::test::Fail;

/// A source of no row, which is never read.
struct NoRows;

impl RowSource for NoRows {
    ghost use Rattle.std.specs.FinMap.{empty};

    ghost state = { λ _. empty };

    ghost faults = { λ _ _. 0 };

    fn get(&mut self, _alloc: Global, _table: u32, _key: &Key) -> Result<Option<Row>, RowError> {
        Err(RowError::NoMemory)
    }

    type Shown = KeyedRow;

    fn show(
        &mut self,
        _alloc: Global,
        _range: &Range,
        _after: Option<&Key>,
    ) -> Result<Option<KeyedRow>, RowError> {
        Err(RowError::NoMemory)
    }
}

/// Appends entry 1: the pass's list is then that entry.
fn append_first(view: &mut ViewSeat, book: &mut BookSeat, pass: &mut Pass, entry: &Entry) -> u64
    requires book_name { name_of book.old.place ≡ name_of view.old.place }
    requires pass_name { name_of pass.old.place ≡ name_of view.old.place }
    requires new { (number_of book.old.place ≡ 0) × (list_of book.old.place ≡ []) }
    requires entry { (entry.now.number ≡ 1) × (entry.now.by ≡ pass.old.session) }
    ensures names { (name_of view.new.place ≡ name_of view.old.place)
        × (name_of book.new.place ≡ name_of view.old.place)
        × (name_of pass.new.place ≡ name_of view.old.place) }
    ensures list { list_of pass.new.place ≡ entry.now ∷ [] }
    ensures number { result ≡ 1 }
{
    view.append(book, pass, entry)
}

/// A pass that has seen nothing meets what another one has seen: its list is then that one's.
fn meet_first(pass: &mut Pass, other: &mut Pass)
    requires names { name_of other.old.place ≡ name_of pass.old.place }
    requires new { list_of pass.old.place ≡ [] }
    ensures names { (name_of pass.new.place ≡ name_of pass.old.place)
        × (name_of other.new.place ≡ name_of pass.old.place) }
    ensures session { pass.new.session ≡ pass.old.session }
    ensures list { list_of pass.new.place ≡ list_of other.old.place }
{
    pass.meet(other.note());
}

#[test]
fn an_entry_reaches_every_list(rt: HostRuntime) -> Result<(), Fail> {
    let alloc = rt.alloc();
    let WordParts {
        mut passes,
        mut book,
        mut view,
        mut copies,
    } = Passes::new(alloc, 0, &NoRows)?;
    let mut first = passes.take().expect(&rt, "a pass is free");
    assert_eq!(rt; first.session(), 1);
    let entry = Entry {
        number: 1,
        by: first.session(),
        writes: Frozen::empty(alloc),
    };
    assert_eq!(rt; append_first(&mut view, &mut book, &mut first, &entry), 1);
    let mut second = passes.take().expect(&rt, "a pass is free");
    assert_eq!(rt; second.session(), 2);
    meet_first(&mut second, &mut first);
    copies.log.meet(second.note());
    view.seen(copies.log.note());
    book.seen(view.note());
    passes.give(first);
    let again = passes.take().expect(&rt, "a pass is free");
    assert_eq!(rt; again.session(), 1);
    Ok(())
}
