//! A history of as many entries as there may be takes no further one. No row can say so: the program
//! plays over no database whose log begins above its first entry.
ghost use Rattle.std.specs.Prelude.{◌≡◌, ◌≤◌, false, [], ◌∷◌, IfOk};
ghost use Rattle.odb_values.specs.declared.value.Value.TheVariants.{Int};
ghost use Rattle.odb_model.specs.Storable.{IsNarrow};
ghost use Rattle.odb_commit.specs.Parts.{IsAligned};

use odb_commit::{Book, CommitError};
use odb_memstore::MemStore;
use odb_model::{Outcome, Reply, Statement, Write};
use odb_transdb::Transdb;
use odb_txn::Transaction;
use odb_validate::Window;
use odb_values::{Frozen, Key, Row, Text, Value, Values};
use std::alloc::{AllocError, Global};
use std::test::Fail;

/// How many entries a history may have: 2^48.
const MOST_ENTRIES: u64 = 281_474_976_710_656;

/// The bytes of the pair and of two sides of 64 KiB.
const FILE_SIZE: usize = 1024 + 2 * 65_536;

/// A place of the pair with an open gate and sequence 1, and its header: format 1, sides of 64 KiB,
/// side 0 active and without an entry, side 1 clean. The number of side 0's first entry is 2^48 + 1.
const PLACE: [u8; 31] = [
    0xa5, 0, 0, 0, 0, 0, 0, 0, 1, 0, 1, 0, 64, 0, 3, 0, 1, 0, 0, 0, 0, 0, 1, 0, 0, 0, 0, 0, 0, 0, 1,
];

/// File 0 of a database whose history is full.
fn full_log(alloc: Global) -> Result<Vec<u8>, AllocError> {
    let mut bytes = Vec::from_slice(alloc, &PLACE)?;
    bytes.resize(FILE_SIZE, 0)?;
    Ok(bytes)
}

/// A list of one number.
fn number(alloc: Global, n: i64) -> Result<Values, AllocError>
    ensures { IfOk result (λ values. values ≡ Int n ∷ []) }
{
    let mut values = Vec::new(alloc);
    values.push(Value::Int(n))?;
    Ok(Frozen::from_vec(values))
}

/// A row of the table KV.
fn row(alloc: Global, n: i64) -> Result<Write, Fail>
    ensures { IfOk result (λ write. IsNarrow write) }
{
    Ok(Write {
        bank: 4,
        table: 5,
        key: Key::new(number(alloc, n)?)?,
        row: Some(Row::new(number(alloc, n)?)),
    })
}

/// A transaction that has written one row.
fn writer(alloc: Global) -> Result<Transaction, Fail> {
    let mut writes = Vec::new(alloc);
    writes.push(row(alloc, 1)?)?;
    let outcome = Outcome {
        reply: Reply::Done(1),
        writes: Frozen::from_vec(writes),
        reads: Frozen::empty(alloc),
    };
    let statement = Statement::Insert {
        table: Text::from_str(alloc, "KV")?.ok_or("no text")?,
        tuples: Frozen::empty(alloc),
    };
    let mut transaction = Transaction::new(alloc, 1);
    transaction.add(&statement, outcome, MOST_ENTRIES)?;
    Ok(transaction)
}

/// The book of a log that was opened, with no entry in its window.
fn book_of(alloc: Global, transdb: Transdb) -> Book
    requires usable { transdb.active.in_doubt ≡ false }
    requires begun { 1 ≤ transdb.active.next }
    ensures { IsAligned result }
{
    let window = Window::new(alloc, transdb.last());
    Book::new(alloc, transdb, window)
}

#[test]
fn takes_no_entry(rt: HostRuntime) -> Result<(), Fail> {
    let alloc = rt.alloc();
    let mut store = MemStore::new(alloc, 400_000, 40)?;
    store.set_file(alloc, 0, full_log(alloc)?.as_slice())?;
    let transdb = Transdb::open(alloc, &mut store)?;
    assert_eq!(rt; transdb.last(), MOST_ENTRIES);
    let mut book = book_of(alloc, transdb);
    let refused = book.prepare(alloc, &writer(alloc)?).err();
    assert_eq!(rt; refused, Some(CommitError::HistoryFull));
    Ok(())
}
