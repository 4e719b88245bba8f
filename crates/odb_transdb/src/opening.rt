//! Opening TRANSDB, with each check that its bytes are in order.
ghost use Rattle.std.specs.Prelude.{◌≡◌, ◌≢◌, ◌⊎◌, ℕ, ◌+◌, ◌<◌, ◌≤◌, ◌++◌, true, false, [], length, Some, IsTrue, IsSome, IfSome, IfOk, IfErr, Err};
ghost use Rattle.odb_device.specs.World.{file_of};
ghost use Rattle.odb_device.specs.Images.{EachImage, part};
ghost use Rattle.odb_device.specs.Calls.{FileCountRose, HasCause, Keeps};
ghost use Rattle.odb_pair.specs.Places.{opened as pair_opened};
ghost use Rattle.odb_pair.specs.Standing.{StandsFor as PairStandsFor};
ghost use Rattle.odb_reclog.specs.Told.{IfTold, OnlyReads, TearsOnly};
ghost use Rattle.odb_transdb.specs.Header.{is_header, file_size};
ghost use Rattle.odb_transdb.specs.Opened.{opened, first_other_place, side_entries, with_sides, with_header};
ghost use Rattle.odb_transdb.specs.Kept.{AreKeptIn, AreWithin};
ghost use Rattle.odb_transdb.specs.Standing.{Stands};
ghost use Rattle.odb_transdb.specs.Answers.{IsAnswerBy, IsOpenAnswer, IsFullAnswer, IsOpenRefusal, FailsAsRead};
ghost use Rattle.odb_transdb.specs.Walking.{IsReadOf};
ghost use Rattle.odb_transdb.specs.Worlds.{LeavesOpened, IsOpened, HasPair};
ghost use Rattle.odb_transdb.specs.Leaving.{LeavesSide, LeavesOther, IsSideOpened, IsLiveOpened, IsActiveOpened};
ghost use Rattle.odb_transdb.specs.Opening.{IsPairFound, IsFirstOther, IsUnless, IsChecked, EndsRight};

use crate::header::Header;
use crate::places::Places;
use crate::reading::add_payloads;
use crate::transdb::FILE;
use crate::{Transdb, TransdbError};
use odb_device::{Failed, Store};
use odb_model::{Entries, Entry, OtherSide};
use odb_pair::{Pair, PairError};
use odb_reclog::{OpenedLog, RecError, RecLog};
use odb_values::{Frozen, List};
use std::alloc::Global;

/// How many bytes of a clean side are read by one call.
const PIECE: usize = 65_536;

/// TRANSDB as it was opened, and all of its entries, in order.
#[derive(Debug, Drop)]
pub struct OpenedTransdb {
    pub transdb: Transdb,
    pub entries: Entries,
}

impl Transdb {
    /// The TRANSDB that file 0 is as it reads, which is on the disk then.
    ///
    /// It is `open_with_entries`, and costs the same; the entries are dropped.
    pub fn open<S: Store>(alloc: Global, store: &mut S) -> Result<Transdb, TransdbError>
        ensures answer { IfTold 0 (S.world store.old)
            (λ bytes. IsOpenAnswer result (opened bytes)) }
        ensures leaves { LeavesOpened result (S.world store.old) (S.world store.new) }
        ensures stands { IfOk result (λ db. Stands db (file_of 0 (S.world store.new))) }
        ensures usable { IfOk result (λ db. db.active.in_doubt ≡ false) }
        ensures refusal { IsOpenRefusal result }
        ensures cause { result ≡ Err TransdbError.Fault
            → FileCountRose 0 (S.world store.old) (S.world store.new) }
    {
        match Transdb::open_with_entries(alloc, store) {
            Ok(opened) => Ok(opened.transdb),
            Err(error) => Err(error),
        }
    }

    /// The TRANSDB that file 0 is as it reads, which is on the disk then, and all of its entries,
    /// in order.
    ///
    /// It syncs, reads the pair, and goes once over each side that holds entries, after one more
    /// sync, in pieces of 65,536 bytes and by one read more for each record that lies across the
    /// end of a piece. A clean side is read once. Behind the last record of a side a gate that is
    /// open is closed, by one write and one sync, also where it then refuses; no other byte is
    /// written, and no record is lost. It takes memory for the entries, for the records of one side
    /// at a time, and 8 bytes for each 832 of a side for the places of every 64th record.
    ///
    /// - `NoDatabase`: the pair has no open place.
    /// - `Damaged`: by the first of these. At 0, the pair is malformed or keeps no lawful header;
    ///   at the file's length, it is shorter than its sides; at its first byte that isn't zero, a
    ///   clean side isn't clean; where the records of a live side end, they don't end where the
    ///   active side begins; at the first record that is no entry.
    /// - `Fault`: a call of the store failed. `NoMemory`: there is none for the records or the
    ///   entries.
    pub fn open_with_entries<S: Store>(
        alloc: Global,
        store: &mut S,
    ) -> Result<OpenedTransdb, TransdbError>
        ensures answer { IfTold 0 (S.world store.old)
            (λ bytes. IsFullAnswer result (opened bytes)) }
        ensures leaves { LeavesOpened result (S.world store.old) (S.world store.new) }
        ensures opened { IfOk result
            (λ found. IsOpened found.transdb found.entries (S.world store.new)) }
        ensures refusal { IsOpenRefusal result }
        ensures cause { result ≡ Err TransdbError.Fault
            → FileCountRose 0 (S.world store.old) (S.world store.new) }
    {
        let pair = open_pair(store)?;
        match Header::from_bytes(&pair.value()) {
            Some(header) => open_sides(alloc, store, pair, header),
            None => Err(TransdbError::Damaged { at: 0 }),
        }
    }
}

/// The pair of file 0.
fn open_pair<S: Store>(store: &mut S) -> Result<Pair, TransdbError>
    ensures run { TearsOnly 0 0 0 (S.world store.old) (S.world store.new) }
    ensures kept { result ≢ Err TransdbError.Fault
        → Keeps 0 (S.world store.old) (S.world store.new) }
    ensures found { IfTold 0 (S.world store.old) (λ bytes. IsPairFound result (pair_opened bytes)) }
    ensures stands { IfOk result (λ pair. EachImage (PairStandsFor pair)
        (file_of 0 (S.world store.new))) }
    ensures pair { IfOk result (λ pair. (pair.file ≡ 0) × (pair.settled ≡ true)) }
    ensures tried { IfOk result (λ pair. pair.tried ≡ pair.value) }
    ensures refusal { IsOpenRefusal result }
    ensures cause { result ≡ Err TransdbError.Fault
        → FileCountRose 0 (S.world store.old) (S.world store.new) }
{
    match Pair::open(store, FILE) {
        Ok(pair) => Ok(pair),
        Err(PairError::NoOpenPlace) => Err(TransdbError::NoDatabase),
        Err(PairError::Malformed) => Err(TransdbError::Damaged { at: 0 }),
        Err(PairError::Fault) => Err(TransdbError::Fault),
    }
}

/// The TRANSDB that file 0 is, whose pair keeps this header, and its entries.
fn open_sides<S: Store>(
    alloc: Global,
    store: &mut S,
    pair: Pair,
    header: Header,
) -> Result<OpenedTransdb, TransdbError>
    requires found { HasPair pair header (S.world store.old) }
    ensures answer { IfTold 0 (S.world store.old) (λ bytes. IsFullAnswer result (opened bytes)) }
    ensures leaves { LeavesOpened result (S.world store.old) (S.world store.new) }
    ensures opened { IfOk result
        (λ found. IsOpened found.transdb found.entries (S.world store.new)) }
    ensures fails { FailsAsRead 0 result (S.world store.old) (S.world store.new) }
{
    check_sides(store, &header)?;
    let other = open_live(alloc, store, &header)?;
    let mut entries = other.entries;
    let mut places = Places::of_side(alloc, header.side_size())?;
    let active = open_active(alloc, store, &header, &mut entries, &mut places)?;
    let transdb = Transdb {
        header,
        pair,
        active,
        live: other.log,
        places,
        live_places: other.places,
    };
    Ok(OpenedTransdb {
        transdb,
        entries: Frozen::new(entries),
    })
}

/// Refuses a file that is shorter than its sides, at its length, and a Clean side that isn't zeros,
/// at its first other byte.
fn check_sides<S: Store>(store: &mut S, header: &Header) -> Result<(), TransdbError>
    requires { IsTrue (is_header header.now) }
    ensures run { OnlyReads 0 (S.world store.old) (S.world store.new) }
    ensures told { IfTold 0 (S.world store.old)
        (λ bytes. IsUnless (with_header (Some header.now) bytes)
        (λ _. IsChecked header.now bytes) result) }
    ensures fails { FailsAsRead 0 result (S.world store.old) (S.world store.new) }
{
    let length = store.length(FILE)?;
    if length < header.file_size() {
        return Err(TransdbError::Damaged { at: length });
    }
    if header.other != OtherSide::Clean {
        return Ok(());
    }
    match find_other(store, header)? {
        Some(at) => Err(TransdbError::Damaged { at }),
        None => Ok(()),
    }
}

/// The place of the first byte of the other side that isn't zero.
fn find_other<S: Store>(store: &mut S, header: &Header) -> Result<Option<u64>, Failed>
    requires lawful { IsTrue (is_header header.now) }
    requires long { IfTold 0 (S.world store.old) (λ bytes. file_size header.now ≤ length bytes) }
    ensures run { OnlyReads 0 (S.world store.old) (S.world store.new) }
    ensures told { IfTold 0 (S.world store.old)
        (λ bytes. IfOk result (λ found. found ≡ first_other_place header.now bytes)) }
    ensures cause { HasCause 0 (S.world store.old) (S.world store.new) result }
{
    let start = header.side_start(header.other_side());
    let end = start + header.side_size();
    let mut piece = [0; PIECE];
    let mut at = start;
    while at < end {
        let size = (end - at).min(PIECE as u64);
        if let Some(n) = first_nonzero(store, at, &mut piece[..size as usize])? {
            return Ok(Some(at.saturating_add(n as u64)));
        }
        at += size;
    }
    Ok(None)
}

/// Reads bytes from a place on, and tells the index of the first that isn't zero. What a read
/// doesn't give counts as not zero.
fn first_nonzero<S: Store>(
    store: &mut S,
    at: u64,
    piece: &mut [u8],
) -> Result<Option<usize>, Failed>
    ensures run { OnlyReads 0 (S.world store.old) (S.world store.new) }
    ensures told { IfTold 0 (S.world store.old)
        (λ bytes. IfOk result (λ found. at + length piece.old ≤ length bytes
        → IsFirstOther (part at (length piece.old) bytes) found)) }
    ensures missing { IfTold 0 (S.world store.old) (λ bytes. IfOk result
        (λ found. (k : ℕ) → k < length piece.old → length bytes ≤ at + k → IsSome found)) }
    ensures cause { HasCause 0 (S.world store.old) (S.world store.new) result }
{
    let n = store.read_at(FILE, at, piece)?;
    if let Some(other) = other_in(&piece[..n]) {
        return Ok(Some(other));
    }
    if n < piece.len() {
        return Ok(Some(n));
    }
    Ok(None)
}

/// The index of the first byte that isn't zero.
fn other_in(bytes: &[u8]) -> Option<usize>
    ensures { IsFirstOther bytes.now result }
{
    bytes.iter().position(|byte| *byte != 0)
}

/// The log of a side, and the payloads of its records.
fn open_side<S: Store>(
    alloc: Global,
    store: &mut S,
    header: &Header,
    side: u8,
) -> Result<OpenedLog, TransdbError>
    requires lawful { IsTrue (is_header header.now) }
    requires side { side ≤ 1 }
    requires long { IfTold 0 (S.world store.old) (λ bytes. file_size header.now ≤ length bytes) }
    ensures leaves { LeavesSide header.now side result (S.world store.old) (S.world store.new) }
    ensures opened { IfOk result (λ found. IsSideOpened header.now side found.log found.payloads
        (S.world store.old) (S.world store.new)) }
    ensures refusal { IfErr result (λ e. (e ≡ TransdbError.Fault) ⊎ (e ≡ TransdbError.NoMemory)) }
    ensures cause { result ≡ Err TransdbError.Fault
        → FileCountRose 0 (S.world store.old) (S.world store.new) }
{
    let start = header.side_start(side);
    let end = start + header.side_size();
    match RecLog::open_with_payloads(alloc, store, FILE, start, end, header.first_on(side)) {
        Ok(found) => Ok(found),
        Err(RecError::NoMemory) => Err(TransdbError::NoMemory),
        Err(_) => Err(TransdbError::Fault),
    }
}

/// What the side that isn't active holds: where it is Live its log, its entries and the places kept
/// of its records, else nothing.
#[derive(Debug, Drop)]
struct LiveSide {
    log: Option<RecLog>,
    entries: List<Entry>,
    places: Places,
}

/// The log of the other side where it is Live, and its entries. Refuses one that doesn't end where
/// the active side begins, at its end, and a record that is no entry, at its place.
fn open_live<S: Store>(
    alloc: Global,
    store: &mut S,
    header: &Header,
) -> Result<LiveSide, TransdbError>
    requires lawful { IsTrue (is_header header.now) }
    requires long { IfTold 0 (S.world store.old) (λ bytes. file_size header.now ≤ length bytes) }
    ensures leaves { LeavesOther header.now result (S.world store.old) (S.world store.new) }
    ensures told { IfTold 0 (S.world store.old)
        (λ bytes. IsAnswerBy (λ _ _. EndsRight header.now bytes) result
        (with_sides header.now header.now.other bytes)) }
    ensures opened { IfOk result
        (λ found. IsLiveOpened header.now found.log found.entries.items (S.world store.new)) }
    ensures places { IfOk result (λ found. IfSome found.log
        (λ log. AreWithin log found.places
        × AreKeptIn log found.places (file_of 0 (S.world store.new)))) }
    ensures fails { FailsAsRead 0 result (S.world store.old) (S.world store.new) }
{
    let mut entries = List::new(alloc);
    let mut places = Places::of_side(alloc, header.side_size())?;
    if header.other != OtherSide::Live {
        return Ok(LiveSide {
            log: None,
            entries,
            places,
        });
    }
    let side = header.other_side();
    let found = open_side(alloc, store, header, side)?;
    if found.log.next_number() != header.first_on(header.active) {
        return Err(TransdbError::Damaged {
            at: found.log.place(),
        });
    }
    add_payloads(
        alloc,
        header,
        side,
        found.payloads,
        &mut entries,
        &mut places,
    )?;
    Ok(LiveSide {
        log: Some(found.log),
        entries,
        places,
    })
}

/// The log of the active side. Its entries are added to those of the other side; refuses a record
/// that is no entry, at its place.
fn open_active<S: Store>(
    alloc: Global,
    store: &mut S,
    header: &Header,
    entries: &mut List<Entry>,
    places: &mut Places,
) -> Result<RecLog, TransdbError>
    requires lawful { IsTrue (is_header header.now) }
    requires none { places.old ≡ [] }
    requires long { IfTold 0 (S.world store.old) (λ bytes. file_size header.now ≤ length bytes) }
    ensures leaves { LeavesSide header.now header.now.active result
        (S.world store.old) (S.world store.new) }
    ensures told { IfTold 0 (S.world store.new)
        (λ bytes. IsReadOf (λ all _. entries.new.items ≡ entries.old.items ++ all)
        (side_entries header.now header.now.active bytes) result) }
    ensures opened { IfOk result (λ log. IsActiveOpened header.now log
        entries.old.items entries.new.items (S.world store.new)) }
    ensures places { IfOk result (λ log. AreWithin log places.new
        × AreKeptIn log places.new (file_of 0 (S.world store.new))) }
    ensures fails { FailsAsRead 0 result (S.world store.old) (S.world store.new) }
{
    let found = open_side(alloc, store, header, header.active)?;
    add_payloads(
        alloc,
        header,
        header.active,
        found.payloads,
        entries,
        places,
    )?;
    Ok(found.log)
}
