//! The log of commits in memory.
ghost use Rattle.std.specs.Prelude.{◌≡◌, ◌+◌, ◌-◌, ◌≤◌};

use crate::Header;
use crate::places::Places;
use odb_model::OtherSide;
use odb_pair::Pair;
use odb_reclog::RecLog;
use std::marker::Model;

/// The file of TRANSDB.
pub(crate) const FILE: u32 = 0;

/// The bytes of a record before its payload.
pub(crate) const HEAD_SIZE: u64 = 13;

/// The log of commits: file 0 of a database, as it was opened.
///
/// A commit is one record of the active side. It is written behind a closed gate and counts from
/// the moment at which that gate is open on the disk: so a crash at any moment leaves the entries
/// before it, or those and it.
///
/// Contracts see it as a `Db`, and say by `Stands` which file is its own.
#[derive(Debug, Drop)]
pub struct Transdb {
    pub(crate) header: Header,
    /// The pair that keeps the header.
    pub(crate) pair: Pair,
    /// The log of the active side.
    pub(crate) active: RecLog,
    /// The log of the other side, where it is Live.
    pub(crate) live: Option<RecLog>,
    /// The places kept of the active side's records.
    pub(crate) places: Places,
    /// Those of a Live side's records; none where none is Live.
    pub(crate) live_places: Places,
}

impl Model for Transdb {
    ghost use Rattle.odb_transdb.specs.Standing.{Db, IsDb};

    ghost Value = { Db };

    ghost view = { λ t. record {
      header = t.header;
      pair = t.pair;
      active = t.active;
      live = t.live;
      places = t.places;
      live_places = t.live_places;
    } };

    ghost invariant = { λ t. IsDb (record {
      header = t.header;
      pair = t.pair;
      active = t.active;
      live = t.live;
      places = t.places;
      live_places = t.live_places;
    }) };
}

impl Transdb {
    ghost use Rattle.odb_transdb.specs.Header.{first_held};
    ghost use Rattle.odb_transdb.specs.Standing.{room_of};

    /// The format of the database: 1.
    pub fn format(&self) -> u16
        ensures value { result ≡ self.now.header.format }
        ensures always { result ≡ 1 }
    {
        self.header.format
    }

    /// The side that takes new records, 0 or 1.
    pub fn active(&self) -> u32
        ensures value { result ≡ self.now.header.active }
        ensures range { result ≤ 1 }
    {
        u32::from(self.header.active)
    }

    /// The state of the side that isn't active.
    pub fn other(&self) -> OtherSide
        ensures { result ≡ self.now.header.other }
    {
        self.header.other
    }

    /// The number of the first entry held, from 1.
    pub fn first(&self) -> u64
        ensures { result ≡ first_held self.now.header }
    {
        self.header.first_held()
    }

    /// The number of the last entry held; `first() - 1` where there is none.
    pub fn last(&self) -> u64
        ensures { result ≡ self.now.active.next - 1 }
    {
        self.active.next_number().saturating_sub(1)
    }

    /// How many bytes are left for records on the active side; a record takes 13 and those of its
    /// entry's image.
    pub fn room(&self) -> u64
        ensures { result ≡ room_of self.now }
    {
        self.active.room()
    }
}
