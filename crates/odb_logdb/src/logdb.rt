//! The longer log in memory.
ghost use Rattle.std.specs.Prelude.{◌≡◌, ◌-◌, ◌≤◌};
ghost use Rattle.odb_extent.specs.Opened.{content_end};

use crate::{ListState, LogFields};
use odb_extent::Extents;
use odb_reclog::RecLog;
use std::marker::Model;

/// The file of the log.
pub(crate) const FILE: u32 = 1;

/// How many extents the file may have.
pub(crate) const MOST: u32 = 1024;

/// The first byte of the content, behind the pair.
pub(crate) const CONTENT: u64 = 1024;

/// The bytes of an extent.
const EXTENT: u64 = 1_048_576;

/// The longer log: file 1 of a database.
///
/// It holds entries one behind another from a first number on, each as one record of a record log,
/// in a file of extents. Contracts see it as a `LogState`, and say by `Stands` which file
/// is its own.
///
/// A Dirty log, whose content may be any bytes, holds no entry.
#[derive(Debug, Drop)]
pub struct Logdb {
    pub(crate) extents: Extents,
    /// What the extents keep beside their limit.
    pub(crate) fields: LogFields,
    /// The record log of the region from the start of the records to the end of the limit.
    pub(crate) log: RecLog,
    pub(crate) state: ListState,
}

impl Model for Logdb {
    ghost use Rattle.odb_logdb.specs.Standing.{LogState, IsLogdb};

    ghost Value = { LogState };

    ghost view = { λ l.
        record { extents = l.extents; fields = l.fields; log = l.log; state = l.state } };

    ghost invariant = { λ l. IsLogdb
        (record { extents = l.extents; fields = l.fields; log = l.log; state = l.state }) };
}

impl Logdb {
    ghost use Rattle.odb_logdb.specs.Opened.{records_start};
    ghost use Rattle.odb_logdb.specs.Standing.{first_of, next_of};

    /// The number of the first entry held, from 1 to 2^63.
    pub fn first(&self) -> u64
        ensures { result ≡ first_of self.now }
    {
        self.fields.first
    }

    /// The number of the last entry known to be held; `first() - 1` where there is none.
    pub fn last(&self) -> u64
        ensures { result ≡ next_of self.now - 1 }
    {
        self.next_number().saturating_sub(1)
    }

    /// Where the records begin, in bytes from the file's start.
    pub(crate) fn start(&self) -> u64
        ensures { result ≡ records_start self.now.fields }
    {
        let _limit = self.extents.limit();
        CONTENT + self.fields.start
    }

    /// The number of the next entry.
    pub(crate) fn next_number(&self) -> u64
        ensures next { result ≡ next_of self.now }
        ensures first { self.now.log.first ≡ first_of self.now }
    {
        match self.state {
            ListState::Dirty => self.fields.first,
            _ => self.log.next_number(),
        }
    }
}

/// The first byte behind so many extents.
pub(crate) fn content_end(limit: u32) -> u64
    requires { limit ≤ 1024 }
    ensures { result ≡ content_end limit }
{
    CONTENT + EXTENT * u64::from(limit)
}
