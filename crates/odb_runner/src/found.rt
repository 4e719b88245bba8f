//! What file 0 of a host opens to.

use crate::machine::Machine;
use odb_model::Entries;
use odb_row_scripts::{Line, Stop, wrong};
use odb_rowfile::number_of;
use odb_transdb::TransdbError;
use odb_values::Frozen;
use std::alloc::{AllocError, Global};

/// What a file 0 opens to.
#[derive(Clone, Copy, PartialEq, Eq)]
pub(crate) enum Found {
    /// A database whose last entry has this number, 0 where there is none.
    Last(u64),
    /// No database.
    NoDatabase,
    /// One that is damaged at this byte.
    Damaged(u64),
}

/// What file 0 of a host opens to, and its entries, none where it is refused. The opening may
/// write.
pub(crate) fn open(
    alloc: Global,
    line: u64,
    machine: &mut Machine,
) -> Result<(Found, Entries), Stop> {
    match machine.open(alloc) {
        Ok(opened) => Ok((Found::Last(opened.last), opened.entries)),
        Err(TransdbError::NoDatabase) => Ok((Found::NoDatabase, Frozen::empty(alloc))),
        Err(TransdbError::Damaged { at }) => Ok((Found::Damaged(at), Frozen::empty(alloc))),
        Err(TransdbError::NoMemory) => Err(Stop::NoMemory),
        Err(_) => Err(wrong(alloc, line, "file 0 can't be opened")),
    }
}

impl Found {
    /// What the rest of a line says: a number, `none`, or `damaged` and a number.
    pub(crate) fn read(alloc: Global, line: &mut Line<'_>) -> Result<Found, Stop> {
        let word = line.word();
        let found = if word == "none" {
            Found::NoDatabase
        } else if word == "damaged" {
            Found::Damaged(line.count(alloc)?)
        } else if let Some(last) = number_of(word) {
            Found::Last(last)
        } else {
            return Err(line.wrong(alloc, "neither a number, nor `none`, nor `damaged`"));
        };
        line.end(alloc)?;
        Ok(found)
    }

    /// What is told of it.
    pub(crate) fn text(self, alloc: Global) -> Result<String, AllocError> {
        match self {
            Found::Last(last) => format!(in alloc; "it opens {last}"),
            Found::NoDatabase => String::from_str(alloc, "it opens none"),
            Found::Damaged(at) => format!(in alloc; "it opens damaged {at}"),
        }
    }
}
