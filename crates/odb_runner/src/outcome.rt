//! What holds once a play was made.

use crate::crashes::read_pick;
use crate::found::{Found, open};
use crate::machine::{Front, Machine};
use crate::play::Play;
use crate::setup::file_of;
use odb_memstore::MemError;
use odb_model::{Entries, Status};
use odb_row_scripts::{Line, Stop};
use odb_rowfile::number_of;
use odb_transdb::TransdbError;
use std::alloc::Global;

impl Play {
    /// `status NUMBER`, `status TEXT`: the play ended so.
    pub(crate) fn hold_status(
        &mut self,
        alloc: Global,
        line: Line<'_>,
        status: Status,
    ) -> Result<(), Stop> {
        self.count(1);
        let text = status.text(alloc)?;
        compare_status(alloc, line, status.number(), text.as_str())
    }

    /// `calls COUNT`: so many calls on the host were made.
    pub(crate) fn hold_calls(&mut self, alloc: Global, mut line: Line<'_>) -> Result<(), Stop> {
        let wanted = line.small(alloc)?;
        line.end(alloc)?;
        self.count(1);
        let calls = self.machine.calls();
        if calls == wanted {
            return Ok(());
        }
        let why = format!(in alloc; "{calls} calls were made")?;
        Err(line.wrong(alloc, why.as_str()))
    }

    /// `bytes FILE AT HEX`, `bytes FILE AT HEX ..`: what a file has from a place on.
    pub(crate) fn hold_bytes(&mut self, alloc: Global, mut line: Line<'_>) -> Result<(), Stop> {
        let file = file_of(alloc, &mut line)?;
        let at = line.small(alloc)? as usize;
        let is_front = line.rest.ends_with("..");
        line.rest = line.rest.trim_end_matches('.');
        let wanted = line.hex(alloc)?;
        self.count(1);
        let found = self.machine.file(file).get(at..);
        compare_bytes(alloc, line, found, wanted.as_slice(), is_front)
    }

    /// `same FILE`: the file is as it was before the play.
    pub(crate) fn hold_same(&mut self, alloc: Global, mut line: Line<'_>) -> Result<(), Stop> {
        let file = file_of(alloc, &mut line)?;
        line.end(alloc)?;
        self.count(1);
        if self.is_as_before(alloc, line, file)? {
            return Ok(());
        }
        Err(line.wrong(alloc, "the file isn't as it was before the play"))
    }

    /// Whether a file has the bytes that it had before the play.
    fn is_as_before(&self, alloc: Global, line: Line<'_>, file: u32) -> Result<bool, Stop> {
        let before = self.crashed(alloc, line, 0, 0)?;
        Ok(before.file(file) == self.machine.file(file))
    }

    /// What file 0 opens to now, and its entries.
    pub(crate) fn found(&self, alloc: Global, line: u64) -> Result<(Found, Entries), Stop> {
        let mut copy = self.machine.copied(alloc)?;
        open(alloc, line, &mut copy)
    }

    /// `opens LAST`, `opens none`, `opens damaged AT`: what file 0 opens to.
    pub(crate) fn hold_opens(&mut self, alloc: Global, mut line: Line<'_>) -> Result<(), Stop> {
        let wanted = Found::read(alloc, &mut line)?;
        self.count(1);
        let found = self.found_now(alloc, line.number)?;
        if found == wanted {
            return Ok(());
        }
        let why = found.text(alloc)?;
        Err(line.wrong(alloc, why.as_str()))
    }

    fn found_now(&self, alloc: Global, line: u64) -> Result<Found, Stop> {
        let (found, _entries) = self.found(alloc, line)?;
        Ok(found)
    }

    /// `read FROM COUNT`: so many entries are read from a number on.
    pub(crate) fn hold_read(&mut self, alloc: Global, mut line: Line<'_>) -> Result<(), Stop> {
        let from = line.count(alloc)?;
        let wanted = line.count(alloc)?;
        line.end(alloc)?;
        self.count(1);
        match self.front_from(alloc, from)? {
            Ok(Some(front)) => compare_read(alloc, line, front, from, wanted),
            Ok(None) => Err(line.wrong(alloc, "the first entries aren't held")),
            Err(TransdbError::NoMemory) => Err(Stop::NoMemory),
            Err(_) => Err(line.wrong(alloc, "file 0 can't be read")),
        }
    }

    /// What is read now of the entries of file 0 from a number on.
    fn front_from(
        &self,
        alloc: Global,
        from: u64,
    ) -> Result<Result<Option<Front>, TransdbError>, MemError> {
        let mut copy = self.machine.copied(alloc)?;
        Ok(copy.read(alloc, from))
    }

    /// The machine as a crash behind so many calls leaves it.
    pub(crate) fn crashed(
        &self,
        alloc: Global,
        line: Line<'_>,
        calls: u32,
        pick: u64,
    ) -> Result<Machine, Stop> {
        match self.machine.crashed(alloc, calls, pick)? {
            Some(left) => Ok(left),
            None => Err(line.wrong(alloc, "so many calls weren't made")),
        }
    }

    /// Begins another play, over the files as they are or as a crash leaves them.
    pub(crate) fn next(&mut self, alloc: Global, mut line: Line<'_>) -> Result<(), Stop> {
        self.machine = self.left_by(alloc, &mut line)?;
        self.restart(alloc)?;
        Ok(())
    }

    /// The machine as it is, or as a crash leaves it: what the rest of a line says.
    fn left_by(&self, alloc: Global, line: &mut Line<'_>) -> Result<Machine, Stop> {
        let word = line.word();
        if word == "crash" {
            let calls = line.small(alloc)?;
            let pick = read_pick(alloc, line)?;
            line.end(alloc)?;
            return self.crashed(alloc, *line, calls, pick);
        }
        if !word.is_empty() {
            return Err(line.wrong(alloc, "neither `crash` nor nothing"));
        }
        Ok(self.machine.copied(alloc)?)
    }
}

/// So many entries are read, from this number on.
fn compare_read(
    alloc: Global,
    line: Line<'_>,
    front: Front,
    from: u64,
    count: u64,
) -> Result<(), Stop> {
    let begins = match front.first {
        Some(first) => first == from,
        None => true,
    };
    if begins && front.count == count {
        return Ok(());
    }
    Err(line.wrong(alloc, "other entries are read"))
}

/// This status, with this text, is what a line wants.
fn compare_status(alloc: Global, line: Line<'_>, number: u8, text: &str) -> Result<(), Stop> {
    let wanted = line.rest;
    if number_of(wanted) == Some(u64::from(number)) || wanted == text {
        return Ok(());
    }
    let why = format!(in alloc; "it ended with the status {number} `{text}`")?;
    Err(line.wrong(alloc, why.as_str()))
}

/// These bytes are wanted, as all that is found or as its front.
fn compare_bytes(
    alloc: Global,
    line: Line<'_>,
    found: Option<&[u8]>,
    wanted: &[u8],
    is_front: bool,
) -> Result<(), Stop> {
    let Some(found) = found else {
        return Err(line.wrong(alloc, "the file ends before"));
    };
    if found == wanted || (is_front && found.starts_with(wanted)) {
        return Ok(());
    }
    Err(line.wrong(alloc, "the file has other bytes"))
}
