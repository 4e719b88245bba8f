//! One play of a row.

use crate::machine::Machine;
use odb_model::Status;
use odb_row_scripts::{Line, Script, Stop};
use std::alloc::{AllocError, Global};

/// How many KiB a host has room for unless a row says it.
const ROOM: u32 = 1024;

/// One play of a row: first what it begins with, then what it left.
#[derive(Drop)]
pub(crate) struct Play {
    pub(crate) machine: Machine,
    pub(crate) script: Script,
    /// How it ended, once it was made.
    pub(crate) ended: Option<Status>,
    /// How many comparisons the row's plays made, and how many transactions were run alone.
    pub(crate) checks: u64,
    pub(crate) serial: u64,
}

impl Play {
    /// A play over no files.
    pub(crate) fn new(alloc: Global) -> Result<Play, Stop> {
        let script = Script::new(alloc)?;
        let machine = Machine::new(alloc, ROOM)?;
        Ok(Play {
            machine,
            script,
            ended: None,
            checks: 0,
            serial: 0,
        })
    }

    /// Begins another play over the host's files, of which nothing is said yet.
    pub(crate) fn restart(&mut self, alloc: Global) -> Result<(), AllocError> {
        self.script = Script::new(alloc)?;
        self.ended = None;
        Ok(())
    }

    /// Counts comparisons.
    pub(crate) fn count(&mut self, checks: u64) {
        self.checks = self.checks.saturating_add(checks);
    }

    /// How the play ended; it is made if it wasn't yet.
    pub(crate) fn end(&mut self, alloc: Global, line: u64) -> Result<Status, Stop> {
        if let Some(status) = self.ended {
            return Ok(status);
        }
        let status = self.make(alloc)?;
        self.ended = Some(status);
        self.compare(alloc, line)?;
        Ok(status)
    }

    /// Feeds the host and calls `run`.
    fn make(&mut self, alloc: Global) -> Result<Status, Stop> {
        make(alloc, &mut self.machine, &self.script)
    }

    /// Compares what was said with what is wanted, and with what the plain execution says.
    fn compare(&mut self, alloc: Global, line: u64) -> Result<(), Stop> {
        let checks = self.script.compare(alloc, line, self.machine.said())?;
        let serial = self.compared_alone(alloc, line, self.machine.said())?;
        self.serial = self.serial.saturating_add(serial);
        self.count(checks);
        Ok(())
    }

    /// Compares replies to the script with those of transactions that run alone behind the entries
    /// of file 0, and answers how many there were.
    fn compared_alone(&self, alloc: Global, line: u64, said: &[u8]) -> Result<u64, Stop> {
        let (_found, entries) = self.found(alloc, line)?;
        self.script
            .compare_alone(alloc, line, said, entries.as_slice())
    }

    /// Has a line compare the script and its replies without a play, or answers that its first word
    /// isn't one for that.
    pub(crate) fn compare_unplayed(
        &mut self,
        alloc: Global,
        word: &str,
        line: Line<'_>,
    ) -> Result<bool, Stop> {
        if word != "canonical" && word != "alone" {
            return Ok(false);
        }
        line.end(alloc)?;
        if self.ended.is_some() {
            return Err(line.wrong(alloc, "it stands behind what a play leaves"));
        }
        self.compare_texts(alloc, word, line)?;
        self.ended = Some(Status::Done);
        Ok(true)
    }

    fn compare_texts(&mut self, alloc: Global, word: &str, line: Line<'_>) -> Result<(), Stop> {
        if word == "canonical" {
            self.script.compare_canonical(alloc, line)?;
            self.count(2);
            return Ok(());
        }
        self.compare_replies_alone(alloc, line)
    }

    /// The replies that are wanted are those of transactions that run alone behind the entries of
    /// file 0.
    fn compare_replies_alone(&mut self, alloc: Global, line: Line<'_>) -> Result<(), Stop> {
        let wanted = self.script.wanted_text(alloc)?;
        let serial = self.compared_alone(alloc, line.number, wanted.as_slice())?;
        self.serial = self.serial.saturating_add(serial);
        self.count(serial);
        Ok(())
    }

    /// Has a line say what holds of a play, or answers that its first word is none of that.
    pub(crate) fn hold(&mut self, alloc: Global, word: &str, line: Line<'_>) -> Result<bool, Stop> {
        let status = self.end(alloc, line.number)?;
        match word {
            "status" => self.hold_status(alloc, line, status)?,
            "calls" => self.hold_calls(alloc, line)?,
            "bytes" => self.hold_bytes(alloc, line)?,
            "same" => self.hold_same(alloc, line)?,
            "opens" => self.hold_opens(alloc, line)?,
            "read" => self.hold_read(alloc, line)?,
            "crash" => self.hold_crashes(alloc, line)?,
            "next" => self.next(alloc, line)?,
            _ => return Ok(false),
        }
        Ok(true)
    }
}

/// Plays a script on a machine.
fn make(alloc: Global, machine: &mut Machine, script: &Script) -> Result<Status, Stop> {
    for call in &script.failing {
        machine.fail(alloc, *call)?;
    }
    machine.feed(alloc, script.text.as_slice())?;
    Ok(machine.run(alloc, script.words.as_slice()))
}
