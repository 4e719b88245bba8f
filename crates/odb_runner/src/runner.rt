//! The runner of rows of whole scripts.

use crate::machine::Machine;
use crate::play::Play;
use odb_row_scripts::{Line, Stop, wrong};
use odb_rowfile::{Row, RowLine, RowRunner, Verdict, split_word};
use std::alloc::{AllocError, Global};

/// Files that later rows may begin with.
#[derive(Drop)]
struct Kept {
    name: String,
    machine: Machine,
}

/// Runs rows of whole scripts, and counts the transactions that were run alone.
#[derive(Drop)]
pub struct ScriptRunner {
    kept: Vec<Kept>,
    serial: u64,
}

impl ScriptRunner {
    /// A runner that has run no row.
    pub fn new(alloc: Global) -> ScriptRunner {
        ScriptRunner {
            kept: Vec::new(alloc),
            serial: 0,
        }
    }

    /// Runs a row's lines, and answers how many comparisons were made.
    fn run_lines(&mut self, alloc: Global, row: &Row) -> Result<u64, Stop> {
        let mut play = Play::new(alloc)?;
        self.play(alloc, row, &mut play)?;
        self.serial = self.serial.saturating_add(play.serial);
        Ok(play.checks)
    }

    /// Makes a row's plays.
    fn play(&mut self, alloc: Global, row: &Row, play: &mut Play) -> Result<(), Stop> {
        let mut last = 0;
        for line in &row.lines {
            last = line.number;
            self.run_line(alloc, row.name.as_str(), play, line)?;
        }
        play.end(alloc, last)?;
        Ok(())
    }

    fn run_line(
        &mut self,
        alloc: Global,
        name: &str,
        play: &mut Play,
        line: &RowLine,
    ) -> Result<(), Stop> {
        let (word, rest) = split_word(line.text.as_str());
        let line = Line {
            number: line.number,
            rest,
        };
        let is_before = self.begin_with(alloc, word, play, line)?
            || play.prepare(alloc, word, line)?;
        if is_before && play.ended.is_some() {
            return Err(line.wrong(alloc, "it stands behind what a play leaves"));
        }
        if is_before
            || play.compare_unplayed(alloc, word, line)?
            || self.keep(alloc, name, word, play, line)?
            || play.hold(alloc, word, line)?
        {
            return Ok(());
        }
        Err(line.wrong(alloc, "no line of a row"))
    }

    /// Begins a play with the files that a row kept, where the line's first word is `with`.
    fn begin_with(
        &mut self,
        alloc: Global,
        word: &str,
        play: &mut Play,
        line: Line<'_>,
    ) -> Result<bool, Stop> {
        if word != "with" {
            return Ok(false);
        }
        let Some(machine) = self.kept_by(line.rest) else {
            return Err(wrong(alloc, line.number, "no row above keeps files by this name"));
        };
        play.machine = machine.copied(alloc)?;
        Ok(true)
    }

    /// The machine that the row of this name kept.
    fn kept_by(&self, name: &str) -> Option<&Machine> {
        for kept in &self.kept {
            if kept.name.as_str() == name {
                return Some(&kept.machine);
            }
        }
        None
    }

    /// Keeps the files that a play left, where the line's first word is `keep`.
    fn keep(
        &mut self,
        alloc: Global,
        name: &str,
        word: &str,
        play: &mut Play,
        line: Line<'_>,
    ) -> Result<bool, Stop> {
        if word != "keep" {
            return Ok(false);
        }
        line.end(alloc)?;
        play.end(alloc, line.number)?;
        self.put(alloc, name, &play.machine)?;
        Ok(true)
    }

    fn put(&mut self, alloc: Global, name: &str, machine: &Machine) -> Result<(), Stop> {
        let machine = machine.copied(alloc)?;
        let name = String::from_str(alloc, name)?;
        self.kept
            .push(Kept { name, machine })
            .map_err(AllocError::from)?;
        Ok(())
    }
}

impl RowRunner for ScriptRunner {
    fn run_row(&mut self, alloc: Global, row: &Row) -> Result<Verdict, AllocError> {
        match self.run_lines(alloc, row) {
            Ok(checks) => Ok(Verdict::Holds { checks }),
            Err(Stop::Wrong { line, why }) => Ok(Verdict::Wrong { line, why }),
            Err(Stop::NoMemory) => Err(AllocError),
        }
    }

    fn tally(&mut self, alloc: Global) -> Result<String, AllocError> {
        let serial = self.serial;
        self.serial = 0;
        self.kept = Vec::new(alloc);
        format!(in alloc; ", {serial} serial")
    }
}
