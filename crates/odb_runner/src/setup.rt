//! The files that are there before a play.

use crate::machine::{Creation, FILES, Machine};
use crate::play::Play;
use odb_row_scripts::{Line, Stop};
use std::alloc::Global;

impl Play {
    /// Has a line say what a play begins with, or answers that its first word is none of that.
    pub(crate) fn prepare(
        &mut self,
        alloc: Global,
        word: &str,
        line: Line<'_>,
    ) -> Result<bool, Stop> {
        if set_files(alloc, &mut self.machine, word, line)? {
            return Ok(true);
        }
        self.script.read(alloc, word, line)
    }
}

/// Has a line say which files are there, or answers that its first word is none of that.
fn set_files(
    alloc: Global,
    machine: &mut Machine,
    word: &str,
    line: Line<'_>,
) -> Result<bool, Stop> {
    match word {
        "room" => set_room(alloc, machine, line)?,
        "create" => create(alloc, machine, line)?,
        "put" => put(alloc, machine, line)?,
        "cut" => cut(alloc, machine, line)?,
        "no" => empty(alloc, machine, line)?,
        _ => return Ok(false),
    }
    Ok(true)
}

fn set_room(alloc: Global, machine: &mut Machine, mut line: Line<'_>) -> Result<(), Stop> {
    let room = line.small(alloc)?;
    line.end(alloc)?;
    *machine = Machine::new(alloc, room)?;
    Ok(())
}

fn create(alloc: Global, machine: &mut Machine, mut line: Line<'_>) -> Result<(), Stop> {
    let side = line.small(alloc)?;
    line.end(alloc)?;
    match machine.create(alloc, side)? {
        Creation::Made => Ok(()),
        Creation::NoMemory => Err(Stop::NoMemory),
        Creation::NoRoom => Err(line.wrong(alloc, "there is no room for it")),
        Creation::NoSide => Err(line.wrong(alloc, "no size of a side")),
    }
}

/// The number of a file, which has to be one that a row may name.
pub(crate) fn file_of(alloc: Global, line: &mut Line<'_>) -> Result<u32, Stop> {
    let file = line.small(alloc)?;
    if file >= FILES {
        return Err(line.wrong(alloc, "no file of this number"));
    }
    Ok(file)
}

fn put(alloc: Global, machine: &mut Machine, mut line: Line<'_>) -> Result<(), Stop> {
    let file = file_of(alloc, &mut line)?;
    let at = line.small(alloc)? as usize;
    let piece = line.hex(alloc)?;
    if machine.put_over(alloc, file, at, piece.as_slice())? {
        return Ok(());
    }
    Err(line.wrong(alloc, "the file ends before"))
}

fn cut(alloc: Global, machine: &mut Machine, mut line: Line<'_>) -> Result<(), Stop> {
    let file = file_of(alloc, &mut line)?;
    let length = line.small(alloc)? as usize;
    line.end(alloc)?;
    if machine.cut(alloc, file, length)? {
        return Ok(());
    }
    Err(line.wrong(alloc, "the file ends before"))
}

fn empty(alloc: Global, machine: &mut Machine, mut line: Line<'_>) -> Result<(), Stop> {
    let file = file_of(alloc, &mut line)?;
    line.end(alloc)?;
    Ok(machine.set_file(alloc, file, b"")?)
}
