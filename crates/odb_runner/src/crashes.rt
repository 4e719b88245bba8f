//! Crashes of a play, and what file 0 opens to behind each.

use crate::found::{Found, open};
use crate::play::Play;
use odb_row_scripts::{Line, Stop};
use odb_rowfile::number_of;
use std::alloc::{AllocError, Global};

/// What ranges that weren't synced hold after a crash, by digits to base 3, the lowest for the
/// first range: 0 what was there, 1 what was written, 2 bytes A5. Each number has 40 equal digits,
/// or by turns those that its name says.
const OLD: u64 = 0;

const NEW: u64 = 6_078_832_729_528_464_400;

const OTHER: u64 = 12_157_665_459_056_928_800;

const FALLING: u64 = 8_884_447_835_464_678_739;

const RISING: u64 = 3_273_217_623_592_250_061;

/// The pick of a name.
fn pick_of(word: &str) -> Option<u64> {
    match word {
        "old" => Some(OLD),
        "new" => Some(NEW),
        "a5" => Some(OTHER),
        "210" => Some(FALLING),
        "012" => Some(RISING),
        _ => None,
    }
}

/// The pick that the next word of a line names.
pub(crate) fn read_pick(alloc: Global, line: &mut Line<'_>) -> Result<u64, Stop> {
    match pick_of(line.word()) {
        Some(pick) => Ok(pick),
        None => Err(line.wrong(alloc, "no pick")),
    }
}

/// The picks that a line names up to the word `opens`.
fn read_picks(alloc: Global, line: &mut Line<'_>) -> Result<Vec<u64>, Stop> {
    let mut picks = Vec::new(alloc);
    for _ in 0..line.rest.len() {
        let word = line.word();
        if word == "opens" {
            break;
        }
        if word == "*" {
            picks.extend_from_slice(&[OLD, NEW, OTHER, FALLING, RISING])?;
            continue;
        }
        let Some(pick) = pick_of(word) else {
            return Err(line.wrong(alloc, "no pick"));
        };
        picks.push(pick).map_err(AllocError::from)?;
    }
    if picks.is_empty() {
        return Err(line.wrong(alloc, "no pick"));
    }
    Ok(picks)
}

/// The calls that a word names: one number, two with `..` between them, or one with `..` behind it,
/// up to the end.
fn read_range(word: &str, end: u32) -> Option<(u32, u32)> {
    let Some((first, last)) = word.split_once("..") else {
        let only = u32::try_from(number_of(word)?).ok()?;
        return Some((only, only));
    };
    let first = u32::try_from(number_of(first)?).ok()?;
    if last.is_empty() {
        return Some((first, end));
    }
    Some((first, u32::try_from(number_of(last)?).ok()?))
}

impl Play {
    /// `crash FIRST..LAST PICK .. opens ..`: what each of these crashes leaves file 0 to open to.
    pub(crate) fn hold_crashes(&mut self, alloc: Global, mut line: Line<'_>) -> Result<(), Stop> {
        let end = self.machine.calls();
        let Some((first, last)) = read_range(line.word(), end) else {
            return Err(line.wrong(alloc, "no calls"));
        };
        let picks = read_picks(alloc, &mut line)?;
        let wanted = Found::read(alloc, &mut line)?;
        if last < first || end < last {
            return Err(line.wrong(alloc, "so many calls weren't made"));
        }
        for calls in first..=last {
            for pick in &picks {
                self.hold_crash(alloc, line, calls, *pick, wanted)?;
            }
        }
        Ok(())
    }

    /// What a crash leaves has to open to this.
    fn hold_crash(
        &mut self,
        alloc: Global,
        line: Line<'_>,
        calls: u32,
        pick: u64,
        wanted: Found,
    ) -> Result<(), Stop> {
        self.count(1);
        let found = self.found_behind(alloc, line, calls, pick)?;
        if found == wanted {
            return Ok(());
        }
        Err(another(alloc, line, calls, pick, found))
    }

    /// What a crash leaves file 0 to open to.
    fn found_behind(
        &self,
        alloc: Global,
        line: Line<'_>,
        calls: u32,
        pick: u64,
    ) -> Result<Found, Stop> {
        let mut left = self.crashed(alloc, line, calls, pick)?;
        let (found, _entries) = open(alloc, line.number, &mut left)?;
        Ok(found)
    }
}

/// That a crash leaves file 0 to open to this.
fn another(alloc: Global, line: Line<'_>, calls: u32, pick: u64, found: Found) -> Stop {
    match told(alloc, calls, pick, found) {
        Ok(why) => line.wrong(alloc, why.as_str()),
        Err(_) => Stop::NoMemory,
    }
}

fn told(alloc: Global, calls: u32, pick: u64, found: Found) -> Result<String, AllocError> {
    let found = found.text(alloc)?;
    format!(in alloc; "behind {calls} calls by {pick} {found}")
}
