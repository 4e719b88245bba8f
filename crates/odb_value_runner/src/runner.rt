//! The runner of rows whose lines are single cases.
use crate::scene::Scene;
use crate::{images, lines, plain};
use odb_row_values::{
    LineError, Parts, ascending_line, bytes_of, compare_line, keyed_line, meaning_line, parse_line,
    parts_of, range_line, tell_line, text_line, tokens_line, worded_line,
};
use odb_rowfile::{Row, RowLine, RowRunner, Verdict};
use std::alloc::{AllocError, Global};
use std::str;

/// Runs rows whose lines are single cases, each with what is wanted of it behind `=>`, and lines
/// that set up what later ones of the row are run on.
#[derive(Drop)]
pub struct ValueRunner;

impl RowRunner for ValueRunner {
    fn run_row(&mut self, alloc: Global, row: &Row) -> Result<Verdict, AllocError> {
        let mut scene = Scene::new(alloc);
        run_lines(alloc, &mut scene, row.lines.as_slice())
    }

    fn tally(&mut self, alloc: Global) -> Result<String, AllocError> {
        Ok(String::new(alloc))
    }
}

/// What comes of a line.
#[derive(Drop)]
enum Finding {
    /// It wanted nothing.
    Set,
    /// What it gives is what is wanted.
    Holds,
    /// It isn't, or the line can't be read.
    Wrong(String),
}

/// Runs lines, up to the first that is wrong.
fn run_lines(alloc: Global, scene: &mut Scene, lines: &[RowLine]) -> Result<Verdict, AllocError> {
    let mut checks = 0u64;
    for line in lines {
        match run_line(alloc, scene, line.text.as_str())? {
            Finding::Set => {}
            Finding::Holds => checks = checks.saturating_add(1),
            Finding::Wrong(why) => return Ok(Verdict::Wrong {
                line: line.number,
                why,
            }),
        }
    }
    Ok(Verdict::Holds { checks })
}

/// Runs a line.
fn run_line(alloc: Global, scene: &mut Scene, line: &str) -> Result<Finding, AllocError> {
    let parts = parts_of(line);
    let found = match parts.wanted {
        Some(wanted) => compared(alloc, scene, parts, wanted),
        None => set(alloc, scene, parts),
    };
    match found {
        Ok(finding) => Ok(finding),
        Err(LineError::Memory(error)) => Err(error),
        Err(LineError::Unreadable(why)) => Ok(Finding::Wrong(String::from_str(alloc, why)?)),
    }
}

/// Does what a line asks for that wants nothing.
fn set(alloc: Global, scene: &mut Scene, parts: Parts<'_>) -> Result<Finding, LineError> {
    scene.set(alloc, parts.kind, parts.given)?;
    Ok(Finding::Set)
}

/// Whether what a line gives is what it wants.
fn compared(
    alloc: Global,
    scene: &Scene,
    parts: Parts<'_>,
    wanted: &str,
) -> Result<Finding, LineError> {
    let given = bytes_of(alloc, parts.given)?;
    let expected = bytes_of(alloc, wanted)?;
    let found = found(alloc, scene, parts.kind, given.as_slice())?;
    if found.as_bytes() == expected.as_slice() {
        return Ok(Finding::Holds);
    }
    differing(alloc, wanted, found.as_str())
}

/// What a line of this kind gives.
fn found(alloc: Global, scene: &Scene, kind: &str, given: &[u8]) -> Result<String, LineError> {
    let mut found = String::new(alloc);
    find(alloc, &mut found, scene, kind, given)?;
    Ok(found)
}

fn differing(alloc: Global, wanted: &str, found: &str) -> Result<Finding, LineError> {
    Ok(Finding::Wrong(message(alloc, wanted, found)?))
}

/// The most characters of what is found that a message shows.
const MOST_SHOWN: usize = 400;

fn message(alloc: Global, wanted: &str, found: &str) -> Result<String, AllocError> {
    let mut why = format!(in alloc; "wanted `{wanted}`, got `")?;
    for character in found.chars().take(MOST_SHOWN) {
        why.push(character)?;
    }
    why.push_str("`")?;
    Ok(why)
}

/// Puts what a line of this kind gives: those on bytes.
fn find(
    alloc: Global,
    out: &mut String,
    scene: &Scene,
    kind: &str,
    given: &[u8],
) -> Result<(), LineError> {
    match kind {
        "parse" => parse_line(alloc, out, given),
        "tell" => tell_line(alloc, out, given),
        "tokens" => tokens_line(out, given),
        "meaning" => meaning_line(alloc, out, given),
        "control" => lines::control(out, given),
        "event" => lines::event(alloc, out, given),
        _ => match str::from_utf8(given) {
            Ok(text) => find_in_text(alloc, out, scene, kind, text),
            Err(_) => Err(LineError::Unreadable("what is given is no UTF-8")),
        },
    }
}

/// Those on texts.
fn find_in_text(
    alloc: Global,
    out: &mut String,
    scene: &Scene,
    kind: &str,
    given: &str,
) -> Result<(), LineError> {
    match kind {
        "worded" => worded_line(out, given),
        "reply" => lines::reply(alloc, out, given),
        "text" => text_line(alloc, out, given),
        "keyed" => keyed_line(alloc, out, given),
        "compare" => compare_line(alloc, out, given),
        "ascending" => ascending_line(alloc, out, given),
        "range" => range_line(alloc, out, given),
        "entry-image" => images::entry_image(alloc, out, given),
        "key-image" => images::key_image(alloc, out, given),
        "row-image" => images::row_image(alloc, out, given),
        _ => find_in_scene(alloc, out, scene, kind, given),
    }
}

/// Those on what the row has set up.
fn find_in_scene(
    alloc: Global,
    out: &mut String,
    scene: &Scene,
    kind: &str,
    given: &str,
) -> Result<(), LineError> {
    match kind {
        "execute" => plain::executed(alloc, out, scene, given),
        "reads" => plain::reads(alloc, out, scene, given),
        "conflict" => plain::conflict(out, scene),
        "alone" => plain::ran(alloc, out, scene),
        "net" => plain::net(alloc, out, scene),
        "rows-of" => plain::rows(alloc, out, scene, given),
        "has" => plain::has(alloc, out, scene, given),
        _ => Err(LineError::Unreadable("no line has this kind")),
    }
}
