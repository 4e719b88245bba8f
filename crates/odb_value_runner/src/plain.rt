//! Lines on what statements do on a history: the definitions, computed plainly.
use crate::calls::outcome;
use crate::history::is_history;
use crate::images::tell_writes;
use crate::lines::put_reply;
use crate::scene::{FORMAT, Scene, statement_of};
use odb_model::{Entry, Head, Outcome, Read, Reply, Statement, TableKey, Write};
use odb_plain::{Rows, SerialRun, alone, first_conflict, net_writes, rows_in};
use odb_row_values::{
    LineError, answer, key_of, number_in, part, put, range_in, tell_tuple, tell_value,
};
use odb_values::{Edge, Frozen, Range, Row};
use std::alloc::{AllocError, Global};

/// `execute STATEMENT`: the reply to a statement, and its writes.
pub fn executed(
    alloc: Global,
    out: &mut String,
    scene: &Scene,
    given: &str,
) -> Result<(), LineError> {
    let outcome = outcome_of(alloc, scene, given)?;
    tell_outcome(alloc, out, &outcome)
}

fn tell_outcome(alloc: Global, out: &mut String, outcome: &Outcome) -> Result<(), LineError> {
    tell_reply(alloc, out, &outcome.reply)?;
    tell_all(out, outcome.writes.as_slice())
}

/// Tells writes.
fn tell_all(out: &mut String, writes: &[Write]) -> Result<(), LineError> {
    Ok(tell_writes(out, writes)?)
}

/// `reads STATEMENT`: the ranges that a statement reads.
pub fn reads(alloc: Global, out: &mut String, scene: &Scene, given: &str) -> Result<(), LineError> {
    let outcome = outcome_of(alloc, scene, given)?;
    tell_ranges(out, outcome.reads.as_slice())
}

fn tell_ranges(out: &mut String, ranges: &[Range]) -> Result<(), LineError> {
    for range in ranges {
        tell_range(out, range)?;
    }
    Ok(())
}

/// What a statement does where the transaction has made its own writes on the history.
fn outcome_of(alloc: Global, scene: &Scene, given: &str) -> Result<Outcome, LineError> {
    let statement = statement_of(alloc, given)?;
    outcome(
        alloc,
        &statement,
        scene.history.as_slice(),
        scene.write_set.as_slice(),
    )
}

/// `conflict`: the number of the first entry that overwrote what was read.
pub fn conflict(out: &mut String, scene: &Scene) -> Result<(), LineError> {
    match conflict_in(scene.history.as_slice(), scene.reads.as_slice())? {
        Some(number) => Ok(write!(out, "{number}")?),
        None => put(out, "none"),
    }
}

/// The number of the first entry that overwrote one of the reads.
fn conflict_in(history: &[Entry], reads: &[Read]) -> Result<Option<u64>, LineError> {
    if !is_history(history) {
        return Err(LineError::Unreadable("the entries aren't numbered from 1"));
    }
    Ok(first_conflict(history, reads))
}

/// `alone`: what the statements answer and leave, run alone on the history.
pub fn ran(alloc: Global, out: &mut String, scene: &Scene) -> Result<(), LineError> {
    let ran = run_alone(alloc, scene.statements.as_slice(), scene.history.as_slice())?;
    tell_replies(alloc, out, ran.replies.as_slice())?;
    tell_all(out, ran.net.as_slice())
}

/// What statements answer and leave, run alone on a history.
fn run_alone(
    alloc: Global,
    statements: &[Statement],
    history: &[Entry],
) -> Result<SerialRun, LineError> {
    Ok(alone(alloc, statements, history, FORMAT)?)
}

fn tell_replies(alloc: Global, out: &mut String, replies: &[Reply]) -> Result<(), LineError> {
    for reply in replies {
        tell_reply(alloc, out, reply)?;
    }
    Ok(())
}

/// `net`: what the transaction's own writes leave on the history.
pub fn net(alloc: Global, out: &mut String, scene: &Scene) -> Result<(), LineError> {
    let net = net_writes(alloc, scene.history.as_slice(), scene.write_set.as_slice())?;
    tell_all(out, net.as_slice())
}

/// `rows-of RANGE`: the rows of a range, where the transaction has made its own writes on the
/// history.
pub fn rows(alloc: Global, out: &mut String, scene: &Scene, given: &str) -> Result<(), LineError> {
    let (range, _) = range_in(alloc, given)?;
    let rows = rows_of(alloc, scene, &range)?;
    Ok(tell_rows(out, &rows)?)
}

/// The rows of a range.
fn rows_of(alloc: Global, scene: &Scene, range: &Range) -> Result<Rows, AllocError> {
    rows_in(
        alloc,
        scene.history.as_slice(),
        scene.write_set.as_slice(),
        range,
    )
}

fn tell_rows(out: &mut String, rows: &Rows) -> Result<(), AllocError> {
    for (at, row) in rows.iter() {
        tell_row(out, at, row)?;
    }
    Ok(())
}

fn tell_row(out: &mut String, at: &TableKey, row: &Row) -> Result<(), AllocError> {
    let table = at.table;
    part(out)?;
    write!(out, "{table} ")?;
    tell_tuple(out, at.key.as_slice())?;
    out.push_str(" ")?;
    tell_tuple(out, row.as_slice())
}

/// `has TABLE KEY`: whether there is a row at a key of a table, where the transaction has made its
/// own writes on the history.
pub fn has(alloc: Global, out: &mut String, scene: &Scene, given: &str) -> Result<(), LineError> {
    let (table, key) = number_in(given)?;
    let key = key_of(alloc, key)?;
    let at = TableKey { table, key };
    let holds = has_row(alloc, scene, &at)?;
    put(out, answer(holds))
}

/// Whether there is a row at a key.
fn has_row(alloc: Global, scene: &Scene, at: &TableKey) -> Result<bool, AllocError> {
    let whole = whole_table(alloc, at.table);
    let rows = rows_of(alloc, scene, &whole)?;
    Ok(rows.has(at))
}

/// The range of a whole table.
fn whole_table(alloc: Global, table: u32) -> Range {
    Range {
        table,
        prefix: Frozen::empty(alloc),
        low: Edge::Free,
        high: Edge::Free,
    }
}

/// Tells the lines of a reply to session 1.
fn tell_reply(alloc: Global, out: &mut String, reply: &Reply) -> Result<(), LineError> {
    let mut text = String::new(alloc);
    put_reply(alloc, &mut text, Head::Session(1), reply)?;
    tell_lines(out, text.as_str())
}

fn tell_lines(out: &mut String, text: &str) -> Result<(), LineError> {
    for line in text.lines() {
        part(out)?;
        put(out, line)?;
    }
    Ok(())
}

/// Tells a range as a line writes it.
fn tell_range(out: &mut String, range: &Range) -> Result<(), AllocError> {
    let table = range.table;
    part(out)?;
    write!(out, "{table} ")?;
    tell_tuple(out, range.prefix.as_slice())?;
    tell_edge(out, ">", &range.low)?;
    tell_edge(out, "<", &range.high)
}

fn tell_edge(out: &mut String, sign: &str, edge: &Edge) -> Result<(), AllocError> {
    match edge {
        Edge::Free => out.push_str(" *"),
        Edge::Closed(value) => {
            write!(out, " {sign}=")?;
            tell_value(out, value)
        }
        Edge::Beyond(value) => {
            write!(out, " {sign}")?;
            tell_value(out, value)
        }
    }
}
