//! The rows of a file, run and counted.
ghost use Rattle.std.specs.Prelude.{◌↔◌, IsTrue};
ghost use Rattle.odb_rowfile.specs.Reported.{IsReported};

use crate::{Row, read_rows};
use std::alloc::{AllocError, Global};

/// What a runner finds of a row.
#[derive(Debug, Drop)]
pub enum Verdict {
    /// Each line holds, and so many things were compared with what a line says.
    Holds { checks: u64 },
    /// A line that doesn't hold, or can't be read, and why.
    Wrong { line: u64, why: String },
}

/// What runs the rows of one kind.
pub trait RowRunner {
    /// Runs a row, from a beginning of its own.
    fn run_row(&mut self, alloc: Global, row: &Row) -> Result<Verdict, AllocError>;

    /// What else was counted since it was last asked, as `, 31 serial`; nothing where it is empty.
    fn tally(&mut self, alloc: Global) -> Result<String, AllocError>;
}

/// How a file's rows were found.
#[derive(Clone, Copy)]
struct Counts {
    rows: u64,
    checks: u64,
    /// Rows that were reported.
    reported: u64,
}

/// Runs the rows of a file of this name and these bytes, and answers whether nothing was reported.
///
/// It writes a line for each row that is reported, and then, where the file can be read, one with
/// the counts of rows and checks and with what the runner counted. A row is reported that is wrong
/// or compared nothing, and a wrong row that holds; a wrong row that is found wrong is counted as a
/// row.
pub fn run_file<N: RowRunner>(
    alloc: Global,
    name: &str,
    bytes: &[u8],
    runner: &mut N,
    out: &mut String,
) -> Result<bool, AllocError> {
    let rows = match read_rows(alloc, bytes) {
        Ok(rows) => rows,
        Err(error) => {
            writeln!(out, "{name}: {error}")?;
            return Ok(false);
        }
    };
    let counts = run_rows(alloc, name, rows.as_slice(), runner, out)?;
    let tally = runner.tally(alloc)?;
    let rows = counts.rows;
    let checks = counts.checks;
    writeln!(out, "{name}: {rows} rows, {checks} checks{tally}")?;
    Ok(counts.reported == 0)
}

/// Runs the rows one after another.
fn run_rows<N: RowRunner>(
    alloc: Global,
    name: &str,
    rows: &[Row],
    runner: &mut N,
    out: &mut String,
) -> Result<Counts, AllocError> {
    let mut counts = Counts {
        rows: 0,
        checks: 0,
        reported: 0,
    };
    for row in rows {
        let verdict = runner.run_row(alloc, row)?;
        counts.count(name, row, &verdict, out)?;
    }
    Ok(counts)
}

impl Counts {
    /// Counts a row, or reports it.
    fn count(
        &mut self,
        name: &str,
        row: &Row,
        verdict: &Verdict,
        out: &mut String,
    ) -> Result<(), AllocError> {
        if is_reported(row.is_wrong, verdict) {
            self.reported = self.reported.saturating_add(1);
            return report(name, row, verdict, out);
        }
        self.rows = self.rows.saturating_add(1);
        if let Verdict::Holds { checks } = verdict {
            self.checks = self.checks.saturating_add(*checks);
        }
        Ok(())
    }
}

/// Whether a row is reported: where it is wrong or compared nothing, or, if it has to be found
/// wrong, where it holds.
fn is_reported(is_wrong: bool, verdict: &Verdict) -> bool
    ensures { IsTrue result ↔ IsReported is_wrong verdict.now }
{
    match verdict {
        Verdict::Holds { checks } => is_wrong || *checks == 0,
        Verdict::Wrong { .. } => !is_wrong,
    }
}

/// Writes the line of a row that is reported.
fn report(name: &str, row: &Row, verdict: &Verdict, out: &mut String) -> Result<(), AllocError> {
    let row_name = row.name.as_str();
    match verdict {
        Verdict::Holds { checks: 0 } => {
            writeln!(out, "{name}: row {row_name}: compares nothing")
        }
        Verdict::Holds { .. } => writeln!(out, "{name}: wrong row {row_name}: holds"),
        Verdict::Wrong { line, why } => {
            writeln!(out, "{name}: row {row_name}: line {line}: {why}")
        }
    }
}
