//! The summary of the replies.
ghost use Rattle.std.specs.Prelude.{◌≡◌, ◌<◌, ◌-◌, ◌^◌, ◌∷◌, ◌++◌, [], List, length, IfOk, codes, decimal};
ghost use Rattle.odb_model.specs.declared.reply.Reply.{Reply as Answer};
ghost use Rattle.odb_lex.specs.Written.{Appends};
ghost use Rattle.odb_generate.specs.Summary.{summary_of, summary_text, number_in_rows, told_line, total_text};

use odb_model::{LF, Reply};
use odb_values::{Bytes, Frozen, Value, Values};
use std::alloc::{AllocError, Global};

/// How many bytes a summary has at most.
const USUAL: usize = 160;

/// What is told in the end of the replies to a script.
#[derive(Clone, Copy, Debug, PartialEq, Eq)]
pub struct Summary {
    /// How many are COMMITTED.
    pub committed: u64,
    /// How many are CONFLICT.
    pub conflicts: u64,
    /// How many others are REFUSED or INDOUBT.
    pub other: u64,
    /// The number that the last SELECT told; None where there was none.
    pub total: Option<i64>,
}

impl Summary {
    /// The summary of no reply.
    pub fn new() -> Summary
        ensures { result ≡ summary_of [] }
    {
        Summary {
            committed: 0,
            conflicts: 0,
            other: 0,
            total: None,
        }
    }

    /// Takes one more reply in. A count that has come to the end of its type stands still; before
    /// 2^64 replies none has.
    pub fn add(&mut self, reply: &Reply)
        ensures { (replies : List Answer) → length replies < 2 ^ 64 - 1
            → self.old ≡ summary_of replies
            → self.new ≡ summary_of (replies ++ reply.now ∷ []) }
    {
        match reply {
            Reply::Committed(_) => self.committed = self.committed.saturating_add(1),
            Reply::Conflict(_) => self.conflicts = self.conflicts.saturating_add(1),
            Reply::Rows(rows) => self.total = number_in_rows(rows.as_slice()),
            Reply::Okay
            | Reply::Done(_)
            | Reply::Ended(_)
            | Reply::Bodies { .. }
            | Reply::Gates { .. }
            | Reply::Mark { .. }
            | Reply::Logged(_)
            | Reply::Turned { .. }
            | Reply::Cleaned
            | Reply::Copying { .. }
            | Reply::Copied { .. }
            | Reply::LogFirst(_)
            | Reply::Opened(_)
            | Reply::State(_) => {}
            _ => self.other = self.other.saturating_add(1),
        }
    }
}

/// The number of the first value of the first row, where it has one.
fn number_in_rows(rows: &[Values]) -> Option<i64>
    ensures { result ≡ number_in_rows rows.now }
{
    let row = rows.first()?;
    match row.as_slice().first()? {
        Value::Int(number) => Some(*number),
        Value::Null | Value::Text(_) => None,
    }
}

/// The six lines that tell the summary of so many rounds, behind which the history has this number
/// of entries. The error is want of memory.
pub fn print_summary(
    alloc: Global,
    rounds: u32,
    summary: &Summary,
    number: u64,
) -> Result<Bytes, AllocError>
    ensures { IfOk result (λ bytes. bytes ≡ summary_text rounds summary.now number) }
{
    let mut out = String::with_capacity(alloc, USUAL)?;
    put_count(&mut out, "ROUNDS", u64::from(rounds))?;
    put_count(&mut out, "COMMITTED", summary.committed)?;
    put_count(&mut out, "CONFLICTS", summary.conflicts)?;
    put_count(&mut out, "OTHER", summary.other)?;
    put_total(&mut out, summary.total)?;
    put_count(&mut out, "NUMBER", number)?;
    Ok(Frozen::from_vec(out.into_bytes()))
}

fn put_count(out: &mut String, word: &str, count: u64) -> Result<(), AllocError>
    ensures { Appends result out.old out.new (told_line word.now (decimal count)) }
{
    writeln!(out, "{word} {count}")
}

fn put_total(out: &mut String, total: Option<i64>) -> Result<(), AllocError>
    ensures { Appends result out.old out.new (told_line (codes "TOTAL") (total_text total)) }
{
    match total {
        Some(number) => writeln!(out, "TOTAL {number}"),
        None => out.push_str("TOTAL NULL\n"),
    }
}
