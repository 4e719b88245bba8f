//! The lines of STATE.
ghost use Rattle.std.specs.Prelude.{◌≡◌};
ghost use Rattle.odb_lex.specs.Written.{Appends};
ghost use Rattle.odb_model.specs.Print.{line_of, phase_text, side_text, mark_text, log_words, copy_words, copies_lines, sides_words, state_text};

use crate::print::{put_head, put_line, put_number_line, put_two_numbers};
use odb_model::{CopyLine, CopyPhase, Head, LogSpan, OtherSide, StateReply};
use std::alloc::AllocError;

/// What a reply calls a phase.
pub(crate) fn phase_name(phase: CopyPhase) -> &'static str
    ensures { result.now ≡ phase_text phase }
{
    match phase {
        CopyPhase::Idle => "IDLE",
        CopyPhase::Bodies => "BODIES",
        CopyPhase::Gates => "GATES",
        CopyPhase::Source => "SOURCE",
        CopyPhase::Blank => "BLANK",
        CopyPhase::Filling => "FILLING",
        CopyPhase::Copied => "COPIED",
        CopyPhase::Resting => "RESTING",
        CopyPhase::Out => "OUT",
    }
}

/// A line for the history, one for TRANSDB, one for LOGDB, and one for each copy.
pub(crate) fn put_state(out: &mut String, head: Head, state: &StateReply) -> Result<(), AllocError>
    ensures { Appends result out.old out.new (state_text head state.now) }
{
    put_number_line(out, head, "NUMBER ", state.number)?;
    put_sides(out, head, state)?;
    put_log(out, head, state.log)?;
    put_copies(out, head, state.copies.as_slice())
}

/// The active side of TRANSDB, the state of the other one, and the number of the first entry held.
fn put_sides(out: &mut String, head: Head, state: &StateReply) -> Result<(), AllocError>
    ensures { Appends result out.old out.new (line_of head (sides_words state.now)) }
{
    let active = state.active;
    let other = side_name(state.other);
    let first = state.first;
    put_head(out, head)?;
    writeln!(out, " TRANSDB {active} {other} {first}")
}

/// What a reply calls the state of a side.
fn side_name(side: OtherSide) -> &'static str
    ensures { result.now ≡ side_text side }
{
    match side {
        OtherSide::Live => "LIVE",
        OtherSide::Dirty => "DIRTY",
        OtherSide::Clean => "CLEAN",
    }
}

fn put_log(out: &mut String, head: Head, log: Option<LogSpan>) -> Result<(), AllocError>
    ensures { Appends result out.old out.new (line_of head (log_words log)) }
{
    match log {
        None => put_line(out, head, "LOGDB OUT"),
        Some(span) => put_two_numbers(out, head, "LOGDB ", span.first, span.last),
    }
}

fn put_copies(out: &mut String, head: Head, copies: &[CopyLine]) -> Result<(), AllocError>
    ensures { Appends result out.old out.new (copies_lines head copies.now) }
{
    for copy in copies {
        put_copy(out, head, copy)?;
    }
    Ok(())
}

fn put_copy(out: &mut String, head: Head, copy: &CopyLine) -> Result<(), AllocError>
    ensures { Appends result out.old out.new (line_of head (copy_words copy.now)) }
{
    let file = copy.file;
    let bank = copy.bank;
    let phase = phase_name(copy.phase);
    put_head(out, head)?;
    write!(out, " FILE {file} BANK {bank} MARK ")?;
    put_mark(out, copy.mark)?;
    writeln!(out, " {phase}")
}

/// A mark, or a dash where none is told.
fn put_mark(out: &mut String, mark: Option<u64>) -> Result<(), AllocError>
    ensures { Appends result out.old out.new (mark_text mark) }
{
    match mark {
        None => out.push_str("-"),
        Some(mark) => write!(out, "{mark}"),
    }
}
