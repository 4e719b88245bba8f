//! Lines about the extents of file 0.
ghost use Rattle.std.specs.Prelude.{◌≤◌, IfOk};

use crate::calls::{format_extents, grow, open_extents, put_fields};
use odb_extent::{ExtentError, Extents};
use odb_row_disks::{StepError, Untold, byte_number, short_number};
use odb_rowfile::split_word;
use std::alloc::AllocError;

/// How many extents a file may have.
pub(crate) const MOST: u32 = 4096;

/// A line that begins with `extents`.
pub(crate) fn extents_line<'a>(
    kept: &mut Option<Extents>,
    store: &mut Untold,
    out: &mut String,
    call: &str,
    rest: &'a str,
) -> Result<&'a str, StepError> {
    match call {
        "format" => format_line(kept, store, out, rest),
        "open" => open_line(kept, store, out, rest),
        _ => use_extents(kept, store, out, call, rest),
    }
}

/// `extents format MOST BYTE ANSWER`
fn format_line<'a>(
    kept: &mut Option<Extents>,
    store: &mut Untold,
    out: &mut String,
    rest: &'a str,
) -> Result<&'a str, StepError> {
    let (most, rest) = split_word(rest);
    let (byte, wanted) = split_word(rest);
    let most = most_of(most)?;
    let byte = byte_number(byte)?;
    let made = format_extents(store, most, byte);
    let word = made_word(&made);
    *kept = made.ok();
    out.push_str(word)?;
    Ok(wanted)
}

/// `extents open MOST FOUND`
fn open_line<'a>(
    kept: &mut Option<Extents>,
    store: &mut Untold,
    out: &mut String,
    rest: &'a str,
) -> Result<&'a str, StepError> {
    let (most, wanted) = split_word(rest);
    let opened = open_extents(store, most_of(most)?);
    let told = tell_found(out, &opened);
    *kept = opened.ok();
    told?;
    Ok(wanted)
}

/// A line about the extents in memory.
fn use_extents<'a>(
    kept: &mut Option<Extents>,
    store: &mut Untold,
    out: &mut String,
    call: &str,
    rest: &'a str,
) -> Result<&'a str, StepError> {
    let Some(extents) = kept else {
        return Err(StepError::NothingThere);
    };
    match call {
        "grow" => grow_line(extents, store, out, rest),
        "put" => put_line(extents, store, out, rest),
        "keeps" => keeps_line(extents, out, rest),
        _ => Err(StepError::Unreadable),
    }
}

/// `extents grow ANSWER`
fn grow_line<'a>(
    extents: &mut Extents,
    store: &mut Untold,
    out: &mut String,
    wanted: &'a str,
) -> Result<&'a str, StepError> {
    out.push_str(done_word(grow(extents, store)))?;
    Ok(wanted)
}

/// `extents put BYTE ANSWER`
fn put_line<'a>(
    extents: &mut Extents,
    store: &mut Untold,
    out: &mut String,
    rest: &'a str,
) -> Result<&'a str, StepError> {
    let (byte, wanted) = split_word(rest);
    let byte = byte_number(byte)?;
    out.push_str(done_word(put_fields(extents, store, byte)))?;
    Ok(wanted)
}

/// `extents keeps FOUND`
fn keeps_line<'a>(
    extents: &Extents,
    out: &mut String,
    wanted: &'a str,
) -> Result<&'a str, StepError> {
    tell_kept(out, extents)?;
    Ok(wanted)
}

/// How many extents a file may have, as a line says.
fn most_of(text: &str) -> Result<u32, StepError>
    ensures { IfOk result (λ most. (1 ≤ most) × (most ≤ 4096)) }
{
    let most = short_number(text)?;
    if most == 0 || most > MOST {
        return Err(StepError::Unreadable);
    }
    Ok(most)
}

/// What opening the extents of file 0 finds.
pub(crate) fn tell_extents(out: &mut String, store: &mut Untold) -> Result<(), StepError> {
    let opened = open_extents(store, MOST);
    tell_found(out, &opened)
}

fn tell_found(out: &mut String, opened: &Result<Extents, ExtentError>) -> Result<(), StepError> {
    match opened {
        Ok(extents) => Ok(tell_kept(out, extents)?),
        Err(error) => Ok(out.push_str(refusal_word(*error))?),
    }
}

/// The limit and the byte of which all fields are.
fn tell_kept(out: &mut String, extents: &Extents) -> Result<(), AllocError> {
    let limit = extents.limit();
    let fields = extents.fields();
    let byte = fields[0];
    if fields != [byte; 36] {
        return write!(out, "{limit} and several bytes");
    }
    write!(out, "{limit} {byte}")
}

fn made_word(made: &Result<Extents, ExtentError>) -> &'static str {
    match made {
        Ok(_) => "ok",
        Err(error) => refusal_word(*error),
    }
}

fn done_word(answer: Result<(), ExtentError>) -> &'static str {
    match answer {
        Ok(()) => "ok",
        Err(error) => refusal_word(error),
    }
}

fn refusal_word(error: ExtentError) -> &'static str {
    match error {
        ExtentError::Fault => "fault",
        ExtentError::Limit => "limit",
        ExtentError::NoOpenPlace => "no open place",
        ExtentError::Malformed => "malformed",
    }
}
