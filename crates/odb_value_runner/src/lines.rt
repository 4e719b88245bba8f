//! Lines on lines of scripts, and on replies.
use crate::calls::{asked, replied};
use odb_model::{CopyPhase, Event, Head, Reply};
use odb_parse::control_of;
use odb_row_values::{LineError, number_in, put, put_bytes, put_canonical, tuples_of};
use odb_rowfile::{number_of, split_word};
use odb_values::Frozen;
use std::alloc::Global;

/// `control LINE`: the step of upkeep that a line asks for, or none.
pub fn control(out: &mut String, line: &[u8]) -> Result<(), LineError> {
    match control_of(line) {
        Some(control) => Ok(write!(out, "{control:?}")?),
        None => put(out, "none"),
    }
}

/// `event LINE`: whom a line is from and what it asks for, in its canonical text; or the reply that
/// refuses it.
pub fn event(alloc: Global, out: &mut String, line: &[u8]) -> Result<(), LineError> {
    match asked(alloc, line) {
        Ok(event) => tell_event(alloc, out, &event),
        Err(refusal) => put_reply(alloc, out, refusal.head(), &refusal.reply()),
    }
}

fn tell_event(alloc: Global, out: &mut String, event: &Event) -> Result<(), LineError> {
    match event {
        Event::Session { session, statement } => {
            write!(out, "{session} ")?;
            put_canonical(alloc, out, statement)
        }
        Event::Control(control) => Ok(write!(out, "! {control:?}")?),
    }
}

/// Puts the bytes of a reply.
pub fn put_reply(
    alloc: Global,
    out: &mut String,
    head: Head,
    reply: &Reply,
) -> Result<(), LineError> {
    let bytes = replied(alloc, head, reply)?;
    put_bytes(out, bytes.as_slice())
}

/// `reply HEAD REPLY`: the bytes of a reply under its head.
pub fn reply(alloc: Global, out: &mut String, given: &str) -> Result<(), LineError> {
    let (head, rest) = split_word(given);
    let reply = reply_of(alloc, rest)?;
    put_under(alloc, out, head, &reply)
}

/// Puts the bytes of a reply under the head of a word.
fn put_under(alloc: Global, out: &mut String, head: &str, reply: &Reply) -> Result<(), LineError> {
    put_reply(alloc, out, head_of(head)?, reply)
}

/// The reply of a text.
fn reply_of(alloc: Global, text: &str) -> Result<Reply, LineError> {
    let (word, rest) = split_word(text);
    match word {
        "ROWS" if rest == "()" => Ok(Reply::Rows(Frozen::empty(alloc))),
        "ROWS" => Ok(Reply::Rows(tuples_of(alloc, rest)?)),
        _ => plain_reply(word, rest),
    }
}

fn head_of(word: &str) -> Result<Head, LineError> {
    match word {
        "!" => Ok(Head::Control),
        "?" => Ok(Head::Unknown),
        _ => Ok(Head::Session(number_in(word)?.0)),
    }
}

/// The reply of a word and the numbers behind it.
fn plain_reply(word: &str, rest: &str) -> Result<Reply, LineError> {
    if rest == "" {
        return bare_reply(word);
    }
    let (first, rest) = split_word(rest);
    let Some(first) = number_of(first) else {
        return Err(LineError::Unreadable("a number is wanted"));
    };
    if rest == "" {
        return number_reply(word, first);
    }
    match number_of(rest) {
        Some(second) => numbers_reply(word, first, second),
        None => phase_reply(word, first, rest),
    }
}

/// The reply of a word with two numbers.
fn numbers_reply(word: &str, first: u64, second: u64) -> Result<Reply, LineError> {
    match word {
        "FULL" => Ok(Reply::Full {
            need: first,
            room: second,
        }),
        "LOGFULL" => Ok(Reply::LogFull {
            need: first,
            room: second,
        }),
        "AGED" => Ok(Reply::Aged {
            oldest: first,
            start: second,
        }),
        "HELD" => Ok(Reply::Held {
            mark: first,
            last: second,
        }),
        "NOTHELD" => Ok(Reply::NotHeld {
            mark: first,
            first: second,
        }),
        _ => turn_reply(word, small(first)?, second),
    }
}

/// The reply of a step on a file, or on a side, with a number.
fn turn_reply(word: &str, file: u32, number: u64) -> Result<Reply, LineError> {
    match word {
        "BODIES" => Ok(Reply::Bodies { file, number }),
        "GATES" => Ok(Reply::Gates { file, number }),
        "MARK" => Ok(Reply::Mark { file, number }),
        "TURNED" => Ok(Reply::Turned {
            side: file,
            first: number,
        }),
        "COPYING" => Ok(Reply::Copying { file, left: number }),
        "COPIED" => Ok(Reply::Copied { file, mark: number }),
        _ => Err(LineError::Unreadable("no reply has this word")),
    }
}

/// PHASE with a file and what its copy is at.
fn phase_reply(word: &str, file: u64, phase: &str) -> Result<Reply, LineError> {
    if word != "PHASE" {
        return Err(LineError::Unreadable("no reply has this word"));
    }
    let file = small(file)?;
    let name = phase_of(phase)?;
    Ok(Reply::Phase { file, name })
}

fn phase_of(word: &str) -> Result<CopyPhase, LineError> {
    match word {
        "IDLE" => Ok(CopyPhase::Idle),
        "BODIES" => Ok(CopyPhase::Bodies),
        "GATES" => Ok(CopyPhase::Gates),
        "SOURCE" => Ok(CopyPhase::Source),
        "BLANK" => Ok(CopyPhase::Blank),
        "FILLING" => Ok(CopyPhase::Filling),
        "COPIED" => Ok(CopyPhase::Copied),
        "RESTING" => Ok(CopyPhase::Resting),
        "OUT" => Ok(CopyPhase::Out),
        _ => Err(LineError::Unreadable("no phase has this word")),
    }
}

/// A number of 32 bits.
fn small(number: u64) -> Result<u32, LineError> {
    match u32::try_from(number) {
        Ok(number) => Ok(number),
        Err(_) => Err(LineError::Unreadable("no file has this number")),
    }
}

/// The reply of a word alone.
fn bare_reply(word: &str) -> Result<Reply, LineError> {
    match word {
        "OK" => Ok(Reply::Okay),
        "END" => Ok(Reply::End),
        "LONG" => Ok(Reply::Long),
        "LINE" => Ok(Reply::Line),
        "NOSESSION" => Ok(Reply::NoSession),
        "NOTYET" => Ok(Reply::NotYet),
        "NOTRANSACTION" => Ok(Reply::NoTransaction),
        "INTRANSACTION" => Ok(Reply::InTransaction),
        "NOTABLE" => Ok(Reply::NoTable),
        "NOBANK" => Ok(Reply::NoBank),
        "NAMETAKEN" => Ok(Reply::NameTaken),
        "NOTEMPTY" => Ok(Reply::NotEmpty),
        "NOCOPYLEFT" => Ok(Reply::NoCopyLeft),
        "NOSHADOW" => Ok(Reply::NoShadow),
        "NOBACKUP" => Ok(Reply::NoBackup),
        "NOTCLEAN" => Ok(Reply::NotClean),
        "CLEANED" => Ok(Reply::Cleaned),
        "NONUMBERLEFT" => Ok(Reply::NoNumberLeft),
        "FIXED" => Ok(Reply::Fixed),
        "NOCOLUMN" => Ok(Reply::NoColumn),
        "KINDMISMATCH" => Ok(Reply::KindMismatch),
        "KEYCOLUMN" => Ok(Reply::KeyColumn),
        "COLUMNCOUNT" => Ok(Reply::ColumnCount),
        "DUPLICATE" => Ok(Reply::Duplicate),
        "NULLNOTALLOWED" => Ok(Reply::NullNotAllowed),
        "TOOLONG" => Ok(Reply::TooLong),
        "KEYTOOWIDE" => Ok(Reply::KeyTooWide),
        "ROWTOOWIDE" => Ok(Reply::RowTooWide),
        "TOOMANYWRITES" => Ok(Reply::TooManyWrites),
        "OVERFLOW" => Ok(Reply::Overflow),
        "HISTORYFULL" => Ok(Reply::HistoryFull),
        "MEMORY" => Ok(Reply::Memory),
        _ => Err(LineError::Unreadable("no reply has this word")),
    }
}

/// The reply of a word with a number.
fn number_reply(word: &str, number: u64) -> Result<Reply, LineError> {
    match word {
        "DONE" => Ok(Reply::Done(number)),
        "COMMITTED" => Ok(Reply::Committed(number)),
        "ENDED" => Ok(Reply::Ended(number)),
        "INDOUBT" => Ok(Reply::InDoubt(number)),
        "CHARACTER" => Ok(Reply::Character(number)),
        "TEXT" => Ok(Reply::Text(number)),
        "NUMBER" => Ok(Reply::Number(number)),
        "SYNTAX" => Ok(Reply::Syntax(number)),
        "HALTED" => Ok(Reply::Halted(number)),
        "CONFLICT" => Ok(Reply::Conflict(number)),
        "LOGGED" => Ok(Reply::Logged(number)),
        "LOGFIRST" => Ok(Reply::LogFirst(number)),
        "OPENED" => Ok(Reply::Opened(number)),
        "NEEDED" => Ok(Reply::Needed(number)),
        "FAULT" => Ok(Reply::Fault(small(number)?)),
        "NOFILE" => Ok(Reply::NoFile(small(number)?)),
        "LIMIT" => Ok(Reply::Limit(small(number)?)),
        _ => Err(LineError::Unreadable("no reply has this word")),
    }
}
