//! The bytes of a reply, a line at a time.
ghost use Rattle.std.specs.Prelude.{◌≡◌, ◌++◌, codes, decimal, All, IfOk, OnOk};
ghost use Rattle.odb_lex.specs.Written.{Appends};
ghost use Rattle.odb_model.specs.Print.{head_text, line_of, row_line, reply_text};
ghost use Rattle.odb_reply.specs.Telling.{TellsAlone};
ghost use Rattle.odb_reply.specs.Unbroken.{IsUnbrokenRow, IsTellable};

use crate::ReplyError;
use crate::state::{phase_name, put_state};
use crate::values::put_values;
use odb_model::{CopyPhase, Head, Reply};
use odb_values::{Bytes, Frozen, Values};
use std::alloc::{AllocError, Global};

/// How many bytes most replies have at most: one line, or a row and its count.
const USUAL: usize = 64;

/// The bytes of a reply under its head, each line ended by LF.
///
/// A SELECT's rows come first, and then how many they are. Where a front of the text is said, a
/// whole line of the form `s COMMITTED k` stands in it only where the reply is that commit, since
/// values hold no LF. The reply is only read, and one buffer grows to the length of the text. The
/// error is want of memory alone.
pub fn print_reply(alloc: Global, head: Head, reply: &Reply) -> Result<Bytes, ReplyError>
    ensures text { IfOk result (λ bytes. bytes ≡ reply_text head reply.now) }
    ensures tells { IfOk result (λ bytes. TellsAlone bytes reply.now) }
{
    let mut out = String::with_capacity(alloc, USUAL)?;
    put_reply(&mut out, head, reply)?;
    Ok(Frozen::from_vec(out.into_bytes()))
}

fn put_reply(out: &mut String, head: Head, reply: &Reply) -> Result<(), AllocError>
    ensures text { Appends result out.old out.new (reply_text head reply.now) }
    ensures tellable { OnOk result (IsTellable reply.now) }
{
    match reply {
        Reply::Okay => put_line(out, head, "OK"),
        Reply::Rows(rows) => put_rows(out, head, rows.as_slice()),
        Reply::Done(count) => put_number_line(out, head, "DONE ", *count),
        Reply::Committed(number) => put_number_line(out, head, "COMMITTED ", *number),
        Reply::Ended(number) => put_number_line(out, head, "ENDED ", *number),
        Reply::InDoubt(number) => put_number_line(out, head, "INDOUBT ", *number),
        Reply::Bodies { file, number } => {
            put_two_numbers(out, head, "BODIES ", u64::from(*file), *number)
        }
        Reply::Gates { file, number } => {
            put_two_numbers(out, head, "GATES ", u64::from(*file), *number)
        }
        Reply::Mark { file, number } => {
            put_two_numbers(out, head, "MARK ", u64::from(*file), *number)
        }
        Reply::Logged(number) => put_number_line(out, head, "LOGGED ", *number),
        Reply::Turned { side, first } => {
            put_two_numbers(out, head, "TURNED ", u64::from(*side), *first)
        }
        Reply::Cleaned => put_line(out, head, "CLEANED"),
        Reply::Copying { file, left } => {
            put_two_numbers(out, head, "COPYING ", u64::from(*file), *left)
        }
        Reply::Copied { file, mark } => {
            put_two_numbers(out, head, "COPIED ", u64::from(*file), *mark)
        }
        Reply::LogFirst(number) => put_number_line(out, head, "LOGFIRST ", *number),
        Reply::Opened(number) => put_number_line(out, head, "OPENED ", *number),
        Reply::State(state) => put_state(out, head, state),
        Reply::Character(at) => put_number_line(out, head, "REFUSED CHARACTER ", *at),
        Reply::Text(at) => put_number_line(out, head, "REFUSED TEXT ", *at),
        Reply::Number(at) => put_number_line(out, head, "REFUSED NUMBER ", *at),
        Reply::Syntax(at) => put_number_line(out, head, "REFUSED SYNTAX ", *at),
        Reply::End => put_line(out, head, "REFUSED END"),
        Reply::Long => put_line(out, head, "REFUSED LONG"),
        Reply::Line => put_line(out, head, "REFUSED LINE"),
        Reply::NoSession => put_line(out, head, "REFUSED NOSESSION"),
        Reply::NotYet => put_line(out, head, "REFUSED NOTYET"),
        Reply::NoTransaction => put_line(out, head, "REFUSED NOTRANSACTION"),
        Reply::InTransaction => put_line(out, head, "REFUSED INTRANSACTION"),
        Reply::NoTable => put_line(out, head, "REFUSED NOTABLE"),
        Reply::NoBank => put_line(out, head, "REFUSED NOBANK"),
        Reply::NameTaken => put_line(out, head, "REFUSED NAMETAKEN"),
        Reply::NotEmpty => put_line(out, head, "REFUSED NOTEMPTY"),
        Reply::NoCopyLeft => put_line(out, head, "REFUSED NOCOPYLEFT"),
        Reply::NoShadow => put_line(out, head, "REFUSED NOSHADOW"),
        Reply::NoBackup => put_line(out, head, "REFUSED NOBACKUP"),
        Reply::NoNumberLeft => put_line(out, head, "REFUSED NONUMBERLEFT"),
        Reply::Fixed => put_line(out, head, "REFUSED FIXED"),
        Reply::NoColumn => put_line(out, head, "REFUSED NOCOLUMN"),
        Reply::KindMismatch => put_line(out, head, "REFUSED KINDMISMATCH"),
        Reply::KeyColumn => put_line(out, head, "REFUSED KEYCOLUMN"),
        Reply::ColumnCount => put_line(out, head, "REFUSED COLUMNCOUNT"),
        Reply::Duplicate => put_line(out, head, "REFUSED DUPLICATE"),
        Reply::NullNotAllowed => put_line(out, head, "REFUSED NULLNOTALLOWED"),
        Reply::TooLong => put_line(out, head, "REFUSED TOOLONG"),
        Reply::KeyTooWide => put_line(out, head, "REFUSED KEYTOOWIDE"),
        Reply::RowTooWide => put_line(out, head, "REFUSED ROWTOOWIDE"),
        Reply::TooManyWrites => put_line(out, head, "REFUSED TOOMANYWRITES"),
        Reply::Overflow => put_line(out, head, "REFUSED OVERFLOW"),
        Reply::Halted(number) => put_number_line(out, head, "REFUSED HALTED ", *number),
        Reply::Aged { oldest, start } => put_two_numbers(
            out,
            head,
            "REFUSED AGED ",
            *oldest,
            *start,
        ),
        Reply::Conflict(number) => put_number_line(out, head, "REFUSED CONFLICT ", *number),
        Reply::HistoryFull => put_line(out, head, "REFUSED HISTORYFULL"),
        Reply::Full { need, room } => put_two_numbers(out, head, "REFUSED FULL ", *need, *room),
        Reply::Fault(file) => put_number_line(out, head, "REFUSED FAULT ", u64::from(*file)),
        Reply::NotClean => put_line(out, head, "REFUSED NOTCLEAN"),
        Reply::Held { mark, last } => put_two_numbers(out, head, "REFUSED HELD ", *mark, *last),
        Reply::LogFull { need, room } => {
            put_two_numbers(out, head, "REFUSED LOGFULL ", *need, *room)
        }
        Reply::Needed(mark) => put_number_line(out, head, "REFUSED NEEDED ", *mark),
        Reply::NotHeld { mark, first } => {
            put_two_numbers(out, head, "REFUSED NOTHELD ", *mark, *first)
        }
        Reply::Phase { file, name } => put_phase(out, head, *file, *name),
        Reply::NoFile(file) => put_number_line(out, head, "REFUSED NOFILE ", u64::from(*file)),
        Reply::Limit(file) => put_number_line(out, head, "REFUSED LIMIT ", u64::from(*file)),
        Reply::Memory => put_line(out, head, "REFUSED MEMORY"),
    }
}

/// A line for each row, and then how many rows there are.
fn put_rows(out: &mut String, head: Head, rows: &[Values]) -> Result<(), AllocError>
    ensures text { Appends result out.old out.new (reply_text head (Reply.Rows rows.now)) }
    ensures unbroken { OnOk result (All IsUnbrokenRow rows.now) }
{
    for row in rows {
        put_row(out, head, row)?;
    }
    put_number_line(out, head, "ROWS ", rows.len() as u64)
}

fn put_row(out: &mut String, head: Head, row: &Values) -> Result<(), AllocError>
    ensures text { Appends result out.old out.new (row_line head row.now) }
    ensures unbroken { OnOk result (IsUnbrokenRow row.now) }
{
    put_head(out, head)?;
    out.push_str(" ROW ")?;
    put_values(out, row.as_slice())?;
    out.push_str("\n")
}

pub(crate) fn put_number_line(
    out: &mut String,
    head: Head,
    words: &str,
    number: u64,
) -> Result<(), AllocError>
    ensures { Appends result out.old out.new (line_of head (words.now ++ decimal number)) }
{
    put_head(out, head)?;
    writeln!(out, " {words}{number}")
}

/// Words, and two numbers behind them.
pub(crate) fn put_two_numbers(
    out: &mut String,
    head: Head,
    words: &str,
    first: u64,
    second: u64,
) -> Result<(), AllocError>
    ensures { Appends result out.old out.new (line_of head
        (words.now ++ decimal first ++ codes " " ++ decimal second)) }
{
    put_head(out, head)?;
    writeln!(out, " {words}{first} {second}")
}

/// What a copy, or LOGDB where the file is 1, is at.
fn put_phase(out: &mut String, head: Head, file: u32, name: CopyPhase) -> Result<(), AllocError>
    ensures { Appends result out.old out.new (reply_text head (Reply.Phase file name)) }
{
    let name = phase_name(name);
    put_head(out, head)?;
    writeln!(out, " REFUSED PHASE {file} {name}")
}

pub(crate) fn put_line(out: &mut String, head: Head, words: &str) -> Result<(), AllocError>
    ensures { Appends result out.old out.new (line_of head words.now) }
{
    put_head(out, head)?;
    writeln!(out, " {words}")
}

pub(crate) fn put_head(out: &mut String, head: Head) -> Result<(), AllocError>
    ensures { Appends result out.old out.new (head_text head) }
{
    match head {
        Head::Session(session) => write!(out, "{session}"),
        Head::Control => out.push_str("!"),
        Head::Unknown => out.push_str("?"),
    }
}
