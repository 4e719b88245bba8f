//! Control lines.
ghost use Rattle.std.specs.Prelude.{◌^◌, IfSome, IfNone};
ghost use Rattle.odb_model.specs.declared.control.Control.{Control};
ghost use Rattle.odb_model.specs.Control.{IsControl};
ghost use Rattle.odb_parse.specs.Decimals.{StandsBetween, NoneBetween};

use crate::decimal::decimal_of;
use odb_model::Control;

/// The step of upkeep that a line asks for, or None where it asks for none.
///
/// The line has neither its LF nor a CR before it. File numbers are below 2^32 and others have at
/// most 15 digits, without a leading zero. It costs a look at each byte a few times at most.
pub fn control_of(line: &[u8]) -> Option<Control>
    ensures found { IfSome result (IsControl line.now) }
    ensures none { IfNone result ((c : Control) → IsControl line.now c → ⊥) }
{
    if let Some(file) = file_between(line, b"! APPLY ", b" BODIES") {
        return Some(Control::Bodies(file));
    }
    if let Some(file) = file_between(line, b"! APPLY ", b" GATES") {
        return Some(Control::Gates(file));
    }
    if let Some(file) = file_between(line, b"! APPLY ", b" MARK") {
        return Some(Control::Mark(file));
    }
    if let Some(file) = file_between(line, b"! COPY ", b"") {
        return Some(Control::Copy(file));
    }
    if let Some(number) = number_between(line, b"! DROPLOG ", b"") {
        return Some(Control::DropLog(number));
    }
    match line {
        b"! LOG" => Some(Control::Log),
        b"! TURN" => Some(Control::Turn),
        b"! CLEAN" => Some(Control::Clean),
        b"! NEWLOG" => Some(Control::NewLog),
        b"! REOPEN" => Some(Control::Reopen),
        b"! STATE" => Some(Control::State),
        _ => None,
    }
}

/// The number of a file that stands between two texts.
fn file_between(line: &[u8], before: &[u8], after: &[u8]) -> Option<u32>
    ensures found { IfSome result (StandsBetween (2 ^ 32) line.now before.now after.now) }
    ensures none { IfNone result (NoneBetween (2 ^ 32) line.now before.now after.now) }
{
    let number = number_between(line, before, after)?;
    u32::try_from(number).ok()
}

/// The number of at most 15 digits that stands between two texts.
fn number_between(line: &[u8], before: &[u8], after: &[u8]) -> Option<u64>
    ensures found { IfSome result (StandsBetween (10 ^ 15) line.now before.now after.now) }
    ensures none { IfNone result (NoneBetween (10 ^ 15) line.now before.now after.now) }
{
    let rest = line.strip_prefix(before)?;
    let number = rest.strip_suffix(after)?;
    decimal_of(number)
}
