//! How the answers of a databank file are told.

use odb_bank::{Bank, BankError, Phase};
use odb_row_disks::StepError;

/// `mark MARK`, or why the file isn't opened.
pub(crate) fn tell_opened(
    out: &mut String,
    opened: &Result<Bank, BankError>,
) -> Result<(), StepError> {
    match opened {
        Ok(bank) => tell_mark(out, bank.mark()),
        Err(error) => tell_refusal(out, *error),
    }
}

fn tell_mark(out: &mut String, mark: u64) -> Result<(), StepError> {
    Ok(write!(out, "mark {mark}")?)
}

/// `ok`, or why it isn't done.
pub(crate) fn tell_done(out: &mut String, answer: Result<(), BankError>) -> Result<(), StepError> {
    match answer {
        Ok(()) => Ok(out.push_str("ok")?),
        Err(error) => tell_refusal(out, error),
    }
}

/// A number, or why there is none.
pub(crate) fn tell_number(
    out: &mut String,
    answer: Result<u64, BankError>,
) -> Result<(), StepError> {
    match answer {
        Ok(number) => Ok(write!(out, "{number}")?),
        Err(error) => tell_refusal(out, error),
    }
}

/// Why a call does nothing.
pub(crate) fn tell_refusal(out: &mut String, error: BankError) -> Result<(), StepError> {
    match error {
        BankError::Fault => Ok(out.push_str("fault")?),
        BankError::Damaged { at } => Ok(write!(out, "damaged {at}")?),
        BankError::NotNext { mark, first } => Ok(write!(out, "not next {mark} {first}")?),
        BankError::Phase { now } => tell_phase(out, now),
        BankError::Limit => Ok(out.push_str("limit")?),
        BankError::NoMemory => Err(StepError::NoMemory),
    }
}

fn tell_phase(out: &mut String, now: Phase) -> Result<(), StepError> {
    let name = phase_name(now);
    Ok(write!(out, "phase {name}")?)
}

/// The name of a phase.
pub(crate) fn phase_name(phase: Phase) -> &'static str {
    match phase {
        Phase::Idle => "idle",
        Phase::Bodies => "bodies",
        Phase::Gates => "gates",
    }
}
