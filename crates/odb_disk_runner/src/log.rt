//! Lines about a log in file 0.
ghost use Rattle.std.specs.Prelude.{◌≡◌, ◌<◌, ◌≤◌, ◌^◌, true, false, length, IfOk, IfSome, OnOk};

use crate::bench::{Bench, Payload};
use odb_reclog::{RecError, RecLog, log_of};
use odb_row_disks::{StepError, Untold, bytes_of, hex_of};
use odb_rowfile::split_word;
use odb_values::Bytes;
use std::alloc::{AllocError, Global};

/// Where the region of a log begins.
const START: u64 = 1024;

/// Where it ends at most.
const LAST_END: u64 = 1 << 20;

/// A log that may be used: it isn't in doubt.
#[derive(Drop)]
pub(crate) struct UsableLog {
    log: RecLog,
    ghost usable: { log.in_doubt ≡ false },
}

impl Bench {
    /// A line about a log.
    pub(crate) fn use_log(
        &mut self,
        alloc: Global,
        word: &str,
        rest: &str,
    ) -> Result<(), StepError> {
        match word {
            "payload" => self.name_payload(alloc, rest),
            "log" => self.open_log(alloc, rest),
            "add" => self.add(alloc, rest),
            "body" => self.write_body(alloc, rest),
            "holds" => self.compare_list(alloc, rest),
            _ => self.tell_log(alloc, word, rest),
        }
    }

    /// `holds NAME ..`
    fn compare_list(&mut self, alloc: Global, wanted: &str) -> Result<(), StepError> {
        let got = found_list(alloc, &mut self.store, self.payloads.as_slice())?;
        self.compare(alloc, wanted, got.as_str())
    }

    /// `payload NAME HEX`
    fn name_payload(&mut self, alloc: Global, rest: &str) -> Result<(), StepError> {
        let (name, bytes) = split_word(rest);
        let name = String::from_str(alloc, name)?;
        let bytes = bytes_of(alloc, bytes)?;
        self.payloads
            .push(Payload { name, bytes })
            .map_err(AllocError::from)?;
        Ok(())
    }

    /// `log ANSWER`
    fn open_log(&mut self, alloc: Global, wanted: &str) -> Result<(), StepError> {
        self.log = None;
        let Some(end) = end_of(self.store.file(0)) else {
            return Err(StepError::NothingThere);
        };
        match open(&mut self.store, end) {
            Ok(log) => {
                self.log = Some(log);
                self.compare(alloc, wanted, "ok")
            }
            Err(error) => self.compare_fault(alloc, wanted, error),
        }
    }

    fn compare_fault(
        &mut self,
        alloc: Global,
        wanted: &str,
        error: RecError,
    ) -> Result<(), StepError> {
        let got = fault_text(alloc, error)?;
        self.compare(alloc, wanted, got.as_str())
    }

    /// `add NAME ANSWER`
    fn add(&mut self, alloc: Global, rest: &str) -> Result<(), StepError> {
        let (name, wanted) = split_word(rest);
        let payload = self.payload(alloc, name)?;
        match self.add_bytes(payload.as_slice())? {
            Ok(number) => self.compare_number(alloc, wanted, number),
            Err(error) => self.compare_fault(alloc, wanted, error),
        }
    }

    /// Adds bytes to the log, and gives its answer.
    fn add_bytes(&mut self, payload: &[u8]) -> Result<Result<u64, RecError>, StepError>
        requires { length payload.now < 2 ^ 32 }
    {
        let Some(log) = self.log.take() else {
            return Err(StepError::NothingThere);
        };
        let (left, answer) = add(log, &mut self.store, payload);
        self.log = left;
        Ok(answer)
    }

    /// `body NAME ANSWER`
    fn write_body(&mut self, alloc: Global, rest: &str) -> Result<(), StepError> {
        let (name, wanted) = split_word(rest);
        let payload = self.payload(alloc, name)?;
        match self.write_bytes(payload.as_slice())? {
            Ok(()) => self.compare(alloc, wanted, "ok"),
            Err(error) => self.compare_fault(alloc, wanted, error),
        }
    }

    /// Writes bytes as the body of a record, and gives the log's answer.
    fn write_bytes(&mut self, payload: &[u8]) -> Result<Result<(), RecError>, StepError>
        requires { length payload.now < 2 ^ 32 }
    {
        match &mut self.log {
            Some(log) => Ok(log.write(&mut self.store, payload)),
            None => Err(StepError::NothingThere),
        }
    }

    /// `room NUMBER`, `next NUMBER`, `place NUMBER`
    fn tell_log(&mut self, alloc: Global, word: &str, wanted: &str) -> Result<(), StepError> {
        let Some(usable) = &self.log else {
            return Err(StepError::NothingThere);
        };
        let got = match word {
            "room" => usable.log.room(),
            "next" => usable.log.next_number(),
            _ => usable.log.place(),
        };
        self.compare_number(alloc, wanted, got)
    }

    /// The bytes of a payload that has a name.
    fn payload(&self, alloc: Global, name: &str) -> Result<Vec<u8>, StepError>
        ensures { IfOk result (λ bytes. length bytes.items < 2 ^ 32) }
    {
        for payload in &self.payloads {
            let bytes = payload.bytes.as_slice();
            if payload.name.as_str() == name && bytes.len() < 1 << 32 {
                return Ok(bytes.to_vec(alloc)?);
            }
        }
        Err(StepError::Unreadable)
    }
}

impl UsableLog {
    /// `RecLog::write_body` behind a clear tail.
    fn write(&mut self, store: &mut Untold, payload: &[u8]) -> Result<(), RecError>
        requires { length payload.now < 2 ^ 32 }
        ensures { OnOk result (self.new.log.has_body ≡ true) }
    {
        self.log.clear_tail(store)?;
        self.log.write_body(store, payload)
    }
}

/// Puts a record behind the list. The log is left unless it is in doubt.
fn add(
    usable: UsableLog,
    store: &mut Untold,
    payload: &[u8],
) -> (Option<UsableLog>, Result<u64, RecError>)
    requires { length payload.now < 2 ^ 32 }
{
    let mut usable = usable;
    if let Err(error) = usable.write(store, payload) {
        return (Some(usable), Err(error));
    }
    let UsableLog { mut log } = usable;
    match log.open_gate(store) {
        Ok(number) => (Some(UsableLog { log }), Ok(number)),
        Err(error) => (None, Err(error)),
    }
}

/// Where the region of the log of a file of these bytes ends: with the file. None where the file is
/// too short or too long for a log.
fn end_of(bytes: &[u8]) -> Option<u64>
    ensures within { IfSome result (λ end. end ≤ length bytes.now) }
    ensures range { IfSome result (λ end. (1024 ≤ end) × (end ≤ 2 ^ 20)) }
{
    let end = bytes.len() as u64;
    if end < START || end > LAST_END {
        return None;
    }
    Some(end)
}

/// Opens the log whose region ends there.
fn open(store: &mut Untold, end: u64) -> Result<UsableLog, RecError>
    requires { (1024 ≤ end) × (end ≤ 2 ^ 20) }
{
    Ok(UsableLog {
        log: RecLog::open(store, 0, START, end, 1)?,
    })
}

/// The list of the log, by the names of its payloads: as the definition gives it, where it is also
/// what is read one by one and what is read at once.
pub(crate) fn found_list(
    alloc: Global,
    store: &mut Untold,
    names: &[Payload],
) -> Result<String, AllocError> {
    let bytes = store.file(0);
    let Some(end) = end_of(bytes) else {
        return String::from_str(alloc, "no region");
    };
    let plain = defined(alloc, bytes, end, names)?;
    let singly = read_singly(alloc, store, end, names)?;
    let at_once = read_at_once(alloc, store, end, names)?;
    if singly != plain || at_once != plain {
        return format!(in alloc; "{plain} / {singly} / {at_once}");
    }
    Ok(plain)
}

/// The list as the definition gives it.
fn defined(alloc: Global, bytes: &[u8], end: u64, names: &[Payload]) -> Result<String, AllocError>
    requires { (1024 ≤ end) × (end ≤ 2 ^ 20) × (end ≤ length bytes.now) }
{
    let list = log_of(alloc, bytes, START, end, 1)?;
    list_text(alloc, list.as_slice(), names)
}

/// The list as it is read record by record.
fn read_singly(
    alloc: Global,
    store: &mut Untold,
    end: u64,
    names: &[Payload],
) -> Result<String, AllocError>
    requires { (1024 ≤ end) × (end ≤ 2 ^ 20) }
{
    match payloads(alloc, store, end) {
        Ok(list) => list_text(alloc, list.as_slice(), names),
        Err(error) => fault_text(alloc, error),
    }
}

/// The list as it is read at once.
fn read_at_once(
    alloc: Global,
    store: &mut Untold,
    end: u64,
    names: &[Payload],
) -> Result<String, AllocError>
    requires { (1024 ≤ end) × (end ≤ 2 ^ 20) }
{
    match RecLog::open_with_payloads(alloc, store, 0, START, end, 1) {
        Ok(opened) => list_text(alloc, opened.payloads.as_slice(), names),
        Err(error) => fault_text(alloc, error),
    }
}

/// The payloads of the log, read one behind another.
fn payloads(alloc: Global, store: &mut Untold, end: u64) -> Result<Vec<Bytes>, RecError>
    requires { (1024 ≤ end) × (end ≤ 2 ^ 20) }
{
    let log = RecLog::open(store, 0, START, end, 1)?;
    let last = log.place();
    let mut list = Vec::new(alloc);
    let mut at = START;
    while at <= last {
        let Some(record) = log.records(alloc, store, at)? else {
            break;
        };
        at = record.next;
        list.push(record.payload).map_err(AllocError::from)?;
    }
    Ok(list)
}

/// A list by the names of its payloads, with digits for those without one; `nothing` where it is
/// empty.
fn list_text(alloc: Global, list: &[Bytes], names: &[Payload]) -> Result<String, AllocError> {
    if list.is_empty() {
        return String::from_str(alloc, "nothing");
    }
    let mut text = String::new(alloc);
    for bytes in list {
        if !text.is_empty() {
            text.push(' ')?;
        }
        let name = name_of(alloc, bytes.as_slice(), names)?;
        text.push_str(name.as_str())?;
    }
    Ok(text)
}

/// The name of a payload, or its digits.
fn name_of(alloc: Global, bytes: &[u8], names: &[Payload]) -> Result<String, AllocError> {
    for payload in names {
        if payload.bytes.as_slice() == bytes {
            return payload.name.clone();
        }
    }
    hex_of(alloc, bytes)
}

fn fault_text(alloc: Global, error: RecError) -> Result<String, AllocError> {
    match error {
        RecError::Fault => String::from_str(alloc, "fault"),
        RecError::Full { need, room } => format!(in alloc; "full {need} {room}"),
        RecError::NoMemory => Err(AllocError),
    }
}
