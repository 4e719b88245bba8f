//! A record as it is read.
use odb_values::Bytes;

/// A record of a log.
#[derive(Debug, Drop)]
pub struct LogRecord {
    pub number: u64,
    pub payload: Bytes,
    /// The place of the record behind it, in bytes from the file's start.
    pub next: u64,
}
