//! What the log keeps beside its limit.
ghost use Rattle.std.specs.Prelude.{◌≡◌, ◌+◌, ◌*◌, ◌^◌, ◌≤◌, ◌==◌, if◌then◌else◌};
ghost use Rattle.std.specs.Int.{w8, to_be_bytes};
ghost use Rattle.odb_logdb.specs.ListStates.{list_state};
ghost use Rattle.odb_logdb.specs.Fields.{LIVE, DIRTY, fields_image, fields_in, is_lawful, log_fields};

use crate::ListState;
use crate::logdb::CONTENT;
use byteorder::{BigEndian, ByteOrder};

/// The state of a log that holds the entries of its records.
pub(crate) const LIVE: u8 = 1;

/// The state of a log that holds no entry, and whose content may be any bytes.
pub(crate) const DIRTY: u8 = 2;

/// What the log keeps beside its limit, in 36 bytes.
#[derive(Clone, Copy, Debug, PartialEq, Eq)]
pub struct LogFields {
    /// The format: 1.
    pub format: u16,
    /// The state: 1 Live, 2 Dirty.
    pub state: u8,
    /// The number of the first entry, from 1 to 2^63.
    pub first: u64,
    /// Where the records begin, in bytes from the content's first.
    pub start: u64,
}

impl LogFields {
    /// Those of a log whose records begin at the content's first byte.
    pub(crate) fn new(state: u8, first: u64) -> LogFields
        ensures { result ≡ log_fields state first }
    {
        LogFields {
            format: 1,
            state,
            first,
            start: 0,
        }
    }

    /// The 36 bytes that stand for them.
    pub(crate) fn image(&self) -> [u8; 36]
        ensures { result ≡ fields_image self.now }
    {
        let mut bytes = [0; 36];
        BigEndian::write_u16(&mut bytes[0..2], self.format);
        bytes[2..3].copy_from_slice(&state_bytes(self.state));
        BigEndian::write_u64(&mut bytes[3..11], self.first);
        BigEndian::write_u64(&mut bytes[11..19], self.start);
        bytes
    }

    /// The fields that 36 bytes are the image of; None where they are none's.
    pub(crate) fn from_bytes(bytes: &[u8; 36]) -> Option<LogFields>
        ensures { result ≡ fields_in bytes.now }
    {
        let fields = LogFields {
            format: BigEndian::read_u16(&bytes[0..2]),
            state: bytes[2],
            first: BigEndian::read_u64(&bytes[3..11]),
            start: BigEndian::read_u64(&bytes[11..19]),
        };
        if fields.image() == *bytes {
            Some(fields)
        } else {
            None
        }
    }

    /// Whether they are those of a log in order, of so many extents.
    pub(crate) fn is_lawful(&self, limit: u32) -> bool
        requires { limit ≤ 1024 }
        ensures { result ≡ is_lawful limit self.now }
    {
        self.format == 1
            && (LIVE..=DIRTY).contains(&self.state)
            && (1..=9_223_372_036_854_775_808).contains(&self.first)
            && self.start <= 1_048_576 * u64::from(limit)
    }

    /// Where the list of the log begins, in bytes from the file's start: that of a Dirty one is
    /// none, at the content's end.
    pub(crate) fn list_start(&self, end: u64) -> u64
        requires range { (1024 + self.now.start ≤ end) × (end ≤ 2 ^ 40) }
        ensures value { result ≡ (if self.now.state == DIRTY then end else 1024 + self.now.start) }
    {
        if self.state == DIRTY {
            end
        } else {
            CONTENT + self.start
        }
    }

    /// What is known of the list of a log in order that was just opened.
    pub(crate) fn list_state(&self) -> ListState
        ensures { result ≡ list_state self.now }
    {
        if self.state == DIRTY {
            ListState::Dirty
        } else {
            ListState::Known
        }
    }
}

/// The one byte of a state.
fn state_bytes(state: u8) -> [u8; 1]
    ensures { result ≡ to_be_bytes w8 state }
{
    state.to_be_bytes()
}
