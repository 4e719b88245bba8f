//! What the forty bytes of the pair say.
ghost use Rattle.std.specs.Prelude.{◌≡◌, ◌+◌, ◌^◌, ◌≤◌, IsTrue};
ghost use Rattle.std.specs.Int.{is_in_range};
ghost use Rattle.odb_transdb.specs.Header.{header_image, header_of, is_header, new_header, side_start, side_size, file_size, first_on, first_held, other_of, state_byte, state_of, with_other, turned};

use byteorder::{BigEndian, ByteOrder};
use odb_model::OtherSide;

/// The first byte of side 0, behind the pair.
pub(crate) const SIDES: u64 = 1024;

/// What the two sides of TRANSDB are.
#[derive(Clone, Copy, Debug, PartialEq, Eq)]
pub struct Header {
    /// The format of the database: 1.
    pub format: u16,
    /// The size of a side in KiB, from 64 to 16,384.
    pub side_kib: u16,
    /// The side that takes new records, 0 or 1.
    pub active: u8,
    /// The state of the other side.
    pub other: OtherSide,
    /// The number of the first record of side 0, from 1 to 2^48 + 1.
    pub first0: u64,
    /// The number of the first record of side 1, from 1 to 2^48 + 1.
    pub first1: u64,
}

impl Header {
    /// That of a new database with sides of so many KiB.
    pub(crate) fn new(side_kib: u16) -> Header
        ensures { result ≡ new_header side_kib }
    {
        Header {
            format: 1,
            side_kib,
            active: 0,
            other: OtherSide::Clean,
            first0: 1,
            first1: 1,
        }
    }

    /// The header that forty bytes are the image of; None where they are that of no lawful one.
    pub(crate) fn from_bytes(bytes: &[u8; 40]) -> Option<Header>
        ensures { result ≡ header_of bytes.now }
    {
        let header = Header {
            format: BigEndian::read_u16(&bytes[0..2]),
            side_kib: BigEndian::read_u16(&bytes[2..4]),
            active: bytes[4],
            other: state_of(bytes[5])?,
            first0: BigEndian::read_u64(&bytes[6..14]),
            first1: BigEndian::read_u64(&bytes[14..22]),
        };
        if header.is_lawful() && header.image() == *bytes {
            Some(header)
        } else {
            None
        }
    }

    /// The forty bytes that stand for it in the pair.
    pub(crate) fn image(&self) -> [u8; 40]
        requires { IsTrue (is_header self.now) }
        ensures { result ≡ header_image self.now }
    {
        let mut bytes = [0; 40];
        BigEndian::write_u16(&mut bytes[0..2], self.format);
        BigEndian::write_u16(&mut bytes[2..4], self.side_kib);
        bytes[4] = self.active;
        bytes[5] = state_byte(self.other);
        BigEndian::write_u64(&mut bytes[6..14], self.first0);
        BigEndian::write_u64(&mut bytes[14..22], self.first1);
        bytes
    }

    fn is_lawful(&self) -> bool
        ensures { result ≡ is_header self.now }
    {
        self.format == 1
            && (64..=16_384).contains(&self.side_kib)
            && self.active <= 1
            && is_first(self.first0)
            && is_first(self.first1)
    }

    /// The side that isn't active.
    pub(crate) fn other_side(&self) -> u8
        ensures { result ≡ other_of self.now }
    {
        if self.active == 0 { 1 } else { 0 }
    }

    /// The same header, with the other side in this state.
    pub(crate) fn with_other(&self, state: OtherSide) -> Header
        ensures { result ≡ with_other state self.now }
    {
        Header {
            other: state,
            ..*self
        }
    }

    /// What it is after a turn: the other side is active, with this first number, and the one that
    /// was is Live.
    pub(crate) fn turned(&self, number: u64) -> Header
        ensures { result ≡ turned number self.now }
    {
        let (first0, first1) = if self.active == 0 {
            (self.first0, number)
        } else {
            (number, self.first1)
        };
        Header {
            active: self.other_side(),
            other: OtherSide::Live,
            first0,
            first1,
            ..*self
        }
    }

    /// The first byte of a side, from the file's start.
    pub(crate) fn side_start(&self, side: u8) -> u64
        requires { side ≤ 1 }
        ensures { result ≡ side_start self.now side }
    {
        SIDES + u64::from(side) * self.side_size()
    }

    /// The bytes that the file has at least: those of the pair and of both sides.
    pub(crate) fn file_size(&self) -> u64
        ensures { result ≡ file_size self.now }
    {
        SIDES + 2 * self.side_size()
    }

    /// The bytes of a side.
    pub(crate) fn side_size(&self) -> u64
        ensures { result ≡ side_size self.now }
    {
        1024 * u64::from(self.side_kib)
    }

    /// The number of a side's first record.
    pub(crate) fn first_on(&self, side: u8) -> u64
        requires { side ≤ 1 }
        ensures { result ≡ first_on self.now side }
    {
        if side == 0 { self.first0 } else { self.first1 }
    }

    /// The number of the first entry held.
    pub(crate) fn first_held(&self) -> u64
        requires { self.now.active ≤ 1 }
        ensures { result ≡ first_held self.now }
    {
        match self.other {
            OtherSide::Live => self.first_on(self.other_side()),
            OtherSide::Dirty | OtherSide::Clean => self.first_on(self.active),
        }
    }
}

/// Whether a side's first record may have this number.
fn is_first(number: u64) -> bool
    ensures { result ≡ is_in_range 1 (2 ^ 48 + 1) number }
{
    (1..=(1 << 48) + 1).contains(&number)
}

/// The byte that tells a state of the side that isn't active.
fn state_byte(other: OtherSide) -> u8
    ensures { result ≡ state_byte other }
{
    match other {
        OtherSide::Live => 1,
        OtherSide::Dirty => 2,
        OtherSide::Clean => 3,
    }
}

/// The state that a byte tells.
fn state_of(byte: u8) -> Option<OtherSide>
    ensures { result ≡ state_of byte }
{
    match byte {
        1 => Some(OtherSide::Live),
        2 => Some(OtherSide::Dirty),
        3 => Some(OtherSide::Clean),
        _ => None,
    }
}
