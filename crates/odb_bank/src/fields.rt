//! What a databank file keeps beside its limit.
ghost use Rattle.std.specs.Prelude.{◌≡◌};
ghost use Rattle.odb_bank.specs.Fields.{fields_image, fields_in};

use byteorder::{BigEndian, ByteOrder};

/// What a databank file keeps beside its limit, in 36 bytes.
#[derive(Clone, Copy, Debug, PartialEq, Eq)]
pub struct BankFields {
    /// The format of the database.
    pub format: u16,
    /// The number of the databank.
    pub bank: u32,
    /// Up to which entry the file is complete.
    pub mark: u64,
}

impl BankFields {
    /// The 36 bytes that stand for them.
    pub fn image(&self) -> [u8; 36]
        ensures { result ≡ fields_image self.now }
    {
        let mut bytes = [0; 36];
        BigEndian::write_u16(&mut bytes[0..2], self.format);
        BigEndian::write_u32(&mut bytes[2..6], self.bank);
        BigEndian::write_u64(&mut bytes[6..14], self.mark);
        bytes
    }

    /// The fields that 36 bytes are the image of; None where they are none's.
    pub fn from_bytes(bytes: &[u8; 36]) -> Option<BankFields>
        ensures { result ≡ fields_in bytes.now }
    {
        let fields = BankFields {
            format: BigEndian::read_u16(&bytes[0..2]),
            bank: BigEndian::read_u32(&bytes[2..6]),
            mark: BigEndian::read_u64(&bytes[6..14]),
        };
        if fields.image() == *bytes {
            Some(fields)
        } else {
            None
        }
    }
}
