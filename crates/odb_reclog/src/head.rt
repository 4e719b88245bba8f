//! The bytes of a record before its payload.
ghost use Rattle.std.specs.Prelude.{◌≡◌, ◌+◌, ◌^◌, ◌<◌, ◌≤◌, length, if◌then◌else◌, Some, None, IfSome};
ghost use Rattle.odb_reclog.specs.Reading.{head_at, is_record_head};

/// A gate is open exactly where it is this byte.
pub(crate) const OPEN: u8 = 0xA5;

/// How many bytes a record has before its payload.
pub(crate) const HEAD: u64 = 13;

/// What stands before a record's payload.
#[derive(Clone, Copy, Debug)]
pub(crate) struct Head {
    pub(crate) gate: u8,
    /// The payload's length in bytes.
    pub(crate) size: u32,
    pub(crate) number: u64,
}

impl Head {
    /// The head that 13 bytes are.
    #[tactic(auto, unfolding(crate::specs::Records::gate_at, crate::specs::Records::size_at, crate::specs::Records::number_at))]
    pub(crate) fn from_bytes(bytes: &[u8]) -> Head
        requires { length bytes.now ≡ 13 }
        ensures { result ≡ head_at 0 bytes.now }
    {
        let mut size = [0; 4];
        size.copy_from_slice(&bytes[1..5]);
        let mut number = [0; 8];
        number.copy_from_slice(&bytes[5..13]);
        Head {
            gate: bytes[0],
            size: u32::from_be_bytes(size),
            number: u64::from_be_bytes(number),
        }
    }

    /// Where the record ends that has this head at a place, in bytes from the file's start.
    pub(crate) fn end_from(self, place: u64) -> u64
        requires { place ≤ 2 ^ 40 }
        ensures { result ≡ place + 13 + self.size }
    {
        place + HEAD + u64::from(self.size)
    }

    /// Where the record of this number ends that has this head at a place; None where it isn't one
    /// of the region.
    pub(crate) fn end_of_record(self, place: u64, end: u64, number: u64) -> Option<u64>
        requires { place ≤ 2 ^ 40 }
        ensures end { result ≡ (if is_record_head end number place self
            then Some (place + 13 + self.size) else None) }
        ensures forward { IfSome result (λ next. (place + 13 ≤ next) × (next ≤ end)) }
        ensures size { IfSome result (λ next. next < place + 13 + 2 ^ 32) }
    {
        let next = self.end_from(place);
        if self.gate == OPEN && self.number == number && next <= end {
            Some(next)
        } else {
            None
        }
    }
}
