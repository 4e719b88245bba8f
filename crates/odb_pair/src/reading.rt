//! What a file's bytes are to a pair.
ghost use Rattle.std.specs.Prelude.{◌≡◌, ◌≢◌, ◌≤◌, ℕ, List, Result, Ok, length, slice_index, IfOk};
ghost use Rattle.odb_pair.specs.Places.{opened, sequence, payload};
ghost use Rattle.odb_pair.specs.Answers.{IsAnswer, result_map};
ghost use Rattle.odb_pair.specs.CountingPlace.{pair_at};
ghost use Rattle.odb_pair.specs.Standing.{StandsFor};

use crate::PairError;

/// The byte that opens a gate.
pub const OPEN_GATE: u8 = 0xA5;

/// The place that counts, as the bytes have it.
#[derive(Clone, Copy, Debug)]
pub struct CountingPlace {
    /// 0 or 1.
    pub place: u64,
    pub sequence: u64,
    pub value: [u8; 40],
    /// The other place's gate is closed.
    pub alone: bool,
}

/// The value that the bytes of a file hold, for a reader that has them all. It calls no store, and
/// looks at the first 1,024 bytes and at the length alone.
///
/// `NoOpenPlace` and `Malformed` come as from `Pair::open`; `Fault` never comes.
pub fn value_of(bytes: &[u8]) -> Result<[u8; 40], PairError>
    ensures answer { IsAnswer result (opened bytes.now) }
    ensures no_fault { result ≢ Err PairError.Fault }
{
    Ok(read_places(bytes)?.value)
}

/// The place that counts: the one that is open, and of two the one whose number comes after the
/// other's.
#[tactic(auto, unfolding(crate::specs::Places::gate, crate::specs::Places::next))]
pub fn read_places(bytes: &[u8]) -> Result<CountingPlace, PairError>
    ensures answer { IsAnswer (result_map (λ c. c.value) result) (opened bytes.now) }
    ensures stands { IfOk result (λ c. (file : ℕ) → StandsFor (pair_at file c) bytes.now) }
    ensures place { IfOk result (λ c. c.place ≤ 1) }
    ensures no_fault { result ≢ Err PairError.Fault }
{
    let first_open = byte_at(bytes, 0) == OPEN_GATE;
    let second_open = byte_at(bytes, 512) == OPEN_GATE;
    if !first_open && !second_open {
        return Err(PairError::NoOpenPlace);
    }
    if bytes.len() < 1024 {
        return Err(PairError::Malformed);
    }
    if !second_open {
        return Ok(place_of(bytes, 0, true));
    }
    if !first_open {
        return Ok(place_of(bytes, 1, true));
    }
    let first = place_of(bytes, 0, false);
    let second = place_of(bytes, 1, false);
    if second.sequence == first.sequence.wrapping_add(1) {
        return Ok(second);
    }
    if first.sequence == second.sequence.wrapping_add(1) {
        return Ok(first);
    }
    Err(PairError::Malformed)
}

/// A byte, or 0 past the end.
fn byte_at(bytes: &[u8], at: usize) -> u8
    ensures { result ≡ slice_index bytes.now at }
{
    if at < bytes.len() { bytes[at] } else { 0 }
}

/// The number and the value of a place.
#[tactic(auto, unfolding(crate::specs::Places::sequence, crate::specs::Places::payload))]
fn place_of(bytes: &[u8], place: u64, alone: bool) -> CountingPlace
    requires long { 1024 ≤ length bytes.now }
    requires place { place ≤ 1 }
    ensures place { result.place ≡ place }
    ensures number { result.sequence ≡ sequence place bytes.now }
    ensures value { result.value ≡ payload place bytes.now }
    ensures alone { result.alone ≡ alone }
{
    let start = 512 * place as usize;
    let mut number = [0; 8];
    number.copy_from_slice(&bytes[start + 1..start + 9]);
    let mut value = [0; 40];
    value.copy_from_slice(&bytes[start + 9..start + 49]);
    CountingPlace {
        place,
        sequence: u64::from_be_bytes(number),
        value,
        alone,
    }
}
