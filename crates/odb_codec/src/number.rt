//! Numbers from the front of some bytes.
ghost use Rattle.std.specs.Prelude.{◌≡◌};
ghost use Rattle.std.specs.Int.{w8, w16, w32, w64};
ghost use Rattle.odb_codec.specs.Reading.{number_at, number_between};
ghost use Rattle.odb_codec.specs.Reader.{Gives};

use crate::fault::ReadError;

/// The number in the first 2 bytes, and the bytes behind it.
#[tactic(auto, unfolding(crate::specs::Reading::number_at))]
pub(crate) fn u16_at(bytes: &[u8]) -> Result<(u16, &[u8]), ReadError>
    ensures { Gives (λ x. (x.0, x.1.now)) result (number_at w16 bytes.now) }
{
    if bytes.len() < 2 {
        return Err(ReadError::Fault(bytes.len()));
    }
    let (front, rest) = bytes.split_at(2);
    Ok((u16::from_be_bytes([front[0], front[1]]), rest))
}

/// The number in the first 4 bytes, and the bytes behind it.
#[tactic(auto, unfolding(crate::specs::Reading::number_at))]
pub(crate) fn u32_at(bytes: &[u8]) -> Result<(u32, &[u8]), ReadError>
    ensures { Gives (λ x. (x.0, x.1.now)) result (number_at w32 bytes.now) }
{
    if bytes.len() < 4 {
        return Err(ReadError::Fault(bytes.len()));
    }
    let (front, rest) = bytes.split_at(4);
    let number = u32::from_be_bytes([front[0], front[1], front[2], front[3]]);
    Ok((number, rest))
}

/// The bits of the number in the first 8 bytes, and the bytes behind it.
#[tactic(auto, unfolding(crate::specs::Reading::number_at))]
pub(crate) fn u64_at(bytes: &[u8]) -> Result<(u64, &[u8]), ReadError>
    ensures { Gives (λ x. (x.0, x.1.now)) result (number_at w64 bytes.now) }
{
    if bytes.len() < 8 {
        return Err(ReadError::Fault(bytes.len()));
    }
    let (front, rest) = bytes.split_at(8);
    let number = u64::from_be_bytes([
        front[0], front[1], front[2], front[3], front[4], front[5], front[6], front[7],
    ]);
    Ok((number, rest))
}

/// A session from 1 to 64, and the bytes behind it.
#[tactic(auto, unfolding(crate::specs::Reading::number_at, crate::specs::Reading::number_between))]
pub(crate) fn session_at(bytes: &[u8]) -> Result<(u8, &[u8]), ReadError>
    ensures { Gives (λ x. (x.0, x.1.now)) result (number_between 1 64 w8 bytes.now) }
{
    match bytes {
        [] => Err(ReadError::Fault(0)),
        [by, rest @ ..] => {
            if 1 <= *by && *by <= 64 {
                Ok((*by, rest))
            } else {
                Err(ReadError::Fault(bytes.len()))
            }
        }
    }
}

/// A count from 1 to 4,096, and the bytes behind it.
#[tactic(auto, unfolding(crate::specs::Reading::number_between))]
pub(crate) fn count_at(bytes: &[u8]) -> Result<(u16, &[u8]), ReadError>
    ensures { Gives (λ x. (x.0, x.1.now)) result (number_between 1 4096 w16 bytes.now) }
{
    let (count, rest) = u16_at(bytes)?;
    if 1 <= count && count <= 4096 {
        Ok((count, rest))
    } else {
        Err(ReadError::Fault(bytes.len()))
    }
}
