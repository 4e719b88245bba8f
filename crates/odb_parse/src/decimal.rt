//! Numbers as decimals without a leading zero.
ghost use Rattle.std.specs.Prelude.{◌≡◌, ℕ, ◌^◌, ◌<◌, ◌≤◌, ◌↔◌, length, IsTrue, IfSome, IfNone};
ghost use Rattle.std.specs.Fmt.{decimal};
ghost use Rattle.std.specs.Str.Parse.{AllDigits};
ghost use Rattle.odb_parse.specs.Decimals.{IsDecimalOf, IsTrimmed, IsValueOf};

/// How many digits a number has at most.
const MOST_DIGITS: usize = 15;

/// The number below 10^15 whose decimal the bytes are, or None where they are none: where there is
/// no byte, one that is no digit, a leading zero, or more than 15 digits.
pub fn decimal_of(bytes: &[u8]) -> Option<u64>
    ensures found { IfSome result (IsDecimalOf bytes.now) }
    ensures none { IfNone result ((n : ℕ) → n < 10 ^ 15 → bytes.now ≡ decimal n → ⊥) }
{
    if is_trimmed(bytes) {
        value_of(bytes)
    } else {
        None
    }
}

/// Whether there are as many bytes as a number has digits, without a leading zero.
fn is_trimmed(bytes: &[u8]) -> bool
    ensures { IsTrue result ↔ IsTrimmed bytes.now }
{
    match bytes {
        [] => false,
        [b'0', _, ..] => false,
        _ => bytes.len() <= MOST_DIGITS,
    }
}

/// The value of a few digits, or None where a byte is no digit.
fn value_of(bytes: &[u8]) -> Option<u64>
    requires { length bytes.now ≤ 15 }
    ensures found { IfSome result (IsValueOf bytes.now) }
    ensures none { IfNone result (AllDigits 10 bytes.now → ⊥) }
{
    let mut value = 0;
    for byte in bytes {
        if !byte.is_ascii_digit() {
            return None;
        }
        value = value * 10 + u64::from(*byte - b'0');
    }
    Some(value)
}
