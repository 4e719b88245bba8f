//! The number at the front of a line.
ghost use Rattle.std.specs.Prelude.{◌≡◌, ℕ, ◌^◌, ◌<◌, ◌≤◌, ◌↔◌, List, length, take, drop, slice_index, IsTrue, IfSome, IfNone};
ghost use Rattle.std.specs.Str.Parse.{digits_value, AllDigits};
ghost use Rattle.odb_play.specs.Numbers.{EndsNumber, StartsWithNumber, IsShort};

/// The number of 1 to 9 digits without a leading zero that the bytes begin with, and what follows
/// it.
///
/// None where they begin with no digit, with a leading zero, or with more than 9 digits.
pub fn number_at_front(bytes: &[u8]) -> Option<(u32, &[u8])>
    ensures found { IfSome result (λ r. StartsWithNumber bytes.now r.0 r.1.now) }
    ensures none { IfNone result ((n : ℕ) (rest : List ℕ) → StartsWithNumber bytes.now n rest → ⊥) }
{
    let (digits, rest) = bytes.split_at(digit_count(bytes));
    if !is_short(digits) {
        return None;
    }
    Some((value_of(digits), rest))
}

/// How many digits the bytes begin with.
fn digit_count(bytes: &[u8]) -> usize
    ensures within { result ≤ length bytes.now }
    ensures digits { AllDigits 10 (take result bytes.now) }
    ensures ends { EndsNumber (drop result bytes.now) }
{
    for (at, byte) in bytes.iter().enumerate() {
        if !byte.is_ascii_digit() {
            return at;
        }
    }
    bytes.len()
}

/// Whether digits spell a number below 10^9 as it is written.
fn is_short(digits: &[u8]) -> bool
    ensures { IsTrue result ↔ IsShort digits.now }
{
    match digits {
        [] => false,
        [b'0', _, ..] => false,
        _ => digits.len() <= 9,
    }
}

fn value_of(digits: &[u8]) -> u32
    requires digits { AllDigits 10 digits.now }
    requires few { length digits.now ≤ 9 }
    ensures { result ≡ digits_value 10 digits.now }
{
    let mut value = 0;
    for digit in digits {
        value = value * 10 + u32::from(*digit - b'0');
    }
    value
}
