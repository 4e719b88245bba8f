//! Numbers in words.
ghost use Rattle.std.specs.Prelude.{◌≡◌, ℕ, ◌≤◌, ◌<◌, ◌^◌, IfSome, IfNone};
ghost use Rattle.std.specs.Fmt.{decimal};
ghost use Rattle.odb_command.specs.Numbers.{IsDecimalIn};

use odb_parse::decimal_of;

/// The number whose decimal the word is, without a leading zero, where it lies in a range.
pub(crate) fn number_in(word: &str, least: u32, most: u32) -> Option<u32>
    ensures found { IfSome result (IsDecimalIn least most word.now) }
    ensures none { IfNone result ((n : ℕ) → IsDecimalIn least most word.now n → ⊥) }
{
    match decimal_of(word.as_bytes()) {
        Some(number) => {
            if u64::from(least) <= number && number <= u64::from(most) {
                Some(number as u32)
            } else {
                None
            }
        }
        None => None,
    }
}
