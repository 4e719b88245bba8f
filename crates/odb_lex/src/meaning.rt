//! What the bytes of a token stand for.
ghost use Rattle.std.specs.Prelude.{◌≡◌, ◌-◌, ◌^◌, min, string_bytes, IfOk, IsUtf8};
ghost use Rattle.std.specs.Str.Parse.{AllDigits, digits_value};
ghost use Rattle.odb_lex.specs.Token.{IsName, IsNumber, IsQuoted, value_in, capitals};

use crate::quoted::pair_in;
use std::alloc::{AllocError, Global};
use std::str;

/// The value of a Number token, from its bytes: at most 9223372036854775808.
pub fn number_of(digits: &[u8]) -> u64
    requires { IsNumber digits.now }
    ensures { result ≡ digits_value 10 digits.now }
{
    capped_value(digits)
}

/// The value of digits, or the greatest number of 64 bits where it is above that.
pub fn capped_value(digits: &[u8]) -> u64
    requires { AllDigits 10 digits.now }
    ensures { result ≡ min (digits_value 10 digits.now) (2 ^ 64 - 1) }
{
    let mut value: u64 = 0;
    for digit in digits {
        value = value
            .saturating_mul(10)
            .saturating_add(u64::from(*digit - b'0'));
    }
    value
}

/// The value of a Quoted token, from its bytes with both quotes: at most 800 bytes of UTF-8 without
/// a control byte but tab. The error is want of memory: the value is built in memory.
pub fn text_of(alloc: Global, token: &[u8]) -> Result<String, AllocError>
    requires { IsQuoted token.now }
    ensures { IfOk result (λ value. string_bytes value ≡ value_in token.now) }
{
    let mut value = String::new(alloc);
    let mut rest = &token[1..token.len() - 1];
    while let Some(len) = pair_in(rest) {
        value.push_str(utf8(&rest[..len + 1]))?;
        rest = rest.split_at(len + 2).1;
    }
    value.push_str(utf8(rest))?;
    Ok(value)
}

fn utf8(bytes: &[u8]) -> &str
    requires { IsUtf8 bytes.now }
    ensures { result.now ≡ bytes.now }
{
    str::from_utf8(bytes).unwrap()
}

/// A Name token in capitals, from its bytes: small letters stand for large ones. The error is want
/// of memory: the name is built in memory.
pub fn name_of(alloc: Global, token: &[u8]) -> Result<String, AllocError>
    requires { IsName token.now }
    ensures { IfOk result (λ name. string_bytes name ≡ capitals token.now) }
{
    utf8(token).to_ascii_uppercase(alloc)
}
