//! The next token of a text.
ghost use Rattle.std.specs.Prelude.{◌≡◌, ◌<◌, ◌≤◌, length, drop, slice_range, take_while};
ghost use Rattle.std.specs.List.{prefix_len};
ghost use Rattle.std.specs.Char.{is_ascii_digit};
ghost use Rattle.odb_lex.specs.Bytes.{is_name_byte, sign_in};
ghost use Rattle.odb_lex.specs.Next.{next_in, front, name_at, number_at, sign_at};
ghost use Rattle.odb_lex.specs.Token.{AreBlank, IfToken, IsTokenOf, StandsIn};

use crate::meaning::capped_value;
use crate::quoted::text_end;
use crate::runs::{blank_len, digit_len, name_len};
use crate::{LexError, Token, TokenKind};

/// The most bytes of a name.
const LONGEST_NAME: usize = 32;

/// The greatest number: what `-` may stand before and still fit 64 bits.
const GREATEST_NUMBER: u64 = 9_223_372_036_854_775_808;

/// The next token of a text from a place on, or None where nothing but blanks is left.
///
/// Tokens stand side by side or with blanks between them, so the place behind a token is where the
/// next is asked for. A refusal is final for the text: no token is told of what follows it. It
/// takes time in the bytes of the blanks and the token; a refused text may be looked at to its end.
pub fn next_token(text: &[u8], at: usize) -> Result<Option<Token>, LexError>
    requires { at ≤ length text.now }
    ensures next { result ≡ next_in text.now at }
    ensures stands { IfToken result (λ token. StandsIn at token (length text.now)) }
    ensures blank { IfToken result (λ token. AreBlank (slice_range text.now at token.from)) }
    ensures slice { IfToken result (λ token. IsTokenOf text.now token) }
{
    let from = at + blank_len(&text[at..]);
    if from == text.len() {
        return Ok(None);
    }
    Ok(Some(front(text, from)?))
}

/// The token that begins at a byte that is no blank.
fn front(text: &[u8], from: usize) -> Result<Token, LexError>
    requires { from < length text.now }
    ensures { result ≡ front from (drop from text.now) }
{
    let first = text[from];
    if first.is_ascii_alphabetic() {
        name_at(text, from)
    } else if first.is_ascii_digit() {
        number_at(text, from)
    } else if first == b'\'' {
        let to = text_end(text, from)?;
        Ok(Token {
            kind: TokenKind::Quoted,
            from,
            to,
        })
    } else {
        sign_at(text, from)
    }
}

fn name_at(text: &[u8], from: usize) -> Result<Token, LexError>
    requires { from < length text.now }
    ensures { result ≡ name_at from (prefix_len is_name_byte (drop from text.now)) }
{
    let len = name_len(&text[from..]);
    if len > LONGEST_NAME {
        return Err(LexError::BadCharacter {
            at: from + LONGEST_NAME,
        });
    }
    Ok(Token {
        kind: TokenKind::Name,
        from,
        to: from + len,
    })
}

fn number_at(text: &[u8], from: usize) -> Result<Token, LexError>
    requires { from < length text.now }
    ensures { result ≡ number_at from (take_while is_ascii_digit (drop from text.now)) }
{
    let to = from + digit_len(&text[from..]);
    if capped_value(&text[from..to]) > GREATEST_NUMBER {
        return Err(LexError::NumberTooWide { at: from });
    }
    Ok(Token {
        kind: TokenKind::Number,
        from,
        to,
    })
}

fn sign_at(text: &[u8], from: usize) -> Result<Token, LexError>
    requires { from < length text.now }
    ensures { result ≡ sign_at from (sign_in (drop from text.now)) }
{
    let len = match &text[from..] {
        [b'<', b'>' | b'=', ..] | [b'>', b'=', ..] => 2,
        [
            b'<' | b'>' | b'=' | b'(' | b')' | b',' | b'*' | b'+' | b'-' | b';',
            ..
        ] => 1,
        _ => return Err(LexError::BadCharacter { at: from }),
    };
    Ok(Token {
        kind: TokenKind::Sign,
        from,
        to: from + len,
    })
}
