//! Lines on the tokens of a text.
use crate::error::LineError;
use crate::parts::part;
use crate::statements::tell_refusal;
use odb_lex::{Token, TokenKind, name_of, next_token, number_of, text_of};
use odb_parse::ParseError;
use std::alloc::{AllocError, Global};

/// `tokens TEXT`: the kind of each token with its place and the one behind it, and what is refused
/// behind them.
pub fn tokens_line(out: &mut String, text: &[u8]) -> Result<(), LineError> {
    let mut at = 0;
    for _ in 0..=text.len() {
        match next_token(text, at) {
            Ok(Some(token)) => {
                tell_token(out, token)?;
                at = token.to;
            }
            Ok(None) => break,
            Err(error) => {
                part(out)?;
                return tell_refusal(out, ParseError::from(error));
            }
        }
    }
    Ok(())
}

fn tell_token(out: &mut String, token: Token) -> Result<(), AllocError> {
    let Token { kind, from, to } = token;
    part(out)?;
    write!(out, "{kind:?} {from} {to}")
}

/// `meaning TEXT`: what the first token of a text stands for.
pub fn meaning_line(alloc: Global, out: &mut String, text: &[u8]) -> Result<(), LineError> {
    let Ok(Some(token)) = next_token(text, 0) else {
        return Err(LineError::Unreadable("the text begins with no token"));
    };
    let bytes = &text[token.from..token.to];
    match token.kind {
        TokenKind::Name => Ok(out.push_str(name_of(alloc, bytes)?.as_str())?),
        TokenKind::Number => Ok(write!(out, "{}", number_of(bytes))?),
        TokenKind::Quoted => Ok(out.push_str(text_of(alloc, bytes)?.as_str())?),
        TokenKind::Sign => Err(LineError::Unreadable("a sign stands for no value")),
    }
}
