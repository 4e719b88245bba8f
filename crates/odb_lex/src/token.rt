//! What a token is, and where it stands.
/// What a token is.
#[derive(Clone, Copy, Debug, PartialEq, Eq)]
pub enum TokenKind {
    /// A letter, and then letters, digits and `_`: 1 to 32 bytes.
    Name,
    /// Decimal digits, as many as there are, with a value of at most 9223372036854775808.
    Number,
    /// A quoted text, with its two quotes. Its value has at most 800 bytes.
    Quoted,
    /// One of `( ) , * = <> < <= > >= + - ;`.
    Sign,
}

/// A token of a text: the bytes from `from` up to `to`, which count from 0 in that text.
#[derive(Clone, Copy, Debug, PartialEq, Eq)]
pub struct Token {
    pub kind: TokenKind,
    /// The place of its first byte.
    pub from: usize,
    /// The place behind its last byte.
    pub to: usize,
}
