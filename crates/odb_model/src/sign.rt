//! The signs of the statement language.
ghost use Rattle.std.specs.Prelude.{◌≡◌, find};
ghost use Rattle.std.specs.Str.{bytes_eq};
ghost use Rattle.odb_model.specs.Lexeme.{sign_text, sign_of};

/// A sign of a statement's text.
#[derive(Clone, Copy, Debug, PartialEq, Eq)]
pub enum Sign {
    /// `(`
    Open,
    /// `)`
    Close,
    /// `,`
    Comma,
    /// `*`
    Star,
    /// `=`
    Equal,
    /// `<>`
    Unequal,
    /// `<`
    Less,
    /// `<=`
    AtMost,
    /// `>`
    Greater,
    /// `>=`
    AtLeast,
    /// `+`
    Plus,
    /// `-`
    Minus,
    /// `;`
    Semicolon,
}

/// All signs but the last.
const SIGNS: [Sign; 12] = [
    Sign::Open,
    Sign::Close,
    Sign::Comma,
    Sign::Star,
    Sign::Equal,
    Sign::Unequal,
    Sign::Less,
    Sign::AtMost,
    Sign::Greater,
    Sign::AtLeast,
    Sign::Plus,
    Sign::Minus,
];

impl Sign {
    /// Its text.
    #[tactic(auto, unfolding(crate::specs::Lexeme::sign_text))]
    pub fn text(self) -> &'static [u8]
        ensures { result.now ≡ sign_text self }
    {
        match self {
            Sign::Open => b"(",
            Sign::Close => b")",
            Sign::Comma => b",",
            Sign::Star => b"*",
            Sign::Equal => b"=",
            Sign::Unequal => b"<>",
            Sign::Less => b"<",
            Sign::AtMost => b"<=",
            Sign::Greater => b">",
            Sign::AtLeast => b">=",
            Sign::Plus => b"+",
            Sign::Minus => b"-",
            Sign::Semicolon => b";",
        }
    }

    /// The sign of these bytes, which are those of one of the thirteen. It takes no memory.
    pub fn of(bytes: &[u8]) -> Sign
        ensures { result ≡ sign_of bytes.now }
    {
        found(&SIGNS, bytes).unwrap_or(Sign::Semicolon)
    }
}

/// The first of some signs that has these bytes.
fn found(signs: &[Sign], bytes: &[u8]) -> Option<Sign>
    ensures { result ≡ find (λ sign. bytes_eq (sign_text sign) bytes.now) signs.now }
{
    match signs {
        [] => None,
        [first, rest @ ..] => {
            if first.text() == bytes {
                Some(*first)
            } else {
                found(rest, bytes)
            }
        }
    }
}
