//! Why a line asks for nothing, and how it is answered then.
ghost use Rattle.std.specs.Prelude.{◌≡◌};
ghost use Rattle.odb_play.specs.Lines.{text_reply};

use odb_model::{Head, Reply};
use odb_parse::ParseError;
use thiserror::Error;

/// Why a line asks for no event.
#[derive(Clone, Copy, Debug, PartialEq, Eq, Error)]
pub enum LineRefusal {
    /// It is neither a session line nor a control line of a known form.
    #[error("the line is no line of a script")]
    Line { head: Head },
    /// The session's number is 0 or above 64.
    #[error("there is no session {session}")]
    NoSession { session: u32 },
    /// The statement's text has more than 65,536 bytes.
    #[error("the statement of session {session} is too long")]
    Long { session: u32 },
    /// The text of this session's line spells no statement; or memory ran out while it was read.
    /// Places count bytes from the text's first, which stands behind the number and the space.
    #[error("the text of session {session} spells no statement")]
    Text { session: u32, error: ParseError },
}

impl LineRefusal {
    ghost use Rattle.odb_play.specs.Lines.{head_of, reply_of};

    /// Whom the answer names.
    pub fn head(self) -> Head
        ensures { result ≡ head_of self }
    {
        match self {
            LineRefusal::Line { head } => head,
            LineRefusal::NoSession { session } => Head::Session(session),
            LineRefusal::Long { session } => Head::Session(session),
            LineRefusal::Text { session, .. } => Head::Session(session),
        }
    }

    /// The answer.
    pub fn reply(self) -> Reply
        ensures { result ≡ reply_of self }
    {
        match self {
            LineRefusal::Line { .. } => Reply::Line,
            LineRefusal::NoSession { .. } => Reply::NoSession,
            LineRefusal::Long { .. } => Reply::Long,
            LineRefusal::Text { error, .. } => text_reply(error),
        }
    }
}

/// The answer to a text that is refused so.
fn text_reply(error: ParseError) -> Reply
    ensures { result ≡ text_reply error }
{
    match error {
        ParseError::BadCharacter { at } => Reply::Character(at as u64),
        ParseError::OpenText { at } => Reply::Text(at as u64),
        ParseError::NumberTooWide { at } => Reply::Number(at as u64),
        ParseError::Unexpected { at } => Reply::Syntax(at as u64),
        ParseError::End => Reply::End,
        ParseError::NoMemory => Reply::Memory,
    }
}
