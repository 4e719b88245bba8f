//! What a line asks for.
ghost use Rattle.std.specs.Prelude.{ℕ, List, IfOk, IfErr, IfSome, IfNone};
ghost use Rattle.odb_model.specs.Script.{IsSessionLine, IsRequest, IsRefused};
ghost use Rattle.odb_play.specs.Lines.{head_of, reply_of};

use crate::LineRefusal;
use crate::bytes::after;
use crate::number::number_at_front;
use odb_model::{Event, Head, SESSIONS};
use odb_parse::{control_of, parse};
use std::alloc::Global;

/// The most bytes that the text of a statement may have.
pub(crate) const LONGEST_TEXT: usize = 65_536;

/// The event that a line asks for, or the refusal that answers it.
///
/// The line has neither its LF nor a CR before it. First comes whether it is a line of a script at
/// all, then whether there is such a session, then whether the statement's text is too long, then
/// what the text spells. One pass, in time linear in the line; it takes memory for what the
/// statement keeps.
pub fn event_of(alloc: Global, line: &[u8]) -> Result<Event, LineRefusal>
    ensures event { IfOk result (IsRequest line.now) }
    ensures refused { IfErr result
        (λ refusal. IsRefused line.now (head_of refusal) (reply_of refusal)) }
{
    if after(line, b"! ").is_some() {
        return match control_of(line) {
            Some(control) => Ok(Event::Control(control)),
            None => Err(LineRefusal::Line {
                head: Head::Control,
            }),
        };
    }
    let Some((session, text)) = session_line(line) else {
        return Err(LineRefusal::Line {
            head: Head::Unknown,
        });
    };
    if session == 0 || session > SESSIONS {
        return Err(LineRefusal::NoSession { session });
    }
    if text.len() > LONGEST_TEXT {
        return Err(LineRefusal::Long { session });
    }
    match parse(alloc, text) {
        Ok(statement) => Ok(Event::Session { session, statement }),
        Err(error) => Err(LineRefusal::Text { session, error }),
    }
}

/// The session and the text of a session line.
fn session_line(line: &[u8]) -> Option<(u32, &[u8])>
    ensures found { IfSome result (λ r. IsSessionLine line.now r.0 r.1.now) }
    ensures none { IfNone result ((s : ℕ) (text : List ℕ) → IsSessionLine line.now s text → ⊥) }
{
    let (session, rest) = number_at_front(line)?;
    let text = after(rest, b" ")?;
    Some((session, text))
}
