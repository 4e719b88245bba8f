//! The player answers the lines of a script as their bytes come.
ghost use Rattle.std.specs.Prelude.{◌≡◌, ℕ, ◌+◌, ◌-◌, List, [], ◌∷◌, ◌++◌, take, length, position, ◌==◌, OnOk, OnErr, Err};
ghost use Rattle.odb_device.specs.World.{file_of, present};
ghost use Rattle.odb_device.specs.Console.{TakesNothing, SayCountRose};
ghost use Rattle.odb_machine.specs.Machine.{Machine};
ghost use Rattle.odb_machine.specs.Play.{Answer};
ghost use Rattle.odb_model.specs.Script.{head_of, without_cr};
ghost use Rattle.odb_system.specs.Held.{StandsFor};
ghost use Rattle.odb_system.specs.Durable.{IsDurable, ChangesLog};
ghost use Rattle.odb_system.specs.Kept.{Rests};
ghost use Rattle.odb_reply.specs.Unbroken.{HasNoLf};
ghost use Rattle.odb_play.specs.LineFront.{read_of_ended, read_of_last};
ghost use Rattle.odb_play.specs.Outside.{TouchesOnly};
ghost use Rattle.odb_play.specs.Played.{IsAt, Replies, LineEnds, BytesEnd, FinishEnds};

use crate::bytes::before;
use crate::event::event_of;
use crate::front::LONGEST_LINE;
use odb_device::{Host, say_all};
use odb_model::{Event, Head, LF, Reply, Status};
use odb_reply::print_reply;
use odb_system::System;
use std::alloc::{AllocError, Global};

/// How many bytes of a line are read: one more than a line can have that asks for anything, so that
/// a longer line is told from it.
pub(crate) const FRONT: usize = LONGEST_LINE + 1;

/// Why a script can't be played on.
#[derive(Clone, Copy, Debug, PartialEq, Eq)]
pub(crate) enum Stop {
    /// The output could not be written on.
    WriteFault,
    /// Memory ran out.
    NoMemory,
}

impl Stop {
    ghost use Rattle.odb_play.specs.Played.{status_of};

    /// How the script ends then.
    pub(crate) fn status(self) -> Status
        ensures { result ≡ status_of self }
    {
        match self {
            Stop::WriteFault => Status::WriteFault,
            Stop::NoMemory => Status::NoMemory,
        }
    }
}

/// A system, and the front of the line whose end hasn't come yet.
#[derive(Drop)]
pub(crate) struct Player {
    pub(crate) system: System,
    pub(crate) front: Vec<u8>,
}

/// Puts the bytes behind the front of a line, as far as there is room.
fn extend_front(front: &mut Vec<u8>, bytes: &[u8]) -> Result<(), AllocError>
    ensures ok { OnOk result (front.new.items
        ≡ front.old.items ++ take (FRONT + 1 - length front.old.items) bytes.now) }
    ensures err { OnErr result (front.new.items ≡ front.old.items) }
{
    let room = (FRONT + 1).saturating_sub(front.len());
    front.extend_from_slice(&bytes[..room.min(bytes.len())])
}

/// What is read of a line that an LF ended: without the CR before it, and no longer than a line can
/// be that asks for a step.
fn ended_line(front: &[u8]) -> &[u8]
    ensures { result.now ≡ read_of_ended front.now }
{
    if front.len() > FRONT {
        return &front[..FRONT];
    }
    strip_cr(front)
}

/// The line without a CR at its end.
fn strip_cr(line: &[u8]) -> &[u8]
    ensures { result.now ≡ without_cr line.now }
{
    match before(line, b"\r") {
        Some(front) => front,
        None => line,
    }
}

/// What is read of a last line that no LF ended.
fn last_line(front: &[u8]) -> &[u8]
    ensures { result.now ≡ read_of_last front.now }
{
    &front[..FRONT.min(front.len())]
}

/// Whom the answer to an event names.
fn head_of(event: &Event) -> Head
    ensures { result ≡ head_of event.now }
{
    match event {
        Event::Session { session, .. } => Head::Session(*session),
        Event::Control(_) => Head::Control,
    }
}

/// The answer to a line.
#[derive(Debug, Drop)]
struct Response {
    /// Whom it names.
    head: Head,
    reply: Reply,
}

/// Answers a line, by a step of the system or by a refusal.
fn reply_to<H: Host>(system: &mut System, alloc: Global, host: &mut H, line: &[u8]) -> Response
    requires durable { IsDurable system.old (file_of 0 (H.world host.old)) }
    ensures answer { (m : Machine) → StandsFor system.old m → Rests m (present (H.world host.old))
        → Replies line.now m result.head result.reply system.new
        (H.world host.old) (H.world host.new) }
    ensures only { ChangesLog (H.world host.old) (H.world host.new) }
    ensures durable { IsDurable system.new (file_of 0 (H.world host.new)) }
{
    match event_of(alloc, line) {
        Ok(event) => Response {
            head: head_of(&event),
            reply: system.step(alloc, host, &event),
        },
        Err(refusal) => Response {
            head: refusal.head(),
            reply: refusal.reply(),
        },
    }
}

/// Answers one line, and says the answer in as few calls as the console allows.
fn answer<H: Host>(
    system: &mut System,
    alloc: Global,
    host: &mut H,
    line: &[u8],
) -> Result<(), Stop>
    requires durable { IsDurable system.old (file_of 0 (H.world host.old)) }
    ensures answer { (m : Machine) → StandsFor system.old m → Rests m (present (H.world host.old))
        → LineEnds line.now m result system.new (H.world host.old) (H.world host.new) }
    ensures durable { IsDurable system.new (file_of 0 (H.world host.new)) }
    ensures only { TouchesOnly 0 (H.world host.old) (H.world host.new) }
    ensures input { TakesNothing (H.world host.old) (H.world host.new) }
    ensures cause { result ≡ Err Stop.WriteFault
        → SayCountRose (H.world host.old) (H.world host.new) }
{
    let response = reply_to(system, alloc, host, line);
    let Ok(text) = print_reply(alloc, response.head, &response.reply) else {
        return Err(Stop::NoMemory);
    };
    match say_all(host, text.as_slice()) {
        Ok(()) => Ok(()),
        Err(_) => Err(Stop::WriteFault),
    }
}

impl Player {
    /// The line of which these bytes are the end: answers it.
    fn end_line<H: Host>(&mut self, alloc: Global, host: &mut H, part: &[u8]) -> Result<(), Stop>
        requires durable { IsDurable self.old.system (file_of 0 (H.world host.old)) }
        ensures bytes { (m : Machine) (input : List ℕ) (answers : List Answer)
            → IsAt m self.old.system self.old.front.items input answers (H.world host.old)
            → HasNoLf part.now
            → BytesEnd m self.new.system self.new.front.items
            (input ++ (part.now ++ LF ∷ [])) answers result
            (H.world host.old) (H.world host.new) }
        ensures durable { IsDurable self.new.system (file_of 0 (H.world host.new)) }
        ensures only { TouchesOnly 0 (H.world host.old) (H.world host.new) }
        ensures input { TakesNothing (H.world host.old) (H.world host.new) }
        ensures cause { result ≡ Err Stop.WriteFault
            → SayCountRose (H.world host.old) (H.world host.new) }
    {
        let Ok(()) = extend_front(&mut self.front, part) else {
            return Err(Stop::NoMemory);
        };
        let line = ended_line(self.front.as_slice());
        let ended = answer(&mut self.system, alloc, host, line);
        self.front.clear();
        ended
    }

    /// Takes more bytes of the script, and answers each line that an LF ends.
    pub(crate) fn feed<H: Host>(
        &mut self,
        alloc: Global,
        host: &mut H,
        piece: &[u8],
    ) -> Result<(), Stop>
        requires durable { IsDurable self.old.system (file_of 0 (H.world host.old)) }
        ensures bytes { (m : Machine) (input : List ℕ) (answers : List Answer)
            → IsAt m self.old.system self.old.front.items input answers (H.world host.old)
            → BytesEnd m self.new.system self.new.front.items (input ++ piece.now) answers result
            (H.world host.old) (H.world host.new) }
        ensures durable { IsDurable self.new.system (file_of 0 (H.world host.new)) }
        ensures only { TouchesOnly 0 (H.world host.old) (H.world host.new) }
        ensures input { TakesNothing (H.world host.old) (H.world host.new) }
        ensures cause { result ≡ Err Stop.WriteFault
            → SayCountRose (H.world host.old) (H.world host.new) }
    {
        let mut rest = piece;
        while let Some(end) = end_of_line(rest) {
            self.end_line(alloc, host, &rest[..end])?;
            rest = &rest[end + 1..];
        }
        let Ok(()) = extend_front(&mut self.front, rest) else {
            return Err(Stop::NoMemory);
        };
        Ok(())
    }

    /// Answers a last line that no LF ended, if there is one. Nothing may follow.
    pub(crate) fn finish<H: Host>(&mut self, alloc: Global, host: &mut H) -> Result<(), Stop>
        requires durable { IsDurable self.old.system (file_of 0 (H.world host.old)) }
        ensures bytes { (m : Machine) (input : List ℕ) (answers : List Answer)
            → IsAt m self.old.system self.old.front.items input answers (H.world host.old)
            → FinishEnds m input answers result (H.world host.old) (H.world host.new) }
        ensures durable { IsDurable self.new.system (file_of 0 (H.world host.new)) }
        ensures only { TouchesOnly 0 (H.world host.old) (H.world host.new) }
        ensures input { TakesNothing (H.world host.old) (H.world host.new) }
        ensures cause { result ≡ Err Stop.WriteFault
            → SayCountRose (H.world host.old) (H.world host.new) }
    {
        if self.front.is_empty() {
            return Ok(());
        }
        answer(
            &mut self.system,
            alloc,
            host,
            last_line(self.front.as_slice()),
        )
    }
}

/// Where the first LF stands.
fn end_of_line(bytes: &[u8]) -> Option<usize>
    ensures { result ≡ position (λ b. b == LF) bytes.now }
{
    bytes.iter().position(|b| *b == LF)
}
