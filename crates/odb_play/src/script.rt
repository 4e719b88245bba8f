//! Playing a whole script: the call `play`.
ghost use Rattle.std.specs.Prelude.{◌≡◌, ◌≢◌, ℕ, ◌<◌, ◌≤◌, List, [], length, take, IfOk, IfErr, IfSome, OnErr, Err};
ghost use Rattle.odb_device.specs.Console.{Talks, SaysNothing, Takes, TakesNothing, EndsInput, SayCountRose, TakeCountRose};
ghost use Rattle.odb_machine.specs.Machine.{Machine};
ghost use Rattle.odb_machine.specs.Play.{Answer};
ghost use Rattle.odb_device.specs.World.{file_of, present};
ghost use Rattle.odb_device.specs.Calls.{FileCountRose};
ghost use Rattle.odb_transdb.specs.Opened.{opened};
ghost use Rattle.odb_transdb.specs.Worlds.{OpensAsBefore, OnlyClosesGates};
ghost use Rattle.odb_system.specs.Held.{StandsFor};
ghost use Rattle.odb_system.specs.Durable.{IsDurable};
ghost use Rattle.odb_system.specs.Kept.{Rests};
ghost use Rattle.odb_play.specs.Outside.{TouchesOnly};
ghost use Rattle.odb_play.specs.Played.{IsAt, IsPlayedOn, EndsWith};
ghost use Rattle.odb_play.specs.Started.{IsStarted, RefusesOpening};
ghost use Rattle.odb_play.specs.Opening.{PlayOutcome, IsOpeningOf, IsRefused};

use crate::opening::open_system;
use crate::player::{FRONT, Player};
use odb_device::{Failed, Host};
use odb_model::Status;
use std::alloc::Global;

/// How many bytes are taken of the input at a time.
const PIECE: usize = 65_536;

/// How many bytes a script may have.
const MOST_INPUT: u64 = 4_294_967_296;

/// Opens TRANSDB, file 0, and plays the script that the host's input holds, from the entries found
/// there on. It says the replies in the order of the lines, each before a later line changes what a
/// crash leaves.
///
/// It refuses what [`Transdb::open_with_entries`] refuses, and with `NotHeld` entries of which the
/// first isn't number 1: what came before them is nowhere, since no databank has a file yet. After
/// a refusal nothing was taken or said. It takes the input in pieces of 64 KiB, and keeps of a line
/// no more than a line can have that asks for a step.
///
/// At each moment of it, with i replies wholly said, a crash leaves files that are kept by the
/// machine after i answers or after i + 1: a TRANSDB that opens to its history, or to it and the
/// entry in doubt. This is promised of files that some machine keeps so at the call, and that are
/// told; once the opening is over, of any. From then on TRANSDB changes only in the steps of lines
/// that are answered COMMITTED, FAULT, INDOUBT or TURNED: never while a reply is said, between two
/// steps, or behind the last one.
pub fn play<H: Host>(alloc: Global, host: &mut H) -> Status
    ensures played { PlayOutcome result (H.world host.old) (H.world host.new) }
    ensures opened { IfSome (file_of 0 (H.world host.old))
        (λ f. IsOpeningOf result (opened f.bytes)) }
    ensures file_fault { (file : ℕ) → result ≡ Status.FileFault file
        → (file ≡ 0) × FileCountRose 0 (H.world host.old) (H.world host.new) }
    ensures read_fault { result ≡ Status.ReadFault
        → TakeCountRose (H.world host.old) (H.world host.new) }
    ensures write_fault { result ≡ Status.WriteFault
        → SayCountRose (H.world host.old) (H.world host.new) }
{
    match open_player(alloc, host) {
        Ok(mut ready) => play_on(alloc, host, &mut ready.player, ready.piece.as_mut_slice()),
        Err(status) => status,
    }
}

/// What a script is played with.
#[derive(Drop)]
struct Ready {
    player: Player,
    /// Room for a piece of the input.
    piece: Vec<u8>,
}

/// A player that has answered nothing, with the entries that TRANSDB holds as its history, and room
/// for a piece of the input.
fn open_player<H: Host>(alloc: Global, host: &mut H) -> Result<Ready, Status>
    ensures run { OpensAsBefore (H.world host.old) (H.world host.new) }
    ensures bytes { OnlyClosesGates (H.world host.old) (H.world host.new) }
    ensures refused { IfErr result
        (λ status. IsRefused status (H.world host.old) (H.world host.new)) }
    ensures started { IfOk result
        (λ ready. IsStarted ready.player.system (H.world host.old) (H.world host.new)) }
    ensures front { IfOk result (λ ready. ready.player.front.items ≡ []) }
    ensures room { IfOk result (λ ready. 0 < length ready.piece.items) }
    ensures refusal { IfErr result RefusesOpening }
    ensures opened { IfSome (file_of 0 (H.world host.old))
        (λ f. IfErr result (λ status. IsOpeningOf status (opened f.bytes))) }
    ensures cause { (file : ℕ) → result ≡ Err (Status.FileFault file)
        → (file ≡ 0) × FileCountRose 0 (H.world host.old) (H.world host.new) }
{
    let system = open_system(alloc, host)?;
    let Ok(front) = Vec::with_capacity(alloc, FRONT + 1) else {
        return Err(Status::NoMemory);
    };
    let Ok(piece) = vec![in alloc; 0u8; PIECE] else {
        return Err(Status::NoMemory);
    };
    let player = Player { system, front };
    Ok(Ready { player, piece })
}

/// Plays the whole script, in pieces that fit the buffer.
fn play_on<H: Host>(alloc: Global, host: &mut H, player: &mut Player, piece: &mut [u8]) -> Status
    requires room { 0 < length piece.old }
    requires durable { IsDurable player.old.system (file_of 0 (H.world host.old)) }
    ensures played { (m : Machine) → StandsFor player.old.system m
        → Rests m (present (H.world host.old)) → player.old.front.items ≡ []
        → IsPlayedOn m result (H.world host.old) (H.world host.new) }
    ensures read_fault { result ≡ Status.ReadFault
        → TakeCountRose (H.world host.old) (H.world host.new) }
    ensures write_fault { result ≡ Status.WriteFault
        → SayCountRose (H.world host.old) (H.world host.new) }
{
    let mut taken = 0u64;
    while taken < MOST_INPUT {
        let room = (MOST_INPUT - taken).min(piece.len() as u64) as usize;
        let Ok(n) = take_some(host, piece, room) else {
            return Status::ReadFault;
        };
        if n == 0 {
            return end(alloc, host, player);
        }
        if let Err(stop) = player.feed(alloc, host, &piece[..n]) {
            return stop.status();
        }
        taken += n as u64;
    }
    let Ok(n) = take_some(host, piece, 1) else {
        return Status::ReadFault;
    };
    if n == 0 {
        return end(alloc, host, player);
    }
    Status::InputTooLong
}

/// Takes at most so many bytes of the input to the front of the buffer.
fn take_some<H: Host>(host: &mut H, piece: &mut [u8], room: usize) -> Result<usize, Failed>
    requires some { 0 < room }
    requires within { room ≤ length piece.old }
    ensures talks { Talks (H.world host.old) (H.world host.new) }
    ensures silent { SaysNothing (H.world host.old) (H.world host.new) }
    ensures bound { IfOk result (λ n. n ≤ room) }
    ensures taken { IfOk result
        (λ n. Takes (take n piece.new) (H.world host.old) (H.world host.new)) }
    ensures ended { IfOk result (λ n. EndsInput n (H.world host.old) (H.world host.new)) }
    ensures failed { OnErr result (TakesNothing (H.world host.old) (H.world host.new)) }
    ensures cause { OnErr result (TakeCountRose (H.world host.old) (H.world host.new)) }
{
    host.take(&mut piece[..room])
}

/// The input has ended: answers a last line, if there is one, and says how the script ended.
fn end<H: Host>(alloc: Global, host: &mut H, player: &mut Player) -> Status
    requires durable { IsDurable player.old.system (file_of 0 (H.world host.old)) }
    ensures finished { (m : Machine) (input : List ℕ) (answers : List Answer)
        → IsAt m player.old.system player.old.front.items input answers (H.world host.old)
        → EndsWith m input answers result (H.world host.old) (H.world host.new) }
    ensures only { TouchesOnly 0 (H.world host.old) (H.world host.new) }
    ensures input { TakesNothing (H.world host.old) (H.world host.new) }
    ensures read_fault { result ≢ Status.ReadFault }
    ensures write_fault { result ≡ Status.WriteFault
        → SayCountRose (H.world host.old) (H.world host.new) }
{
    match player.finish(alloc, host) {
        Ok(()) => Status::Done,
        Err(stop) => stop.status(),
    }
}
