//! The commands of the program: the call `run`.
ghost use Rattle.std.specs.Prelude.{◌≡◌, ◌⊎◌, ℕ, false, [], map, string_bytes};
ghost use Rattle.odb_device.specs.Console.{TakeCountRose, SayCountRose};
ghost use Rattle.odb_tool.specs.Words.{is_built, IsBuilt, IsPlay, IsCreate, HasSide};
ghost use Rattle.odb_tool.specs.Created.{DoesCreate};
ghost use Rattle.odb_tool.specs.Playing.{DoesPlay};

use crate::create::create;
use odb_command::{Command, CommandError, command_of};
use odb_device::Host;
use odb_model::Status;
use odb_play::play;
use std::alloc::Global;

/// Does all that the program does: `create` makes a database, and `play` plays the script on the
/// host's input over it, and says the reply to each line on its output.
///
/// The words are those of the command line, without the program's name: `create`, with `--side N` or
/// without, or the one word `play`. With any other words the status is `Usage`, or want of memory is
/// told, nothing is taken, nothing is said and no file is touched: the clauses `usage`, `usage_only`
/// and `refused`.
///
/// # The theorem
///
/// With `play` the clause `play` says this of every script, however its lines interleave the
/// sessions, and of every crash, where the host tells the bytes that it takes and says and those of
/// TRANSDB, file 0. There is **one run of one machine**. It begins with the entries that TRANSDB
/// holds as its history, and all sessions idle. It goes over the lines of the bytes taken in this
/// call, one after another and each line once, and the bytes said in this call are the texts of its
/// replies, in their order. How many of them, by the status:
///
/// - `Done`: the input was read to its end and has at most 2^32 bytes. Every line has its reply,
///   and all are said.
/// - `ReadFault`: every line that an LF ended has its reply, and all of these are said.
/// - `InputTooLong`: just 2^32 + 1 bytes were taken. Every line that an LF ended within the first
///   2^32 has its reply, and all of these are said.
/// - `WriteFault`: some first lines have their replies, and all of these are said but for the last
///   one, of which a front is said, or nothing.
/// - `NoMemory`: some first lines have their replies and all of these are said; or the last one
///   alone is not, wholly.
///
/// What holds of the replies of that run:
///
/// - **Each committed transaction is serial.** Where COMMIT is answered COMMITTED k, the
///   transaction's statements, run alone after the first k - 1 entries of the history, give the
///   very replies that they gave, and what they leave written is entry k. Where it is answered
///   ENDED p, the same holds after the first p entries, and they leave nothing written.
/// - **Old reads are told exactly.** Unless an entry is in doubt, COMMIT is answered AGED o s where
///   the transaction's oldest read is of a history of o entries and o is below s, the number of
///   entries before the longest suffix of the history that has at most 262,144 writes in all.
/// - **Conflicts are exact.** Unless an entry is in doubt or the oldest read is too old, COMMIT is
///   answered CONFLICT j where entry j is the first of the history that came after a read of the
///   transaction and wrote a key of the range read, and where there is no such entry it isn't. A
///   SELECT, an UPDATE and a DELETE read all of their range, rows that aren't there too, and an
///   INSERT its keys; so they do where they are refused for a row.
/// - **A definition is a commit of its own.** CREATE TABLE and DROP TABLE are refused in a
///   transaction. Else they are refused by the statement and the dictionary alone, as the history
///   makes it, or what they write into it is the next entry, with the replies of a commit.
/// - **A full log is told exactly**: HISTORYFULL comes where the history has 2^48 entries, and else
///   FULL where the entry's record needs more bytes than the side of TRANSDB has left.
/// - **The sides are turned exactly.** `! TURN` is answered NOTCLEAN exactly where the side of TRANSDB
///   that isn't active isn't clean, unless an entry is in doubt; else it is answered TURNED, with that
///   side and the number of the next entry, and the room is that of a whole side; or FAULT 0, and then
///   all is as before. It changes no entry.
/// - **A fault is counted.** FAULT 0 and INDOUBT are together at most as many as the count of faults
///   of TRANSDB rose by in the call: each has a rise of its own, one behind another. INDOUBT comes
///   only where the whole record but its gate was on the disk. After INDOUBT k every COMMIT in a
///   transaction, every such definition outside one, and every `! TURN` is answered HALTED k.
/// - Every other reply has its one cause, in the line, in the session's state or in the rows that it
///   sees.
///
/// **What a crash leaves.** Let a machine keep every image of every file as the call begins: every
/// image of TRANSDB opens to its history, or to it and one entry in doubt more, as an earlier play
/// leaves them wherever it was stopped. Then the run begins with that history, or with it and that
/// entry, by what was read; and at every moment of the call, with i replies wholly said, whatever a
/// crash then leaves is kept by the machine after i answers or by the one after i + 1. Where no
/// byte is said yet it may be as at entry. So **no commit is lost**: it opens to the first c
/// entries of the run's history with the entry in doubt behind it, c is at least each k of a line
/// COMMITTED k said by then and, from the first byte said on, the number of entries found, and
/// nothing stands in a wrong place.
///
/// Once the opening is over, which says nothing, the machines of the run keep the files so whatever
/// they were at entry. From then on TRANSDB changes only in a step that is answered COMMITTED,
/// FAULT, INDOUBT or TURNED, before that answer is said: never in another step, between two, or behind
/// the last one.
///
/// Want of memory alone is free: the reply MEMORY may come in the place of any other to a statement
/// and then changes nothing, and the status `NoMemory` may come in the place of any other. No other
/// status and no other reply stands for it.
///
/// With `play` only the host's console and TRANSDB change in the call; with `create` only TRANSDB and
/// the files of the databanks. `ReadFault` comes only where the count of faults of `take` rose in
/// this call, `WriteFault` only where that of `say` did, and `FileFault` only where that of the file
/// did that it names, with `play` TRANSDB: the clauses `read_fault` and `write_fault`, and `fault` of
/// `DoesPlay` and `DoesCreate`. Of a host that doesn't tell its bytes, as `FolderHost`, these are left, and that
/// the end of the input was met where the status is `Done`.
///
/// # What is refused
///
/// With `play`, by what TRANSDB holds as it reads (`opens`): `NoDatabase` exactly where its pair
/// has no open place, `Damaged` exactly where it isn't in order and at that place, `NotHeld`
/// exactly where its first entry isn't number 1. Then nothing is taken or said, and TRANSDB opens
/// as before. With `create` (`found`, `created`): `Exists` exactly where the pair has an open place
/// already, and then its file is as before; after `Done` every image of TRANSDB is one
/// without entries, and every image of the files of the databanks, 2, 3 and 4, is one with the mark
/// 0. TRANSDB comes last, and of it the pair (`order`).
/// Where the pair has an open place nothing is written, whatever call fails: at every moment a
/// crash leaves what it might have left before (`leaves`).
///
/// # Where each word is defined
///
/// `DoesPlay` and `DoesCreate` stand in `specs`, which words ask for what in
/// `odb_command/specs/Command.antt`. `PlayOutcome`, in `odb_play/specs/Opening.antt`, says what a run starts from; `IsPlayed`, in
/// `odb_play/specs/Played.antt`, ties the bytes of the host to `PlayEnds`; `SurvivesCrashes` and
/// `LosesNoCommit`, in `odb_play/specs/Crash.antt`, say what a crash leaves, by what a machine asks
/// of an image: `IsKept`, in `odb_system/specs/Kept.antt`. What the bytes of TRANSDB hold stands in
/// `odb_transdb/specs/Opened.antt`, and what those of a databank file stand for in
/// `odb_bank/specs/Files.antt`. In `odb_machine/specs` stand `PlayEnds`, a case for each status, in
/// `Play.antt`, and the machine and its steps in `Machine.antt`; in `odb_model/specs` the lines of a
/// script and what a line asks in `Script.antt`; what a statement means in `Meaning.antt`; conflict
/// in `Transaction.antt`; serial in `Serial.antt`; the bytes of replies in `Print.antt`.
///
/// # Cost
///
/// It waits for nobody, and returns where the calls of the host return. The input is taken in
/// pieces of 65,536 bytes, of a line no more is kept than a line can have that asks for something,
/// and each reply is said in as few calls as the console allows. A statement that names its key
/// costs a search, one over a range the rows in it. A COMMIT looks at the writes since the
/// transaction's oldest read, and with writes of its own it syncs TRANSDB twice; so does a
/// definition. The history isn't held: of its entries there are those that were committed in this
/// call and are within 262,144 writes of its end.
pub fn run<H: Host>(alloc: Global, words: &[String], host: &mut H) -> Status
    ensures usage { ¬ (IsBuilt (map string_bytes words.now))
        → (result ≡ Status.Usage) ⊎ (result ≡ Status.NoMemory) }
    ensures usage_only { result ≡ Status.Usage → ¬ (IsBuilt (map string_bytes words.now)) }
    ensures refused { ¬ (IsBuilt (map string_bytes words.now))
        → H.world host.new ≡ H.world host.old }
    ensures play { IsPlay (map string_bytes words.now)
        → DoesPlay result (H.world host.old) (H.world host.new) }
    ensures create { (side_kib : ℕ) → IsCreate (map string_bytes words.now) side_kib
        → DoesCreate side_kib result (H.world host.old) (H.world host.new) }
    ensures read_fault { result ≡ Status.ReadFault
        → TakeCountRose (H.world host.old) (H.world host.new) }
    ensures write_fault { result ≡ Status.WriteFault
        → SayCountRose (H.world host.old) (H.world host.new) }
{
    match command_of(alloc, words) {
        Ok(command) => run_command(alloc, &command, host),
        Err(CommandError::Usage) => Status::Usage,
        Err(CommandError::NoMemory) => Status::NoMemory,
    }
}

/// Does what a command asks for, where it is built.
fn run_command<H: Host>(alloc: Global, command: &Command, host: &mut H) -> Status
    requires side { HasSide command.now }
    ensures unbuilt { is_built command.now ≡ false
        → (result ≡ Status.Usage) × (H.world host.new ≡ H.world host.old) }
    ensures built { result ≡ Status.Usage → is_built command.now ≡ false }
    ensures play { command.now ≡ Command.Play []
        → DoesPlay result (H.world host.old) (H.world host.new) }
    ensures create { (side_kib : ℕ) → command.now ≡ Command.Create side_kib
        → DoesCreate side_kib result (H.world host.old) (H.world host.new) }
    ensures read_fault { result ≡ Status.ReadFault
        → TakeCountRose (H.world host.old) (H.world host.new) }
    ensures write_fault { result ≡ Status.WriteFault
        → SayCountRose (H.world host.old) (H.world host.new) }
{
    match command {
        Command::Create { side_kib } => create(host, *side_kib),
        Command::Play { choices } => {
            if choices.is_empty() {
                play(alloc, host)
            } else {
                Status::Usage
            }
        }
        Command::Check { .. } | Command::Generate { .. } => Status::Usage,
    }
}
