//! Words read by the command of `clap`.
ghost use Rattle.std.specs.Prelude.{◌≡◌, ◌≢◌, ℕ, List, map, string_bytes, codes, IfOk, IfSome, IfNone, Err};
ghost use Rattle.clap.specs.Words.{kind_of, rows_of, found_of, first_of, all_of, subcommand_rows_of};
ghost use Rattle.odb_command.specs.declared.choice.Choice.{Choice as Chosen};
ghost use Rattle.odb_command.specs.declared.command.Command.{Command as Asked};
ghost use Rattle.odb_command.specs.declared.error.CommandError.TheVariants.{Usage};
ghost use Rattle.odb_command.specs.Command.{IsCommand, AskForNone, IsMeant, IsMeantBy, IsNumber, IsFlag};
ghost use Rattle.odb_command.specs.Chosen.{AreChoices};

use crate::choice::{Choices, choices_of};
use crate::number::number_in;
use crate::words::optsql_words;
use crate::{Command, CommandError};
use clap::error::ErrorKind;
use clap::{ArgMatches, Error};
use odb_values::Frozen;
use std::alloc::Global;

/// What the words of the command line ask for, without the program's name.
///
/// `Usage` comes exactly where they ask for no command: where the command of `clap` refuses them,
/// as it does for help too, where a number isn't a decimal without a leading zero in its range,
/// where a choice isn't two decimals below 2^32 joined by `=`, or where two choices are of one
/// databank. `NoMemory` may come in the place of any answer.
pub fn command_of(alloc: Global, words: &[String]) -> Result<Command, CommandError>
    ensures asked { IfOk result (IsCommand (map string_bytes words.now)) }
    ensures usage { result ≡ Err Usage → AskForNone (map string_bytes words.now) }
{
    match optsql_words(alloc)?.try_get_matches_from(words) {
        Ok(matches) => meant_by(alloc, &matches),
        Err(error) => Err(refusal_by(&error)),
    }
}

/// Why `clap` refused the words: want of memory, or any other cause.
fn refusal_by(error: &Error) -> CommandError
    ensures { result ≡ Usage → kind_of error.now ≢ ErrorKind.OutOfMemory }
{
    if error.kind() == ErrorKind::OutOfMemory {
        CommandError::NoMemory
    } else {
        CommandError::Usage
    }
}

/// What the matches of the whole command ask for.
fn meant_by(alloc: Global, matches: &ArgMatches) -> Result<Command, CommandError>
    ensures asked { IfOk result (IsMeantBy (subcommand_rows_of matches.now)) }
    ensures usage { result ≡ Err Usage
        → (c : Asked) → IsMeantBy (subcommand_rows_of matches.now) c → ⊥ }
{
    match matches.subcommand() {
        Some((name, entered)) => meant(alloc, name, entered),
        None => Err(CommandError::Usage),
    }
}

/// What a subcommand's matches ask for.
fn meant(alloc: Global, name: &str, matches: &ArgMatches) -> Result<Command, CommandError>
    ensures asked { IfOk result (IsMeant name.now (rows_of (found_of matches.now))) }
    ensures usage { result ≡ Err Usage
        → (c : Asked) → IsMeant name.now (rows_of (found_of matches.now)) c → ⊥ }
{
    if name == "create" {
        return create_meant(matches);
    }
    if name == "play" {
        return play_meant(alloc, matches);
    }
    if name == "check" {
        return check_meant(alloc, matches);
    }
    if name == "generate" {
        return generate_meant(matches);
    }
    Err(CommandError::Usage)
}

fn create_meant(matches: &ArgMatches) -> Result<Command, CommandError>
    ensures asked { IfOk result (IsMeant (codes "create") (rows_of (found_of matches.now))) }
    ensures usage { result ≡ Err Usage
        → (c : Asked) → IsMeant (codes "create") (rows_of (found_of matches.now)) c → ⊥ }
{
    match number_of(matches, "side", 64, 16_384) {
        Some(side_kib) => Ok(Command::Create { side_kib }),
        None => Err(CommandError::Usage),
    }
}

fn play_meant(alloc: Global, matches: &ArgMatches) -> Result<Command, CommandError>
    ensures asked { IfOk result (IsMeant (codes "play") (rows_of (found_of matches.now))) }
    ensures usage { result ≡ Err Usage
        → (c : Asked) → IsMeant (codes "play") (rows_of (found_of matches.now)) c → ⊥ }
{
    let choices = choices_in(alloc, matches)?;
    Ok(Command::Play { choices })
}

fn check_meant(alloc: Global, matches: &ArgMatches) -> Result<Command, CommandError>
    ensures asked { IfOk result (IsMeant (codes "check") (rows_of (found_of matches.now))) }
    ensures usage { result ≡ Err Usage
        → (c : Asked) → IsMeant (codes "check") (rows_of (found_of matches.now)) c → ⊥ }
{
    let with_rows = is_given(matches, "rows");
    let choices = choices_in(alloc, matches)?;
    Ok(Command::Check { with_rows, choices })
}

fn generate_meant(matches: &ArgMatches) -> Result<Command, CommandError>
    ensures asked { IfOk result (IsMeant (codes "generate") (rows_of (found_of matches.now))) }
    ensures usage { result ≡ Err Usage
        → (c : Asked) → IsMeant (codes "generate") (rows_of (found_of matches.now)) c → ⊥ }
{
    match number_of(matches, "rounds", 1, 100_000) {
        Some(rounds) => Ok(Command::Generate { rounds }),
        None => Err(CommandError::Usage),
    }
}

/// The number that is given for an argument, where it lies in a range.
fn number_of(matches: &ArgMatches, id: &str, least: u32, most: u32) -> Option<u32>
    ensures found { IfSome result
        (IsNumber least most (first_of id.now (rows_of (found_of matches.now)))) }
    ensures none { IfNone result ((n : ℕ)
        → IsNumber least most (first_of id.now (rows_of (found_of matches.now))) n → ⊥) }
{
    match matches.get_str(id) {
        Some(word) => number_in(word, least, most),
        None => None,
    }
}

/// Whether a flag is given.
fn is_given(matches: &ArgMatches, id: &str) -> bool
    ensures { IsFlag (first_of id.now (rows_of (found_of matches.now))) result }
{
    match matches.get_str(id) {
        Some(value) => value == "true",
        None => false,
    }
}

/// The choices that are given.
fn choices_in(alloc: Global, matches: &ArgMatches) -> Result<Choices, CommandError>
    ensures found { IfOk result
        (AreChoices (all_of (codes "choice") (rows_of (found_of matches.now)))) }
    ensures usage { result ≡ Err Usage → (cs : List Chosen)
        → AreChoices (all_of (codes "choice") (rows_of (found_of matches.now))) cs → ⊥ }
{
    match matches.get_strs("choice") {
        Some(words) => choices_of(alloc, words),
        None => Ok(Frozen::empty(alloc)),
    }
}
