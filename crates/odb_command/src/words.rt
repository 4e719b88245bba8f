//! The command of `clap` that reads the words.
ghost use Rattle.std.specs.Prelude.{◌≡◌, IfOk, false};
ghost use Rattle.clap.specs.Words.{app_of, shape_of, rule_of};
ghost use Rattle.clap.specs.declared.builder.command.Command.TheViews.{out-Command as fields_of};
ghost use Rattle.odb_command.specs.Words.{optsql_words, bare_words, create_words, play_words, check_words, generate_words, choices_taken};

use clap::{Arg, ArgAction, Command};
use std::alloc::{AllocError, Global};

/// The command with its subcommands: `create [--side N]`, `play [CHOICE..]`, `check [--rows]
/// [CHOICE..]` and `generate ROUNDS`. The error is want of memory.
pub(crate) fn optsql_words<'a>(alloc: Global) -> Result<Command<'a>, AllocError>
    ensures { IfOk result (λ c. app_of c ≡ optsql_words) }
{
    bare_words(alloc)
        .subcommand(create_words(alloc)?)?
        .subcommand(play_words(alloc)?)?
        .subcommand(check_words(alloc)?)?
        .subcommand(generate_words(alloc)?)
}

/// The command without its subcommands.
fn bare_words<'a>(alloc: Global) -> Command<'a>
    ensures shape { app_of result ≡ bare_words }
    ensures local { (fields_of result).has_globals ≡ false }
{
    Command::new(alloc, "optsql")
        .no_binary_name(true)
        .subcommand_required(true)
}

fn create_words<'a>(alloc: Global) -> Result<Command<'a>, AllocError>
    ensures shape { IfOk result (λ c. shape_of c ≡ create_words) }
    ensures local { IfOk result (λ c. (fields_of c).has_globals ≡ false) }
{
    let side = Arg::new(alloc, "side").long("side").default_value("16384");
    Command::new(alloc, "create").arg(side)
}

fn play_words<'a>(alloc: Global) -> Result<Command<'a>, AllocError>
    ensures shape { IfOk result (λ c. shape_of c ≡ play_words) }
    ensures local { IfOk result (λ c. (fields_of c).has_globals ≡ false) }
{
    Command::new(alloc, "play").arg(choices_taken(alloc))
}

fn check_words<'a>(alloc: Global) -> Result<Command<'a>, AllocError>
    ensures shape { IfOk result (λ c. shape_of c ≡ check_words) }
    ensures local { IfOk result (λ c. (fields_of c).has_globals ≡ false) }
{
    let rows = Arg::new(alloc, "rows")
        .long("rows")
        .action(ArgAction::SetTrue);
    Command::new(alloc, "check")
        .arg(rows)?
        .arg(choices_taken(alloc))
}

fn generate_words<'a>(alloc: Global) -> Result<Command<'a>, AllocError>
    ensures shape { IfOk result (λ c. shape_of c ≡ generate_words) }
    ensures local { IfOk result (λ c. (fields_of c).has_globals ≡ false) }
{
    let rounds = Arg::new(alloc, "rounds").required(true);
    Command::new(alloc, "generate").arg(rounds)
}

/// The last positional, for any number of choices.
fn choices_taken<'a>(alloc: Global) -> Arg<'a>
    ensures rule { rule_of result ≡ choices_taken }
    ensures local { result.global ≡ false }
{
    Arg::new(alloc, "choice").num_args(0..)
}
