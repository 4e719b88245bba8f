//! Choices of files for databanks.
ghost use Rattle.std.specs.Prelude.{◌≡◌, List, map, IfOk, IfSome, IfNone, Err, Some};
ghost use Rattle.std.specs.List.{list_any};
ghost use Rattle.odb_command.specs.declared.choice.Choice.{Choice as Chosen};
ghost use Rattle.odb_command.specs.declared.error.CommandError.TheVariants.{Usage};
ghost use Rattle.odb_command.specs.Chosen.{IsSpelled, AreNumbers, banks_differ, is_of_bank, Spell, AreChoices};

use crate::CommandError;
use crate::number::number_in;
use odb_values::Frozen;
use std::alloc::Global;

/// A file that is taken in the place of a databank's master.
#[derive(Clone, Copy, Debug, PartialEq, Eq)]
pub struct Choice {
    /// The number of the databank.
    pub bank: u32,
    /// The number of the file.
    pub file: u32,
}

/// Choices, no two of one databank, in the order of the words.
pub type Choices = Frozen<Choice>;

/// The choice that a word spells.
fn choice_of(word: &str) -> Option<Choice>
    ensures found { IfSome result (IsSpelled word.now) }
    ensures none { IfNone result ((c : Chosen) → IsSpelled word.now c → ⊥) }
{
    match word.split_once('=') {
        Some(parts) => choice_from(parts.0, parts.1),
        None => None,
    }
}

/// The choice of which two words are the numbers.
fn choice_from(bank: &str, file: &str) -> Option<Choice>
    ensures found { IfSome result (AreNumbers bank.now file.now) }
    ensures none { IfNone result ((c : Chosen) → AreNumbers bank.now file.now c → ⊥) }
{
    match (number_in(bank, 0, u32::MAX), number_in(file, 0, u32::MAX)) {
        (Some(bank), Some(file)) => Some(Choice { bank, file }),
        _ => None,
    }
}

/// The choices that words spell, in their order.
///
/// `Usage` comes exactly where they don't, or where two choices are of one databank.
pub(crate) fn choices_of(alloc: Global, words: &[&str]) -> Result<Choices, CommandError>
    ensures found { IfOk result (AreChoices (Some (map (λ w. w.now) words.now))) }
    ensures usage { result ≡ Err Usage → (cs : List Chosen)
        → AreChoices (Some (map (λ w. w.now) words.now)) cs → ⊥ }
{
    let choices = spelled_by(alloc, words)?;
    if !banks_differ(choices.as_slice()) {
        return Err(CommandError::Usage);
    }
    Ok(choices)
}

/// The choices that words spell, whatever databanks they are of.
fn spelled_by(alloc: Global, words: &[&str]) -> Result<Choices, CommandError>
    ensures found { IfOk result (Spell (map (λ w. w.now) words.now)) }
    ensures usage { result ≡ Err Usage → (cs : List Chosen)
        → Spell (map (λ w. w.now) words.now) cs → ⊥ }
{
    let mut choices = Vec::with_capacity(alloc, words.len())?;
    for word in words {
        let Some(choice) = choice_of(word) else {
            return Err(CommandError::Usage);
        };
        choices.push(choice)?;
    }
    Ok(Frozen::from_vec(choices))
}

/// Whether no two choices are of one databank. It looks at each pair.
fn banks_differ(choices: &[Choice]) -> bool
    ensures { result ≡ banks_differ choices.now }
{
    match choices {
        [] => true,
        [first, rest @ ..] => !is_chosen(rest, first.bank) && banks_differ(rest),
    }
}

/// Whether a file is chosen for a databank.
fn is_chosen(choices: &[Choice], bank: u32) -> bool
    ensures { result ≡ list_any (is_of_bank bank) choices.now }
{
    choices.iter().any(|choice| choice.bank == bank)
}
