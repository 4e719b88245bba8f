//! What refuses names and operands.
ghost use Rattle.std.specs.Prelude.{◌≡◌, option_map};
ghost use Rattle.std.specs.Option.{option_or};
ghost use Rattle.odb_model.specs.Binding.{refuse_if, first_refusal, column_refusal, operand_refusal, test_refusal, term_refusal};
ghost use Rattle.odb_plain.specs.Kinds.{kind_in};

use crate::kind::{Kind, differ, is_words, operand_kind};
use odb_catalog::TableDef;
use odb_model::{Operand, Reply};
use odb_values::Text;

/// A refusal where this is so.
pub(crate) fn refuse_if(refuses: bool, reply: Reply) -> Option<Reply>
    ensures { result ≡ refuse_if refuses reply }
{
    if refuses { Some(reply) } else { None }
}

/// The first of two refusals.
pub(crate) fn earlier(first: Option<Reply>, later: Option<Reply>) -> Option<Reply>
    ensures { result ≡ option_or first later }
{
    match first {
        Some(reply) => Some(reply),
        None => later,
    }
}

/// There has to be a column of this name.
pub(crate) fn column_refusal(table: &TableDef, name: &Text) -> Option<Reply>
    ensures { result ≡ column_refusal table.now.columns name.now }
{
    match table.column_place(name) {
        Some(_) => None,
        None => Some(Reply::NoColumn),
    }
}

/// There has to be a column of each of these names.
pub(crate) fn columns_refusal(table: &TableDef, names: &[Text]) -> Option<Reply>
    ensures { result ≡ first_refusal (column_refusal table.now.columns) names.now }
{
    for name in names {
        if let Some(reply) = column_refusal(table, name) {
            return Some(reply);
        }
    }
    None
}

/// The column of an operand has to be there.
fn operand_refusal(table: &TableDef, operand: &Operand) -> Option<Reply>
    ensures { result ≡ operand_refusal table.now.columns operand.now }
{
    match operand {
        Operand::Column(name) => column_refusal(table, name),
        Operand::Literal(_) => None,
    }
}

/// A comparison is judged after both its sides.
pub(crate) fn test_refusal(table: &TableDef, left: &Operand, right: &Operand) -> Option<Reply>
    ensures { result ≡ test_refusal table.now.columns left.now right.now }
{
    let mixed = differ(operand_kind(table, left), operand_kind(table, right));
    let mixing = refuse_if(mixed, Reply::KindMismatch);
    let later = earlier(operand_refusal(table, right), mixing);
    earlier(operand_refusal(table, left), later)
}

/// An operand of a value that is set: its column has to be there, in a sum of several operands it
/// is no text, and it is of the kind of the column that is set.
pub(crate) fn term_refusal(
    table: &TableDef,
    among_several: bool,
    kind: Option<Kind>,
    operand: &Operand,
) -> Option<Reply>
    ensures { result ≡ term_refusal table.now.columns among_several
        (option_map kind_in kind) operand.now }
{
    if let Some(reply) = operand_refusal(table, operand) {
        return Some(reply);
    }
    let of_operand = operand_kind(table, operand);
    if among_several && is_words(of_operand) {
        return Some(Reply::KindMismatch);
    }
    refuse_if(differ(kind, of_operand), Reply::KindMismatch)
}
