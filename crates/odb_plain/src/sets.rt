//! What refuses the SET of an UPDATE.
ghost use Rattle.std.specs.Prelude.{◌≡◌, map, option_map};
ghost use Rattle.std.specs.List.{list_any};
ghost use Rattle.odb_model.specs.Table.{is_named};
ghost use Rattle.odb_model.specs.Binding.{first_refusal, term_refusal, operands, is_sum, is_key_column, set_refusal, sets_refusal};
ghost use Rattle.odb_plain.specs.Kinds.{kind_in};
ghost use Rattle.odb_plain.specs.Earlier.{names_backward};

use crate::kind::{Kind, named_kind};
use crate::names::{column_refusal, term_refusal};
use crate::sums::is_sum;
use odb_catalog::{TableDef, is_named};
use odb_model::{Assignment, Expression, Reply, Term};
use odb_values::Text;

/// Whether the column of this name is in the primary key.
fn is_key_column(table: &TableDef, name: &Text) -> bool
    ensures { result ≡ is_key_column table.now name.now }
{
    match table.column_place(name) {
        Some(place) => table.place_in_key(place).is_some(),
        None => false,
    }
}

/// Whether one of these sets the column of this name.
fn is_some_of(sets: &[Assignment], name: &Text) -> bool
    ensures { result ≡ list_any (λ a. is_named name.now a.column) sets.now }
{
    sets.iter().any(|a| is_named(name, &a.column))
}

/// Whether the column of this name is set before, by these.
fn is_set_before(earlier: &[Assignment], name: &Text) -> bool
    ensures { result ≡ list_any (is_named name.now) (names_backward earlier.now) }
{
    is_some_of(earlier, name)
}

/// The first refusal of what follows the first operand of a value that is set.
fn terms_refusal(
    table: &TableDef,
    among_several: bool,
    kind: Option<Kind>,
    terms: &[Term],
) -> Option<Reply>
    ensures { result ≡ first_refusal
        (term_refusal table.now.columns among_several (option_map kind_in kind))
        (map (λ term. term.operand) terms.now) }
{
    for term in terms {
        if let Some(reply) = term_refusal(table, among_several, kind, &term.operand) {
            return Some(reply);
        }
    }
    None
}

/// The first refusal of a value that is set to a column of this kind.
fn value_refusal(table: &TableDef, kind: Option<Kind>, value: &Expression) -> Option<Reply>
    ensures { result ≡ first_refusal
        (term_refusal table.now.columns (is_sum value.now) (option_map kind_in kind))
        (operands value.now) }
{
    let among_several = is_sum(value);
    if let Some(reply) = term_refusal(table, among_several, kind, &value.first) {
        return Some(reply);
    }
    terms_refusal(table, among_several, kind, value.rest.as_slice())
}

/// The first refusal of an assignment, behind these.
fn set_refusal(table: &TableDef, earlier: &[Assignment], set: &Assignment) -> Option<Reply>
    ensures { result ≡ set_refusal table.now (names_backward earlier.now) set.now }
{
    if let Some(reply) = column_refusal(table, &set.column) {
        return Some(reply);
    }
    if is_key_column(table, &set.column) {
        return Some(Reply::KeyColumn);
    }
    if is_set_before(earlier, &set.column) {
        return Some(Reply::ColumnCount);
    }
    value_refusal(table, named_kind(table, &set.column), &set.value)
}

/// The first refusal of the assignments of an UPDATE. At the sixteenth at the latest a column is set
/// twice or isn't there, so no more are looked at.
pub(crate) fn sets_refusal(table: &TableDef, sets: &[Assignment]) -> Option<Reply>
    ensures { result ≡ sets_refusal table.now sets.now }
{
    for place in 0..sets.len() {
        if let Some(reply) = set_refusal(table, &sets[..place], &sets[place]) {
            return Some(reply);
        }
    }
    None
}
