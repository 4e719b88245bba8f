//! Operands whose names are bound to places.
ghost use Rattle.std.specs.Prelude.{◌≡◌, IfOk, unwrap_or};
ghost use Rattle.std.specs.Option.{option_copied};
ghost use Rattle.odb_values.specs.declared.value.Value.TheVariants.{Null};
ghost use Rattle.odb_eval.specs.Bound.{source_value, place_source, column_source, operand_source, IsColumnOf, IsOperandOf};

use odb_catalog::TableDef;
use odb_model::Operand;
use odb_values::{Duplicate, Text, Value};
use std::alloc::{AllocError, Global};

/// Where the value of an operand lies.
#[derive(Debug, Drop)]
pub enum Source {
    /// At this place of the key, from 0.
    InKey(usize),
    /// At this place of the row, from 0.
    InRow(usize),
    /// It is this value.
    Literal(Value),
}

impl Source {
    /// Where the values of the column at a place of the table lie.
    pub fn of_place(table: &TableDef, place: u32) -> Source
        ensures { result ≡ place_source table.now place }
    {
        match table.place_in_key(place) {
            Some(at) => Source::InKey(at),
            None => match table.place_in_row(place) {
                Some(at) => Source::InRow(at),
                None => Source::Literal(Value::Null),
            },
        }
    }

    /// Where the values of the column of this name lie. Where there is no such column, its value is
    /// Null.
    pub fn of_column(table: &TableDef, name: &Text) -> Source
        ensures source { result ≡ column_source table.now name.now }
        ensures column { IsColumnOf table.now name.now result }
    {
        column_source(table, name)
    }

    /// Where the values of an operand lie. It takes memory for a literal text; the error is want of
    /// it.
    pub fn of(alloc: Global, table: &TableDef, operand: &Operand) -> Result<Source, AllocError>
        ensures { IfOk result (IsOperandOf table.now operand.now) }
    {
        operand_source(alloc, table, operand)
    }

    /// The value, from a key and a row; None stands for Null where a place is behind the last one.
    pub fn value<'a>(&'a self, key: &'a [Value], row: &'a [Value]) -> Option<&'a Value>
        ensures { unwrap_or (option_copied result) Null ≡ source_value key.now row.now self.now }
    {
        match self {
            Source::InKey(place) => key.get(*place),
            Source::InRow(place) => row.get(*place),
            Source::Literal(value) => Some(value),
        }
    }
}

/// Where the values of the column of this name lie.
fn column_source(table: &TableDef, name: &Text) -> Source
    ensures { result ≡ column_source table.now name.now }
{
    match table.column_place(name) {
        Some(place) => Source::of_place(table, place),
        None => Source::Literal(Value::Null),
    }
}

/// Where the values of an operand lie. The error is want of memory.
pub(crate) fn operand_source(
    alloc: Global,
    table: &TableDef,
    operand: &Operand,
) -> Result<Source, AllocError>
    ensures { IfOk result (λ source. source ≡ operand_source table.now operand.now) }
{
    match operand {
        Operand::Column(name) => Ok(Source::of_column(table, name)),
        Operand::Literal(value) => Ok(Source::Literal(value.copy(alloc)?)),
    }
}
