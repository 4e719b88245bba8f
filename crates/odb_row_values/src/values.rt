//! Values, keys and ranges: as a line writes them, and as they are told.
use crate::calls::parsed;
use crate::error::LineError;
use odb_model::{Statement, ValueRows};
use odb_parse::ParseError;
use odb_rowfile::{number_of, split_word};
use odb_values::{Duplicate, Edge, Frozen, Key, Range, Value, Values, is_keyed};
use std::alloc::{AllocError, Global};

/// The tuples of values that a text has between parentheses, as an INSERT has them.
pub fn tuples_of(alloc: Global, text: &str) -> Result<ValueRows, LineError> {
    let statement = format!(in alloc; "INSERT INTO T VALUES {text}")?;
    match parsed(alloc, statement.as_bytes()) {
        Ok(statement) => tuples_in(alloc, &statement),
        Err(ParseError::NoMemory) => Err(LineError::Memory(AllocError)),
        Err(_) => Err(LineError::Unreadable(NO_TUPLES)),
    }
}

const NO_TUPLES: &str = "these are no tuples of values";

/// A copy of the tuples of an INSERT.
fn tuples_in(alloc: Global, statement: &Statement) -> Result<ValueRows, LineError> {
    match statement {
        Statement::Insert { table: _, tuples } => Ok(tuples.copy(alloc)?),
        _ => Err(LineError::Unreadable(NO_TUPLES)),
    }
}

/// The values of one tuple: `(1,NULL,'a')`, or `()` for none.
pub fn values_of(alloc: Global, text: &str) -> Result<Values, LineError> {
    if text == "()" {
        return Ok(Frozen::empty(alloc));
    }
    match only_of(tuples_of(alloc, text)?.into_vec()) {
        Some(only) => Ok(only),
        None => Err(LineError::Unreadable("this isn't one tuple of values")),
    }
}

/// The only item of a list, or None where it has none or several.
fn only_of<T: Drop>(items: Vec<T>) -> Option<T> {
    let mut items = items;
    let last = items.pop();
    if items.is_empty() { last } else { None }
}

/// The key of a tuple of values.
pub fn key_of(alloc: Global, text: &str) -> Result<Key, LineError> {
    match key_in(values_of(alloc, text)?) {
        Some(key) => Ok(key),
        None => Err(LineError::Unreadable("these values are no key")),
    }
}

/// The key of these values, or None where they are none.
pub(crate) fn key_in(values: Values) -> Option<Key> {
    if is_keyed(values.as_slice()) {
        Key::new(values).ok()
    } else {
        None
    }
}

/// The number at the front of a text, and the rest.
pub fn number_in(text: &str) -> Result<(u32, &str), LineError> {
    let (word, rest) = split_word(text);
    match number_of(word).and_then(|number| u32::try_from(number).ok()) {
        Some(number) => Ok((number, rest)),
        None => Err(LineError::Unreadable("a number is wanted")),
    }
}

/// The range at the front of a text, and the rest: `5 (1) >=3 <7`, where `*` is a free edge.
pub fn range_in(alloc: Global, text: &str) -> Result<(Range, &str), LineError> {
    let (table, rest) = number_in(text)?;
    let (prefix, rest) = split_word(rest);
    let (low, rest) = split_word(rest);
    let (high, rest) = split_word(rest);
    let prefix = values_of(alloc, prefix)?;
    let (low, high) = edges_of(alloc, low, high)?;
    let range = Range {
        table,
        prefix,
        low,
        high,
    };
    Ok((range, rest))
}

/// The low and the high edge of a range.
fn edges_of(alloc: Global, low: &str, high: &str) -> Result<(Edge, Edge), LineError> {
    let low = edge_of(alloc, ">", low)?;
    let high = edge_of(alloc, "<", high)?;
    Ok((low, high))
}

/// The edge of a text behind its sign: `>=3` is closed, `>3` is beyond 3, `*` is free.
fn edge_of(alloc: Global, sign: &str, text: &str) -> Result<Edge, LineError> {
    if text == "*" {
        return Ok(Edge::Free);
    }
    let Some(bound) = text.strip_prefix(sign) else {
        return Err(LineError::Unreadable("an edge of a range is wanted"));
    };
    match bound.strip_prefix("=") {
        Some(value) => Ok(Edge::Closed(value_of(alloc, value)?)),
        None => Ok(Edge::Beyond(value_of(alloc, bound)?)),
    }
}

/// The value that a text spells.
fn value_of(alloc: Global, text: &str) -> Result<Value, LineError> {
    let tuple = format!(in alloc; "({text})")?;
    match only_of(values_of(alloc, tuple.as_str())?.into_vec()) {
        Some(only) => Ok(only),
        None => Err(LineError::Unreadable("one value is wanted")),
    }
}

/// Tells a value: `null`, `-1`, `"it's"`.
pub fn tell_value(out: &mut String, value: &Value) -> Result<(), AllocError> {
    match value {
        Value::Null => out.push_str("null"),
        Value::Int(number) => write!(out, "{number}"),
        Value::Text(text) => {
            out.push_str("\"")?;
            out.push_str(text.as_str())?;
            out.push_str("\"")
        }
    }
}

/// Tells values, with some words before each.
pub(crate) fn tell_listed(
    out: &mut String,
    words: &str,
    values: &[Value],
) -> Result<(), AllocError> {
    for value in values {
        out.push_str(words)?;
        tell_value(out, value)?;
    }
    Ok(())
}

/// Tells a tuple of values: `(1,null,"a")`.
pub fn tell_tuple(out: &mut String, values: &[Value]) -> Result<(), AllocError> {
    out.push_str("(")?;
    match values {
        [] => {}
        [first, rest @ ..] => {
            tell_value(out, first)?;
            tell_listed(out, ",", rest)?;
        }
    }
    out.push_str(")")
}
