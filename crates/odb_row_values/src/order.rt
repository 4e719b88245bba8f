//! Lines on texts, keys, their order, and ranges of them.
use crate::error::LineError;
use crate::parts::{answer, put};
use crate::values::{key_in, key_of, number_in, range_in, tuples_of, values_of};
use odb_rowfile::split_word;
use odb_values::{
    Duplicate, Key, Range, Text, Value, Values, ValuesError, cmp_key, cmp_value, cmp_values,
    is_keyed, is_text, width_of_all,
};
use std::alloc::{AllocError, Global};
use std::cmp::Ordering;

/// `text TEXT`: whether a text may be a value, which its test and its constructors agree on.
pub fn text_line(alloc: Global, out: &mut String, given: &str) -> Result<(), LineError> {
    let is_made = is_made(alloc, given)?;
    if is_made != is_copied(alloc, given)? || is_made != is_text(given) {
        return put(out, "the test and the constructors differ");
    }
    put(out, answer(is_made))
}

/// Whether a text is made of a string.
fn is_made(alloc: Global, given: &str) -> Result<bool, AllocError> {
    let string = String::from_str(alloc, given)?;
    Ok(is_text_of(Text::new(string), given))
}

/// Whether a text is copied from a slice.
fn is_copied(alloc: Global, given: &str) -> Result<bool, AllocError> {
    Ok(is_text_of(Text::from_str(alloc, given)?, given))
}

fn is_text_of(made: Option<Text>, given: &str) -> bool {
    match made {
        Some(text) => text.as_str() == given,
        None => false,
    }
}

/// `keyed VALUES`: how many bytes the key of these values has, or why there is none.
pub fn keyed_line(alloc: Global, out: &mut String, given: &str) -> Result<(), LineError> {
    let values = values_of(alloc, given)?;
    if !is_keyed(values.as_slice()) {
        return put(out, "no key");
    }
    match Key::new(values) {
        Ok(key) => tell_width(out, &key),
        Err(ValuesError::KeyTooWide) => put(out, "too wide"),
    }
}

fn tell_width(out: &mut String, key: &Key) -> Result<(), LineError> {
    let width = width_of_all(key.as_slice());
    Ok(write!(out, "{width} bytes")?)
}

/// `compare VALUES, VALUES`: how two tuples stand as keys, and as values and keys where they are
/// such.
pub fn compare_line(alloc: Global, out: &mut String, given: &str) -> Result<(), LineError> {
    let tuples = tuples_of(alloc, given)?;
    match tuples.as_slice() {
        [a, b] => tell_order(alloc, out, a, b),
        _ => Err(LineError::Unreadable("two tuples are wanted")),
    }
}

fn tell_order(alloc: Global, out: &mut String, a: &Values, b: &Values) -> Result<(), LineError> {
    let order = cmp_values(a.as_slice(), b.as_slice());
    if !are_ordered(a.as_slice(), b.as_slice(), order) || !keys_are_ordered(alloc, a, b, order)? {
        return put(out, "values, keys and tuples differ");
    }
    let word = match order {
        Ordering::Less => "less",
        Ordering::Equal => "equal",
        Ordering::Greater => "greater",
    };
    put(out, word)
}

/// Whether two tuples stand so, also as values where each is one value.
fn are_ordered(a: &[Value], b: &[Value], order: Ordering) -> bool {
    match (a, b) {
        ([x], [y]) => cmp_value(x, y) == order && cmp_values(a, b) == order,
        _ => cmp_values(a, b) == order,
    }
}

/// Whether two tuples stand so as keys, where both are keys.
fn keys_are_ordered(
    alloc: Global,
    a: &Values,
    b: &Values,
    order: Ordering,
) -> Result<bool, AllocError> {
    match key_in(a.copy(alloc)?) {
        Some(a) => is_ordered(alloc, &a, b, order),
        None => Ok(true),
    }
}

/// Whether a key stands so to a tuple, where that is a key.
fn is_ordered(alloc: Global, a: &Key, b: &Values, order: Ordering) -> Result<bool, AllocError> {
    match key_in(b.copy(alloc)?) {
        Some(b) => Ok(cmp_key(a, &b) == order),
        None => Ok(true),
    }
}

/// `ascending VALUES, ..`: whether each tuple is below those behind it and above those before it.
pub fn ascending_line(alloc: Global, out: &mut String, given: &str) -> Result<(), LineError> {
    let tuples = tuples_of(alloc, given)?;
    match misplaced(tuples.as_slice()) {
        Some((i, j)) => Ok(write!(out, "those at {i} and {j} stand otherwise")?),
        None => put(out, "yes"),
    }
}

/// The places of the first two tuples that stand otherwise than their places.
fn misplaced(tuples: &[Values]) -> Option<(usize, usize)> {
    for (i, a) in tuples.iter().enumerate() {
        for (j, b) in tuples.iter().enumerate() {
            if !are_ordered(a.as_slice(), b.as_slice(), i.cmp(&j)) {
                return Some((i, j));
            }
        }
    }
    None
}

/// `range RANGE has TABLE KEY`: whether a key of a table is in a range.
pub fn range_line(alloc: Global, out: &mut String, given: &str) -> Result<(), LineError> {
    let (range, rest) = range_in(alloc, given)?;
    tell_has(alloc, out, &range, rest)
}

/// `has TABLE KEY`, of a range.
fn tell_has(alloc: Global, out: &mut String, range: &Range, text: &str) -> Result<(), LineError> {
    let (word, rest) = split_word(text);
    if word != "has" {
        return Err(LineError::Unreadable("a range has a key, or not"));
    }
    let (table, rest) = number_in(rest)?;
    let key = key_of(alloc, rest)?;
    put(out, answer(range.contains(table, &key)))
}
