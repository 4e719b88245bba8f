//! Lists and copies at concrete types.
use odb_values::{Duplicate, Frozen, Key, List, Row, Same, Text, Value, Values, is_keyed};
use std::alloc::{AllocError, Global};
use std::test::Fail;

fn text(alloc: Global, text: &str) -> Result<Text, Fail> {
    Ok(Text::from_str(alloc, text)?.ok_or("no text")?)
}

/// A list at rest of these numbers.
fn numbers(alloc: Global, items: &[i64]) -> Result<Values, AllocError> {
    let mut list = List::new(alloc);
    for item in items {
        list.reserve()?;
        list.push(Value::Int(*item));
    }
    Ok(Frozen::new(list))
}

/// The key of these numbers.
fn key(alloc: Global, items: &[i64]) -> Result<Key, Fail> {
    let values = numbers(alloc, items)?;
    if is_keyed(values.as_slice()) {
        Ok(Key::new(values)?)
    } else {
        Err(Fail::new("no key"))
    }
}

fn is_copied<T: Duplicate + Same + Drop>(alloc: Global, value: &T) -> bool {
    match value.copy(alloc) {
        Ok(copy) => value.same(&copy),
        Err(_) => false,
    }
}

/// Whether a list has a Null at its third place.
fn has_null(list: &List<Value>) -> bool {
    list.get(2).is_some_and(|value| value.is_null())
}

#[test]
fn lists_grow_and_rest(rt: HostRuntime) -> Result<(), Fail> {
    let mut list = numbers(rt.alloc(), &[1, 2])?.into_list();
    list.reserve()?;
    assert_eq!(rt; list.spare(), 1);
    list.push(Value::Null);
    let copy = list.copy(rt.alloc())?;
    let found = [
        has_null(&list),
        copy.len() == 3,
        list.pop().is_some_and(|value| value.is_null()),
        list.into_vec().len() == 2,
    ];
    assert_eq!(rt; found, [true; 4]);
    Ok(())
}

#[test]
fn copies_are_the_same(rt: HostRuntime) -> Result<(), Fail> {
    let alloc = rt.alloc();
    let key = key(alloc, &[1, 2])?;
    let row = Row::new(numbers(alloc, &[4])?);
    let value = Value::Text(text(alloc, "word")?);
    let found = [
        is_copied(alloc, &value),
        is_copied(alloc, &key),
        is_copied(alloc, &row),
        key.into_values().len() == 2,
        Row::new(Frozen::empty(alloc)).into_values().is_empty(),
        matches!(Some(Value::Int(5)).copy(alloc), Ok(Some(Value::Int(5)))),
    ];
    assert_eq!(rt; found, [true; 6]);
    Ok(())
}
