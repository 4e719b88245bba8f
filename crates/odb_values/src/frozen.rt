//! Lists at rest.
ghost use Rattle.std.specs.Prelude.{◌≡◌, ◌↔◌, [], length, IfOk, IsTrue};

use crate::same::same_items;
use crate::{Duplicate, List, Same};
use std::alloc::{AllocError, Global};
use std::marker::Model;

/// A list at rest, which contracts see as its items alone.
///
/// Plural names, as [`crate::Values`], are lists at rest. One is built as a [`List`] first.
#[derive(Clone, Debug, Drop)]
pub struct Frozen<T> {
    items: Vec<T>,
}

/// Bytes at rest.
pub type Bytes = Frozen<u8>;

impl<T> Model for Frozen<T> {
    ghost use Rattle.std.specs.Prelude.{List};
    ghost use Rattle.std.specs.Coded.{coded_list};

    ghost Value = { List T };

    ghost coded = { coded_list T.code };

    ghost view = { λ a. a.items.items };
}

impl<T> Frozen<T> {
    /// The items of a list that is built; its reserved places are given up.
    pub fn new(list: List<T>) -> Frozen<T>
        ensures { result ≡ list.items }
    {
        Frozen {
            items: list.into_vec(),
        }
    }

    /// The list of no item. It takes no memory.
    pub fn empty(alloc: Global) -> Frozen<T>
        ensures { result ≡ [] }
    {
        Frozen {
            items: Vec::new(alloc),
        }
    }

    /// The items of a vector.
    pub fn from_vec(items: Vec<T>) -> Frozen<T>
        ensures { result ≡ items.items }
    {
        Frozen { items }
    }

    /// The vector of the items.
    pub fn into_vec(self) -> Vec<T>
        ensures { result.items ≡ self }
    {
        let Frozen { items } = self;
        items
    }

    /// The same items as a list to be built on, with no place reserved.
    pub fn into_list(self) -> List<T>
        ensures { result ≡ record { items = self; spare = 0 } }
    {
        let Frozen { items } = self;
        List::from_vec(items)
    }

    /// The items in their order.
    pub fn as_slice(&self) -> &[T]
        ensures { result.now ≡ self.now }
    {
        self.items.as_slice()
    }

    /// How many items the list has.
    pub fn len(&self) -> usize
        ensures { result ≡ length self.now }
    {
        self.items.len()
    }

    /// Whether the list has no item.
    pub fn is_empty(&self) -> bool
        ensures { IsTrue result ↔ (self.now ≡ []) }
    {
        self.items.is_empty()
    }
}

impl<T: Duplicate + Drop> Frozen<T> {
    /// A list of copies of these items. The error is want of memory.
    pub fn from_slice(alloc: Global, items: &[T]) -> Result<Frozen<T>, AllocError>
        ensures { IfOk result (λ copy. copy ≡ items.now) }
    {
        let mut copies = Vec::with_capacity(alloc, items.len())?;
        for item in items {
            copies.push(item.copy(alloc)?)?;
        }
        Ok(Frozen { items: copies })
    }
}

impl<T: Duplicate + Drop> Duplicate for Frozen<T> {
    fn copy(&self, alloc: Global) -> Result<Frozen<T>, AllocError> {
        Frozen::from_slice(alloc, self.as_slice())
    }
}

impl<T: Same> Same for Frozen<T> {
    fn same(&self, other: &Frozen<T>) -> bool {
        same_items(self.as_slice(), other.as_slice())
    }
}
