//! Lists that are being built.
ghost use Rattle.std.specs.Prelude.{◌≡◌, ◌<◌, [], ◌∷◌, ◌++◌, length, slice_get, IfOk, IfSome, IfNone, OnOk, OnErr, OnSome, ◌↔◌, IsTrue};
ghost use Rattle.std.specs.Option.{option_copied};
ghost use Rattle.odb_values.specs.Listed.{append, push, reserve, truncate};

use crate::{Duplicate, Frozen};
use std::alloc::{AllocError, Global};
use std::marker::Model;

/// A list that is being built: its items, and places that are reserved for more.
///
/// `reserve` is the step that may want memory, and `push` into a reserved place can't fail. A list
/// that is finished is a [`Frozen`].
#[derive(Debug, Drop)]
pub struct List<T> {
    items: Vec<T>,
    spare: usize,
}

impl<T> Model for List<T> {
    ghost use Rattle.std.specs.Prelude.{◌+◌, ◌≤◌, vec_len, vec_capacity};
    ghost use Rattle.odb_values.specs.Listed.{Listed, listed_code};

    ghost Value = { Listed T };

    ghost coded = { listed_code T.code };

    ghost view = { λ a. record { items = a.items.items; spare = a.spare } };

    ghost invariant = { λ a. vec_len a.items + a.spare ≤ vec_capacity a.items };
}

impl<T> List<T> {
    /// An empty list that keeps this allocator. It takes no memory.
    pub fn new(alloc: Global) -> List<T>
        ensures { result ≡ record { items = []; spare = 0 } }
    {
        List {
            items: Vec::new(alloc),
            spare: 0,
        }
    }

    /// The list of a vector's items, with no place reserved.
    pub fn from_vec(items: Vec<T>) -> List<T>
        ensures { result ≡ record { items = items.items; spare = 0 } }
    {
        List { items, spare: 0 }
    }

    /// The vector of the items.
    pub fn into_vec(self) -> Vec<T>
        ensures { result.items ≡ self.items }
    {
        let List { items, spare: _ } = self;
        items
    }

    /// Reserves one more place, with the allocator that the list keeps. The error is want of
    /// memory. A list that grows by one place at a time takes new memory only when it has doubled.
    pub fn reserve(&mut self) -> Result<(), AllocError>
        ensures ok { OnOk result (self.new ≡ reserve self.old) }
        ensures err { OnErr result (self.new ≡ self.old) }
    {
        let places = self.spare.checked_add(1).ok_or(AllocError)?;
        self.items.reserve(places)?;
        self.spare = places;
        Ok(())
    }

    /// How many places are reserved, which is how many times `push` may be called.
    pub fn spare(&self) -> usize
        ensures { result ≡ self.now.spare }
    {
        self.spare
    }

    /// Puts an item behind the last one, into a reserved place.
    pub fn push(&mut self, item: T)
        requires { 0 < self.old.spare }
        ensures { self.new ≡ push self.old item }
    {
        self.spare -= 1;
        self.items.push_reserved(item);
    }

    /// Takes the last item out, and leaves the reserved places as they are.
    pub fn pop(&mut self) -> Option<T>
        ensures some { IfSome result (λ last. self.old.items ≡ self.new.items ++ last ∷ []) }
        ensures none { IfNone result ((self.old.items ≡ []) × (self.new.items ≡ [])) }
        ensures spare { self.new.spare ≡ self.old.spare }
    {
        self.items.pop()
    }

    /// Puts items behind the last one, and leaves the reserved places as they are. The error is
    /// want of memory.
    pub fn append(&mut self, items: Frozen<T>) -> Result<(), AllocError>
    where
        T: Drop,
        ensures ok { OnOk result (self.new ≡ append self.old items) }
        ensures err { OnErr result (self.new ≡ self.old) }
    {
        let mut items = items.into_vec();
        let places = self.spare.checked_add(items.len()).ok_or(AllocError)?;
        self.items.reserve(places)?;
        self.items.append(&mut items)?;
        Ok(())
    }

    /// Keeps the first items, at most this many, and leaves the reserved places as they are.
    pub fn truncate(&mut self, len: usize)
    where
        T: Drop,
        ensures { self.new ≡ truncate self.old len }
    {
        self.items.truncate(len);
    }

    /// The items in their order.
    pub fn as_slice(&self) -> &[T]
        ensures { result.now ≡ self.now.items }
    {
        self.items.as_slice()
    }

    /// How many items the list has.
    pub fn len(&self) -> usize
        ensures { result ≡ length self.now.items }
    {
        self.items.len()
    }

    /// Whether the list has no item.
    pub fn is_empty(&self) -> bool
        ensures { IsTrue result ↔ (self.now.items ≡ []) }
    {
        self.items.is_empty()
    }

    /// The item at a place, counted from 0, or None behind the last one.
    pub fn get(&self, at: usize) -> Option<&T>
        ensures value { option_copied result ≡ slice_get self.now.items at }
        ensures within { OnSome result (at < length self.now.items) }
    {
        self.items.get(at)
    }
}

impl<T: Duplicate + Drop> List<T> {
    /// A list of copies of the items, with no place reserved. The error is want of memory.
    pub fn copy(&self, alloc: Global) -> Result<List<T>, AllocError>
        ensures { IfOk result (λ copy. copy ≡ record { items = self.now.items; spare = 0 }) }
    {
        Ok(Frozen::from_slice(alloc, self.as_slice())?.into_list())
    }
}
