//! A list that contracts see as the list of its items.
#![tactic(auto)]

ghost use Rattle.std.specs.Prelude.{◌≡◌, ◌<◌, ◌++◌, ◌∷◌, [], length, slice_get, is_ok, if◌then◌else◌, Some};
ghost use Rattle.std.specs.Borrow.{sem};

use std::alloc::{AllocError, AllocFailed, Global};
use std::marker::Model;

/// A list of items, which a contract sees as that list.
#[derive(Drop)]
pub struct List<T> {
    items: Vec<T>,
}

impl<T> Model for List<T> {
    ghost use Rattle.std.specs.Prelude.{List};

    ghost Value = { List T };

    ghost view = { λ s. s.items.items };
}

impl<T> List<T> {
    ghost use Rattle.ta_base.specs.Lending.{lends_item};

    /// The list of a vector's items. It takes no memory.
    pub fn from_vec(items: Vec<T>) -> List<T>
        ensures { result ≡ items.items }
    {
        List { items }
    }

    /// The items.
    pub fn as_slice(&self) -> &[T]
        ensures { result.now ≡ self.now }
    {
        self.items.as_slice()
    }

    /// The items as a vector. It takes no memory.
    pub fn into_vec(self) -> Vec<T>
        ensures { result.items ≡ self }
    {
        self.items
    }

    /// An item, to be changed.
    pub fn item_mut(&mut self, index: usize) -> &mut T
        requires { index < length self.old }
        ensures value { slice_get self.old index ≡ Some result.now }
        ensures* writes_back { sem 𝓛 (lends_item T.row self.entry index result) }
    {
        &mut self.items[index]
    }

    /// Adds an item at the end; without memory the items stay.
    pub fn push(&mut self, item: T) -> Result<(), AllocFailed<T>>
        ensures { self.new ≡ (if is_ok result then self.old ++ item ∷ [] else self.old) }
    {
        self.items.push(item)
    }

    /// The allocator of the items.
    pub fn allocator(&self) -> Global {
        *self.items.allocator()
    }

    /// A list without items. It takes no memory.
    pub fn empty(alloc: Global) -> List<T>
        ensures { result ≡ [] }
    {
        List {
            items: Vec::new(alloc),
        }
    }

    /// Adds copies of items at the end; without memory the items stay.
    pub fn extend(&mut self, items: &[T]) -> Result<(), AllocError>
    where
        T: Copy,
        ensures { self.new ≡ (if is_ok result then self.old ++ items.now else self.old) }
    {
        self.items.extend_from_slice(items)
    }

    /// Takes all items away.
    pub fn clear(&mut self)
    where
        T: Drop,
        ensures { self.new ≡ [] }
    {
        self.items.clear();
    }
}
