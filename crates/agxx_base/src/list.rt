//! A list that contracts see as the list of its items.

ghost use Rattle.std.specs.Prelude.{◌≡◌, [], ◌∷◌, ◌++◌, ◌<◌, Some, length, slice_get, OnOk, OnErr};

use crate::{Memory, Text};
use std::alloc::Global;
use std::marker::Model;

/// A list of items in order, to which items are appended.
#[derive(Debug, Drop)]
pub struct ListOf<T> {
    items: Vec<T>,
}

/// The words of a command line, without the program's name.
pub type Words = ListOf<Text>;

impl<T> Model for ListOf<T> {
    ghost use Rattle.std.specs.Prelude.{List};
    ghost use Rattle.std.specs.Coded.{coded_list};

    ghost Value = { List T };

    ghost coded = { coded_list T.code };

    ghost view = { λ list. list.items.items };
}

impl<T> ListOf<T> {
    /// The empty list, which takes no memory.
    pub fn new(alloc: Global) -> ListOf<T>
        ensures { result ≡ [] }
    {
        ListOf {
            items: Vec::new(alloc),
        }
    }

    /// The items of a `Vec`, which takes no memory.
    pub fn from_vec(items: Vec<T>) -> ListOf<T>
        ensures { result ≡ items.items }
    {
        ListOf { items }
    }

    /// How many items there are.
    pub fn len(&self) -> usize
        ensures { result ≡ length self.now }
    {
        self.items.len()
    }

    /// Lends all items in order.
    pub fn as_slice(&self) -> &[T]
        ensures { result.now ≡ self.now }
    {
        self.items.as_slice()
    }

    /// Lends the item at an index, counted from 0.
    pub fn item(&self, index: usize) -> &T
        requires { index < length self.now }
        ensures { slice_get self.now index ≡ Some result.now }
    {
        &self.items[index]
    }
}

impl<T: Drop> ListOf<T> {
    /// Appends an item. Without memory the list stays as it was, and the item is dropped.
    pub fn push(&mut self, item: T) -> Result<(), Memory>
        ensures ok { OnOk result (self.new ≡ self.old ++ item ∷ []) }
        ensures err { OnErr result (self.new ≡ self.old) }
    {
        self.items.push(item)?;
        Ok(())
    }
}
