//! What names stand for.

ghost use Rattle.std.specs.Prelude.{◌≡◌, ◌<◌, [], ◌∷◌, ◌++◌, length, take, Some, None, slice_get, OnOk};
ghost use Rattle.std.specs.Option.{option_copied};
ghost use Rattle.cxx_names.specs.Tables.{named, thing_at, with_name};

use agxx_base::{Memory, NameId};
use indexmap::IndexMap;
use std::alloc::Global;
use std::marker::Model;

/// What names stand for, in order of declaration. Of several things of one name the first counts. To find a name takes
/// the same time however many there are.
#[derive(Drop)]
pub struct Table<V> {
    entries: IndexMap<u32, V>,
}

impl<V> Model for Table<V> {
    ghost use Rattle.std.specs.Prelude.{List, ℕ};

    ghost Value = { List (ℕ × V) };

    ghost view = { λ table. table.entries.entries };
}

impl<V> Table<V> {
    /// No names, which takes no memory.
    pub fn new(alloc: Global) -> Table<V>
        ensures { result ≡ [] }
    {
        Table {
            entries: IndexMap::new(alloc),
        }
    }

    /// How many names there are.
    pub fn len(&self) -> usize
        ensures { result ≡ length self.now }
    {
        self.entries.len()
    }

    /// What a name stands for.
    pub fn find(&self, name: NameId) -> Option<&V>
        ensures { option_copied result ≡ named self.now name.0 }
    {
        self.entries.get(&name.0)
    }

    /// The name at an index, counted from 0 in order of declaration, and what it stands for.
    pub fn entry(&self, index: usize) -> (NameId, &V)
        requires { index < length self.now }
        ensures { slice_get self.now index ≡ Some (result.0.0, result.1.now) }
    {
        let (name, thing) = self.entries.get_index(index).unwrap();
        (NameId(*name), thing)
    }

    /// What the name at an index stands for, counted from 0 in order of declaration.
    pub fn at(&self, index: usize) -> Option<&V>
        ensures { option_copied result ≡ thing_at self.now index }
    {
        match self.entries.get_index(index) {
            None => None,
            Some((_, thing)) => Some(thing),
        }
    }
}

impl<V: Drop> Table<V> {
    /// Lets a name stand for a thing, if it stands for none.
    pub fn declare(&mut self, name: NameId, thing: V) -> Result<(), Memory>
        ensures { OnOk result (self.new ≡ with_name self.old name.0 thing) }
    {
        if self.find(name).is_none() {
            self.append(name, thing)?;
        }
        Ok(())
    }

    fn append(&mut self, name: NameId, thing: V) -> Result<(), Memory>
        requires { named self.old name.0 ≡ None }
        ensures { OnOk result (self.new ≡ self.old ++ (name.0, thing) ∷ []) }
    {
        self.entries.insert(name.0, thing)?;
        Ok(())
    }

    /// Keeps the names that were declared first.
    pub fn truncate(&mut self, len: usize)
        ensures { self.new ≡ take len self.old }
    {
        self.entries.truncate(len);
    }
}
