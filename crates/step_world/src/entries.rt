//! Things by numbers.

ghost use Rattle.std.specs.Prelude.{◌≡◌, [], ◌∷◌, ◌++◌, None, OnOk, OnErr, ◌↔◌, IsTrue};
ghost use Rattle.std.specs.Option.{option_copied};
ghost use Rattle.step_machine.specs.Entries.{entry, with_entry, without_entry};

use agxx_base::Memory;
use indexmap::IndexMap;
use std::alloc::Global;
use std::marker::Model;

/// Things by numbers, in the order in which the numbers were new. To find one takes the same time however many there
/// are.
#[derive(Drop)]
pub struct Entries<V> {
    entries: IndexMap<u32, V>,
}

impl<V> Model for Entries<V> {
    ghost use Rattle.std.specs.Prelude.{List, ℕ};

    ghost Value = { List (ℕ × V) };

    ghost view = { λ map. map.entries.entries };
}

impl<V> Entries<V> {
    /// Nothing yet, which takes no memory.
    pub fn new(alloc: Global) -> Entries<V>
        ensures { result ≡ [] }
    {
        Entries {
            entries: IndexMap::new(alloc),
        }
    }

    /// Whether no number stands for anything.
    pub fn is_empty(&self) -> bool
        ensures { IsTrue result ↔ (self.now ≡ []) }
    {
        self.entries.is_empty()
    }

    /// What a number stands for.
    pub fn get(&self, key: u32) -> Option<&V>
        ensures { option_copied result ≡ entry self.now key }
    {
        self.entries.get(&key)
    }
}

impl<V: Drop> Entries<V> {
    /// Lets a number stand for a thing. One that is new goes to the end.
    #[tactic(auto, using(crate::proofs::Inserted::inserted))]
    pub fn set(&mut self, key: u32, thing: V) -> Result<(), Memory>
        ensures ok { OnOk result (self.new ≡ with_entry self.old key thing) }
        ensures err { OnErr result (self.new ≡ self.old) }
    {
        self.entries.insert(key, thing)?;
        Ok(())
    }

    /// Lets a number that stands for nothing stand for a thing.
    #[tactic(auto, using(crate::proofs::Inserted::appended))]
    pub fn append(&mut self, key: u32, thing: V) -> Result<(), Memory>
        requires { entry self.old key ≡ None }
        ensures ok { OnOk result (self.new ≡ self.old ++ (key, thing) ∷ []) }
        ensures err { OnErr result (self.new ≡ self.old) }
    {
        self.set(key, thing)
    }

    /// Lets a number stand for nothing.
    pub fn remove(&mut self, key: u32)
        ensures { self.new ≡ without_entry self.old key }
    {
        self.entries.shift_remove(&key);
    }
}
