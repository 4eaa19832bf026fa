//! What the threads share.

ghost use Rattle.std.specs.Prelude.{◌≡◌, [], length, false, is_some, OnOk, OnErr};
ghost use Rattle.step_machine.specs.Entries.{entry};
ghost use Rattle.step_machine.specs.World.{word_at, class_at, variable_at, holder_at};
ghost use Rattle.step_machine.specs.World.{changed, object_changed, held, with_word, killed};
ghost use Rattle.step_world.specs.Changes.{lock_of, change_of};
ghost use Rattle.step_world.specs.Objects.{is_full};
ghost use Rattle.step_world.specs.Worlds.{empty_world, declared, created, printed};

use crate::change::{Change, Lock};
use crate::entries::Entries;
use crate::heap::{Heap, HeapError};
use agxx_base::{ClassId, Memory, NameId, ObjectId};
use cxx_arith::number;
use itoa::Buffer;
use std::alloc::Global;
use std::marker::Model;
use step_machine::Datum;

/// What the threads share.
#[derive(Drop)]
pub struct World<H: Heap> {
    heap: H,
    variables: Entries<Datum>,
    holders: Entries<Option<u32>>,
    output: Vec<u8>,
}

impl<H: Heap> Model for World<H> {
    ghost use Rattle.step_machine.specs.World.{World};

    ghost Value = { World };

    ghost view = { λ w. record {
      objects = H.objects w.heap;
      variables = w.variables;
      holders = w.holders;
      output = w.output.items;
    } };
}

impl<H: Heap> World<H> {
    /// What is there when nothing was done yet, over a heap with no objects. It takes no memory.
    pub fn new(alloc: Global, heap: H) -> World<H>
        requires { H.objects heap ≡ [] }
        ensures { result ≡ empty_world }
    {
        World {
            heap,
            variables: Entries::new(alloc),
            holders: Entries::new(alloc),
            output: Vec::new(alloc),
        }
    }

    /// The bits of a word of a live object.
    pub fn word(&self, object: ObjectId, word: u32) -> Option<u64>
        ensures { result ≡ word_at self.now object.0 word }
    {
        if self.heap.has_word(object, word) {
            Some(self.heap.load(object, word))
        } else {
            None
        }
    }

    /// The class of a live object.
    pub fn class(&self, object: ObjectId) -> Option<ClassId>
        ensures { result ≡ class_at self.now object.0 }
    {
        if self.heap.is_live(object) {
            Some(self.heap.class_of(object))
        } else {
            None
        }
    }

    /// The value of a global variable.
    pub fn variable(&self, name: NameId) -> Datum
        ensures { result ≡ variable_at self.now name.0 }
    {
        match self.variables.get(name.0) {
            None => Datum::Null,
            Some(value) => *value,
        }
    }

    /// Who holds a mutex.
    pub fn holder(&self, lock: Lock) -> Option<u32>
        ensures { result ≡ holder_at self.now (lock_of lock) }
    {
        match lock {
            Lock::Shared(name) => match self.holders.get(name.0) {
                None => None,
                Some(holder) => *holder,
            },
            Lock::Inside(object, mutex) => {
                if self.heap.is_live(object) {
                    self.heap.holder(object, mutex)
                } else {
                    None
                }
            }
        }
    }

    /// How many objects were made.
    pub fn made(&self) -> usize
        ensures { result ≡ length self.now.objects }
    {
        self.heap.made()
    }

    /// How many bytes were printed.
    pub fn printed(&self) -> usize
        ensures { result ≡ length self.now.output }
    {
        self.output.len()
    }

    /// All that was printed.
    pub fn output(&self) -> &[u8]
        ensures { result.now ≡ self.now.output }
    {
        self.output.as_slice()
    }

    /// The objects.
    pub fn heap(&self) -> &H
        ensures { H.objects result.now ≡ self.now.objects }
    {
        &self.heap
    }

    /// Whether a global variable was declared or assigned.
    pub fn has_variable(&self, name: NameId) -> bool
        ensures { result ≡ is_some (entry self.now.variables name.0) }
    {
        self.variables.get(name.0).is_some()
    }

    /// Declares a global variable, with the value that it has at first.
    pub fn declare(&mut self, name: NameId, value: Datum) -> Result<(), Memory>
        requires { is_some (entry self.old.variables name.0) ≡ false }
        ensures ok { OnOk result (self.new ≡ declared name value self.old) }
        ensures err { OnErr result (self.new ≡ self.old) }
    {
        self.variables.append(name.0, value)
    }

    /// Makes a change.
    pub fn change(&mut self, thread: u32, change: Change<'_>) -> Result<(), Memory>
        ensures ok { OnOk result (self.new ≡ changed thread (change_of change.entry) self.old) }
        ensures err { OnErr result (self.new ≡ self.old) }
    {
        match change {
            Change::Store(object, word, bits) => self.store(object, word, bits),
            Change::Assign(name, value) => self.variables.set(name.0, value),
            Change::Show(text) => self.print(text),
            Change::Print(value) => self.print(Buffer::new().format(number(value)).as_bytes()),
            Change::Create(class, words) => self.create(class, words),
            Change::Kill(object) => {
                self.kill(object);
                Ok(())
            }
            Change::Take(lock) => self.set_holder(lock, Some(thread)),
            Change::Free(lock) => self.set_holder(lock, None),
        }
    }

    /// Makes the next object, of so many words, all 0. Where the heap is full, this is as without memory.
    pub fn create(&mut self, class: ClassId, words: u32) -> Result<(), Memory>
        ensures ok { OnOk result (self.new ≡ created class words self.old) }
        ensures room { OnOk result (is_full self.old.objects ≡ false) }
        ensures err { OnErr result (self.new ≡ self.old) }
    {
        match self.heap.create(class, words) {
            Ok(_) => Ok(()),
            Err(HeapError::Memory | HeapError::Full) => Err(Memory),
        }
    }

    #[tactic(auto, using(crate::proofs::Unstored::unstored))]
    fn store(&mut self, object: ObjectId, word: u32, bits: u64) -> Result<(), Memory>
        ensures ok { OnOk result (self.new ≡ object_changed object.0 (with_word word bits) self.old) }
        ensures err { OnErr result (self.new ≡ self.old) }
    {
        if self.heap.has_word(object, word) {
            self.heap.store(object, word, bits)
        } else {
            Ok(())
        }
    }

    fn kill(&mut self, object: ObjectId)
        ensures { self.new ≡ object_changed object.0 killed self.old }
    {
        if self.heap.is_live(object) {
            self.heap.kill(object);
        }
    }

    fn print(&mut self, text: &[u8]) -> Result<(), Memory>
        ensures ok { OnOk result (self.new ≡ printed text.now self.old) }
        ensures err { OnErr result (self.new ≡ self.old) }
    {
        self.output.extend_from_slice(text)?;
        Ok(())
    }

    fn set_holder(&mut self, lock: Lock, holder: Option<u32>) -> Result<(), Memory>
        ensures ok { OnOk result (self.new ≡ held (lock_of lock) holder self.old) }
        ensures err { OnErr result (self.new ≡ self.old) }
    {
        match lock {
            Lock::Shared(name) => self.holders.set(name.0, holder),
            Lock::Inside(object, mutex) => {
                if self.heap.is_live(object) {
                    self.heap.set_holder(object, mutex, holder)
                } else {
                    Ok(())
                }
            }
        }
    }
}
