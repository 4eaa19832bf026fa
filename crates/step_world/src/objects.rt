//! Objects in a list.

ghost use Rattle.std.specs.Prelude.{◌≡◌, ◌++◌, [], ◌∷◌, slice_get, true, OnOk, OnErr};
ghost use Rattle.step_machine.specs.World.{new_object};
ghost use Rattle.step_world.specs.Objects as in_heap;

use crate::heap::{Heap, HeapError};
use crate::object::StoredObject;
use crate::word_store::WordStore;
use agxx_base::{ClassId, Memory, OBJECT_LIMIT, ObjectId};
use std::alloc::Global;
use std::marker::Model;

/// A heap that keeps the words of each object in a store. Each of its operations takes the same time however many
/// objects there are.
#[derive(Drop)]
pub struct Objects<W: WordStore> {
    alloc: Global,
    objects: Vec<StoredObject<W>>,
}

impl<W: WordStore> Model for Objects<W> {
    ghost use Rattle.std.specs.Prelude.{List};
    ghost use Rattle.step_machine.specs.World.{Object};

    ghost Value = { List Object };

    ghost view = { λ heap. heap.objects.items };
}

impl<W: WordStore> Objects<W> {
    /// A heap with no objects, which takes no memory.
    pub fn new(alloc: Global) -> Objects<W>
        ensures { result ≡ [] }
    {
        Objects {
            alloc,
            objects: Vec::new(alloc),
        }
    }

    fn push(&mut self, class: ClassId, words: u32) -> Result<(), Memory>
        ensures ok { OnOk result (self.new ≡ self.old ++ new_object class words ∷ []) }
        ensures err { OnErr result (self.new ≡ self.old) }
    {
        let object = StoredObject::new(self.alloc, class, words)?;
        self.objects.push(object)?;
        Ok(())
    }

    // A live object.
    fn object(&self, object: ObjectId) -> &StoredObject<W>
        requires { in_heap.is_live self.now object.0 ≡ true }
        ensures { slice_get self.now object.0 ≡ Some result.now }
    {
        &self.objects[object.0 as usize]
    }
}

impl<W: WordStore> Heap for Objects<W> {
    ghost objects = { λ heap. heap };

    fn create(&mut self, class: ClassId, words: u32) -> Result<ObjectId, HeapError> {
        let number = self.objects.len();
        if number >= OBJECT_LIMIT {
            return Err(HeapError::Full);
        }
        match self.push(class, words) {
            Ok(()) => Ok(ObjectId(number as u32)),
            Err(Memory) => Err(HeapError::Memory),
        }
    }

    fn kill(&mut self, object: ObjectId) {
        self.objects[object.0 as usize].kill();
    }

    fn is_live(&self, object: ObjectId) -> bool {
        match self.objects.get(object.0 as usize) {
            None => false,
            Some(object) => object.is_live(),
        }
    }

    fn class_of(&self, object: ObjectId) -> ClassId {
        self.object(object).class()
    }

    fn has_word(&self, object: ObjectId, word: u32) -> bool {
        match self.objects.get(object.0 as usize) {
            None => false,
            Some(object) => object.is_live() && (word as usize) < object.len(),
        }
    }

    fn load(&self, object: ObjectId, word: u32) -> u64 {
        self.object(object).load(word)
    }

    fn store(&mut self, object: ObjectId, word: u32, bits: u64) -> Result<(), Memory> {
        self.objects[object.0 as usize].store(word, bits)
    }

    fn holder(&self, object: ObjectId, lock: u32) -> Option<u32> {
        self.object(object).holder(lock)
    }

    fn set_holder(
        &mut self,
        object: ObjectId,
        lock: u32,
        holder: Option<u32>,
    ) -> Result<(), Memory> {
        self.objects[object.0 as usize].set_holder(lock, holder)
    }

    fn made(&self) -> usize {
        self.objects.len()
    }
}
