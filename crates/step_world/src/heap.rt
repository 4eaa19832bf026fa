//! Where objects are.

ghost use Rattle.std.specs.Prelude.{◌≡◌, ◌++◌, [], ◌∷◌, length, true, false, Some, IfOk, IfErr, OnOk, OnErr};
ghost use Rattle.step_machine.specs.World.{new_object, killed, with_word, with_holder};
ghost use Rattle.step_world.specs.Objects as in_heap;

use agxx_base::{ClassId, Memory, ObjectId};

/// Why no object was made.
#[derive(Clone, Copy, Debug, PartialEq, Eq)]
pub enum HeapError {
    Memory,
    /// As many objects were made as may be.
    Full,
}

/// Objects by their numbers, which count them in the order in which they were made. An object that was killed keeps its
/// number.
pub trait Heap: Drop {
    ghost use Rattle.std.specs.Prelude.{List};
    ghost use Rattle.step_machine.specs.World.{Object};

    /// The objects, each at its number.
    ghost objects: { Self → List Object };

    /// Makes the next object, of so many words, all 0, whose mutexes nobody holds.
    fn create(&mut self, class: ClassId, words: u32) -> Result<ObjectId, HeapError>
        ensures number { IfOk result (λ id. id.0 ≡ length (objects self.old)) }
        ensures made { OnOk result (objects self.new ≡ objects self.old ++ new_object class words ∷ []) }
        ensures room { OnOk result (in_heap.is_full (objects self.old) ≡ false) }
        ensures full { IfErr result (λ error. in_heap.tells_full error ≡ in_heap.is_full (objects self.old)) }
        ensures err { OnErr result (objects self.new ≡ objects self.old) };

    /// Destroys a live object.
    fn kill(&mut self, object: ObjectId)
        requires { in_heap.is_live (objects self.old) object.0 ≡ true }
        ensures { objects self.new ≡ in_heap.altered (objects self.old) object.0 killed };

    /// Whether an object was made and not killed.
    fn is_live(&self, object: ObjectId) -> bool
        ensures { result ≡ in_heap.is_live (objects self.now) object.0 };

    /// The class of a live object.
    fn class_of(&self, object: ObjectId) -> ClassId
        requires { in_heap.is_live (objects self.now) object.0 ≡ true }
        ensures { in_heap.class_in (objects self.now) object.0 ≡ Some result };

    /// Whether an object is live and has so many words that this is one of them.
    fn has_word(&self, object: ObjectId, word: u32) -> bool
        ensures { result ≡ in_heap.has_word (objects self.now) object.0 word };

    /// The bits of a word.
    fn load(&self, object: ObjectId, word: u32) -> u64
        requires { in_heap.has_word (objects self.now) object.0 word ≡ true }
        ensures { in_heap.word_in (objects self.now) object.0 word ≡ Some result };

    /// Lets a word have these bits.
    fn store(&mut self, object: ObjectId, word: u32, bits: u64) -> Result<(), Memory>
        requires { in_heap.has_word (objects self.old) object.0 word ≡ true }
        ensures ok { OnOk result (objects self.new ≡
            in_heap.altered (objects self.old) object.0 (with_word word bits)) }
        ensures err { OnErr result (objects self.new ≡ objects self.old) };

    /// Who holds a mutex of a live object.
    fn holder(&self, object: ObjectId, lock: u32) -> Option<u32>
        requires { in_heap.is_live (objects self.now) object.0 ≡ true }
        ensures { result ≡ in_heap.holder_of (objects self.now) object.0 lock };

    /// Lets a thread, or nobody, hold a mutex of a live object.
    fn set_holder(&mut self, object: ObjectId, lock: u32, holder: Option<u32>) -> Result<(), Memory>
        requires { in_heap.is_live (objects self.old) object.0 ≡ true }
        ensures ok { OnOk result (objects self.new ≡
            in_heap.altered (objects self.old) object.0 (with_holder lock holder)) }
        ensures err { OnErr result (objects self.new ≡ objects self.old) };

    /// How many objects were made.
    fn made(&self) -> usize
        ensures { result ≡ length (objects self.now) };
}
