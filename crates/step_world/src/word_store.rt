//! Where the words of an object are.

ghost use Rattle.std.specs.Prelude.{◌≡◌, ◌<◌, length, replicate, slice_get, slice_set, Some, IfOk, OnOk, OnErr};

use agxx_base::Memory;
use std::alloc::Global;

/// The words of an object, by their numbers from 0 on.
pub trait WordStore: Drop + Sized {
    ghost use Rattle.std.specs.Prelude.{List, ℕ};

    /// The bits of each word.
    ghost bits: { Self → List ℕ };

    /// So many words, all 0.
    fn zeros(alloc: Global, count: u32) -> Result<Self, Memory>
        ensures { IfOk result (λ words. bits words ≡ replicate count 0) };

    /// How many words there are.
    fn len(&self) -> usize
        ensures { result ≡ length (bits self.now) };

    /// The bits of a word.
    fn load(&self, word: u32) -> u64
        requires { word < length (bits self.now) }
        ensures { slice_get (bits self.now) word ≡ Some result };

    /// Lets a word have these bits.
    fn store(&mut self, word: u32, value: u64) -> Result<(), Memory>
        requires { word < length (bits self.old) }
        ensures ok { OnOk result (bits self.new ≡ slice_set (bits self.old) word value) }
        ensures err { OnErr result (bits self.new ≡ bits self.old) };
}
