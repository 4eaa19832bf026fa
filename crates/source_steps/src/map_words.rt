//! Words by their numbers.

use agxx_base::Memory;
use std::alloc::Global;
use step_world::{Entries, WordStore};

/// The words of an object, each found by its number. A word to which nothing was stored has no entry, and is 0.
#[derive(Drop)]
pub struct MapWords {
    count: u32,
    words: Entries<u64>,
}

impl WordStore for MapWords {
    ghost use Rattle.source_steps.specs.Words.{words_of};

    ghost bits = { λ map. words_of map.count map.words };

    #[tactic(auto, using(crate::proofs::Words::new_words))]
    fn zeros(alloc: Global, count: u32) -> Result<MapWords, Memory> {
        Ok(MapWords {
            count,
            words: Entries::new(alloc),
        })
    }

    #[tactic(auto, using(crate::proofs::Words::length_words))]
    fn len(&self) -> usize {
        self.count as usize
    }

    #[tactic(auto, using(crate::proofs::Words::length_words, crate::proofs::Words::word_is))]
    fn load(&self, word: u32) -> u64 {
        match self.words.get(word) {
            None => 0,
            Some(bits) => *bits,
        }
    }

    #[tactic(auto, using(crate::proofs::Words::word_set))]
    fn store(&mut self, word: u32, value: u64) -> Result<(), Memory> {
        self.words.set(word, value)
    }
}
