//! Words side by side.

use agxx_base::Memory;
use sqlite_items::Items;
use std::alloc::Global;
use step_world::WordStore;

/// The words of an object, side by side.
#[derive(Drop)]
pub struct ListWords {
    words: Items<u64>,
}

impl WordStore for ListWords {
    ghost bits = { λ list. list.words };

    fn zeros(alloc: Global, count: u32) -> Result<ListWords, Memory> {
        let words = vec![in alloc; 0; count as usize]?;
        Ok(ListWords {
            words: Items::from_vec(words),
        })
    }

    fn len(&self) -> usize {
        self.words.len()
    }

    fn load(&self, word: u32) -> u64 {
        self.words.as_slice()[word as usize]
    }

    fn store(&mut self, word: u32, value: u64) -> Result<(), Memory> {
        self.words.set(word as usize, value);
        Ok(())
    }
}
