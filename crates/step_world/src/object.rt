//! An object of a heap.

ghost use Rattle.std.specs.Prelude.{◌≡◌, ◌<◌, length, slice_get, Some, IfOk, OnOk, OnErr};
ghost use Rattle.step_machine.specs.Entries.{entry};
ghost use Rattle.step_machine.specs.World.{new_object, killed, with_word, with_holder, holder_in};

use crate::entries::Entries;
use crate::word_store::WordStore;
use agxx_base::{ClassId, Memory};
use std::alloc::Global;
use std::marker::Model;

/// An object, with its words in a store.
#[derive(Drop)]
pub(crate) struct StoredObject<W: WordStore> {
    class: ClassId,
    live: bool,
    words: W,
    holders: Entries<Option<u32>>,
}

impl<W: WordStore> Model for StoredObject<W> {
    ghost use Rattle.step_machine.specs.World.{Object};

    ghost Value = { Object };

    ghost view = { λ o. record {
      class = o.class;
      live = o.live;
      words = W.bits o.words;
      holders = o.holders;
    } };
}

impl<W: WordStore> StoredObject<W> {
    pub(crate) fn new(alloc: Global, class: ClassId, count: u32) -> Result<StoredObject<W>, Memory>
        ensures { IfOk result (λ object. object ≡ new_object class count) }
    {
        let words = W::zeros(alloc, count)?;
        Ok(StoredObject {
            class,
            live: true,
            words,
            holders: Entries::new(alloc),
        })
    }

    pub(crate) fn class(&self) -> ClassId
        ensures { result ≡ self.now.class }
    {
        self.class
    }

    pub(crate) fn is_live(&self) -> bool
        ensures { result ≡ self.now.live }
    {
        self.live
    }

    /// How many words it has.
    pub(crate) fn len(&self) -> usize
        ensures { result ≡ length self.now.words }
    {
        self.words.len()
    }

    pub(crate) fn load(&self, word: u32) -> u64
        requires { word < length self.now.words }
        ensures { slice_get self.now.words word ≡ Some result }
    {
        self.words.load(word)
    }

    pub(crate) fn holder(&self, lock: u32) -> Option<u32>
        ensures { result ≡ holder_in (entry self.now.holders lock) }
    {
        match self.holders.get(lock) {
            None => None,
            Some(holder) => *holder,
        }
    }

    pub(crate) fn kill(&mut self)
        ensures { self.new ≡ killed self.old }
    {
        self.live = false;
    }

    pub(crate) fn store(&mut self, word: u32, bits: u64) -> Result<(), Memory>
        requires { word < length self.old.words }
        ensures ok { OnOk result (self.new ≡ with_word word bits self.old) }
        ensures err { OnErr result (self.new ≡ self.old) }
    {
        self.words.store(word, bits)
    }

    pub(crate) fn set_holder(&mut self, lock: u32, holder: Option<u32>) -> Result<(), Memory>
        ensures ok { OnOk result (self.new ≡ with_holder lock holder self.old) }
        ensures err { OnErr result (self.new ≡ self.old) }
    {
        self.holders.set(lock, holder)
    }
}
