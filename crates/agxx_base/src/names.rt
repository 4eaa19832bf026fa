//! Numbers for names.

ghost use Rattle.std.specs.Prelude.{◌≡◌, ◌≤◌, ◌<◌, ◌^◌, ◌∷◌, ◌++◌, [], false, length, slice_get};
ghost use Rattle.std.specs.Prelude.{Some, is_some, IfSome, OnOk, OnErr, IfOk};
ghost use Rattle.agxx_base.specs.Names.{IsDistinct, number_of, is_known, interned};

use crate::{Memory, NameId};
use indexmap::IndexSet;
use std::alloc::Global;
use std::marker::Model;

/// Distinct texts in order of first sight, each with its place in this order as its number, from 0. There are at most
/// 2^32 - 1. To find a text takes the same time however many there are.
#[derive(Drop)]
pub struct Names {
    alloc: Global,
    texts: IndexSet<Vec<u8>>,
}

impl Model for Names {
    ghost use Rattle.std.specs.Prelude.{List, ℕ, ◌<◌, ◌^◌, length, map, vec_items};
    ghost use Rattle.agxx_base.specs.Names.{IsDistinct};

    ghost Value = { List (List ℕ) };

    ghost view = { λ m. map vec_items m.texts.keys };

    ghost invariant = { λ m. (length m.texts.keys < 2 ^ 32) × IsDistinct (map vec_items m.texts.keys) };
}

impl Names {
    /// No names, which takes no memory.
    pub fn new(alloc: Global) -> Names
        ensures { result ≡ [] }
    {
        Names {
            alloc,
            texts: IndexSet::new(alloc),
        }
    }

    /// How many names have a number.
    pub fn len(&self) -> usize
        ensures len { result ≡ length self.now }
        ensures few { length self.now < 2 ^ 32 }
        ensures distinct { IsDistinct self.now }
    {
        self.texts.len()
    }

    /// The number of a text, which it gets at its first sight. Without memory, and where 2^32 - 1 names have numbers,
    /// no text gets one.
    pub fn intern(&mut self, text: &[u8]) -> Result<NameId, Memory>
        ensures number { IfOk result (λ id. id.0 ≡ number_of self.old text.now) }
        ensures names { OnOk result (self.new ≡ interned self.old text.now) }
        ensures text { IfOk result (λ id. slice_get self.new id.0 ≡ Some text.now) }
        ensures distinct { IsDistinct self.new }
        ensures err { OnErr result (self.new ≡ self.old) }
    {
        match self.find(text) {
            Some(id) => Ok(id),
            None => self.append(text),
        }
    }

    /// The text with a number that was given.
    pub fn text_of(&self, id: NameId) -> &[u8]
        requires { id.0 < length self.now }
        ensures { slice_get self.now id.0 ≡ Some result.now }
    {
        self.texts.as_slice()[id.0 as usize].as_slice()
    }

    /// Whether a text has a number.
    pub fn knows(&self, text: &[u8]) -> bool
        ensures { result ≡ is_known self.now text.now }
    {
        self.find(text).is_some()
    }

    /// The number of a text, or how many names there are where it has none.
    #[tactic(auto, using(crate::proofs::Interning::number_new))]
    pub fn number(&self, text: &[u8]) -> NameId
        ensures { result.0 ≡ number_of self.now text.now }
    {
        match self.find(text) {
            Some(id) => id,
            None => NameId(self.len() as u32),
        }
    }

    // The number of a text that has one.
    fn find(&self, text: &[u8]) -> Option<NameId>
        ensures known { is_some result ≡ is_known self.now text.now }
        ensures number { IfSome result (λ id. id.0 ≡ number_of self.now text.now) }
        ensures distinct { IsDistinct self.now }
    {
        match self.texts.get_index_of(text) {
            Some(index) => Some(NameId(index as u32)),
            None => None,
        }
    }

    // Gives a new text the next number.
    fn append(&mut self, text: &[u8]) -> Result<NameId, Memory>
        requires { is_known self.old text.now ≡ false }
        ensures number { IfOk result (λ id. id.0 ≡ length self.old) }
        ensures names { OnOk result (self.new ≡ self.old ++ text.now ∷ []) }
        ensures text { IfOk result (λ id. slice_get self.new id.0 ≡ Some text.now) }
        ensures distinct { IsDistinct self.new }
        ensures err { OnErr result (self.new ≡ self.old) }
    {
        let index = self.texts.len();
        if index >= u32::MAX as usize {
            return Err(Memory);
        }
        self.texts.insert(Vec::from_slice(self.alloc, text)?)?;
        Ok(NameId(index as u32))
    }
}
