//! Lists of what is known of nodes.

ghost use Rattle.std.specs.Prelude.{◌≡◌, [], ◌∷◌, ◌++◌, length, slice_set, OnOk};

use crate::entry::Entry;
use agxx_base::Memory;
use std::alloc::Global;
use std::marker::Model;

/// What is known of each node, in text order.
#[derive(Debug, Drop)]
pub(crate) struct EntryList {
    entries: Vec<Entry>,
}

impl Model for EntryList {
    ghost use Rattle.std.specs.Prelude.{List};
    ghost use Rattle.cxx_types.specs.declared.entry.Entry.{Entry};

    ghost Value = { List Entry };

    ghost view = { λ list. list.entries.items };
}

impl EntryList {
    pub(crate) fn new(alloc: Global) -> EntryList
        ensures { result ≡ [] }
    {
        EntryList {
            entries: Vec::new(alloc),
        }
    }

    pub(crate) fn len(&self) -> usize
        ensures { result ≡ length self.now }
    {
        self.entries.len()
    }

    pub(crate) fn as_slice(&self) -> &[Entry]
        ensures { result.now ≡ self.now }
    {
        self.entries.as_slice()
    }

    pub(crate) fn push(&mut self, entry: Entry) -> Result<(), Memory>
        ensures { OnOk result (self.new ≡ self.old ++ entry ∷ []) }
    {
        self.entries.push(entry)?;
        Ok(())
    }

    /// Puts an entry in the place of one that is there.
    pub(crate) fn set(&mut self, index: usize, entry: Entry)
        ensures { self.new ≡ slice_set self.old index entry }
    {
        if index < self.entries.len() {
            self.entries[index] = entry;
        }
    }
}
