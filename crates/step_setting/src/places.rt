//! Places of names in a list.

ghost use Rattle.std.specs.Prelude.{◌≡◌, OnOk};
ghost use Rattle.step_setting.specs.Places as spec;

use agxx_base::{Memory, NameId};
use cxx_names::Table;
use std::alloc::Global;

/// The places of the names of a list, numbered from a start on. Of several equal names the first counts.
#[derive(Drop)]
pub(crate) struct Places {
    found: Table<u32>,
    /// The number after the last.
    end: u32,
}

impl Places {
    /// No names, the first of which will have this number.
    pub(crate) fn empty(alloc: Global, start: u32) -> Places
        ensures { result ≡ spec.no_places start }
    {
        Places {
            found: Table::new(alloc),
            end: start,
        }
    }

    /// Appends a name, if its place can be counted.
    pub(crate) fn add(&mut self, name: NameId) -> Result<(), Memory>
        ensures { OnOk result (self.new ≡ spec.with_place self.old name.0) }
    {
        let Some(end) = self.end.checked_add(1) else {
            return Err(Memory);
        };
        self.found.declare(name, self.end)?;
        self.end = end;
        Ok(())
    }

    /// The number of a name, and the number after the last where the name does not stand in the list.
    pub(crate) fn number(&self, name: NameId) -> u32
        ensures { result ≡ spec.number_in self.now name.0 }
    {
        match self.found.find(name) {
            None => self.end,
            Some(number) => *number,
        }
    }
}
