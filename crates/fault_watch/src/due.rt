//! The lines that a moment goes through.

ghost use Rattle.std.specs.Prelude.{◌≡◌, [], ◌∷◌, MatchOption, OnOk, OnErr};
ghost use Rattle.fault_lines.specs.Due.{insert_in_order};

use agxx_base::Memory;
use flip_plan::PlannedFlip;
use std::alloc::Global;
use std::collections::BTreeMap;
use std::marker::Model;

/// Lines in the order of their numbers, each number once. To add one, or to take the first, takes few steps, however
/// many there are.
#[derive(Drop)]
pub struct Due {
    lines: BTreeMap<u32, PlannedFlip>,
}

impl Model for Due {
    ghost use Rattle.std.specs.Prelude.{List};
    ghost use Rattle.std.specs.Map.{values_of};
    ghost use Rattle.flip_plan.specs.declared.flip.PlannedFlip.{PlannedFlip};
    ghost use Rattle.fault_watch.specs.Numbered.{AreNumbered};

    ghost Value = { List PlannedFlip };

    ghost view = { λ d. values_of d.lines.entries };

    ghost invariant = { λ d. AreNumbered d.lines.entries };
}

impl Due {
    /// No lines, which takes no memory.
    pub fn new(alloc: Global) -> Due
        ensures { result ≡ [] }
    {
        Due {
            lines: BTreeMap::new(alloc),
        }
    }

    /// Adds a line, in the place of the one that has its number.
    pub fn add(&mut self, flip: PlannedFlip) -> Result<(), Memory>
        ensures value { OnOk result (self.new ≡ insert_in_order flip self.old) }
        ensures err { OnErr result (self.new ≡ self.old) }
    {
        self.lines.insert(flip.number, flip)?;
        Ok(())
    }

    /// Takes the line with the least number.
    pub fn pop(&mut self) -> Option<PlannedFlip>
        ensures { MatchOption result ((self.old ≡ []) × (self.new ≡ [])) (λ f. self.old ≡ f ∷ self.new) }
    {
        match self.lines.pop_first() {
            Some((_, flip)) => Some(flip),
            None => None,
        }
    }
}
