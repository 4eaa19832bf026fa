//! Lines that wait.

ghost use Rattle.std.specs.Prelude.{◌≡◌, ◌↔◌, IsTrue, MatchOption, OnOk, OnErr};
ghost use Rattle.fault_watch.specs.Spots as spots;
ghost use Rattle.fault_lines.specs.Waiting as spec;

use agxx_base::{ClassId, Memory, ObjectId};
use flip_plan::PlannedFlip;
use std::alloc::Global;
use std::collections::BTreeMap;
use std::marker::Model;

/// Where a line stands among those that wait: by its object, by the part and by its number.
#[derive(Clone, Copy, Debug, PartialEq, Eq, PartialOrd, Ord)]
struct Spot {
    object: ObjectId,
    class: Option<ClassId>,
    number: u32,
}

/// Lines that wait: for an object that isn't made, or for a part of one that is. To add one, or to take the first for a
/// part, takes few steps, however many there are. Of one object, part and number there is one line, the last.
#[derive(Drop)]
pub struct Waiting {
    lines: BTreeMap<Spot, PlannedFlip>,
}

impl Model for Waiting {
    ghost use Rattle.std.specs.Prelude.{List};
    ghost use Rattle.fault_lines.specs.Waiting.{Waiter};

    ghost Value = { List Waiter };

    ghost use Rattle.fault_watch.specs.Spots.{waiters_of, AreOwn};

    ghost view = { λ w. waiters_of w.lines.entries };

    ghost invariant = { λ w. AreOwn w.lines.entries };
}

/// Where the first line for an object and a part stands.
fn first_of(
    lines: &BTreeMap<Spot, PlannedFlip>,
    object: ObjectId,
    class: Option<ClassId>,
) -> Option<Spot>
    ensures { MatchOption result (spots.HasNone object.0 class lines.now)
        (spots.IsFirstOf object.0 class lines.now) }
{
    let start = Spot {
        object,
        class,
        number: 0,
    };
    let Some((spot, _)) = lines.range(start..).next() else {
        return None;
    };
    if spot.object == object && spot.class == class {
        Some(*spot)
    } else {
        None
    }
}

impl Waiting {
    /// No lines, which takes no memory.
    pub fn new(alloc: Global) -> Waiting
        ensures { spec.NoLineWaits result }
    {
        Waiting {
            lines: BTreeMap::new(alloc),
        }
    }

    pub fn is_empty(&self) -> bool
        ensures { IsTrue result ↔ spec.NoLineWaits self.now }
    {
        self.lines.is_empty()
    }

    /// Adds a line that waits for its object, or for the part of a class of it.
    pub fn add(&mut self, class: Option<ClassId>, flip: PlannedFlip) -> Result<(), Memory>
        ensures added { OnOk result (spec.IsAdded class flip self.old self.new) }
        ensures err { OnErr result (self.new ≡ self.old) }
    {
        let spot = Spot {
            object: flip.object,
            class,
            number: flip.number,
        };
        self.lines.insert(spot, flip)?;
        Ok(())
    }

    /// Takes the line with the least number that waits for the object, or for the part of a class of it.
    pub fn take_first(&mut self, object: ObjectId, class: Option<ClassId>) -> Option<PlannedFlip>
        ensures { MatchOption result
            ((self.new ≡ self.old) × spec.NoLineWaitsFor object.0 class self.old)
            (λ f. spec.TakesFirst object.0 class f self.old self.new) }
    {
        match first_of(&self.lines, object, class) {
            Some(spot) => self.lines.remove(&spot),
            None => None,
        }
    }
}
