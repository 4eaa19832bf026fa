//! What a line that isn't admissible has to wait for.

ghost use Rattle.std.specs.Prelude.{◌<◌, length};
ghost use Rattle.plan_runs.specs.Places.{IsPlace};
ghost use Rattle.step_machine.specs.Total.{reading};

use agxx_base::ClassId;
use fault_watch::part_word_at;
use flip_plan::PlannedFlip;
use step_engine::Engine;
use step_world::Heap;

/// What a line waits for.
#[derive(Clone, Copy, Debug, PartialEq, Eq)]
pub(crate) enum Place {
    /// It never falls: its object is gone, or has no such bit in a part.
    Nowhere,
    /// Its object, which isn't made.
    Object,
    /// The part of a class of its object, until nobody is inside and no flip has hit it.
    Part(ClassId),
}

/// Where a flip is in an object that was made.
fn place_in<H: Heap>(engine: &Engine<'_, H>, flip: &PlannedFlip) -> Place
    requires { flip.now.object.0 < length engine.now.world.objects }
    ensures { IsPlace (reading engine.now) flip.now result }
{
    match part_word_at(engine.setting(), engine.class(flip.object), flip.word) {
        None => Place::Nowhere,
        Some(word) => {
            if flip.bit < word.width() {
                Place::Part(word.class)
            } else {
                Place::Nowhere
            }
        }
    }
}

/// What a line has to wait for.
pub(crate) fn place_of<H: Heap>(engine: &Engine<'_, H>, flip: &PlannedFlip) -> Place
    ensures { IsPlace (reading engine.now) flip.now result }
{
    if flip.object.0 as usize >= engine.heap().made() {
        return Place::Object;
    }
    place_in(engine, flip)
}
