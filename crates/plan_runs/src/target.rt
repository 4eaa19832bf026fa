//! What flips hit.

ghost use Rattle.std.specs.Prelude.{◌≡◌, Some};
ghost use Rattle.fault_watch.specs.MarkSets.{has};
ghost use Rattle.plan_runs.specs.Watches.{no_target, target_on, target_of};
ghost use Rattle.step_machine.specs.Total.{reading};

use agxx_base::ClassId;
use fault_watch::{Marks, PartWord, are_inside, part_word_at};
use flip_plan::PlannedFlip;
use step_engine::Engine;
use step_world::Heap;

/// What a flip hits if it falls.
#[derive(Clone, Copy, Debug, PartialEq, Eq)]
pub struct Target {
    /// The class of the part that it is on, where nobody is inside.
    pub part: Option<ClassId>,
    pub is_admissible: bool,
}

impl Target {
    /// No part, or one that somebody is inside of.
    fn none() -> Target
        ensures { result ≡ no_target }
    {
        Target {
            part: None,
            is_admissible: false,
        }
    }

    /// The part of a word.
    fn on<H: Heap>(
        engine: &Engine<'_, H>,
        marks: &Marks,
        flip: &PlannedFlip,
        word: PartWord,
    ) -> Target
        ensures { result ≡ target_on (reading engine.now) flip.now (has marks.now) word }
    {
        if are_inside(engine, flip.object, word.class) {
            return Target::none();
        }
        Target {
            part: Some(word.class),
            is_admissible: flip.bit < word.width() && !marks.has(flip.object, word.class),
        }
    }

    /// What a flip would hit now.
    pub(crate) fn of<H: Heap>(engine: &Engine<'_, H>, marks: &Marks, flip: &PlannedFlip) -> Target
        ensures { result ≡ target_of (reading engine.now) flip.now (has marks.now) }
    {
        match part_word_at(engine.setting(), engine.class(flip.object), flip.word) {
            None => Target::none(),
            Some(word) => Target::on(engine, marks, flip, word),
        }
    }
}
