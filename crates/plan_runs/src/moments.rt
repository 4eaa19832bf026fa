//! The flips before a turn.

ghost use Rattle.std.specs.Prelude.{◌≡◌, IfOk, OnOk};
ghost use Rattle.plan_runs.specs.Watches.{FallsOn, Goes, LeadsTo, without_due, FilesLine, FilesLines, TakesFlips};
ghost use Rattle.step_machine.specs.Total.{reading};

use crate::place::{Place, place_of};
use crate::target::Target;
use crate::watch::Watch;
use agxx_base::Memory;
use flip_plan::PlannedFlip;
use step_engine::Engine;
use step_world::Heap;

/// Lets a bit flip.
fn fall<H: Heap>(
    engine: &mut Engine<'_, H>,
    watch: &mut Watch,
    flip: PlannedFlip,
    target: Target,
) -> Result<(), Memory>
    ensures { OnOk result (FallsOn flip target engine.old watch.old engine.new watch.new) }
{
    if engine.flip(flip.object, flip.word, flip.bit)? {
        watch.change(flip.object, target.part)?;
    }
    watch.judge(target.is_admissible, flip.number);
    Ok(())
}

/// Goes through a line that is due, and keeps it where it has to wait.
fn go<H: Heap>(
    engine: &mut Engine<'_, H>,
    watch: &mut Watch,
    flip: PlannedFlip,
    kept: &mut Vec<PlannedFlip>,
) -> Result<(), Memory>
    ensures { OnOk result (Goes flip engine.old watch.old kept.old.items engine.new watch.new kept.new.items) }
{
    let target = Target::of(engine, watch.marks(), &flip);
    if flip.waits && !target.is_admissible {
        kept.push(flip)?;
        return Ok(());
    }
    fall(engine, watch, flip, target)
}

/// Goes through the lines that are due, and hands out those that have to wait.
fn go_through<H: Heap>(
    engine: &mut Engine<'_, H>,
    watch: &mut Watch,
) -> Result<Vec<PlannedFlip>, Memory>
    ensures goes { IfOk result (λ kept. LeadsTo engine.old watch.old engine.new watch.new kept.items) }
    ensures queues { OnOk result (watch.new.queues ≡ without_due watch.old.queues) }
    ensures counts { OnOk result (watch.new.counts ≡ watch.old.counts) }
{
    let mut kept = Vec::new(watch.alloc());
    while let Some(flip) = watch.next_due() {
        go(engine, watch, flip, &mut kept)?;
    }
    Ok(kept)
}

/// Lets a line wait for what it has to wait for, if it can ever fall.
fn file<H: Heap>(engine: &Engine<'_, H>, watch: &mut Watch, flip: PlannedFlip) -> Result<(), Memory>
    ensures { OnOk result (FilesLine (reading engine.now) flip watch.old watch.new) }
{
    match place_of(engine, &flip) {
        Place::Nowhere => Ok(()),
        Place::Object => watch.wait(None, flip),
        Place::Part(class) => watch.wait(Some(class), flip),
    }
}

fn file_all<H: Heap>(
    engine: &Engine<'_, H>,
    watch: &mut Watch,
    kept: &[PlannedFlip],
) -> Result<(), Memory>
    ensures { OnOk result (FilesLines (reading engine.now) kept.now watch.old watch.new) }
{
    for flip in kept {
        file(engine, watch, *flip)?;
    }
    Ok(())
}

/// Takes the flips before a turn.
pub(crate) fn take_flips<H: Heap>(
    engine: &mut Engine<'_, H>,
    watch: &mut Watch,
    turn: u64,
) -> Result<(), Memory>
    ensures takes { OnOk result (TakesFlips turn engine.old watch.old engine.new watch.new) }
    ensures counts { OnOk result (watch.new.counts ≡ watch.old.counts) }
{
    watch.gather(turn)?;
    let kept = go_through(engine, watch)?;
    file_all(engine, watch, kept.as_slice())
}
