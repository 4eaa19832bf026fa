//! Lines that a turn may wake.

ghost use Rattle.std.specs.Prelude.{◌≡◌, OnOk, map, option_map, option_copied, slice_get};
ghost use Rattle.cxx_core.specs.ProgramView.{class_core};
ghost use Rattle.plan_runs.specs.Wakings.{Empties, WakesPart, WakesLine, WakesLeft, WakesBy};

use crate::watch::Watch;
use agxx_base::{ClassId, Memory, ObjectId};
use cxx_core::Class;
use fault_watch::{Top, depth_of};
use step_engine::Engine;
use step_world::Heap;

/// Lets all lines be due that wait for an object.
fn wake_object(watch: &mut Watch, object: ObjectId) -> Result<(), Memory>
    ensures { OnOk result (Empties object.0 watch.old watch.new) }
{
    while let Some(flip) = watch.take_first(object, None) {
        watch.let_be_due(flip)?;
    }
    Ok(())
}

/// Lets the first lines be due that wait for a part, up to one whose flip inverts a bit: behind it none of them is
/// admissible.
fn wake_part<H: Heap>(
    engine: &Engine<'_, H>,
    watch: &mut Watch,
    object: ObjectId,
    class: ClassId,
) -> Result<(), Memory>
    ensures { OnOk result (WakesPart engine.now object.0 class watch.old watch.new) }
{
    while let Some(flip) = watch.take_first(object, Some(class)) {
        watch.let_be_due(flip)?;
        if engine.inverts(flip.object, flip.word, flip.bit) {
            return Ok(());
        }
    }
    Ok(())
}

/// A class of a program.
fn class_at(classes: &[Class], class: ClassId) -> Option<&Class>
    ensures { option_map class_core (option_copied result) ≡ slice_get (map class_core classes.now) class.0 }
{
    classes.get(class.0 as usize)
}

/// The same for the parts of a class and those above it.
fn wake_line<H: Heap>(
    engine: &Engine<'_, H>,
    watch: &mut Watch,
    object: ObjectId,
    own: Option<ClassId>,
) -> Result<(), Memory>
    ensures { OnOk result (WakesLine engine.now object.0 own watch.old watch.new) }
{
    let classes = engine.setting().program().classes.as_slice();
    let mut next = own;
    for _ in 0..classes.len() {
        let Some(class) = next else {
            return Ok(());
        };
        let Some(found) = class_at(classes, class) else {
            return Ok(());
        };
        wake_part(engine, watch, object, class)?;
        next = found.base;
    }
    Ok(())
}

/// The same for the parts that a frame was inside of.
fn wake_left<H: Heap>(
    engine: &Engine<'_, H>,
    watch: &mut Watch,
    thread: u32,
    top: Option<Top>,
) -> Result<(), Memory>
    ensures { OnOk result (WakesLeft engine.now thread top watch.old watch.new) }
{
    let Some(top) = top else {
        return Ok(());
    };
    let Some(object) = top.object else {
        return Ok(());
    };
    if depth_of(engine, thread) >= top.depth {
        return Ok(());
    }
    wake_line(engine, watch, object, top.class)
}

/// Lets those lines be due that a turn may have made admissible, where before the turn so many objects were made and
/// the frame that ran was this. Where no object was made and the frame is still there, this takes a constant time.
pub(crate) fn wake<H: Heap>(
    engine: &Engine<'_, H>,
    watch: &mut Watch,
    thread: u32,
    top: Option<Top>,
    made: usize,
) -> Result<(), Memory>
    ensures { OnOk result (WakesBy engine.now thread top made watch.old watch.new) }
{
    if watch.waits_for_none() {
        return Ok(());
    }
    if engine.heap().made() > made {
        let Ok(object) = u32::try_from(made) else {
            return Err(Memory);
        };
        wake_object(watch, ObjectId(object))?;
    }
    wake_left(engine, watch, thread, top)
}
