//! A turn, and what it means for the lines that wait.

ghost use Rattle.std.specs.Prelude.{◌≡◌, ◌+◌, ◌<◌, ◌^◌, OnOk};
ghost use Rattle.plan_runs.specs.Turns.{TakesTurn, LeavesParts};
ghost use Rattle.step_engine.specs.TurnRuns.{turns_in};

use crate::wake::wake;
use crate::watch::Watch;
use agxx_base::Memory;
use fault_watch::top_of;
use step_engine::Engine;
use step_world::Heap;

/// The parts that the frame that runs is inside of are hit no more.
fn leave_parts<H: Heap>(engine: &Engine<'_, H>, watch: &mut Watch, thread: u32)
    ensures { LeavesParts engine.now thread watch.old watch.new }
{
    if let Some(top) = top_of(engine, thread) {
        watch.clear(engine.setting(), top.object, top.class);
    }
}

/// Takes a turn.
pub(crate) fn take_turn<H: Heap>(
    engine: &mut Engine<'_, H>,
    watch: &mut Watch,
    thread: u32,
) -> Result<(), Memory>
    requires { turns_in watch.old.counts + 1 < 2 ^ 64 }
    ensures takes { OnOk result (TakesTurn thread engine.old watch.old engine.new watch.new) }
    ensures few { OnOk result (turns_in watch.new.counts ≡ turns_in watch.old.counts + 1) }
{
    let top = top_of(engine, thread);
    let made = engine.heap().made();
    let kind = engine.step(thread)?;
    watch.count(thread, kind)?;
    leave_parts(engine, watch, thread);
    wake(engine, watch, thread, top, made)
}
