//! The turn of a thread.

ghost use Rattle.std.specs.Prelude.{◌≡◌, ◌∷◌, ◌<◌, length, slice_get, IfOk, OnOk};
ghost use Rattle.step_machine.specs.Machine.{put_at};
ghost use Rattle.step_machine.specs.Turn.{handed, settled, put_back};
ghost use Rattle.step_frame.specs.Works.{item_of};
ghost use Rattle.step_engine.specs.Effects.{effect_of, turn_of};
ghost use Rattle.step_engine.specs.Turns.{Took, TookOff, turn_taken};

use crate::act::act;
use crate::effect::{Effect, Turn};
use crate::inserted::is_inserted;
use crate::turning::Turning;
use agxx_base::Memory;
use std::alloc::Global;
use step_frame::{Frame, Thread, Work};
use step_machine::Datum;
use step_setting::Setting;
use step_world::{Change, Heap, World};

/// Gives a value, if there is one, to the caller.
fn hand<'p>(value: Option<Datum>, thread: &mut Thread<'p>) -> Result<(), Memory>
    ensures { OnOk result (thread.new ≡ handed value thread.old) }
{
    match value {
        None => Ok(()),
        Some(datum) => thread.give(datum),
    }
}

/// Puts a frame back, with the item that it could not do.
fn put_back<'p>(work: Work<'p>, mut frame: Frame<'p>, thread: &mut Thread<'p>) -> Result<(), Memory>
    ensures { OnOk result (thread.new ≡ put_back (item_of work.entry) frame.entry ∷ thread.old) }
{
    frame.agenda.push(work)?;
    thread.push(frame)?;
    Ok(())
}

/// Does with the frames of a thread what an item made of them.
fn settle<'p>(
    work: Work<'p>,
    frame: Frame<'p>,
    effect: Effect<'p>,
    thread: &mut Thread<'p>,
) -> Result<Turn<'p>, Memory>
    ensures { IfOk result (λ turn. (thread.new, turn_of turn) ≡
        settled (item_of work.entry) thread.old frame.entry (effect_of effect.entry)) }
{
    match effect {
        Effect::Stay => {
            thread.push(frame)?;
            Ok(Turn::Went)
        }
        Effect::Change(change) => {
            thread.push(frame)?;
            Ok(Turn::Changed(change))
        }
        Effect::Enter(next) => {
            thread.push(frame)?;
            thread.push(next)?;
            Ok(Turn::Went)
        }
        Effect::CreateEntering(class, words, next) => {
            thread.push(frame)?;
            thread.push(next)?;
            Ok(Turn::Changed(Change::Create(class, words)))
        }
        Effect::Back(value) => {
            hand(value, thread)?;
            Ok(Turn::Went)
        }
        Effect::BackKilling(object) => Ok(Turn::Changed(Change::Kill(object))),
        Effect::Start(first) => {
            thread.push(frame)?;
            Ok(Turn::Started(first))
        }
        Effect::End(value) => {
            thread.push(frame)?;
            Ok(Turn::Ended(value))
        }
        Effect::Halt(object, class) => {
            thread.push(frame)?;
            Ok(Turn::Halted(object, class))
        }
        Effect::Stop(stop, at) => {
            put_back(work, frame, thread)?;
            Ok(Turn::Stopped(stop, at))
        }
        Effect::Wait => {
            put_back(work, frame, thread)?;
            Ok(Turn::Blocked)
        }
    }
}

/// Takes the running frame of a thread and its first item, if it has one.
#[tactic(auto, using(crate::proofs::Takes::taken_none, crate::proofs::Takes::taken_some))]
fn take<'p>(thread: &mut Thread<'p>) -> Result<Option<(Frame<'p>, Work<'p>)>, Memory>
    ensures { IfOk result (λ taken. Took thread.old thread.new taken) }
{
    match thread.take_work()? {
        None => Ok(None),
        Some(work) => match thread.pop() {
            None => Ok(None),
            Some(frame) => Ok(Some((frame, work))),
        },
    }
}

/// Takes the running frame of one of the threads and its first item, if it has one.
fn take_off<'p>(
    thread: u32,
    threads: &mut Vec<Thread<'p>>,
) -> Result<Option<(Frame<'p>, Work<'p>)>, Memory>
    requires { thread < length threads.old.items }
    ensures count { OnOk result (length threads.new.items ≡ length threads.old.items) }
    ensures off { IfOk result (λ taken. TookOff thread threads.old.items threads.new.items taken) }
{
    match take(&mut threads[thread as usize])? {
        None => Ok(None),
        Some(taken) => Ok(Some(taken)),
    }
}

/// Puts the frames of one of the threads as an item made them, and tells on whether the step is inserted.
fn put<'p>(
    thread: u32,
    threads: &mut Vec<Thread<'p>>,
    is_inserted: bool,
    work: Work<'p>,
    frame: Frame<'p>,
    effect: Effect<'p>,
) -> Result<(Turn<'p>, bool), Memory>
    requires { thread < length threads.old.items }
    ensures { IfOk result (λ r. (threads.new.items, turn_of r.0, r.1) ≡
        put_at thread threads.old.items is_inserted (slice_get threads.old.items thread)
        (item_of work.entry) (frame.entry, effect_of effect.entry)) }
{
    let turn = settle(work, frame, effect, &mut threads[thread as usize])?;
    Ok((turn, is_inserted))
}

/// The turn of one of the threads, and whether a step of it is inserted.
#[tactic(auto, unfolding(crate::specs::Turns::turn_taken))]
pub(crate) fn turn<'p, H: Heap>(
    alloc: Global,
    setting: &Setting<'p>,
    world: &World<H>,
    thread: u32,
    threads: &mut Vec<Thread<'p>>,
) -> Result<(Turn<'p>, bool), Memory>
    requires { thread < length threads.old.items }
    ensures { IfOk result (λ turn. (threads.new.items, turn_of turn.0, turn.1) ≡
        turn_taken setting.now world.now thread threads.old.items) }
{
    match take_off(thread, threads)? {
        None => Ok((Turn::Idle, false)),
        Some((mut frame, work)) => {
            let inserted = is_inserted(setting, work, &frame);
            let turning = Turning {
                alloc,
                setting,
                world,
                threads: threads.as_slice(),
                thread,
            };
            let effect = act(&turning, work, &mut frame)?;
            put(thread, threads, inserted, work, frame, effect)
        }
    }
}
