//! Items on mutexes and threads.

ghost use Rattle.std.specs.Prelude.{◌≡◌, None, IfOk};
ghost use Rattle.cxx_core.specs.CoreStmt as cs;
ghost use Rattle.cxx_core.specs.ProgramView.{function_core};
ghost use Rattle.cxx_core.specs.StmtView.{mutex_core};
ghost use Rattle.step_machine.specs.ActThreads as spec;
ghost use Rattle.step_machine.specs.Frame.{ending_by};
ghost use Rattle.step_machine.specs.Item as it;
ghost use Rattle.step_machine.specs.World.{class_at};
ghost use Rattle.step_frame.specs.Works.{ending_of};
ghost use Rattle.step_engine.specs.Effects.{lock_result};
ghost use Rattle.step_engine.specs.Steps.{HasActed, IsStep, spawned};

use crate::effect::Effect;
use crate::enter::{Entry, ending_by, frame_of, take_arguments};
use crate::turning::Turning;
use agxx_base::{FnId, Memory, NameId, Place};
use cxx_core::Mutex;
use step_frame::Frame;
use step_machine::Stop;
use step_world::{Change, Heap, Lock};

/// How many threads may be made.
const THREAD_LIMIT: usize = 64;

/// The mutex that is meant in a frame, or why there is none.
fn mutex_now<H: Heap>(
    turning: &Turning<'_, '_, H>,
    mutex: Mutex,
    frame: &Frame,
) -> Result<Lock, Stop>
    ensures { lock_result result ≡ spec.mutex_now turning.now.setting (class_at turning.now.world)
        (mutex_core mutex) frame.now }
{
    match mutex {
        Mutex::Global(name) => Ok(Lock::Shared(name)),
        Mutex::Member(class, name) => match frame.this {
            None => Err(Stop::Null),
            Some(object) => match turning.class(object) {
                None => Err(Stop::Dead),
                Some(_) => {
                    let number = turning.setting.mutex_number(class, name);
                    Ok(Lock::Inside(object, number))
                }
            },
        },
    }
}

/// `m.lock();`
#[tactic(auto, unfolding(crate::specs::Steps::acted))]
pub(crate) fn lock<'p, H: Heap>(
    turning: &Turning<'_, 'p, H>,
    at: Place,
    mutex: Mutex,
    frame: &Frame<'p>,
) -> Effect<'p>
    ensures { IsStep turning.now (it.stmt (cs.lock at (mutex_core mutex)))
        frame.now frame.now result }
{
    match mutex_now(turning, mutex, frame) {
        Err(stop) => Effect::Stop(stop, at),
        Ok(lock) => match turning.world.holder(lock) {
            None => Effect::Change(Change::Take(lock)),
            Some(holder) => {
                if holder == turning.thread {
                    Effect::Stop(Stop::SelfLock, at)
                } else {
                    Effect::Wait
                }
            }
        },
    }
}

/// `m.unlock();`
#[tactic(auto, unfolding(crate::specs::Steps::acted))]
pub(crate) fn unlock<'p, H: Heap>(
    turning: &Turning<'_, 'p, H>,
    at: Place,
    mutex: Mutex,
    frame: &Frame<'p>,
) -> Effect<'p>
    ensures { IsStep turning.now (it.stmt (cs.unlock at (mutex_core mutex)))
        frame.now frame.now result }
{
    match mutex_now(turning, mutex, frame) {
        Err(stop) => Effect::Stop(stop, at),
        Ok(lock) => match turning.world.holder(lock) {
            None => Effect::Stop(Stop::NotHeld, at),
            Some(holder) => {
                if holder == turning.thread {
                    Effect::Change(Change::Free(lock))
                } else {
                    Effect::Stop(Stop::NotHeld, at)
                }
            }
        },
    }
}

/// `t.join();`
#[tactic(auto, unfolding(crate::specs::Steps::acted))]
pub(crate) fn join<'p, H: Heap>(
    turning: &Turning<'_, 'p, H>,
    at: Place,
    name: NameId,
    frame: &mut Frame<'p>,
) -> Effect<'p>
    ensures { IsStep turning.now (it.stmt (cs.join at name.0)) frame.old frame.new result }
{
    match frame.threads.get(name.0).copied() {
        None => Effect::Stop(Stop::NotJoinable, at),
        Some(number) => {
            if turning.has_ended(number) {
                frame.threads.remove(name.0);
                Effect::Stay
            } else {
                Effect::Wait
            }
        }
    }
}

/// Starts the thread of a number with a function that is on no object.
fn spawned<'p, H: Heap>(
    turning: &Turning<'_, 'p, H>,
    started: u32,
    name: NameId,
    entry: Entry<'p>,
    frame: &mut Frame<'p>,
) -> Result<Effect<'p>, Memory>
    requires this { entry.this ≡ None }
    requires ending { ending_of entry.ending ≡
        ending_by (function_core entry.function.now).result }
    ensures { IfOk result (λ effect. HasActed frame.old frame.new effect
        (spawned turning.now started name.0 entry.entry frame.old)) }
{
    let locals = take_arguments(turning.alloc, entry.function, &mut frame.values)?;
    frame.threads.set(name.0, started)?;
    Ok(Effect::Start(frame_of(turning, entry, locals)?))
}

/// Starts a thread with a function, whose arguments are the last values.
#[tactic(auto, unfolding(crate::specs::Steps::acted))]
pub(crate) fn spawn<'p, H: Heap>(
    turning: &Turning<'_, 'p, H>,
    at: Place,
    name: NameId,
    number: FnId,
    frame: &mut Frame<'p>,
) -> Result<Effect<'p>, Memory>
    ensures { IfOk result (λ effect.
        IsStep turning.now (it.spawn at name.0 number.0) frame.old frame.new effect) }
{
    let started = turning.started();
    if started >= THREAD_LIMIT {
        return Ok(Effect::Stop(Stop::Threads, at));
    }
    match turning.function(number) {
        None => Ok(Effect::Stay),
        Some(function) => {
            let this = None;
            let ending = ending_by(function.result);
            let entry = Entry {
                at,
                number,
                function,
                this,
                ending,
            };
            spawned(turning, started as u32, name, entry, frame)
        }
    }
}
