//! Calls, and the items that leave a frame.

ghost use Rattle.std.specs.Prelude.{◌≡◌, None, IfOk, option_map};
ghost use Rattle.cxx_core.specs.ExprView.{callee_core};
ghost use Rattle.cxx_core.specs.ProgramView.{function_core};
ghost use Rattle.step_machine.specs.ActCalls as spec;
ghost use Rattle.step_machine.specs.Effects as on;
ghost use Rattle.step_machine.specs.Effects.{goes};
ghost use Rattle.step_machine.specs.Frame as frames;
ghost use Rattle.step_machine.specs.Frame.{any_on, arguments};
ghost use Rattle.step_machine.specs.Item as it;
ghost use Rattle.step_frame.specs.Works.{ending_of, number_of};
ghost use Rattle.step_engine.specs.Steps.{HasActed, IsStep, called_on, called_pointed, called};

use crate::effect::Effect;
use crate::enter::{Entry, ending_by, enter, enter_pointed, object_under};
use crate::turning::Turning;
use agxx_base::{Memory, ObjectId, Place};
use cxx_core::{Callee, Function, Object};
use step_frame::{Ending, Frame};
use step_machine::Stop;
use step_world::Heap;

fn entry_of<'p>(callee: &Callee, function: &'p Function, this: Option<ObjectId>) -> Entry<'p>
    ensures at { result.at ≡ callee.now.at }
    ensures number { result.number ≡ callee.now.function }
    ensures function { result.function ≡ function.entry }
    ensures this { result.this ≡ this }
    ensures ending { ending_of result.ending ≡ frames.ending_by function.now.result }
{
    Entry {
        at: callee.at,
        number: callee.function,
        function,
        this,
        ending: ending_by(function.result),
    }
}

/// Calls a function on an object, or none where the pointer is null.
fn call_on<'p, H: Heap>(
    turning: &Turning<'_, 'p, H>,
    callee: &Callee,
    function: &'p Function,
    object: Option<ObjectId>,
    frame: &mut Frame<'p>,
) -> Result<Effect<'p>, Memory>
    ensures { IfOk result (λ effect. HasActed frame.old frame.new effect
        (called_on turning.now (callee_core callee.now) (function_core function.now)
        (option_map number_of object) (arguments (function_core function.now) frame.old)
        frame.old)) }
{
    match object {
        None => Ok(Effect::Stop(Stop::Null, callee.at)),
        Some(this) => match turning.class(this) {
            None => Ok(Effect::Stop(Stop::Dead, callee.at)),
            Some(live) => {
                if turning.setting.is_of(live, function.class) {
                    enter(turning, entry_of(callee, function, Some(this)), frame)
                } else {
                    Ok(Effect::Stay)
                }
            }
        },
    }
}

/// Calls a function on the object of the pointer below the arguments.
fn call_pointed<'p, H: Heap>(
    turning: &Turning<'_, 'p, H>,
    callee: &Callee,
    function: &'p Function,
    frame: &mut Frame<'p>,
) -> Result<Effect<'p>, Memory>
    ensures { IfOk result (λ effect. HasActed frame.old frame.new effect
        (called_pointed turning.now (callee_core callee.now) (function_core function.now)
        (arguments (function_core function.now) frame.old) frame.old)) }
{
    match object_under(function, &frame.values) {
        None => Ok(Effect::Stop(Stop::Null, callee.at)),
        Some(this) => match turning.class(this) {
            None => Ok(Effect::Stop(Stop::Dead, callee.at)),
            Some(live) => {
                if turning.setting.is_of(live, function.class) {
                    enter_pointed(turning, entry_of(callee, function, Some(this)), frame)
                } else {
                    Ok(Effect::Stay)
                }
            }
        },
    }
}

fn call_by<'p, H: Heap>(
    turning: &Turning<'_, 'p, H>,
    callee: &Callee,
    function: &'p Function,
    frame: &mut Frame<'p>,
) -> Result<Effect<'p>, Memory>
    ensures { IfOk result (λ effect. HasActed frame.old frame.new effect
        (called turning.now (callee_core callee.now) (function_core function.now) frame.old)) }
{
    match callee.object {
        None => enter(turning, entry_of(callee, function, None), frame),
        Some(Object::Own) => call_on(turning, callee, function, frame.this, frame),
        Some(Object::This) => call_on(turning, callee, function, frame.this, frame),
        Some(Object::Named(name, _)) => {
            let object = Some(turning.global_object(name));
            call_on(turning, callee, function, object, frame)
        }
        Some(Object::Pointed(_)) => call_pointed(turning, callee, function, frame),
    }
}

/// Calls a function.
#[tactic(auto, unfolding(crate::specs::Steps::acted))]
pub(crate) fn call<'p, H: Heap>(
    turning: &Turning<'_, 'p, H>,
    callee: &Callee,
    frame: &mut Frame<'p>,
) -> Result<Effect<'p>, Memory>
    ensures { IfOk result (λ effect.
        IsStep turning.now (it.call (callee_core callee.now)) frame.old frame.new effect) }
{
    match turning.function(callee.function) {
        None => Ok(Effect::Stay),
        Some(function) => call_by(turning, callee, function, frame),
    }
}

/// Leaves the frame with what is kept.
pub(crate) fn leave<'p>(at: Place, frame: &Frame<'p>) -> Effect<'p>
    ensures { HasActed frame.now frame.now result (spec.leave at frame.now) }
{
    if frame.threads.is_empty() {
        Effect::Back(frame.kept)
    } else {
        Effect::Stop(Stop::Joinable, at)
    }
}

fn end_returning<'p>(at: Place, frame: &Frame<'p>) -> Effect<'p>
    ensures { HasActed frame.now frame.now result
        (spec.joined frame.now.threads at (goes frame.now (on.back None))) }
{
    if frame.threads.is_empty() {
        Effect::Back(None)
    } else {
        Effect::Stop(Stop::Joinable, at)
    }
}

fn end_destroying<'p, H: Heap>(
    turning: &Turning<'_, 'p, H>,
    at: Place,
    frame: &Frame<'p>,
) -> Effect<'p>
    ensures { HasActed frame.now frame.now result
        (spec.end_destroying (λ o. any_on o turning.now.threads) at frame.now.this frame.now) }
{
    match frame.this {
        None => end_returning(at, frame),
        Some(object) => {
            if turning.is_busy(object) {
                Effect::Stop(Stop::Busy, at)
            } else if frame.threads.is_empty() {
                Effect::BackKilling(object)
            } else {
                Effect::Stop(Stop::Joinable, at)
            }
        }
    }
}

/// The end of a function's body.
#[tactic(auto, unfolding(crate::specs::Steps::acted))]
pub(crate) fn end<'p, H: Heap>(
    turning: &Turning<'_, 'p, H>,
    at: Place,
    ending: Ending,
    frame: &Frame<'p>,
) -> Effect<'p>
    ensures { IsStep turning.now (it.end at (ending_of ending)) frame.now frame.now result }
{
    match ending {
        Ending::Returns => end_returning(at, frame),
        Ending::LacksValue => {
            if frame.threads.is_empty() {
                Effect::Stop(Stop::NoReturn, at)
            } else {
                Effect::Stop(Stop::Joinable, at)
            }
        }
        Ending::Destroys => end_destroying(turning, at, frame),
    }
}
