//! Items that construct an object or destroy one.

ghost use Rattle.std.specs.Prelude.{◌≡◌, Some, IfOk, option_map};
ghost use Rattle.cxx_core.specs.ExprView.{exprs_core};
ghost use Rattle.step_machine.specs.ActObjects as spec;
ghost use Rattle.step_machine.specs.Item as it;
ghost use Rattle.step_frame.specs.Works.{ending_of, number_of};
ghost use Rattle.step_engine.specs.Steps.{HasActed, IsStep, created, destroyed, popped_if};

use crate::effect::{Effect, local};
use crate::enter::{Entry, destruct, enter_on, frame_of, has_room, take_arguments};
use crate::turning::Turning;
use agxx_base::{ClassId, Memory, OBJECT_LIMIT, ObjectId, Place};
use cxx_core::Expr;
use step_frame::{Ending, Frame, Work, object_of};
use step_machine::{Datum, Stop};
use step_world::{Change, Heap};

/// Constructs a global object, whose arguments are the last values.
#[tactic(auto, unfolding(crate::specs::Steps::acted))]
pub(crate) fn build<'p, H: Heap>(
    turning: &Turning<'_, 'p, H>,
    at: Place,
    object: ObjectId,
    class: ClassId,
    frame: &mut Frame<'p>,
) -> Result<Effect<'p>, Memory>
    ensures { IfOk result (λ effect.
        IsStep turning.now (it.build at object.0 class) frame.old frame.new effect) }
{
    match turning.class(object) {
        None => Ok(Effect::Stop(Stop::Dead, at)),
        Some(_) => {
            let constructor = turning.setting.constructor_of(class);
            enter_on(turning, at, Some(object), constructor, frame)
        }
    }
}

/// Constructs a global object, whose arguments are evaluated first where there are some.
#[tactic(auto, unfolding(crate::specs::Steps::acted))]
pub(crate) fn make<'p, H: Heap>(
    turning: &Turning<'_, 'p, H>,
    at: Place,
    object: ObjectId,
    class: ClassId,
    arguments: &'p [Expr],
    frame: &mut Frame<'p>,
) -> Result<Effect<'p>, Memory>
    ensures { IfOk result (λ effect. IsStep turning.now
        (it.make at object.0 class (exprs_core arguments.now)) frame.old frame.new effect) }
{
    match turning.class(object) {
        None => Ok(Effect::Stop(Stop::Dead, at)),
        Some(_) => match arguments {
            [] => {
                let constructor = turning.setting.constructor_of(class);
                enter_on(turning, at, Some(object), constructor, frame)
            }
            [_, ..] => {
                let build = Work::Build(at, object, class);
                Ok(local(frame.evaluate_all(arguments, build)?))
            }
        },
    }
}

/// Makes an object of a number, whose class has no constructor.
fn new_plain<'p, H: Heap>(
    turning: &Turning<'_, 'p, H>,
    class: ClassId,
    made: u32,
    frame: &mut Frame<'p>,
) -> Result<Effect<'p>, Memory>
    ensures { IfOk result (λ effect. HasActed frame.old frame.new effect
        (spec.new_plain turning.now.setting 0 made class frame.old)) }
{
    frame.values.push(Datum::Pointer(ObjectId(made)))?;
    Ok(Effect::Change(Change::Create(class, turning.setting.word_count(class))))
}

/// Makes an object of a number and enters its constructor, whose arguments are the last values.
fn created<'p, H: Heap>(
    turning: &Turning<'_, 'p, H>,
    class: ClassId,
    made: u32,
    entry: Entry<'p>,
    frame: &mut Frame<'p>,
) -> Result<Effect<'p>, Memory>
    requires this { option_map number_of entry.this ≡ Some made }
    requires ending { ending_of entry.ending ≡ it.returns }
    ensures { IfOk result (λ effect. HasActed frame.old frame.new effect
        (created turning.now made class entry.entry frame.old)) }
{
    if has_room(turning, entry.number, frame) {
        let locals = take_arguments(turning.alloc, entry.function, &mut frame.values)?;
        frame.values.push(Datum::Pointer(ObjectId(made)))?;
        let next = frame_of(turning, entry, locals)?;
        Ok(Effect::CreateEntering(class, turning.setting.word_count(class), next))
    } else {
        Ok(Effect::Stop(Stop::Depth, entry.at))
    }
}

/// Makes an object, whose constructor's arguments are the last values.
#[tactic(auto, unfolding(crate::specs::Steps::acted))]
pub(crate) fn new<'p, H: Heap>(
    turning: &Turning<'_, 'p, H>,
    at: Place,
    class: ClassId,
    frame: &mut Frame<'p>,
) -> Result<Effect<'p>, Memory>
    ensures { IfOk result (λ effect.
        IsStep turning.now (it.new at class) frame.old frame.new effect) }
{
    let made = turning.world.made();
    if made >= OBJECT_LIMIT {
        return Ok(Effect::Stop(Stop::Objects, at));
    }
    let made = made as u32;
    match turning.setting.constructor_of(class) {
        None => new_plain(turning, class, made, frame),
        Some(number) => match turning.function(number) {
            None => new_plain(turning, class, made, frame),
            Some(function) => {
                let this = Some(ObjectId(made));
                let ending = Ending::Returns;
                let entry = Entry {
                    at,
                    number,
                    function,
                    this,
                    ending,
                };
                created(turning, class, made, entry, frame)
            }
        },
    }
}

/// Enters the destructor of an object that no frame has as its `this`. The top value is taken off first, if it is the
/// pointer to the object.
fn destroy<'p, H: Heap>(
    turning: &Turning<'_, 'p, H>,
    at: Place,
    object: ObjectId,
    class: ClassId,
    pops: bool,
    frame: &mut Frame<'p>,
) -> Result<Effect<'p>, Memory>
    ensures { IfOk result (λ effect. HasActed frame.old frame.new effect
        (destroyed turning.now at object class frame.old (popped_if pops frame.old))) }
{
    if frame.is_on(object) || turning.is_busy(object) {
        return Ok(Effect::Stop(Stop::Busy, at));
    }
    let destructor = turning.setting.destructor_of(class);
    destruct(turning, at, object, destructor, pops, frame)
}

/// Destroys a global object.
#[tactic(auto, unfolding(crate::specs::Steps::acted))]
pub(crate) fn unmake<'p, H: Heap>(
    turning: &Turning<'_, 'p, H>,
    at: Place,
    object: ObjectId,
    class: ClassId,
    frame: &mut Frame<'p>,
) -> Result<Effect<'p>, Memory>
    ensures { IfOk result (λ effect.
        IsStep turning.now (it.unmake at object.0 class) frame.old frame.new effect) }
{
    match turning.class(object) {
        None => Ok(Effect::Stop(Stop::Dead, at)),
        Some(_) => destroy(turning, at, object, class, false, frame),
    }
}

/// `delete` of the pointer on top.
#[tactic(auto, unfolding(crate::specs::Steps::acted))]
pub(crate) fn delete<'p, H: Heap>(
    turning: &Turning<'_, 'p, H>,
    at: Place,
    class: ClassId,
    frame: &mut Frame<'p>,
) -> Result<Effect<'p>, Memory>
    ensures { IfOk result (λ effect.
        IsStep turning.now (it.delete at class) frame.old frame.new effect) }
{
    match object_of(frame.values.top()) {
        None => {
            let _ = frame.values.take();
            Ok(Effect::Stay)
        }
        Some(object) => match turning.class(object) {
            None => Ok(Effect::Stop(Stop::Dead, at)),
            Some(found) => {
                if found.0 == class.0 {
                    destroy(turning, at, object, class, true, frame)
                } else {
                    Ok(Effect::Stop(Stop::WrongDelete, at))
                }
            }
        },
    }
}
