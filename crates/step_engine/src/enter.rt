//! How a frame is entered.

ghost use Rattle.std.specs.Prelude.{◌≡◌, [], nat_lt, IfOk, OnOk, map, option_map};
ghost use Rattle.cxx_core.specs.ProgramView.{function_core, param_core};
ghost use Rattle.step_machine.specs.ActEnter as enter;
ghost use Rattle.step_machine.specs.Data.{first, object_of};
ghost use Rattle.step_machine.specs.Frame.{bind_all, depth_with, ending_by};
ghost use Rattle.step_machine.specs.Item as it;
ghost use Rattle.step_machine.specs.Item.{function_items};
ghost use Rattle.step_frame.specs.Works.{ending_of, number_of};
ghost use Rattle.step_engine.specs.Steps.{HasActed, IsStep, arguments_of, depth_in, destructed};
ghost use Rattle.step_engine.specs.Steps.{entered, entered_on, frame_of};
ghost use Rattle.step_engine.specs.Steps.{popped_if, without_pointer};

use crate::effect::Effect;
use crate::turning::Turning;
use agxx_base::{DEPTH_LIMIT, FnId, Memory, ObjectId, Place};
use cxx_core::{Function, FunctionKind, Param};
use cxx_names::ValueType;
use std::alloc::Global;
use step_frame::{Agenda, Ending, Frame, Stack, Work, converted, object_of};
use step_machine::{Datum, Stop};
use step_setting::Setting;
use step_world::{Change, Entries, Heap};

/// A function that is to be entered, on an object if on any.
#[derive(Clone, Copy)]
pub(crate) struct Entry<'p> {
    /// Where a stop is told.
    pub at: Place,
    pub number: FnId,
    pub function: &'p Function,
    pub this: Option<ObjectId>,
    pub ending: Ending,
}

/// What comes of a function with such a result that runs off its end.
pub(crate) fn ending_by(result_type: Option<ValueType>) -> Ending
    ensures { ending_of result ≡ ending_by result_type }
{
    match result_type {
        None => Ending::Returns,
        Some(_) => Ending::LacksValue,
    }
}

/// Takes the values of the parameters; the last parameter takes the top.
fn bind(
    params: &[Param],
    values: &mut Stack<Datum>,
    locals: &mut Entries<Datum>,
) -> Result<(), Memory>
    ensures { OnOk result ((values.new, locals.new) ≡
        bind_all (map param_core params.now) (values.old, locals.old)) }
{
    let mut index = params.len();
    while index > 0 {
        index -= 1;
        let param = params[index];
        let value = values.take();
        locals.set(param.name.0, converted(param.value_type, value))?;
    }
    Ok(())
}

/// Takes the arguments of a function off values.
pub(crate) fn take_arguments(
    alloc: Global,
    function: &Function,
    values: &mut Stack<Datum>,
) -> Result<Entries<Datum>, Memory>
    ensures { IfOk result (λ locals. (values.new, locals) ≡
        bind_all (function_core function.now).params (values.old, [])) }
{
    let mut locals = Entries::new(alloc);
    bind(function.params.as_slice(), values, &mut locals)?;
    Ok(locals)
}

/// The object of the pointer that stands below the arguments of a function.
#[tactic(auto, using(crate::proofs::Bindings::values_under))]
pub(crate) fn object_under(function: &Function, values: &Stack<Datum>) -> Option<ObjectId>
    ensures { option_map number_of result ≡
        object_of (first (bind_all (function_core function.now).params (values.now, [])).0) }
{
    object_of(values.under(function.params.len()))
}

/// What is left to do in a frame of a function.
fn items<'p>(alloc: Global, function: &'p Function, ending: Ending) -> Result<Agenda<'p>, Memory>
    ensures { IfOk result (λ items.
        items ≡ function_items (function_core function.now) (ending_of ending)) }
{
    let at = function.name.at;
    let body = function.body.as_slice();
    let mut agenda = Agenda::new(alloc);
    agenda.push(Work::End(at, ending))?;
    match (function.kind, function.base) {
        (FunctionKind::Constructor, Some(base)) => {
            agenda.push_stmts(body)?;
            agenda.push(Work::Up(at, base))?;
            agenda.push_exprs(function.base_arguments.as_slice())?;
            Ok(agenda)
        }
        (FunctionKind::Destructor, Some(base)) => {
            agenda.push(Work::Down(at, base))?;
            agenda.push_stmts(body)?;
            Ok(agenda)
        }
        _ => {
            agenda.push_stmts(body)?;
            Ok(agenda)
        }
    }
}

/// The frame of a function whose parameters are bound.
pub(crate) fn frame_of<'p, H: Heap>(
    turning: &Turning<'_, 'p, H>,
    entry: Entry<'p>,
    locals: Entries<Datum>,
) -> Result<Frame<'p>, Memory>
    ensures { IfOk result (λ frame. frame ≡ frame_of turning.now.setting entry.entry locals) }
{
    Ok(Frame {
        function: Some(entry.number),
        is_generated: turning.setting.is_generated_function(entry.function),
        this: entry.this,
        locals,
        threads: Entries::new(turning.alloc),
        values: Stack::new(turning.alloc),
        kept: None,
        agenda: items(turning.alloc, entry.function, entry.ending)?,
    })
}

/// Whether there may be one more counted frame on top of the running one.
fn has_depth(frame: &Frame, depth: usize) -> bool
    ensures { result ≡ nat_lt (depth_with frame.now depth) DEPTH_LIMIT }
{
    if frame.is_generated {
        depth < DEPTH_LIMIT
    } else {
        depth < DEPTH_LIMIT - 1
    }
}

/// Whether a frame of a function has room on top of the running one.
pub(crate) fn has_room<H: Heap>(turning: &Turning<'_, '_, H>, number: FnId, frame: &Frame) -> bool
    ensures { result ≡
        enter.has_room turning.now.setting (depth_in turning.now) number.0 frame.now }
{
    turning.setting.is_generated(number) || has_depth(frame, turning.depth())
}

/// Enters a function, whose arguments are the last values.
pub(crate) fn enter<'p, H: Heap>(
    turning: &Turning<'_, 'p, H>,
    entry: Entry<'p>,
    frame: &mut Frame<'p>,
) -> Result<Effect<'p>, Memory>
    ensures { IfOk result (λ effect. HasActed frame.old frame.new effect
        (entered turning.now entry.entry (arguments_of entry.entry frame.old) frame.old)) }
{
    if has_room(turning, entry.number, frame) {
        let locals = take_arguments(turning.alloc, entry.function, &mut frame.values)?;
        Ok(Effect::Enter(frame_of(turning, entry, locals)?))
    } else {
        Ok(Effect::Stop(Stop::Depth, entry.at))
    }
}

/// Enters a function, whose arguments are the last values, above a pointer.
pub(crate) fn enter_pointed<'p, H: Heap>(
    turning: &Turning<'_, 'p, H>,
    entry: Entry<'p>,
    frame: &mut Frame<'p>,
) -> Result<Effect<'p>, Memory>
    ensures { IfOk result (λ effect. HasActed frame.old frame.new effect
        (entered turning.now entry.entry (without_pointer (arguments_of entry.entry frame.old))
        frame.old)) }
{
    if has_room(turning, entry.number, frame) {
        let locals = take_arguments(turning.alloc, entry.function, &mut frame.values)?;
        let _ = frame.values.take();
        Ok(Effect::Enter(frame_of(turning, entry, locals)?))
    } else {
        Ok(Effect::Stop(Stop::Depth, entry.at))
    }
}

/// Enters `main`.
#[tactic(auto, unfolding(crate::specs::Steps::acted))]
pub(crate) fn run<'p, H: Heap>(
    turning: &Turning<'_, 'p, H>,
    frame: &mut Frame<'p>,
) -> Result<Effect<'p>, Memory>
    ensures { IfOk result (λ effect. IsStep turning.now it.run frame.old frame.new effect) }
{
    match turning.setting.main() {
        None => Ok(Effect::Stay),
        Some(number) => match turning.function(number) {
            None => Ok(Effect::Stay),
            Some(function) => {
                let entry = Entry {
                    at: function.name.at,
                    number,
                    function,
                    this: None,
                    ending: ending_by(function.result),
                };
                enter(turning, entry, frame)
            }
        },
    }
}

/// Enters a constructor, or the base's constructor or destructor, on an object.
pub(crate) fn enter_on<'p, H: Heap>(
    turning: &Turning<'_, 'p, H>,
    at: Place,
    this: Option<ObjectId>,
    number: Option<FnId>,
    frame: &mut Frame<'p>,
) -> Result<Effect<'p>, Memory>
    ensures { IfOk result (λ effect. HasActed frame.old frame.new effect
        (entered_on turning.now at this number frame.old)) }
{
    match number {
        None => Ok(Effect::Stay),
        Some(number) => match turning.function(number) {
            None => Ok(Effect::Stay),
            Some(function) => {
                let ending = Ending::Returns;
                let entry = Entry {
                    at,
                    number,
                    function,
                    this,
                    ending,
                };
                enter(turning, entry, frame)
            }
        },
    }
}

/// Enters the base's constructor or destructor.
#[tactic(auto, unfolding(crate::specs::Steps::acted))]
pub(crate) fn enter_base<'p, H: Heap>(
    turning: &Turning<'_, 'p, H>,
    at: Place,
    base: FnId,
    frame: &mut Frame<'p>,
) -> Result<Effect<'p>, Memory>
    ensures up { IfOk result (λ effect.
        IsStep turning.now (it.up at base.0) frame.old frame.new effect) }
    ensures down { IfOk result (λ effect.
        IsStep turning.now (it.down at base.0) frame.old frame.new effect) }
{
    enter_on(turning, at, frame.this, Some(base), frame)
}

/// Takes off the top value, or leaves it.
fn pop_if(pops: bool, frame: &mut Frame)
    ensures { frame.new ≡ popped_if pops frame.old }
{
    if pops {
        let _ = frame.values.take();
    }
}

/// Enters the destructor of an object, which is destroyed at once where it has none. The top value is taken off first,
/// if it is the pointer to the object.
pub(crate) fn destruct<'p, H: Heap>(
    turning: &Turning<'_, 'p, H>,
    at: Place,
    object: ObjectId,
    number: Option<FnId>,
    pops: bool,
    frame: &mut Frame<'p>,
) -> Result<Effect<'p>, Memory>
    ensures { IfOk result (λ effect. HasActed frame.old frame.new effect
        (destructed turning.now at object number (popped_if pops frame.old))) }
{
    let Some(number) = number else {
        pop_if(pops, frame);
        return Ok(Effect::Change(Change::Kill(object)));
    };
    let Some(function) = turning.function(number) else {
        pop_if(pops, frame);
        return Ok(Effect::Change(Change::Kill(object)));
    };
    if !has_room(turning, number, frame) {
        return Ok(Effect::Stop(Stop::Depth, at));
    }
    pop_if(pops, frame);
    let locals = take_arguments(turning.alloc, function, &mut frame.values)?;
    let this = Some(object);
    let ending = Ending::Destroys;
    let entry = Entry {
        at,
        number,
        function,
        this,
        ending,
    };
    Ok(Effect::Enter(frame_of(turning, entry, locals)?))
}
