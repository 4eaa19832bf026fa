//! Items that read or write variables, members and the output.

ghost use Rattle.std.specs.Prelude.{◌≡◌, ◌+◌, nat_le, length, IfOk, option_map};
ghost use Rattle.std.specs.Fmt.{signed_decimal};
ghost use Rattle.cxx_arith.specs.Numbers as numbers;
ghost use Rattle.cxx_core.specs.CoreExpr as c;
ghost use Rattle.cxx_core.specs.ExprView.{variable_core, object_core, left_core};
ghost use Rattle.step_machine.specs.ActMembers as spec;
ghost use Rattle.step_machine.specs.Item as it;
ghost use Rattle.step_machine.specs.World.{word_at, variable_at};
ghost use Rattle.step_frame.specs.Works.{number_of};
ghost use Rattle.step_engine.specs.Steps.{HasActed, IsStep};

use crate::effect::Effect;
use crate::turning::Turning;
use agxx_base::{Memory, NumKind, OUTPUT_LIMIT, ObjectId, Place};
use cxx_arith::{Value, number};
use cxx_core::{Left, Member, Object, Variable};
use itoa::Buffer;
use step_frame::{Frame, as_number, bits_of, converted, object_of};
use step_machine::{Datum, Stop};
use step_world::{Change, Heap, World};

/// The value of a variable.
fn variable_now<H: Heap>(world: &World<H>, frame: &Frame, variable: Variable) -> Datum
    ensures { result ≡
        spec.variable_now (variable_at world.now) frame.now (variable_core variable) }
{
    match variable {
        Variable::Local(name, value_type) => frame.local(name, value_type),
        Variable::Global(_, name, _) => world.variable(name),
    }
}

/// The object that is meant, if its pointer isn't null.
fn object_now<H: Heap>(
    turning: &Turning<'_, '_, H>,
    frame: &Frame,
    object: Object,
) -> Option<ObjectId>
    ensures { option_map number_of result ≡ spec.object_now turning.now.setting
        (variable_at turning.now.world) frame.now (object_core object) }
{
    match object {
        Object::Own => frame.this,
        Object::This => frame.this,
        Object::Named(name, _) => Some(turning.global_object(name)),
        Object::Pointed(variable) => object_of(variable_now(turning.world, frame, variable)),
    }
}

fn read_word<'p>(
    at: Place,
    kind: NumKind,
    bits: Option<u64>,
    frame: &mut Frame<'p>,
) -> Result<Effect<'p>, Memory>
    ensures { IfOk result (λ effect. HasActed frame.old frame.new effect
        (spec.read_word at kind bits frame.old)) }
{
    match bits {
        None => Ok(Effect::Stop(Stop::Dead, at)),
        Some(bits) => {
            frame.values.push(Datum::Number(Value { kind, bits }))?;
            Ok(Effect::Stay)
        }
    }
}

#[tactic(auto, unfolding(crate::specs::Steps::acted))]
fn read_member<'p, H: Heap>(
    turning: &Turning<'_, 'p, H>,
    member: Member,
    frame: &mut Frame<'p>,
) -> Result<Effect<'p>, Memory>
    ensures { IfOk result (λ effect. IsStep turning.now
        (it.expr (c.read (left_core (Left.Member member)))) frame.old frame.new effect) }
{
    match object_now(turning, frame, member.object) {
        None => Ok(Effect::Stop(Stop::Null, member.at)),
        Some(object) => {
            if turning.is_other(member.class, object) {
                return Ok(Effect::Stay);
            }
            let word = turning.setting.word_number(member.class, member.name);
            read_word(
                member.at,
                member.kind,
                turning.world.word(object, word),
                frame,
            )
        }
    }
}

#[tactic(auto, unfolding(crate::specs::Steps::acted))]
fn read_variable<'p, H: Heap>(
    turning: &Turning<'_, 'p, H>,
    variable: Variable,
    frame: &mut Frame<'p>,
) -> Result<Effect<'p>, Memory>
    ensures { IfOk result (λ effect. IsStep turning.now
        (it.expr (c.read (left_core (Left.Variable variable)))) frame.old frame.new effect) }
{
    let value = variable_now(turning.world, frame, variable);
    frame.values.push(value)?;
    Ok(Effect::Stay)
}

/// Reads what may be assigned to.
pub(crate) fn read<'p, H: Heap>(
    turning: &Turning<'_, 'p, H>,
    left: Left,
    frame: &mut Frame<'p>,
) -> Result<Effect<'p>, Memory>
    ensures { IfOk result (λ effect. IsStep turning.now
        (it.expr (c.read (left_core left))) frame.old frame.new effect) }
{
    match left {
        Left::Variable(variable) => read_variable(turning, variable, frame),
        Left::Member(member) => read_member(turning, member, frame),
    }
}

fn put_variable<'p>(variable: Variable, frame: &mut Frame<'p>) -> Result<Effect<'p>, Memory>
    ensures { IfOk result (λ effect. HasActed frame.old frame.new effect
        (spec.put_variable (variable_core variable) frame.old)) }
{
    let value = frame.values.take();
    match variable {
        Variable::Local(name, value_type) => {
            frame.locals.set(name.0, converted(value_type, value))?;
            Ok(Effect::Stay)
        }
        Variable::Global(_, name, value_type) => {
            Ok(Effect::Change(Change::Assign(name, converted(value_type, value))))
        }
    }
}

fn put_word<'p, H: Heap>(
    world: &World<H>,
    at: Place,
    kind: NumKind,
    object: ObjectId,
    word: u32,
    frame: &mut Frame<'p>,
) -> Effect<'p>
    ensures { HasActed frame.old frame.new result
        (spec.put_word at kind object.0 word (word_at world.now object.0 word) frame.old) }
{
    match world.word(object, word) {
        None => Effect::Stop(Stop::Dead, at),
        Some(_) => {
            let value = frame.values.take();
            Effect::Change(Change::Store(object, word, bits_of(kind, value)))
        }
    }
}

#[tactic(auto, unfolding(crate::specs::Steps::acted))]
fn put_member<'p, H: Heap>(
    turning: &Turning<'_, 'p, H>,
    member: Member,
    frame: &mut Frame<'p>,
) -> Effect<'p>
    ensures { IsStep turning.now (it.put (left_core (Left.Member member)))
        frame.old frame.new result }
{
    match object_now(turning, frame, member.object) {
        None => Effect::Stop(Stop::Null, member.at),
        Some(object) => {
            if turning.is_other(member.class, object) {
                return Effect::Stay;
            }
            let word = turning.setting.word_number(member.class, member.name);
            put_word(turning.world, member.at, member.kind, object, word, frame)
        }
    }
}

/// Assigns the value to what may be assigned to.
#[tactic(auto, unfolding(crate::specs::Steps::acted))]
pub(crate) fn put<'p, H: Heap>(
    turning: &Turning<'_, 'p, H>,
    left: Left,
    frame: &mut Frame<'p>,
) -> Result<Effect<'p>, Memory>
    ensures { IfOk result (λ effect.
        IsStep turning.now (it.put (left_core left)) frame.old frame.new effect) }
{
    match left {
        Left::Variable(variable) => put_variable(variable, frame),
        Left::Member(member) => Ok(put_member(turning, member, frame)),
    }
}

/// Whether so many more bytes may be printed.
fn has_output(printed: usize, more: usize) -> bool
    ensures { result ≡ nat_le (printed + more) OUTPUT_LIMIT }
{
    printed <= OUTPUT_LIMIT && more <= OUTPUT_LIMIT - printed
}

/// Prints a text.
#[tactic(auto, unfolding(crate::specs::Steps::acted))]
pub(crate) fn show<'p, H: Heap>(
    turning: &Turning<'_, 'p, H>,
    at: Place,
    text: &'p [u8],
    frame: &Frame<'p>,
) -> Effect<'p>
    ensures { IsStep turning.now (it.show at text.now) frame.now frame.now result }
{
    if has_output(turning.world.printed(), text.len()) {
        Effect::Change(Change::Show(text))
    } else {
        Effect::Stop(Stop::Output, at)
    }
}

/// How many bytes a number takes in decimal.
fn decimal_len(value: Value) -> usize
    ensures { result ≡ length (signed_decimal (numbers.number value)) }
{
    Buffer::new().format(number(value)).len()
}

/// Prints the value, which is a number.
#[tactic(auto, unfolding(crate::specs::Steps::acted))]
pub(crate) fn print<'p, H: Heap>(
    turning: &Turning<'_, 'p, H>,
    at: Place,
    frame: &mut Frame<'p>,
) -> Effect<'p>
    ensures { IsStep turning.now (it.print at) frame.old frame.new result }
{
    let value = as_number(frame.values.top());
    if has_output(turning.world.printed(), decimal_len(value)) {
        let _ = frame.values.take();
        Effect::Change(Change::Print(value))
    } else {
        Effect::Stop(Stop::Output, at)
    }
}
