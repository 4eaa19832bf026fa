//! What an item does that was taken off a frame.

ghost use Rattle.std.specs.Prelude.{◌≡◌, true, IfOk, option_map};
ghost use Rattle.cxx_arith.specs.Numbers as numbers;
ghost use Rattle.cxx_core.specs.ExprView.{expr_core};
ghost use Rattle.cxx_core.specs.StmtView.{stmt_core};
ghost use Rattle.step_machine.specs.Act as spec;
ghost use Rattle.step_machine.specs.Data as datums;
ghost use Rattle.step_machine.specs.Item as it;
ghost use Rattle.step_frame.specs.Works.{item_of, number_of};
ghost use Rattle.step_engine.specs.Families.{goes_on};
ghost use Rattle.step_engine.specs.Steps.{IsStep};

use crate::calls::{call, end, leave};
use crate::effect::{Effect, local};
use crate::enter::{enter_base, run};
use crate::members::{print, put, read, show};
use crate::objects::{build, delete, make, new, unmake};
use crate::threads::{join, lock, spawn, unlock};
use crate::turning::Turning;
use agxx_base::{Memory, NumKind, ObjectId};
use cxx_arith::{Value, convert, number};
use cxx_core::{Expr, Stmt};
use step_frame::{Frame, Work, as_number};
use step_machine::Datum;
use step_world::Heap;

fn this_by(this: Option<ObjectId>) -> Datum
    ensures { result ≡ spec.this_by (option_map number_of this) }
{
    match this {
        None => Datum::Null,
        Some(object) => Datum::Pointer(object),
    }
}

/// The first step of an expression.
#[tactic(auto, unfolding(crate::specs::Steps::acted))]
fn expr<'p, H: Heap>(
    turning: &Turning<'_, 'p, H>,
    value: &'p Expr,
    frame: &mut Frame<'p>,
) -> Result<Effect<'p>, Memory>
    ensures { IfOk result (λ effect.
        IsStep turning.now (it.expr (expr_core value.now)) frame.old frame.new effect) }
{
    match value {
        Expr::Number(value) => Ok(local(frame.push_value(Datum::Number(*value))?)),
        Expr::Null => Ok(local(frame.push_value(Datum::Null)?)),
        Expr::This(_) => Ok(local(frame.push_value(this_by(frame.this))?)),
        #[tactic(auto)]
        Expr::Read(left) => read(turning, *left, frame),
        Expr::Address(name, _) => {
            Ok(local(frame.push_value(Datum::Pointer(turning.global_object(*name)))?))
        }
        Expr::Unary(at, op, _, operand) => Ok(local(frame.unary(*at, *op, operand.get())?)),
        Expr::Binary(at, op, _, _, left, right) => {
            Ok(local(frame.binary(*at, *op, left.get(), right.get())?))
        }
        Expr::And(_, _, left, right) => Ok(local(frame.logical(true, left.get(), right.get())?)),
        Expr::Or(_, _, left, right) => Ok(local(frame.logical(false, left.get(), right.get())?)),
        Expr::Cast(kind, _, operand) => {
            Ok(local(frame.evaluate(operand.get(), Work::Cast(*kind))?))
        }
        Expr::Call(callee, arguments) => { Ok(local(frame.call(*callee, arguments.as_slice())?)) }
        Expr::New(at, class, arguments) => {
            Ok(local(frame.evaluate_all(arguments.as_slice(), Work::New(*at, *class))?))
        }
        Expr::Wrong(_) => Ok(local(frame.push_value(zero())?)),
    }
}

/// What stands for what no accepted program has.
fn zero() -> Datum
    ensures { result ≡ datums.from_bits_of NumKind.I32 0 }
{
    Datum::Number(Value {
        kind: NumKind::I32,
        bits: 0,
    })
}

/// The first step of a statement.
#[tactic(auto, unfolding(crate::specs::Steps::acted))]
fn stmt<'p, H: Heap>(
    turning: &Turning<'_, 'p, H>,
    statement: &'p Stmt,
    frame: &mut Frame<'p>,
) -> Result<Effect<'p>, Memory>
    ensures { IfOk result (λ effect.
        IsStep turning.now (it.stmt (stmt_core statement.now)) frame.old frame.new effect) }
{
    match statement {
        Stmt::Block(body) => Ok(local(frame.block(body.as_slice())?)),
        Stmt::Declare(name, value_type, source) => {
            Ok(local(frame.declare(*name, *value_type, source.as_ref())?))
        }
        Stmt::Assign(left, value) => Ok(local(frame.evaluate(value.get(), Work::Put(*left))?)),
        Stmt::Update(at, op, _, _, left, value) => {
            Ok(local(frame.update(*at, *op, *left, value.get())?))
        }
        Stmt::Run(call) => Ok(local(frame.run(call.get())?)),
        #[tactic(auto)]
        Stmt::Join(at, name) => Ok(join(turning, *at, *name, frame)),
        #[tactic(auto)]
        Stmt::Lock(at, mutex) => Ok(lock(turning, *at, *mutex, frame)),
        #[tactic(auto)]
        Stmt::Unlock(at, mutex) => Ok(unlock(turning, *at, *mutex, frame)),
        Stmt::Branch(condition, yes, otherwise) => {
            let branch = Work::Branch(yes.as_slice(), otherwise.as_slice());
            Ok(local(frame.evaluate(condition.get(), branch)?))
        }
        Stmt::While(condition, body) => {
            Ok(local(frame.evaluate(
                condition.get(),
                Work::Loop(condition.get(), body.as_slice()),
            )?))
        }
        Stmt::For(start, condition, step, body) => {
            Ok(local(frame.for_from(
                start.as_slice(),
                condition.get(),
                step.as_slice(),
                body.as_slice(),
            )?))
        }
        Stmt::Return(at) => Ok(local(frame.leave_next(*at)?)),
        Stmt::ReturnValue(at, value_type, source) => {
            Ok(local(frame.return_value(*at, *value_type, source)?))
        }
        Stmt::Delete(at, class, value) => {
            Ok(local(frame.evaluate(value.get(), Work::Delete(*at, *class))?))
        }
        Stmt::Print(operands) => Ok(local(frame.print(operands.as_slice())?)),
        Stmt::Thread(at, name, function, _, arguments) => {
            Ok(local(frame.evaluate_all(arguments.as_slice(), Work::Spawn(*at, *name, *function))?))
        }
        Stmt::Abort => {
            Ok(Effect::Halt(
                frame.this,
                turning.setting.class_of_function(frame.function),
            ))
        },
        Stmt::Wrong(_) => Ok(Effect::Stay),
    }
}

/// The value of `main`, which is what is kept last.
#[tactic(auto, using(crate::proofs::ExitValues::exit_value_fits))]
fn exit_value(datum: Datum) -> i32
    ensures { result ≡ numbers.number (numbers.convert_of NumKind.I32 (datums.as_number datum)) }
{
    number(convert(NumKind::I32, as_number(datum))) as i32
}

/// Does an item that works on the values of its frame, or goes on there or leaves it.
#[tactic(auto, unfolding(crate::specs::Steps::acted))]
fn go_on<'p, H: Heap>(
    turning: &Turning<'_, 'p, H>,
    work: Work<'p>,
    frame: &mut Frame<'p>,
) -> Result<Effect<'p>, Memory>
    requires { goes_on work ≡ true }
    ensures { IfOk result (λ effect.
        IsStep turning.now (item_of work.entry) frame.old frame.new effect) }
{
    match work {
        Work::Finish => Ok(Effect::End(exit_value(frame.values.top()))),
        Work::While(condition, body) => {
            Ok(local(frame.evaluate(condition, Work::Loop(condition, body))?))
        }
        Work::OpOne(at, op) => Ok(local(frame.op_one(at, op)?)),
        Work::OpTwo(at, op) => Ok(local(frame.op_two(at, op)?)),
        Work::OpLeft(at, op) => Ok(local(frame.op_left(at, op)?)),
        Work::Cast(kind) => Ok(local(frame.cast(kind)?)),
        Work::Short(is_and, right) => Ok(local(frame.short(is_and, right)?)),
        Work::Truth => Ok(local(frame.truth()?)),
        Work::Drop => Ok(local(frame.drop_value())),
        Work::Bind(name, value_type) => Ok(local(frame.bind(name, value_type)?)),
        Work::Keep(value_type) => Ok(local(frame.keep(value_type))),
        Work::Branch(yes, otherwise) => Ok(local(frame.branch(yes, otherwise)?)),
        Work::Loop(condition, body) => Ok(local(frame.loop_while(condition, body)?)),
        Work::ForTest(condition, step, body) => {
            Ok(local(frame.evaluate(condition, Work::ForLoop(condition, step, body))?))
        }
        Work::ForLoop(condition, step, body) => Ok(local(frame.loop_for(condition, step, body)?)),
        Work::Leave(at) => Ok(leave(at, frame)),
        #[tactic(auto)]
        Work::End(at, ending) => Ok(end(turning, at, ending, frame)),
        _ => unreachable!(),
    }
}

/// What an item does that was taken off a frame.
pub(crate) fn act<'p, H: Heap>(
    turning: &Turning<'_, 'p, H>,
    work: Work<'p>,
    frame: &mut Frame<'p>,
) -> Result<Effect<'p>, Memory>
    ensures { IfOk result (λ effect.
        IsStep turning.now (item_of work.entry) frame.old frame.new effect) }
{
    match work {
        Work::Make(at, object, class, arguments) => {
            make(turning, at, object, class, arguments, frame)
        }
        Work::Build(at, object, class) => build(turning, at, object, class, frame),
        Work::Unmake(at, object, class) => unmake(turning, at, object, class, frame),
        Work::Run => run(turning, frame),
        Work::Stmt(statement) => stmt(turning, statement, frame),
        Work::Expr(value) => expr(turning, value, frame),
        Work::Read(left) => read(turning, left, frame),
        Work::Put(left) => put(turning, left, frame),
        Work::Print(at) => Ok(print(turning, at, frame)),
        Work::Show(at, text) => Ok(show(turning, at, text, frame)),
        Work::Call(callee) => call(turning, &callee, frame),
        Work::New(at, class) => new(turning, at, class, frame),
        Work::Delete(at, class) => delete(turning, at, class, frame),
        Work::Spawn(at, name, function) => spawn(turning, at, name, function, frame),
        Work::Up(at, base) => enter_base(turning, at, base, frame),
        Work::Down(at, base) => enter_base(turning, at, base, frame),
        _ => go_on(turning, work, frame),
    }
}
