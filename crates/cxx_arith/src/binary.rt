//! Operators with two operands.

ghost use Rattle.std.specs.Prelude.{◌≡◌, ◌<◌, IsTrue, IfOk, IfErr, false, ◌+ℤ◌, ◌-ℤ◌, ◌*ℤ◌, pos, ◌^◌, unsigned_abs};
ghost use Rattle.std.specs.Int.{int_shr};
ghost use Rattle.cxx_arith.specs.Kinds as kinds;
ghost use Rattle.cxx_arith.specs.declared.value.ArithStop.TheVariants as stop;
ghost use Rattle.cxx_arith.specs.Numbers as numbers;
ghost use Rattle.cxx_arith.specs.Bounds.{Fits64, IsWide};
ghost use Rattle.cxx_arith.specs.Arithmetic as arithmetic;

use crate::kinds::{common_kind, half, is_signed, lowest, promoted, width};
use crate::unary::convert;
use crate::value::{ArithStop, Value, flag, held_in, number, value_of};
use agxx_base::NumKind;
use cxx_tree::BinOp;

fn operand(kind: NumKind, value: Value) -> i128
    ensures value { result ≡ arithmetic.operand kind value }
    ensures wide { IsWide result }
    ensures fits { Fits64 (kinds.is_signed kind) result }
{
    number(convert(kind, value))
}

#[tactic(auto, using(crate::proofs::Wide::wide))]
fn sum(kind: NumKind, a: i128, b: i128) -> Result<Value, ArithStop>
    requires a { IsWide a }
    requires b { IsWide b }
    ensures { result ≡ arithmetic.held_in kind (a +ℤ b) }
{
    held_in(kind, a + b)
}

#[tactic(auto, using(crate::proofs::Wide::wide))]
fn difference(kind: NumKind, a: i128, b: i128) -> Result<Value, ArithStop>
    requires a { IsWide a }
    requires b { IsWide b }
    ensures { result ≡ arithmetic.held_in kind (a -ℤ b) }
{
    held_in(kind, a - b)
}

fn product(kind: NumKind, a: i128, b: i128) -> Result<Value, ArithStop>
    requires a { Fits64 (kinds.is_signed kind) a }
    requires b { Fits64 (kinds.is_signed kind) b }
    ensures { result ≡ arithmetic.held_in kind (a *ℤ b) }
{
    if is_signed(kind) {
        return held_in(kind, a * b);
    }
    let bits = lowest(kind, a as u128 * b as u128);
    Ok(Value { kind, bits })
}

#[tactic(auto, using(crate::proofs::Wide::wide))]
fn quotient(kind: NumKind, a: i128, b: i128) -> Result<Value, ArithStop>
    requires a { IsWide a }
    requires b { IsWide b }
    ensures { result ≡ arithmetic.quotient kind a b }
{
    if b == 0 {
        return Err(ArithStop::ZeroDivisor);
    }
    held_in(kind, a / b)
}

fn is_least_by_minus_one(kind: NumKind, a: i128, b: i128) -> bool
    ensures { result ≡ arithmetic.is_least_by_minus_one kind a b }
{
    is_signed(kind) && a == -half(kind) && b == -1
}

#[tactic(auto, using(crate::proofs::Wide::wide))]
fn remainder(kind: NumKind, a: i128, b: i128) -> Result<Value, ArithStop>
    requires a { IsWide a }
    requires b { IsWide b }
    ensures { result ≡ arithmetic.remainder kind a b }
{
    if b == 0 {
        return Err(ArithStop::ZeroDivisor);
    }
    if is_least_by_minus_one(kind, a, b) {
        return Err(ArithStop::Overflow);
    }
    Ok(value_of(kind, a % b))
}

/// How far a shift goes in a kind.
fn shift_count(kind: NumKind, right: Value) -> Result<u32, ArithStop>
    ensures ok { IfOk result (λ n. IsTrue (arithmetic.is_count kind (numbers.number right))
        × (n ≡ unsigned_abs (numbers.number right))) }
    ensures small { IfOk result (λ n. n < 64) }
    ensures err { IfErr result (λ why. (arithmetic.is_count kind (numbers.number right) ≡ false)
        × (why ≡ stop.Shift)) }
{
    let count = number(right);
    if 0 <= count && count < i128::from(width(kind)) {
        Ok(count as u32)
    } else {
        Err(ArithStop::Shift)
    }
}

fn shifted_left(kind: NumKind, value: Value, count: u32) -> Value
    requires { count < 64 }
    ensures { result ≡ numbers.value_of kind (numbers.number value *ℤ pos (2 ^ count)) }
{
    value_of(kind, number(value) * (1 << count))
}

fn shifted_right(kind: NumKind, value: Value, count: u32) -> Value
    requires { count < 64 }
    ensures { result ≡ numbers.value_of kind (int_shr (numbers.number value) count) }
{
    value_of(kind, number(value) >> count)
}

fn shift_left(left: Value, right: Value) -> Result<Value, ArithStop>
    ensures { result ≡ arithmetic.shifted (λ a count. a *ℤ pos (2 ^ count)) left right }
{
    let kind = promoted(left.kind);
    let count = shift_count(kind, right)?;
    Ok(shifted_left(kind, left, count))
}

fn shift_right(left: Value, right: Value) -> Result<Value, ArithStop>
    ensures { result ≡ arithmetic.shifted int_shr left right }
{
    let kind = promoted(left.kind);
    let count = shift_count(kind, right)?;
    Ok(shifted_right(kind, left, count))
}

/// The bits of a number in a kind.
fn bits_in(kind: NumKind, number: i128) -> u64
    ensures { result ≡ (numbers.value_of kind number).bits }
{
    value_of(kind, number).bits
}

/// What an operator gives that has two operands, which are numbers. Both have been evaluated, so `&&` and `||` are none
/// of them.
pub fn apply(op: BinOp, left: Value, right: Value) -> Result<Value, ArithStop>
    requires { IsTrue (arithmetic.is_arithmetic op) }
    ensures { result ≡ arithmetic.apply_of op left right }
{
    let kind = common_kind(left.kind, right.kind);
    let a = operand(kind, left);
    let b = operand(kind, right);
    match op {
        BinOp::Or | BinOp::And => unreachable!(),
        BinOp::BitOr => Ok(Value {
            kind,
            bits: bits_in(kind, a) | bits_in(kind, b),
        }),
        BinOp::BitXor => Ok(Value {
            kind,
            bits: bits_in(kind, a) ^ bits_in(kind, b),
        }),
        BinOp::BitAnd => Ok(Value {
            kind,
            bits: bits_in(kind, a) & bits_in(kind, b),
        }),
        BinOp::Equal => Ok(flag(a == b)),
        BinOp::NotEqual => Ok(flag(a != b)),
        BinOp::Less => Ok(flag(a < b)),
        BinOp::LessEqual => Ok(flag(a <= b)),
        BinOp::Greater => Ok(flag(a > b)),
        BinOp::GreaterEqual => Ok(flag(a >= b)),
        BinOp::ShiftLeft => shift_left(left, right),
        BinOp::ShiftRight => shift_right(left, right),
        BinOp::Add => sum(kind, a, b),
        BinOp::Subtract => difference(kind, a, b),
        BinOp::Multiply => product(kind, a, b),
        BinOp::Divide => quotient(kind, a, b),
        BinOp::Remainder => remainder(kind, a, b),
    }
}
