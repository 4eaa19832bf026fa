//! What values amount to: as truth values, as numbers, and in another type.

ghost use Rattle.std.specs.Prelude.{◌≡◌, option_map};
ghost use Rattle.step_machine.specs.Data as datums;
ghost use Rattle.cxx_arith.specs.Arithmetic as arithmetic;
ghost use Rattle.step_machine.specs.ActValues as values;
ghost use Rattle.step_machine.specs.ActMembers.{or_zero};
ghost use Rattle.step_frame.specs.Works.{number_of};

use agxx_base::{NumKind, ObjectId};
use cxx_arith::{ArithStop, Value, apply, apply_one, convert, flag, number};
use cxx_names::ValueType;
use cxx_tree::{BinOp, UnOp};
use step_machine::{Datum, Stop};

/// The value as a number; of a pointer only whether it is null.
pub fn as_number(datum: Datum) -> Value
    ensures { result ≡ datums.as_number datum }
{
    match datum {
        Datum::Number(value) => value,
        Datum::Pointer(_) => flag(true),
        Datum::Null => flag(false),
    }
}

/// The object that a pointer points to.
pub fn object_of(datum: Datum) -> Option<ObjectId>
    ensures { option_map number_of result ≡ datums.object_of datum }
{
    match datum {
        Datum::Pointer(object) => Some(object),
        _ => None,
    }
}

/// Whether it is a number other than 0, or a pointer to an object.
pub(crate) fn is_true(datum: Datum) -> bool
    ensures { result ≡ datums.is_true datum }
{
    let is_zero = number(as_number(datum)) == 0;
    !is_zero
}

pub(crate) fn truth_value(holds: bool) -> Datum
    ensures { result ≡ datums.truth_value holds }
{
    Datum::Number(flag(holds))
}

pub(crate) fn of_kind(kind: NumKind, datum: Datum) -> Datum
    ensures { result ≡ datums.of_kind kind datum }
{
    Datum::Number(convert(kind, as_number(datum)))
}

/// The value in a type; a pointer to a class is one to its base.
pub fn converted(value_type: ValueType, datum: Datum) -> Datum
    ensures { result ≡ datums.converted value_type datum }
{
    match value_type {
        ValueType::Number(kind) => of_kind(kind, datum),
        _ => datum,
    }
}

/// The bits of a number of a kind, as they stand in a word.
pub fn bits_of(kind: NumKind, datum: Datum) -> u64
    ensures { result ≡ datums.bits_of kind datum }
{
    convert(kind, as_number(datum)).bits
}

/// What a variable of a type has at first.
pub fn zero_of(value_type: ValueType) -> Datum
    ensures { result ≡ datums.zero_of value_type }
{
    match value_type {
        ValueType::Number(kind) => Datum::Number(Value { kind, bits: 0 }),
        _ => Datum::Null,
    }
}

/// A value, or what a variable of the type has at first.
pub(crate) fn or_zero(value_type: ValueType, datum: Option<Datum>) -> Datum
    ensures { result ≡ or_zero value_type datum }
{
    match datum {
        None => zero_of(value_type),
        Some(datum) => datum,
    }
}

fn same_pointer(a: Datum, b: Datum) -> bool
    ensures { result ≡ datums.same_pointer a b }
{
    match (a, b) {
        (Datum::Null, Datum::Null) => true,
        (Datum::Pointer(a), Datum::Pointer(b)) => a.0 == b.0,
        _ => false,
    }
}

fn compared_as(op: BinOp, same: bool) -> Datum
    ensures { result ≡ datums.compared_as op same }
{
    match op {
        BinOp::Equal => truth_value(same),
        _ => truth_value(!same),
    }
}

/// The reason for a stop, as the run tells it.
pub(crate) fn stop_of(stop: ArithStop) -> Stop
    ensures { result ≡ values.stop_of stop }
{
    match stop {
        ArithStop::Overflow => Stop::Overflow,
        ArithStop::ZeroDivisor => Stop::ZeroDivisor,
        ArithStop::Shift => Stop::Shift,
    }
}

fn given(result_of: Result<Value, ArithStop>) -> Result<Datum, ArithStop>
    ensures { result ≡ values.given result_of }
{
    match result_of {
        Ok(value) => Ok(Datum::Number(value)),
        Err(stop) => Err(stop),
    }
}

fn applied(op: BinOp, a: Value, b: Value) -> Result<Value, ArithStop>
    ensures { result ≡ arithmetic.apply_of op a b }
{
    match op {
        BinOp::Or | BinOp::And => Err(ArithStop::Overflow),
        _ => apply(op, a, b),
    }
}

/// What an operator gives that has two operands: two numbers, else two pointers.
pub(crate) fn two_of(op: BinOp, a: Datum, b: Datum) -> Result<Datum, ArithStop>
    ensures { result ≡ values.two_of op a b }
{
    match (a, b) {
        (Datum::Number(a), Datum::Number(b)) => given(applied(op, a, b)),
        _ => Ok(compared_as(op, same_pointer(a, b))),
    }
}

/// What an operator gives that has one operand.
pub(crate) fn one_of(op: UnOp, a: Datum) -> Result<Datum, ArithStop>
    ensures { result ≡ values.given (arithmetic.apply_one_of op (datums.as_number a)) }
{
    match op {
        UnOp::AddressOf => Err(ArithStop::Overflow),
        _ => given(apply_one(op, as_number(a))),
    }
}
