ghost use Rattle.std.specs.Prelude.{IsTrue};
ghost use Rattle.cxx_arith.specs.Arithmetic.{is_arithmetic, is_arithmetic_one};

use agxx_base::NumKind;
use cxx_arith::*;
use cxx_tree::{BinOp, UnOp};
use one::Number;
use std::test::Fail;
use two::{Expected, Operands};

mod one;
mod two;

fn valued(expected: &Expected) -> Result<Value, ArithStop> {
    match expected {
        Ok((kind, bits)) => Ok(Value {
            kind: *kind,
            bits: *bits,
        }),
        Err(why) => Err(*why),
    }
}

fn gives(op: BinOp, operands: &[Operands], results: &[Expected]) -> bool
    requires { IsTrue (is_arithmetic op) }
{
    for ((left, left_bits, right, right_bits), expected) in operands.iter().zip(results) {
        let left = Value {
            kind: *left,
            bits: *left_bits,
        };
        let right = Value {
            kind: *right,
            bits: *right_bits,
        };
        if apply(op, left, right) != valued(expected) {
            return false;
        }
    }
    operands.len() == results.len()
}

fn gives_one(op: UnOp, numbers: &[Number], results: &[Expected]) -> bool
    requires { IsTrue (is_arithmetic_one op) }
{
    for ((kind, bits), expected) in numbers.iter().zip(results) {
        let arg = Value {
            kind: *kind,
            bits: *bits,
        };
        if apply_one(op, arg) != valued(expected) {
            return false;
        }
    }
    numbers.len() == results.len()
}

fn converts(to: NumKind, numbers: &[Number], results: &[Number]) -> bool {
    for ((kind, bits), (result, result_bits)) in numbers.iter().zip(results) {
        let value = Value {
            kind: *kind,
            bits: *bits,
        };
        let expected = Value {
            kind: *result,
            bits: *result_bits,
        };
        if convert(to, value) != expected {
            return false;
        }
    }
    numbers.len() == results.len()
}

#[test]
fn bits_and_shifts(rt: HostRuntime) -> Result<(), Fail> {
    assert!(rt; gives(BinOp::BitOr, two::NUMBERS, two::BIT_OR));
    assert!(rt; gives(BinOp::BitXor, two::NUMBERS, two::BIT_XOR));
    assert!(rt; gives(BinOp::BitAnd, two::NUMBERS, two::BIT_AND));
    assert!(rt; gives(BinOp::ShiftLeft, two::SHIFTED, two::SHIFT_LEFT));
    assert!(rt; gives(BinOp::ShiftRight, two::SHIFTED, two::SHIFT_RIGHT));
    Ok(())
}

#[test]
fn comparisons(rt: HostRuntime) -> Result<(), Fail> {
    assert!(rt; gives(BinOp::Equal, two::NUMBERS, two::EQUAL));
    assert!(rt; gives(BinOp::NotEqual, two::NUMBERS, two::NOT_EQUAL));
    assert!(rt; gives(BinOp::Less, two::NUMBERS, two::LESS));
    assert!(rt; gives(BinOp::LessEqual, two::NUMBERS, two::LESS_EQUAL));
    assert!(rt; gives(BinOp::Greater, two::NUMBERS, two::GREATER));
    assert!(rt; gives(BinOp::GreaterEqual, two::NUMBERS, two::GREATER_EQUAL));
    Ok(())
}

#[test]
fn arithmetic(rt: HostRuntime) -> Result<(), Fail> {
    assert!(rt; gives(BinOp::Add, two::NUMBERS, two::ADD));
    assert!(rt; gives(BinOp::Subtract, two::NUMBERS, two::SUBTRACT));
    assert!(rt; gives(BinOp::Multiply, two::NUMBERS, two::MULTIPLY));
    assert!(rt; gives(BinOp::Divide, two::NUMBERS, two::DIVIDE));
    assert!(rt; gives(BinOp::Remainder, two::NUMBERS, two::REMAINDER));
    Ok(())
}

#[test]
fn one_operand(rt: HostRuntime) -> Result<(), Fail> {
    assert!(rt; gives_one(UnOp::Negate, one::NUMBERS, one::NEGATE));
    assert!(rt; gives_one(UnOp::Not, one::NUMBERS, one::NOT));
    assert!(rt; gives_one(UnOp::Complement, one::NUMBERS, one::COMPLEMENT));
    Ok(())
}

#[test]
fn conversions(rt: HostRuntime) -> Result<(), Fail> {
    assert!(rt; converts(NumKind::Bool, one::NUMBERS, one::TO_BOOL));
    assert!(rt; converts(NumKind::I8, one::NUMBERS, one::TO_I8));
    assert!(rt; converts(NumKind::U8, one::NUMBERS, one::TO_U8));
    assert!(rt; converts(NumKind::I16, one::NUMBERS, one::TO_I16));
    assert!(rt; converts(NumKind::U16, one::NUMBERS, one::TO_U16));
    assert!(rt; converts(NumKind::I32, one::NUMBERS, one::TO_I32));
    assert!(rt; converts(NumKind::U32, one::NUMBERS, one::TO_U32));
    assert!(rt; converts(NumKind::I64, one::NUMBERS, one::TO_I64));
    assert!(rt; converts(NumKind::U64, one::NUMBERS, one::TO_U64));
    Ok(())
}
