//! Operators with one operand, and conversions.

ghost use Rattle.std.specs.Prelude.{◌≡◌, IfOk, IsTrue};
ghost use Rattle.cxx_arith.specs.Numbers.{convert_of, IsInRange};
ghost use Rattle.cxx_arith.specs.Arithmetic.{apply_one_of, is_arithmetic_one};

use crate::kinds::promoted;
use crate::value::{ArithStop, Value, flag, held_in, number, value_of};
use agxx_base::NumKind;
use cxx_tree::UnOp;

/// The value in another kind.
pub fn convert(to: NumKind, value: Value) -> Value
    ensures { result ≡ convert_of to value }
{
    match to {
        NumKind::Bool => flag(number(value) != 0),
        _ => value_of(to, number(value)),
    }
}

/// What an operator gives that has one operand, which is a number.
#[tactic(auto, using(crate::proofs::Wide::wide))]
pub fn apply_one(op: UnOp, arg: Value) -> Result<Value, ArithStop>
    requires { IsTrue (is_arithmetic_one op) }
    ensures { result ≡ apply_one_of op arg }
{
    match op {
        UnOp::Negate => held_in(promoted(arg.kind), -number(arg)),
        UnOp::Not => Ok(flag(number(arg) == 0)),
        UnOp::Complement => Ok(value_of(promoted(arg.kind), -number(arg) - 1)),
        UnOp::AddressOf => unreachable!(),
    }
}
