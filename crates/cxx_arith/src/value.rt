//! Values, the numbers that they are, and why an operator stops.

ghost use Rattle.std.specs.Prelude.{◌≡◌};
ghost use Rattle.cxx_arith.specs.Kinds as kinds;
ghost use Rattle.cxx_arith.specs.Numbers as numbers;
ghost use Rattle.cxx_arith.specs.Bounds.{Fits64, IsWide};
ghost use Rattle.cxx_arith.specs.Arithmetic as arithmetic;

use crate::kinds::{half, is_signed, lowest, size};
use agxx_base::NumKind;

/// A number of a kind. The operators look at no bit above those of the kind, and give none that is set.
#[derive(Clone, Copy, Debug, PartialEq, Eq)]
pub struct Value {
    pub kind: NumKind,
    /// The number modulo 2^N, where the kind has N bits, and `Bool` has one.
    pub bits: u64,
}

/// Why an operator gives no value.
#[derive(Clone, Copy, Debug, PartialEq, Eq)]
pub enum ArithStop {
    /// The result isn't in its signed kind.
    Overflow,
    ZeroDivisor,
    /// The count is below 0, or not below the width.
    Shift,
}

/// The number that a value is.
pub fn number(value: Value) -> i128
    ensures value { result ≡ numbers.number value }
    ensures wide { IsWide result }
    ensures fits { Fits64 (kinds.is_signed value.kind) result }
{
    let low = i128::from(lowest(value.kind, u128::from(value.bits)));
    if is_signed(value.kind) && half(value.kind) <= low {
        low - size(value.kind)
    } else {
        low
    }
}

pub(crate) fn value_of(kind: NumKind, number: i128) -> Value
    ensures { result ≡ numbers.value_of kind number }
{
    let bits = lowest(kind, number.cast_unsigned());
    Value { kind, bits }
}

/// A truth value, as the number 0 or 1.
pub fn flag(b: bool) -> Value
    ensures { result ≡ numbers.flag b }
{
    Value {
        kind: NumKind::Bool,
        bits: u64::from(b),
    }
}

fn is_held(kind: NumKind, number: i128) -> bool
    ensures { result ≡ arithmetic.is_held kind number }
{
    -half(kind) <= number && number < half(kind)
}

/// A result, which a signed kind has to hold and an unsigned one takes modulo 2^N.
pub(crate) fn held_in(kind: NumKind, number: i128) -> Result<Value, ArithStop>
    ensures { result ≡ arithmetic.held_in kind number }
{
    if is_signed(kind) && !is_held(kind, number) {
        return Err(ArithStop::Overflow);
    }
    Ok(value_of(kind, number))
}
