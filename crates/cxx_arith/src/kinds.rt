//! The widths and signs of kinds, and how operands come to one kind.

ghost use Rattle.std.specs.Prelude.{◌≡◌, ◌≤◌, ◌<◌, ◌^◌, ◌-◌, ◌%◌, pos};
ghost use Rattle.cxx_arith.specs.Kinds as kinds;

use agxx_base::NumKind;

pub(crate) fn width(kind: NumKind) -> u32
    ensures value { result ≡ kinds.width kind }
    ensures low { 1 ≤ result }
    ensures high { result ≤ 64 }
{
    match kind {
        NumKind::Bool => 1,
        NumKind::I8 | NumKind::U8 => 8,
        NumKind::I16 | NumKind::U16 => 16,
        NumKind::I32 | NumKind::U32 => 32,
        NumKind::I64 | NumKind::U64 => 64,
    }
}

pub(crate) fn is_signed(kind: NumKind) -> bool
    ensures { result ≡ kinds.is_signed kind }
{
    match kind {
        NumKind::I8 | NumKind::I16 | NumKind::I32 | NumKind::I64 => true,
        NumKind::Bool | NumKind::U8 | NumKind::U16 | NumKind::U32 | NumKind::U64 => false,
    }
}

/// How many numbers the kind has.
pub(crate) fn size(kind: NumKind) -> i128
    ensures { result ≡ pos (2 ^ kinds.width kind) }
{
    1 << width(kind)
}

/// The first number that a signed kind of this width doesn't have.
pub(crate) fn half(kind: NumKind) -> i128
    ensures { result ≡ pos (2 ^ (kinds.width kind - 1)) }
{
    1 << (width(kind) - 1)
}

/// The bits that a value of the kind has.
pub(crate) fn lowest(kind: NumKind, bits: u128) -> u64
    ensures { result ≡ bits % 2 ^ kinds.width kind }
{
    (bits % (1 << width(kind))) as u64
}

/// The kind in which a lone operand is taken.
pub fn promoted(kind: NumKind) -> NumKind
    ensures { result ≡ kinds.promoted kind }
{
    if width(kind) < 32 { NumKind::I32 } else { kind }
}

fn winner(a: NumKind, b: NumKind) -> NumKind
    ensures { result ≡ kinds.winner a b }
{
    if width(a) < width(b) {
        b
    } else if width(b) < width(a) {
        a
    } else if is_signed(a) {
        b
    } else {
        a
    }
}

/// The kind to which two operands are converted.
pub fn common_kind(a: NumKind, b: NumKind) -> NumKind
    ensures { result ≡ kinds.common_kind a b }
{
    winner(promoted(a), promoted(b))
}
