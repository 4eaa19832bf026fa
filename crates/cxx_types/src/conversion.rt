//! Which types a value has, converts to and may have where it stands.

ghost use Rattle.std.specs.Prelude.{◌≡◌};
ghost use Rattle.cxx_types.specs.Conversion as spec;

use agxx_base::NumKind;
use cxx_arith::{common_kind, promoted};
use cxx_names::{Declared, ValueType};
use cxx_tree::{BinOp, UnOp};

fn converts(declared: &Declared, from: ValueType, to: ValueType) -> bool
    ensures { result ≡ spec.converts declared.now from to }
{
    match (from, to) {
        (ValueType::Number(_), ValueType::Number(_)) => true,
        (ValueType::Null, ValueType::Pointer(_) | ValueType::Null) => true,
        (ValueType::Pointer(class), ValueType::Pointer(to)) => declared.derives(class, to),
        _ => false,
    }
}

/// Whether a value converts to a type, as far as both have types.
pub(crate) fn may_convert(
    declared: &Declared,
    from: Option<ValueType>,
    to: Option<ValueType>,
) -> bool
    ensures { result ≡ spec.may_convert declared.now from to }
{
    match (from, to) {
        (Some(from), Some(to)) => converts(declared, from, to),
        _ => true,
    }
}

fn compares(declared: &Declared, a: ValueType, b: ValueType) -> bool
    ensures { result ≡ spec.compares declared.now a b }
{
    match (a, b) {
        (ValueType::Number(_), ValueType::Number(_)) => true,
        (ValueType::Number(_), _) => false,
        (_, ValueType::Number(_)) => false,
        _ => converts(declared, a, b) || converts(declared, b, a),
    }
}

fn is_number(value_type: ValueType) -> bool
    ensures { result ≡ spec.is_number value_type }
{
    matches!(value_type, ValueType::Number(_))
}

pub(crate) fn may_be_number(value_type: Option<ValueType>) -> bool
    ensures { result ≡ spec.may_be_number value_type }
{
    match value_type {
        None => true,
        Some(value_type) => is_number(value_type),
    }
}

pub(crate) fn may_be_printed(value_type: Option<ValueType>) -> bool
    ensures { result ≡ spec.may_be_printed value_type }
{
    match value_type {
        None => true,
        Some(ValueType::Number(NumKind::I8 | NumKind::U8)) => false,
        Some(value_type) => is_number(value_type),
    }
}

pub(crate) fn may_be_bumped(value_type: Option<ValueType>) -> bool
    ensures { result ≡ spec.may_be_bumped value_type }
{
    match value_type {
        None => true,
        Some(ValueType::Number(NumKind::Bool)) => false,
        Some(value_type) => is_number(value_type),
    }
}

/// What an operator of two operands takes.
#[derive(Clone, Copy)]
enum Operands {
    /// Numbers, which come to one kind.
    Arithmetic,
    /// Numbers, of which the left one gives the kind.
    Shift,
    /// Numbers, for a truth value.
    Order,
    /// Numbers or pointers, for a truth value.
    Equality,
    /// Whatever is true or false.
    Logic,
}

fn operands_of(op: BinOp) -> Operands
    ensures { result ≡ spec.operands_of op }
{
    match op {
        BinOp::Or | BinOp::And => Operands::Logic,
        BinOp::Equal | BinOp::NotEqual => Operands::Equality,
        BinOp::Less | BinOp::LessEqual | BinOp::Greater | BinOp::GreaterEqual => Operands::Order,
        BinOp::ShiftLeft | BinOp::ShiftRight => Operands::Shift,
        BinOp::BitOr
        | BinOp::BitXor
        | BinOp::BitAnd
        | BinOp::Add
        | BinOp::Subtract
        | BinOp::Multiply
        | BinOp::Divide
        | BinOp::Remainder => Operands::Arithmetic,
    }
}

/// Whether an operator takes operands of these types, as far as they have types.
pub(crate) fn takes(
    declared: &Declared,
    op: BinOp,
    left: Option<ValueType>,
    right: Option<ValueType>,
) -> bool
    ensures { result ≡ spec.takes declared.now op left right }
{
    match operands_of(op) {
        Operands::Arithmetic | Operands::Shift | Operands::Order => {
            may_be_number(left) && may_be_number(right)
        }
        Operands::Equality => match (left, right) {
            (Some(left), Some(right)) => compares(declared, left, right),
            _ => true,
        },
        Operands::Logic => true,
    }
}

const TRUTH: ValueType = ValueType::Number(NumKind::Bool);

fn number_type(left: Option<ValueType>, right: Option<ValueType>) -> Option<(NumKind, NumKind)>
    ensures { result ≡ spec.number_kinds left right }
{
    match (left, right) {
        (Some(ValueType::Number(left)), Some(ValueType::Number(right))) => Some((left, right)),
        _ => None,
    }
}

/// The type of what an operator gives for operands of these types.
pub(crate) fn binary_type(
    declared: &Declared,
    op: BinOp,
    left: Option<ValueType>,
    right: Option<ValueType>,
) -> Option<ValueType>
    ensures { result ≡ spec.binary_type declared.now op left right }
{
    match operands_of(op) {
        Operands::Arithmetic => match number_type(left, right) {
            Some((a, b)) => Some(ValueType::Number(common_kind(a, b))),
            None => None,
        },
        Operands::Shift => match number_type(left, right) {
            Some((a, _)) => Some(ValueType::Number(promoted(a))),
            None => None,
        },
        Operands::Order => match number_type(left, right) {
            Some(_) => Some(TRUTH),
            None => None,
        },
        Operands::Equality => match (left, right) {
            (Some(a), Some(b)) if compares(declared, a, b) => Some(TRUTH),
            _ => None,
        },
        Operands::Logic => match (left, right) {
            (Some(_), Some(_)) => Some(TRUTH),
            _ => None,
        },
    }
}

/// Whether an operator of one operand, other than `&`, takes one of this type.
pub(crate) fn takes_one(op: UnOp, operand: Option<ValueType>) -> bool
    ensures { result ≡ spec.takes_one op operand }
{
    match op {
        UnOp::Not => true,
        _ => may_be_number(operand),
    }
}

/// The type of what an operator of one operand, other than `&`, gives.
pub(crate) fn unary_type(op: UnOp, operand: Option<ValueType>) -> Option<ValueType>
    ensures { result ≡ spec.unary_type op operand }
{
    match (op, operand) {
        (UnOp::Not, Some(_)) => Some(TRUTH),
        (UnOp::Not, None) => None,
        (_, Some(ValueType::Number(kind))) => Some(ValueType::Number(promoted(kind))),
        _ => None,
    }
}

/// Whether a value may be cast to a kind of numbers.
pub(crate) fn casts(kind: NumKind, value_type: Option<ValueType>) -> bool
    ensures { result ≡ spec.casts kind value_type }
{
    match kind {
        NumKind::Bool => true,
        _ => may_be_number(value_type),
    }
}

/// The type of a value that is cast to a kind of numbers.
pub(crate) fn cast_type(kind: NumKind, value_type: Option<ValueType>) -> Option<ValueType>
    ensures { result ≡ spec.cast_type kind value_type }
{
    match (kind, value_type) {
        (_, None) => None,
        (NumKind::Bool, Some(_)) => Some(TRUTH),
        (_, Some(ValueType::Number(_))) => Some(ValueType::Number(kind)),
        _ => None,
    }
}
