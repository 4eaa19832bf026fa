//! Which signs are operators of expressions, and how tightly they bind.

ghost use Rattle.std.specs.Prelude.{◌≡◌};
ghost use Rattle.cxx_tree.specs.Fits as fits;
ghost use Rattle.cxx_expr.specs.Operators as spec;
ghost use Rattle.cxx_expr.specs.Signs as signs;

use agxx_base::Sign;
use cxx_tree::{BinOp, UnOp};

/// The level of expressions in which every operator stands.
pub const EXPR_LEVEL: u8 = 10;

/// The level of sums and what binds tighter.
pub const SUM_LEVEL: u8 = 2;

/// Whether two signs are the same.
pub fn same_sign(a: Sign, b: Sign) -> bool
    ensures { result ≡ signs.same_sign a b }
{
    a == b
}

/// The operator between two operands that a sign is.
pub fn binary_operator(sign: Sign) -> Option<BinOp>
    ensures { result ≡ spec.binary_of sign }
{
    match sign {
        Sign::OrOr => Some(BinOp::Or),
        Sign::AndAnd => Some(BinOp::And),
        Sign::Or => Some(BinOp::BitOr),
        Sign::Caret => Some(BinOp::BitXor),
        Sign::And => Some(BinOp::BitAnd),
        Sign::EqualEqual => Some(BinOp::Equal),
        Sign::NotEqual => Some(BinOp::NotEqual),
        Sign::Less => Some(BinOp::Less),
        Sign::LessEqual => Some(BinOp::LessEqual),
        Sign::Greater => Some(BinOp::Greater),
        Sign::GreaterEqual => Some(BinOp::GreaterEqual),
        Sign::ShiftLeft => Some(BinOp::ShiftLeft),
        Sign::ShiftRight => Some(BinOp::ShiftRight),
        Sign::Plus => Some(BinOp::Add),
        Sign::Minus => Some(BinOp::Subtract),
        Sign::Star => Some(BinOp::Multiply),
        Sign::Slash => Some(BinOp::Divide),
        Sign::Percent => Some(BinOp::Remainder),
        _ => None,
    }
}

/// The operator before an operand that a sign is.
pub fn unary_operator(sign: Sign) -> Option<UnOp>
    ensures { result ≡ spec.unary_of sign }
{
    match sign {
        Sign::Minus => Some(UnOp::Negate),
        Sign::Not => Some(UnOp::Not),
        Sign::Tilde => Some(UnOp::Complement),
        Sign::And => Some(UnOp::AddressOf),
        _ => None,
    }
}

/// How loosely an operator binds, from 1 for `*` to 10 for `||`.
pub fn level_of(op: BinOp) -> u8
    ensures { result ≡ fits.level_of op }
{
    match op {
        BinOp::Or => 10,
        BinOp::And => 9,
        BinOp::BitOr => 8,
        BinOp::BitXor => 7,
        BinOp::BitAnd => 6,
        BinOp::Equal | BinOp::NotEqual => 5,
        BinOp::Less | BinOp::LessEqual | BinOp::Greater | BinOp::GreaterEqual => 4,
        BinOp::ShiftLeft | BinOp::ShiftRight => 3,
        BinOp::Add | BinOp::Subtract => 2,
        BinOp::Multiply | BinOp::Divide | BinOp::Remainder => 1,
    }
}
