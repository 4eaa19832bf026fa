//! Expressions over words of 64 bits.

ghost use Rattle.std.specs.Prelude.{◌≡◌, IfOk};
ghost use Rattle.cxx_tree.specs.ExprTree.{expr_tree};
ghost use Rattle.cxx_tree.specs.StmtTree.{stmt_tree};
ghost use Rattle.codec.specs.Part.{unsigned_of};
ghost use Rattle.hamming_gen.specs.HammingTrees as spec;

use crate::lists::covers;
use crate::words::CheckWord;
use agxx_base::{Memory, NameId, NumKind};
use codec::unsigned_type;
use cxx_make::Maker;
use cxx_tree::{BinOp, Expr, Member, Stmt, TypeName, UnOp};

/// `first op name op ..`
pub(crate) fn joined(maker: Maker, op: BinOp, first: Expr, names: &[NameId]) -> Result<Expr, Memory>
    ensures { IfOk result (λ e. expr_tree e
        ≡ spec.joined maker.at op (expr_tree first) names.now) }
{
    let mut all = first;
    for name in names {
        all = maker.binary(op, all, maker.variable(*name))?;
    }
    Ok(all)
}

/// `name op name op ..`, or 0 where there is no name.
pub(crate) fn all_joined(maker: Maker, op: BinOp, names: &[NameId]) -> Result<Expr, Memory>
    ensures { IfOk result (λ e. expr_tree e ≡ spec.all_joined maker.at op names.now) }
{
    match names {
        [] => Ok(maker.number(NumKind::U64, 0)),
        [name, rest @ ..] => joined(maker, op, maker.variable(*name), rest),
    }
}

/// `~name`
pub(crate) fn inverted(maker: Maker, name: NameId) -> Result<Expr, Memory>
    ensures { IfOk result (λ e. expr_tree e ≡ spec.inverted maker.at name) }
{
    maker.unary(UnOp::Complement, maker.variable(name))
}

/// The sum of a check word where it covers a position, else the inverted sum.
fn agreeing(maker: Maker, position: usize, check: CheckWord) -> Result<Expr, Memory>
    ensures { IfOk result (λ e. expr_tree e ≡ spec.agreeing maker.at position check) }
{
    if covers(check.position, position) {
        Ok(maker.variable(check.sum))
    } else {
        inverted(maker, check.sum)
    }
}

/// `first & sum & ~sum & ..`, by which of them cover a position.
pub(crate) fn matched(
    maker: Maker,
    first: Expr,
    position: usize,
    checks: &[CheckWord],
) -> Result<Expr, Memory>
    ensures { IfOk result (λ e. expr_tree e
        ≡ spec.matched maker.at (expr_tree first) position checks.now) }
{
    let mut all = first;
    for check in checks {
        all = maker.binary(BinOp::BitAnd, all, agreeing(maker, position, *check)?)?;
    }
    Ok(all)
}

/// The mask of a member's width, where that isn't 64.
fn mask_of(kind: NumKind) -> Option<u64>
    ensures { result ≡ spec.mask_of kind }
{
    match kind {
        NumKind::U8 => Some(0xff),
        NumKind::U16 => Some(0xffff),
        NumKind::U32 => Some(0xffff_ffff),
        NumKind::Bool | NumKind::I8 | NumKind::I16 | NumKind::I32 | NumKind::I64 | NumKind::U64 => {
            None
        }
    }
}

/// `value & mask` for a member's width, where that isn't 64.
pub(crate) fn masked(maker: Maker, member: Member, value: Expr) -> Result<Expr, Memory>
    ensures { IfOk result (λ e. expr_tree e
        ≡ spec.masked maker.at (spec.mask_of (unsigned_of member)) (expr_tree value)) }
{
    match mask_of(unsigned_type(member.type_name.item)) {
        Some(mask) => maker.binary(BinOp::BitAnd, value, maker.number(NumKind::U64, mask)),
        None => Ok(value),
    }
}

/// `uint64_t(U(m))`
pub(crate) fn extended(maker: Maker, member: Member) -> Result<Expr, Memory>
    ensures { IfOk result (λ e. expr_tree e ≡ spec.extended maker.at member) }
{
    let kind = unsigned_type(member.type_name.item);
    let value = maker.cast(kind, maker.variable(member.name.item))?;
    maker.cast(NumKind::U64, value)
}

/// `one ^ other`
pub(crate) fn differing(maker: Maker, one: NameId, other: NameId) -> Result<Expr, Memory>
    ensures { IfOk result (λ e. expr_tree e ≡ spec.differing maker.at one other) }
{
    maker.binary(BinOp::BitXor, maker.variable(one), maker.variable(other))
}

/// `uint64_t name = value;`
pub(crate) fn word_local(maker: Maker, name: NameId, value: Expr) -> Stmt
    ensures { stmt_tree result ≡ spec.word_local maker.at name (expr_tree value) }
{
    maker.local(TypeName::Num(NumKind::U64), name, value)
}
