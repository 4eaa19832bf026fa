//! Equality of trees but for places and numbers of nodes.

ghost use Rattle.std.specs.Prelude.{◌≡◌, ◌↔◌, IsTrue};
ghost use Rattle.cxx_tree.specs.Blank.{blank_ref, blank_base, blank_selector, blank_left, blank_callee, blank_expr};
ghost use Rattle.cxx_tree.specs.Blank.{blank_exprs, blank_call};
ghost use Rattle.cxx_tree.specs.ExprTree.{expr_tree, exprs_tree, call_tree};

use crate::expr::{Base, Call, Callee, Expr, Left, Ref, Selector};

pub(super) fn same_ref(a: &Ref, b: &Ref) -> bool
    ensures { IsTrue result ↔ (blank_ref a.now ≡ blank_ref b.now) }
{
    a.global == b.global && a.name.item == b.name.item
}

fn same_base(a: &Base, b: &Base) -> bool
    ensures { IsTrue result ↔ (blank_base a.now ≡ blank_base b.now) }
{
    match (a, b) {
        (Base::This, Base::This) => true,
        (Base::Dot(a), Base::Dot(b)) => same_ref(a, b),
        (Base::Arrow(a), Base::Arrow(b)) => same_ref(a, b),
        _ => false,
    }
}

fn same_selector(a: &Selector, b: &Selector) -> bool
    ensures { IsTrue result ↔ (blank_selector a.now ≡ blank_selector b.now) }
{
    same_base(&a.base, &b.base) && a.name.item == b.name.item
}

pub(super) fn same_left(a: &Left, b: &Left) -> bool
    ensures { IsTrue result ↔ (blank_left a.now ≡ blank_left b.now) }
{
    match (a, b) {
        (Left::Name(a), Left::Name(b)) => same_ref(a, b),
        (Left::Member(_, a), Left::Member(_, b)) => same_selector(a, b),
        (Left::Result(_), Left::Result(_)) => true,
        _ => false,
    }
}

fn same_callee(a: &Callee, b: &Callee) -> bool
    ensures { IsTrue result ↔ (blank_callee a.now ≡ blank_callee b.now) }
{
    match (a, b) {
        (Callee::Bare(a), Callee::Bare(b)) => same_ref(a, b),
        (Callee::Member(a), Callee::Member(b)) => same_selector(a, b),
        _ => false,
    }
}

#[cycle(same_expr)]
pub(super) fn same_expr(a: &Expr, b: &Expr) -> bool
    ensures { IsTrue result ↔ (blank_expr (expr_tree a.now) ≡ blank_expr (expr_tree b.now)) }
{
    match (a, b) {
        (Expr::Lit(_, a), Expr::Lit(_, b)) => a == b,
        (Expr::Flag(_, a), Expr::Flag(_, b)) => a == b,
        (Expr::Null(_), Expr::Null(_)) => true,
        (Expr::This(_), Expr::This(_)) => true,
        (Expr::Left(a), Expr::Left(b)) => same_left(a, b),
        (Expr::Unary(_, op, a), Expr::Unary(_, other, b)) => op == other
            && same_expr(a.get(), b.get()),
        (Expr::Binary(_, op, a, b), Expr::Binary(_, other, c, d)) => {
            op.item == other.item && same_expr(a.get(), c.get()) && same_expr(b.get(), d.get())
        }
        (Expr::Paren(_, a), Expr::Paren(_, b)) => same_expr(a.get(), b.get()),
        (Expr::Cast(_, kind, a), Expr::Cast(_, other, b)) => kind == other
            && same_expr(a.get(), b.get()),
        (Expr::Call(a), Expr::Call(b)) => same_call(a, b),
        (Expr::New(_, class, None), Expr::New(_, other, None)) => class.item == other.item,
        (Expr::New(_, class, Some(a)), Expr::New(_, other, Some(b))) => {
            class.item == other.item && same_exprs(a.as_slice(), b.as_slice())
        }
        _ => false,
    }
}

#[cycle(same_expr)]
pub(super) fn same_call(a: &Call, b: &Call) -> bool
    ensures { IsTrue result ↔ (blank_call (call_tree a.now) ≡ blank_call (call_tree b.now)) }
{
    same_callee(&a.callee, &b.callee) && same_exprs(a.arguments.as_slice(), b.arguments.as_slice())
}

#[cycle(same_expr)]
pub(super) fn same_exprs(a: &[Expr], b: &[Expr]) -> bool
    ensures { IsTrue result ↔ (blank_exprs (exprs_tree a.now) ≡ blank_exprs (exprs_tree b.now)) }
{
    all_same!(a, b, same_expr)
}
