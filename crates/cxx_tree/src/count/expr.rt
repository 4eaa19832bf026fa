//! The nodes of expressions.

ghost use Rattle.std.specs.Prelude.{◌≡◌, ◌+◌};
ghost use Rattle.cxx_tree.specs.ExprTree.{expr_tree, exprs_tree, call_tree};
ghost use Rattle.cxx_tree.specs.Nodes.{capped, nodes_in_base, nodes_in_left, nodes_in_callee, nodes_in_expr};
ghost use Rattle.cxx_tree.specs.Nodes.{nodes_in_exprs, nodes_in_call};

use crate::expr::{Base, Call, Callee, Expr, Left};

fn with_base(count: u64, base: &Base) -> u64
    ensures { result ≡ capped (count + nodes_in_base base.now) }
{
    match base {
        Base::This => count,
        Base::Dot(_) => count.saturating_add(1),
        Base::Arrow(_) => count.saturating_add(1),
    }
}

pub(super) fn with_left(count: u64, left: &Left) -> u64
    ensures { result ≡ capped (count + nodes_in_left left.now) }
{
    match left {
        Left::Name(_) => count.saturating_add(1),
        Left::Member(_, selector) => with_base(count.saturating_add(1), &selector.base),
        Left::Result(_) => count.saturating_add(1),
    }
}

fn with_callee(count: u64, callee: &Callee) -> u64
    ensures { result ≡ capped (count + nodes_in_callee callee.now) }
{
    match callee {
        Callee::Bare(_) => count.saturating_add(1),
        Callee::Member(selector) => with_base(count, &selector.base),
    }
}

#[cycle(with_expr)]
pub(super) fn with_expr(count: u64, expr: &Expr) -> u64
    ensures { result ≡ capped (count + nodes_in_expr (expr_tree expr.now)) }
{
    match expr {
        Expr::Lit(_, _) => count.saturating_add(1),
        Expr::Flag(_, _) => count.saturating_add(1),
        Expr::Null(_) => count.saturating_add(1),
        Expr::This(_) => count.saturating_add(1),
        Expr::Left(left) => with_left(count, left),
        Expr::Unary(_, _, operand) => with_expr(count.saturating_add(1), operand.get()),
        Expr::Binary(_, _, left, right) => with_expr(
            with_expr(count.saturating_add(1), left.get()),
            right.get(),
        ),
        Expr::Paren(_, inner) => with_expr(count.saturating_add(1), inner.get()),
        Expr::Cast(_, _, operand) => with_expr(count.saturating_add(1), operand.get()),
        Expr::Call(call) => with_call(count, call),
        Expr::New(_, _, None) => count.saturating_add(1),
        Expr::New(_, _, Some(arguments)) => with_exprs(
            count.saturating_add(1),
            arguments.as_slice(),
        ),
    }
}

#[cycle(with_expr)]
pub(super) fn with_exprs(count: u64, exprs: &[Expr]) -> u64
    ensures { result ≡ capped (count + nodes_in_exprs (exprs_tree exprs.now)) }
{
    let mut total = count;
    for expr in exprs {
        total = with_expr(total, expr);
    }
    total
}

#[cycle(with_expr)]
pub(super) fn with_call(count: u64, call: &Call) -> u64
    ensures { result ≡ capped (count + nodes_in_call (call_tree call.now)) }
{
    with_exprs(
        with_callee(count.saturating_add(1), &call.callee),
        call.arguments.as_slice(),
    )
}
