//! Members that expressions reach.

ghost use Rattle.std.specs.Prelude.{◌≡◌};
ghost use Rattle.cxx_tree.specs.ExprTree.{expr_tree, exprs_tree, call_tree};
ghost use Rattle.guard_rules.specs.ThroughMembers as spec;

use crate::known::Known;
use agxx_base::{Place, Refusal, Rule, nearer};
use cxx_tree::{Base, Call, Expr, Left, Node, Selector};
use cxx_types::Meaning;

impl<'a> Known<'a> {
    fn by_meaning(&self, found: Option<Refusal>, meaning: Meaning, place: Place) -> Option<Refusal>
        ensures { result ≡ spec.through_meaning self.now meaning place found }
    {
        match meaning {
            Meaning::Member(class, _) if self.class_is_guarded(class) => nearer(
                found,
                Refusal {
                    rule: Rule::P1,
                    place,
                },
            ),
            _ => found,
        }
    }

    fn behind(&self, found: Option<Refusal>, node: Node, selector: Selector) -> Option<Refusal>
        ensures { result ≡ spec.through_selector self.now node selector selector.base found }
    {
        let meaning = self.typed.meaning_of(node.id);
        match selector.base {
            Base::This => found,
            Base::Dot(_) => self.by_meaning(found, meaning, selector.name.at),
            Base::Arrow(_) => self.by_meaning(found, meaning, selector.name.at),
        }
    }

    pub(super) fn reached_in_left(&self, found: Option<Refusal>, left: &Left) -> Option<Refusal>
        ensures { result ≡ spec.through_left self.now left.now found }
    {
        match left {
            Left::Name(_) => found,
            Left::Member(node, selector) => self.behind(found, *node, *selector),
            Left::Result(_) => found,
        }
    }

    #[cycle(reached)]
    pub(super) fn reached_in(&self, found: Option<Refusal>, expr: &Expr) -> Option<Refusal>
        ensures { result ≡ spec.through_expr self.now (expr_tree expr.now) found }
    {
        match expr {
            Expr::Lit(_, _) | Expr::Flag(_, _) | Expr::Null(_) | Expr::This(_) => found,
            Expr::Left(left) => self.reached_in_left(found, left),
            Expr::Unary(_, _, operand) => self.reached_in(found, operand.get()),
            Expr::Binary(_, _, left, right) => {
                self.reached_in(self.reached_in(found, left.get()), right.get())
            }
            Expr::Paren(_, inner) => self.reached_in(found, inner.get()),
            Expr::Cast(_, _, operand) => self.reached_in(found, operand.get()),
            Expr::Call(call) => self.reached_in_call(found, call),
            Expr::New(_, _, None) => found,
            Expr::New(_, _, Some(arguments)) => self.reached_in_exprs(found, arguments.as_slice()),
        }
    }

    #[cycle(reached)]
    pub(super) fn reached_in_exprs(&self, found: Option<Refusal>, exprs: &[Expr]) -> Option<Refusal>
        ensures { result ≡ spec.through_exprs self.now (exprs_tree exprs.now) found }
    {
        let mut first = found;
        for expr in exprs {
            first = self.reached_in(first, expr);
        }
        first
    }

    #[cycle(reached)]
    pub(super) fn reached_in_call(&self, found: Option<Refusal>, call: &Call) -> Option<Refusal>
        ensures { result ≡ spec.through_call self.now (call_tree call.now) found }
    {
        self.reached_in_exprs(found, call.arguments.as_slice())
    }
}
