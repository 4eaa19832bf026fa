//! The names in expressions.
#![tactic(auto, using(crate::proofs::Runs::seen_append))]

ghost use Rattle.std.specs.Prelude.{◌≡◌, OnOk};
ghost use Rattle.cxx_tree.specs.ExprTree.{expr_tree, exprs_tree, call_tree};
ghost use Rattle.cxx_distinct.specs.NamesIn.{names_in_base, names_in_selector, names_in_left};
ghost use Rattle.cxx_distinct.specs.NamesIn.{names_in_callee, names_in_expr, names_in_exprs, names_in_call};
ghost use Rattle.cxx_distinct.specs.Sights.{seen};

use crate::sights::Sights;
use agxx_base::Memory;
use cxx_tree::{Base, Call, Callee, Expr, Left, Selector};

impl Sights {
    fn base(&mut self, base: Base) -> Result<(), Memory>
        ensures { OnOk result (self.new ≡ seen self.old (names_in_base base)) }
    {
        match base {
            Base::This => Ok(()),
            Base::Dot(reference) => self.name(reference.name),
            Base::Arrow(reference) => self.name(reference.name),
        }
    }

    fn selector(&mut self, selector: Selector) -> Result<(), Memory>
        ensures { OnOk result (self.new ≡ seen self.old (names_in_selector selector)) }
    {
        self.base(selector.base)?;
        self.name(selector.name)
    }

    pub(crate) fn left(&mut self, left: Left) -> Result<(), Memory>
        ensures { OnOk result (self.new ≡ seen self.old (names_in_left left)) }
    {
        match left {
            Left::Name(reference) => self.name(reference.name),
            Left::Member(_, selector) => self.selector(selector),
            Left::Result(_) => Ok(()),
        }
    }

    fn callee(&mut self, callee: Callee) -> Result<(), Memory>
        ensures { OnOk result (self.new ≡ seen self.old (names_in_callee callee)) }
    {
        match callee {
            Callee::Bare(reference) => self.name(reference.name),
            Callee::Member(selector) => self.selector(selector),
        }
    }

    #[cycle(expr)]
    pub(crate) fn expr(&mut self, expr: &Expr) -> Result<(), Memory>
        ensures { OnOk result (self.new ≡ seen self.old (names_in_expr (expr_tree expr.now))) }
    {
        match expr {
            Expr::Lit(_, _) => Ok(()),
            Expr::Flag(_, _) => Ok(()),
            Expr::Null(_) => Ok(()),
            Expr::This(_) => Ok(()),
            Expr::Left(left) => self.left(*left),
            Expr::Unary(_, _, operand) => self.expr(operand.get()),
            Expr::Binary(_, _, left, right) => {
                self.expr(left.get())?;
                self.expr(right.get())
            }
            Expr::Paren(_, inner) => self.expr(inner.get()),
            Expr::Cast(_, _, operand) => self.expr(operand.get()),
            Expr::Call(call) => self.call(call),
            Expr::New(_, class, None) => self.name(*class),
            Expr::New(_, class, Some(arguments)) => {
                self.name(*class)?;
                self.exprs(arguments.as_slice())
            }
        }
    }

    #[cycle(expr)]
    pub(crate) fn exprs(&mut self, exprs: &[Expr]) -> Result<(), Memory>
        ensures { OnOk result (self.new ≡ seen self.old (names_in_exprs (exprs_tree exprs.now))) }
    {
        for expr in exprs {
            self.expr(expr)?;
        }
        Ok(())
    }

    #[cycle(expr)]
    pub(crate) fn call(&mut self, call: &Call) -> Result<(), Memory>
        ensures { OnOk result (self.new ≡ seen self.old (names_in_call (call_tree call.now))) }
    {
        self.callee(call.callee)?;
        self.exprs(call.arguments.as_slice())
    }
}
