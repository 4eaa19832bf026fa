//! Arguments of a base, which is constructed before the object has members.

ghost use Rattle.std.specs.Prelude.{◌≡◌, OnOk};
ghost use Rattle.cxx_tree.specs.ExprTree.{expr_tree, exprs_tree};
ghost use Rattle.cxx_types.specs.Classes as spec;

use crate::checker::Checker;
use crate::context::Context;
use agxx_base::{Memory, Rule};
use cxx_names::Variable;
use cxx_tree::{Expr, Left};

fn of_member(variable: Option<Variable>) -> bool
    ensures { result ≡ spec.of_member variable }
{
    matches!(variable, Some(Variable::Member(_, _, _)))
}

impl<'a> Checker<'a> {
    fn left_of_member(&self, context: Context, left: Left) -> bool
        ensures { result ≡ spec.left_of_member context left self.now }
    {
        match left {
            Left::Name(reference) => of_member(self.meant(context, reference)),
            Left::Member(_, _) => true,
            Left::Result(_) => false,
        }
    }

    /// Whether an expression names a member or calls a function.
    #[cycle(uses)]
    fn uses_object(&self, context: Context, expr: &Expr) -> bool
        ensures { result ≡ spec.uses_object context (expr_tree expr.now) self.now }
    {
        match expr {
            Expr::Lit(_, _) | Expr::Flag(_, _) | Expr::Null(_) | Expr::This(_) => false,
            Expr::Left(left) => self.left_of_member(context, *left),
            Expr::Unary(_, _, operand) => self.uses_object(context, operand.get()),
            Expr::Binary(_, _, left, right) => {
                self.uses_object(context, left.get()) || self.uses_object(context, right.get())
            }
            Expr::Paren(_, inner) => self.uses_object(context, inner.get()),
            Expr::Cast(_, _, operand) => self.uses_object(context, operand.get()),
            Expr::Call(_) => true,
            Expr::New(_, _, None) => false,
            Expr::New(_, _, Some(arguments)) => {
                self.any_uses_object(context, arguments.as_slice())
            }
        }
    }

    #[cycle(uses)]
    fn any_uses_object(&self, context: Context, arguments: &[Expr]) -> bool
        ensures { result ≡ spec.any_uses_object context (exprs_tree arguments.now) self.now }
    {
        for argument in arguments {
            if self.uses_object(context, argument) {
                return true;
            }
        }
        false
    }

    /// No argument of a base names a member or calls a function.
    pub(crate) fn base_arguments(
        &mut self,
        context: Context,
        arguments: &[Expr],
    ) -> Result<(), Memory>
        ensures { OnOk result
            (self.new ≡ spec.base_arguments context (exprs_tree arguments.now) self.old) }
    {
        for argument in arguments {
            let uses = self.uses_object(context, argument);
            self.require(Rule::N8, argument.node().at, !uses)?;
        }
        Ok(())
    }
}
