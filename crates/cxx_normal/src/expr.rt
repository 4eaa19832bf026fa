//! Expressions.

ghost use Rattle.cxx_tree.specs.ExprTree.{new_with, expr_tree, exprs_tree, call_tree};
ghost use Rattle.cxx_normal.specs.Gives.{Gives};
ghost use Rattle.cxx_normal.specs.Numbers.{number_expr, number_exprs, number_call};

use crate::numbering::Numbering;
use agxx_base::Memory;
use cxx_tree::{Call, Expr, Name, Node};
use sqlite_items::{Boxed, Items};

impl Numbering {
    #[cycle(expr)]
    pub(crate) fn expr(&mut self, expr: &Expr) -> Result<Expr, Memory>
        ensures { Gives expr_tree (number_expr (expr_tree expr.now) self.old.next) result self.new.next }
    {
        match expr {
            Expr::Lit(node, number) => Ok(Expr::Lit(self.node(*node)?, *number)),
            Expr::Flag(node, is_set) => Ok(Expr::Flag(self.node(*node)?, *is_set)),
            Expr::Null(node) => Ok(Expr::Null(self.node(*node)?)),
            Expr::This(node) => Ok(Expr::This(self.node(*node)?)),
            Expr::Left(left) => Ok(Expr::Left(self.left(*left)?)),
            Expr::Unary(node, op, operand) => {
                let node = self.node(*node)?;
                Ok(Expr::Unary(node, *op, self.boxed(operand)?))
            }
            Expr::Binary(node, op, left, right) => {
                let node = self.node(*node)?;
                let left = self.boxed(left)?;
                Ok(Expr::Binary(node, *op, left, self.boxed(right)?))
            }
            Expr::Paren(node, inner) => {
                let node = self.node(*node)?;
                Ok(Expr::Paren(node, self.boxed(inner)?))
            }
            Expr::Cast(node, type_name, operand) => {
                let node = self.node(*node)?;
                Ok(Expr::Cast(node, *type_name, self.boxed(operand)?))
            }
            Expr::Call(call) => Ok(Expr::Call(self.call(call)?)),
            Expr::New(node, class, None) => Ok(Expr::New(self.node(*node)?, *class, None)),
            Expr::New(node, class, Some(arguments)) => {
                self.created(*node, *class, arguments.as_slice())
            }
        }
    }

    // a new object with arguments
    #[cycle(expr)]
    fn created(&mut self, node: Node, class: Name, arguments: &[Expr]) -> Result<Expr, Memory>
        ensures { Gives expr_tree
            (number_expr (new_with node class (exprs_tree arguments.now)) self.old.next)
            result self.new.next }
    {
        let node = self.node(node)?;
        let arguments = self.exprs(arguments)?;
        Ok(Expr::New(node, class, Some(arguments)))
    }

    #[cycle(expr)]
    fn boxed(&mut self, operand: &Boxed<Expr>) -> Result<Boxed<Expr>, Memory>
        ensures { Gives expr_tree (number_expr (expr_tree operand.now) self.old.next) result self.new.next }
    {
        let copy = self.expr(operand.get())?;
        Ok(Boxed::new(self.alloc, copy)?)
    }

    #[cycle(expr)]
    pub(crate) fn exprs(&mut self, exprs: &[Expr]) -> Result<Items<Expr>, Memory>
        ensures { Gives exprs_tree (number_exprs (exprs_tree exprs.now) self.old.next) result self.new.next }
    {
        let mut copies = Items::new(self.alloc);
        for expr in exprs {
            copies.push(self.expr(expr)?)?;
        }
        Ok(copies)
    }

    #[cycle(expr)]
    pub(crate) fn call(&mut self, call: &Call) -> Result<Call, Memory>
        ensures { Gives call_tree (number_call (call_tree call.now) self.old.next) result self.new.next }
    {
        let node = self.node(call.node)?;
        let callee = self.callee(call.callee)?;
        let arguments = self.exprs(call.arguments.as_slice())?;
        Ok(Call {
            node,
            callee,
            arguments,
        })
    }
}
