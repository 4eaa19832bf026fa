//! Expressions.

ghost use Rattle.std.specs.Prelude.{◌≡◌, IfOk};
ghost use Rattle.cxx_tree.specs.ExprTree.{new_with, expr_tree, exprs_tree, call_tree};

use crate::copier::Copier;
use agxx_base::Memory;
use cxx_tree::{Call, Expr, Name, Node};
use sqlite_items::{Boxed, Items};

impl Copier {
    /// An expression.
    #[cycle(expr)]
    pub fn expr(self, expr: &Expr) -> Result<Expr, Memory>
        ensures { IfOk result (λ e. expr_tree e ≡ expr_tree expr.now) }
    {
        match expr {
            Expr::Lit(node, number) => Ok(Expr::Lit(*node, *number)),
            Expr::Flag(node, is_set) => Ok(Expr::Flag(*node, *is_set)),
            Expr::Null(node) => Ok(Expr::Null(*node)),
            Expr::This(node) => Ok(Expr::This(*node)),
            Expr::Left(left) => Ok(Expr::Left(*left)),
            Expr::Unary(node, op, operand) => Ok(Expr::Unary(*node, *op, self.boxed(operand)?)),
            Expr::Binary(node, op, left, right) => {
                let left = self.boxed(left)?;
                Ok(Expr::Binary(*node, *op, left, self.boxed(right)?))
            }
            Expr::Paren(node, inner) => Ok(Expr::Paren(*node, self.boxed(inner)?)),
            Expr::Cast(node, type_name, operand) => {
                Ok(Expr::Cast(*node, *type_name, self.boxed(operand)?))
            }
            Expr::Call(call) => Ok(Expr::Call(self.call(call)?)),
            Expr::New(node, class, None) => Ok(Expr::New(*node, *class, None)),
            Expr::New(node, class, Some(arguments)) => {
                self.created(*node, *class, arguments.as_slice())
            }
        }
    }

    // a new object with arguments
    #[cycle(expr)]
    fn created(self, node: Node, class: Name, arguments: &[Expr]) -> Result<Expr, Memory>
        ensures { IfOk result (λ e. expr_tree e ≡ new_with node class (exprs_tree arguments.now)) }
    {
        Ok(Expr::New(node, class, Some(self.exprs(arguments)?)))
    }

    #[cycle(expr)]
    fn boxed(self, operand: &Boxed<Expr>) -> Result<Boxed<Expr>, Memory>
        ensures { IfOk result (λ e. expr_tree e ≡ expr_tree operand.now) }
    {
        let copy = self.expr(operand.get())?;
        Ok(Boxed::new(self.alloc, copy)?)
    }

    /// The arguments of a call.
    #[cycle(expr)]
    pub fn exprs(self, exprs: &[Expr]) -> Result<Items<Expr>, Memory>
        ensures { IfOk result (λ es. exprs_tree es ≡ exprs_tree exprs.now) }
    {
        let mut copies = Items::new(self.alloc);
        for expr in exprs {
            copies.push(self.expr(expr)?)?;
        }
        Ok(copies)
    }

    /// A call of a function by name.
    #[cycle(expr)]
    pub fn call(self, call: &Call) -> Result<Call, Memory>
        ensures { IfOk result (λ c. call_tree c ≡ call_tree call.now) }
    {
        let arguments = self.exprs(call.arguments.as_slice())?;
        Ok(Call {
            node: call.node,
            callee: call.callee,
            arguments,
        })
    }
}
