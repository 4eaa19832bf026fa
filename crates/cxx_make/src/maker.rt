//! Trees of which all stands at one place.

ghost use Rattle.std.specs.Prelude.{◌≡◌, map, IfOk};
ghost use Rattle.cxx_tree.specs.ExprTree.{expr_tree};
ghost use Rattle.cxx_tree.specs.StmtTree.{stmt_tree, block_tree, if_tree};
ghost use Rattle.cxx_tree.specs.ProgramTree.{function_tree};
ghost use Rattle.cxx_make.specs.Made as spec;

use agxx_base::{Memory, NameId, NodeId, NumKind, Place};
use cxx_tree::{
    Assign, Base, BinOp, Block, Call, Callee, Expr, Function, If, Initial, Left, Local, Member,
    Node, Number, Placed, Ref, Selector, Simple, Stmt, TypeName, UnOp,
};
use sqlite_items::{Boxed, Items};
use std::alloc::Global;

/// Makes trees at one place.
#[derive(Clone, Copy)]
pub struct Maker {
    pub alloc: Global,
    pub at: Place,
}

impl Maker {
    fn node(self) -> Node
        ensures { result ≡ spec.node self.at }
    {
        Node {
            at: self.at,
            id: NodeId(0),
        }
    }

    fn placed<T>(self, item: T) -> Placed<T>
        ensures { result ≡ spec.placed self.at item }
    {
        Placed { at: self.at, item }
    }

    fn reference(self, name: NameId) -> Ref
        ensures { result ≡ spec.ref self.at name }
    {
        Ref {
            node: self.node(),
            global: false,
            name: self.placed(name),
        }
    }

    fn left(self, name: NameId) -> Left
        ensures { result ≡ spec.left self.at name }
    {
        Left::Name(self.reference(name))
    }

    fn boxed(self, expr: Expr) -> Result<Boxed<Expr>, Memory>
        ensures { IfOk result (λ b. b ≡ expr) }
    {
        Ok(Boxed::new(self.alloc, expr)?)
    }

    /// The variable of this name.
    pub fn variable(self, name: NameId) -> Expr
        ensures { expr_tree result ≡ spec.variable self.at name }
    {
        Expr::Left(self.left(name))
    }

    /// A number of this kind.
    pub fn number(self, kind: NumKind, bits: u64) -> Expr
        ensures { expr_tree result ≡ spec.number self.at kind bits }
    {
        Expr::Lit(self.node(), Number { bits, kind })
    }

    /// The operand, converted to a kind.
    pub fn cast(self, kind: NumKind, operand: Expr) -> Result<Expr, Memory>
        ensures { IfOk result (λ e. expr_tree e ≡ spec.cast self.at kind (expr_tree operand)) }
    {
        Ok(Expr::Cast(self.node(), TypeName::Num(kind), self.boxed(operand)?))
    }

    /// An operator before its operand.
    pub fn unary(self, op: UnOp, operand: Expr) -> Result<Expr, Memory>
        ensures { IfOk result (λ e. expr_tree e ≡ spec.unary self.at op (expr_tree operand)) }
    {
        Ok(Expr::Unary(self.node(), op, self.boxed(operand)?))
    }

    /// An operator between its operands.
    pub fn binary(self, op: BinOp, left: Expr, right: Expr) -> Result<Expr, Memory>
        ensures { IfOk result (λ e. expr_tree e
            ≡ spec.binary self.at op (expr_tree left) (expr_tree right)) }
    {
        let left = self.boxed(left)?;
        let right = self.boxed(right)?;
        Ok(Expr::Binary(self.node(), self.placed(op), left, right))
    }

    /// Parentheses around an expression.
    pub fn paren(self, inner: Expr) -> Result<Expr, Memory>
        ensures { IfOk result (λ e. expr_tree e ≡ spec.paren self.at (expr_tree inner)) }
    {
        Ok(Expr::Paren(self.node(), self.boxed(inner)?))
    }

    /// `name = value;`
    pub fn assign(self, name: NameId, value: Expr) -> Stmt
        ensures { stmt_tree result ≡ spec.assign self.at name (expr_tree value) }
    {
        Stmt::Simple(Simple::Assign(Assign {
            left: self.left(name),
            sign: self.placed(None),
            value,
        }))
    }

    /// `T name = value;`
    pub fn local(self, type_name: TypeName, name: NameId, value: Expr) -> Stmt
        ensures { stmt_tree result ≡ spec.local self.at type_name name (expr_tree value) }
    {
        Stmt::Local(Local {
            type_name: self.placed(type_name),
            name: self.placed(name),
            initial: Some(Initial {
                sign: self.at,
                value,
            }),
        })
    }

    /// `name();`
    pub fn call(self, name: NameId) -> Stmt
        ensures { stmt_tree result ≡ spec.call self.at name }
    {
        Stmt::Simple(Simple::CallStmt(Call {
            node: self.node(),
            callee: Callee::Bare(self.reference(name)),
            arguments: Items::new(self.alloc),
        }))
    }

    /// `object.name();`
    pub fn call_on(self, object: NameId, name: NameId) -> Stmt
        ensures { stmt_tree result ≡ spec.call_on self.at object name }
    {
        Stmt::Simple(Simple::CallStmt(Call {
            node: self.node(),
            callee: Callee::Member(Selector {
                base: Base::Dot(self.reference(object)),
                name: self.placed(name),
            }),
            arguments: Items::new(self.alloc),
        }))
    }

    /// The statements in braces.
    pub fn block(self, stmts: Items<Stmt>) -> Block
        ensures { block_tree result ≡ spec.block self.at (map stmt_tree stmts) }
    {
        Block { at: self.at, stmts }
    }

    fn branch(self, condition: Expr, stmts: Items<Stmt>) -> If
        ensures { if_tree result ≡ spec.chooses self.at (expr_tree condition) (map stmt_tree stmts) }
    {
        let body = self.block(stmts);
        If {
            at: self.at,
            condition,
            body,
            otherwise: None,
        }
    }

    /// `if (condition) { .. }`
    pub fn when(self, condition: Expr, stmts: Items<Stmt>) -> Stmt
        ensures { stmt_tree result ≡ spec.when self.at (expr_tree condition) (map stmt_tree stmts) }
    {
        Stmt::If(self.branch(condition, stmts))
    }

    /// `T name;`
    pub fn member(self, type_name: TypeName, name: NameId) -> Member
        ensures { result ≡ spec.member self.at type_name name }
    {
        Member {
            type_name: self.placed(type_name),
            name: self.placed(name),
        }
    }

    /// `void name() { .. }`
    pub fn procedure(self, name: NameId, stmts: Items<Stmt>) -> Function
        ensures { function_tree result ≡ spec.procedure self.at name (map stmt_tree stmts) }
    {
        Function {
            result: self.placed(TypeName::Void),
            name: self.placed(name),
            params: Items::new(self.alloc),
            body: self.block(stmts),
        }
    }
}
