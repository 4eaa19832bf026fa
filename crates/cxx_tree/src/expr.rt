//! Expressions, and what may stand on the left of an assignment.

ghost use Rattle.std.specs.Prelude.{◌≡◌};
ghost use Rattle.cxx_tree.specs.ExprTree.{expr_tree};
ghost use Rattle.cxx_tree.specs.Places.{expr_node, left_node};

use crate::node::{Name, Node, Number, Placed};
use crate::operator::{BinOp, UnOp};
use crate::program::TypeName;
use sqlite_items::{Boxed, Items};

/// A name as a value, as an object or as a function, with or without `::` before it.
#[derive(Clone, Copy)]
pub struct Ref {
    pub node: Node,
    /// Whether `::` stands before the name.
    pub global: bool,
    pub name: Name,
}

/// What stands before the name of a member.
#[derive(Clone, Copy)]
pub enum Base {
    /// `this->`
    This,
    /// `o.`
    Dot(Ref),
    /// `p->`
    Arrow(Ref),
}

/// A member's or member function's name after what stands before it.
#[derive(Clone, Copy)]
pub struct Selector {
    pub base: Base,
    pub name: Name,
}

/// What may stand on the left of an assignment, and as a value too.
#[derive(Clone, Copy)]
pub enum Left {
    Name(Ref),
    Member(Node, Selector),
    /// `*tjp->result()`
    Result(Node),
}

/// The function of a call.
#[derive(Clone, Copy)]
pub enum Callee {
    /// With nothing before its name but `::`.
    Bare(Ref),
    Member(Selector),
}

/// A call of a function by name.
#[cycle(expr)]
#[derive(Drop)]
pub struct Call {
    pub node: Node,
    pub callee: Callee,
    pub arguments: Items<Expr>,
}

#[cycle(expr)]
#[derive(Drop)]
pub enum Expr {
    Lit(Node, Number),
    /// `true` or `false`.
    Flag(Node, bool),
    /// `nullptr`
    Null(Node),
    /// `this`
    This(Node),
    Left(Left),
    Unary(Node, UnOp, Boxed<Expr>),
    Binary(Node, Placed<BinOp>, Boxed<Expr>, Boxed<Expr>),
    Paren(Node, Boxed<Expr>),
    /// A number type, as it is written, and the operand in its parentheses.
    Cast(Node, TypeName, Boxed<Expr>),
    Call(Call),
    /// `new`, the class's name, and the arguments if there are parentheses.
    New(Node, Name, Option<Items<Expr>>),
}

impl Left {
    /// Its number, and the place of its first token.
    pub fn node(&self) -> Node
        ensures { result ≡ left_node self.now }
    {
        match self {
            Left::Name(reference) => reference.node,
            Left::Member(node, _) => *node,
            Left::Result(node) => *node,
        }
    }
}

impl Expr {
    /// Its number, and the place of its first token.
    pub fn node(&self) -> Node
        ensures { result ≡ expr_node (expr_tree self.now) }
    {
        match self {
            Expr::Lit(node, _) => *node,
            Expr::Flag(node, _) => *node,
            Expr::Null(node) => *node,
            Expr::This(node) => *node,
            Expr::Left(left) => left.node(),
            Expr::Unary(node, _, _) => *node,
            Expr::Binary(node, _, _, _) => *node,
            Expr::Paren(node, _) => *node,
            Expr::Cast(node, _, _) => *node,
            Expr::Call(call) => call.node,
            Expr::New(node, _, _) => *node,
        }
    }
}
