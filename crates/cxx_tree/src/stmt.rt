//! Statements.

use crate::expr::{Call, Expr, Left, Ref};
use crate::node::{Name, Placed, Quoted};
use crate::operator::BinOp;
use crate::program::TypeName;
use agxx_base::Place;
use sqlite_items::{Boxed, Items};

/// The value after the `=` of a declaration.
#[derive(Drop)]
pub struct Initial {
    /// Where `=` stands.
    pub sign: Place,
    pub value: Expr,
}

/// The declaration of a local.
#[derive(Drop)]
pub struct Local {
    pub type_name: Placed<TypeName>,
    pub name: Name,
    pub initial: Option<Initial>,
}

/// An assignment, with an operator or without.
#[derive(Drop)]
pub struct Assign {
    pub left: Left,
    /// The operator of `+=` and its kin, or none for `=`.
    pub sign: Placed<Option<BinOp>>,
    pub value: Expr,
}

/// `++` or `--`.
#[derive(Clone, Copy)]
pub struct Bump {
    pub left: Left,
    /// Where the sign stands.
    pub sign: Place,
    /// Whether the sign is `++`.
    pub adds: bool,
    /// Whether the sign stands in front.
    pub in_front: bool,
}

/// What may also stand in the head of a `for`.
#[derive(Drop)]
pub enum Simple {
    Assign(Assign),
    Bump(Bump),
    CallStmt(Call),
    /// `tjp->proceed()`
    Proceed(Place),
}

/// An operand of a print.
#[derive(Drop)]
pub enum Printed {
    Text(Quoted),
    /// `std::endl`
    Endl(Place),
    Value(Expr),
}

/// `std::cout` and its operands, of which there is at least one.
#[derive(Drop)]
pub struct Print {
    pub at: Place,
    pub operands: Items<Printed>,
}

/// `std::thread`, the thread's name, and in parentheses its function and the arguments.
#[derive(Drop)]
pub struct Thread {
    pub at: Place,
    pub name: Name,
    pub function: Ref,
    pub arguments: Items<Expr>,
}

/// Statements in braces.
#[cycle(stmt)]
#[derive(Drop)]
pub struct Block {
    pub at: Place,
    pub stmts: Items<Stmt>,
}

#[cycle(stmt)]
#[derive(Drop)]
pub enum Stmt {
    Block(Block),
    Local(Local),
    Simple(Simple),
    If(If),
    While(While),
    For(For),
    Return(Place, Option<Expr>),
    Delete(Place, Expr),
    Print(Print),
    Thread(Thread),
    /// `std::abort();`
    Abort(Place),
}

#[cycle(stmt)]
#[derive(Drop)]
pub struct If {
    pub at: Place,
    pub condition: Expr,
    pub body: Block,
    pub otherwise: Option<Else>,
}

/// What stands after `else`.
#[cycle(stmt)]
#[derive(Drop)]
pub enum Else {
    Branch(Boxed<If>),
    Body(Block),
}

#[cycle(stmt)]
#[derive(Drop)]
pub struct While {
    pub at: Place,
    pub condition: Expr,
    pub body: Block,
}

/// What stands first in the head of a `for`.
#[derive(Drop)]
pub enum Start {
    Local(Local),
    Simple(Simple),
}

#[cycle(stmt)]
#[derive(Drop)]
pub struct For {
    pub at: Place,
    pub start: Option<Start>,
    /// No condition is `true`.
    pub condition: Option<Expr>,
    pub step: Option<Simple>,
    pub body: Block,
}
