//! Statements as a machine runs them.

use crate::expr::{Expr, Left};
use agxx_base::{ClassId, FnId, NameId, NumKind, Place, Text};
use cxx_names::ValueType;
use cxx_tree::BinOp;
use sqlite_items::{Boxed, Items};

/// Where a declared or returned value comes from.
#[derive(Drop)]
pub enum Source {
    /// A local or parameter by its name, not in parentheses, which takes no step of its own.
    Copy(NameId, ValueType),
    Value(Boxed<Expr>),
}

/// An operand of a print, with the place of its first token.
#[derive(Drop)]
pub enum Printed {
    Text(Place, Text),
    /// `std::endl`
    Endl(Place),
    Operand(Place, NumKind, Expr),
    /// What no accepted program has.
    Unprintable(Place),
}

#[derive(Clone, Copy)]
pub enum Mutex {
    Global(NameId),
    /// Of the frame's own object, by the class that declares it.
    Member(ClassId, NameId),
}

#[derive(Drop)]
pub enum Stmt {
    Block(Items<Stmt>),
    /// With nothing to come from, it is 0.
    Declare(NameId, ValueType, Option<Source>),
    Assign(Left, Boxed<Expr>),
    /// `l op= e`, and `++` and `--` with 1 for e; with the sign's place and the operands' types.
    Update(Place, BinOp, ValueType, ValueType, Left, Boxed<Expr>),
    /// A call, whose value is dropped where it has one.
    Run(Boxed<Expr>),
    Join(Place, NameId),
    Lock(Place, Mutex),
    Unlock(Place, Mutex),
    Branch(Boxed<Expr>, Items<Stmt>, Items<Stmt>),
    While(Boxed<Expr>, Items<Stmt>),
    /// What is done first, the condition, what is done after each round, and the body.
    For(Items<Stmt>, Boxed<Expr>, Items<Stmt>, Items<Stmt>),
    Return(Place),
    /// With the type of the function's result.
    ReturnValue(Place, ValueType, Source),
    /// With the static class.
    Delete(Place, ClassId, Boxed<Expr>),
    Print(Items<Printed>),
    /// The thread's name, its function with its name, and the arguments.
    Thread(Place, NameId, FnId, NameId, Items<Expr>),
    Abort,
    /// What no accepted program has.
    Wrong(Place),
}
