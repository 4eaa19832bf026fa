//! Programs as a machine runs them.

use crate::expr::Expr;
use crate::stmt::Stmt;
use agxx_base::{ClassId, FnId, NameId, NumKind, Place};
use cxx_arith::Value;
use cxx_names::ValueType;
use cxx_tree::Name;
use sqlite_items::Items;

#[derive(Clone, Copy)]
pub struct Param {
    pub name: NameId,
    pub value_type: ValueType,
}

#[derive(Clone, Copy, Debug, PartialEq, Eq)]
pub enum FunctionKind {
    Plain,
    Constructor,
    Destructor,
}

#[derive(Drop)]
pub struct Function {
    /// Its place in the list of functions.
    pub number: FnId,
    /// A constructor's and a destructor's is the class's.
    pub name: Name,
    /// The class that declares it, if it is no free function.
    pub class: Option<ClassId>,
    pub kind: FunctionKind,
    pub params: Items<Param>,
    pub result: Option<ValueType>,
    /// Of a constructor the base's constructor, and of a destructor the base's destructor.
    pub base: Option<FnId>,
    /// The arguments for the base's constructor, which are evaluated before it.
    pub base_arguments: Items<Expr>,
    pub body: Items<Stmt>,
}

/// A member that is a word of its object.
#[derive(Clone, Copy)]
pub struct Word {
    pub name: NameId,
    pub kind: NumKind,
}

#[derive(Drop)]
pub struct Class {
    pub name: Name,
    pub base: Option<ClassId>,
    /// Those that the class itself declares, in the order of the text.
    pub words: Items<Word>,
    /// The names of its mutex members.
    pub mutexes: Items<NameId>,
    pub constructor: Option<FnId>,
    pub destructor: Option<FnId>,
}

#[derive(Drop)]
pub enum Global {
    /// A number, with the value that it has at first.
    Number(NameId, Value),
    /// A pointer, which is null at first.
    Pointer(NameId, ClassId),
    /// An object, with the place of its class's name and the arguments for its constructor.
    Object(Place, NameId, ClassId, Items<Expr>),
    Mutex(NameId),
    /// What no accepted program has.
    Wrong(Place),
}

#[derive(Drop)]
pub struct Program {
    /// Each stands at its number.
    pub functions: Items<Function>,
    /// Each stands at its number.
    pub classes: Items<Class>,
    /// In order of declaration.
    pub globals: Items<Global>,
    pub main: Option<FnId>,
}
