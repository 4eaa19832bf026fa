//! Expressions as a machine runs them: each name with its meaning, each operator with the types of its operands.

use agxx_base::{ClassId, FnId, NameId, NumKind, Place};
use cxx_arith::Value;
use cxx_names::ValueType;
use cxx_tree::{BinOp, UnOp};
use sqlite_items::{Boxed, Items};

/// A variable that holds a value.
#[derive(Clone, Copy)]
pub enum Variable {
    /// A local or parameter.
    Local(NameId, ValueType),
    /// A global, and whether `::` stands before its name.
    Global(bool, NameId, ValueType),
}

/// The object whose member or function is meant.
#[derive(Clone, Copy)]
pub enum Object {
    /// The frame's own, where the name stands alone.
    Own,
    /// `this->`
    This,
    /// `o.`, where o is a global object of this class.
    Named(NameId, ClassId),
    /// `p->`, where p is read anew.
    Pointed(Variable),
}

/// A member of an object.
#[derive(Clone, Copy)]
pub struct Member {
    /// The first token.
    pub at: Place,
    pub object: Object,
    /// The class that declares it.
    pub class: ClassId,
    pub name: NameId,
    pub kind: NumKind,
}

/// What may be assigned to, and read too.
#[derive(Clone, Copy)]
pub enum Left {
    Variable(Variable),
    Member(Member),
}

/// The function of a call.
#[derive(Clone, Copy)]
pub struct Callee {
    /// The call's first token.
    pub at: Place,
    /// Where the function's name stands.
    pub named: Place,
    pub function: FnId,
    pub name: NameId,
    /// The class that declares it, if it is no free function.
    pub class: Option<ClassId>,
    pub object: Option<Object>,
    /// Whether `::` stands before its name.
    pub is_global: bool,
    pub result: Option<ValueType>,
}

#[derive(Drop)]
pub enum Expr {
    Number(Value),
    /// `nullptr`
    Null,
    This(ClassId),
    Read(Left),
    /// The address of a global object.
    Address(NameId, ClassId),
    /// With the operator's place and the operand's type.
    Unary(Place, UnOp, ValueType, Boxed<Expr>),
    /// Neither `&&` nor `||`; with the operator's place and the operands' types.
    Binary(Place, BinOp, ValueType, ValueType, Boxed<Expr>, Boxed<Expr>),
    And(ValueType, ValueType, Boxed<Expr>, Boxed<Expr>),
    Or(ValueType, ValueType, Boxed<Expr>, Boxed<Expr>),
    Cast(NumKind, ValueType, Boxed<Expr>),
    Call(Callee, Items<Expr>),
    New(Place, ClassId, Items<Expr>),
    /// What no accepted program has.
    Wrong(Place),
}
