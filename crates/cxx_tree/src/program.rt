//! Programs and their declarations.

use crate::expr::Expr;
use crate::node::{Name, Number, Placed};
use crate::stmt::Block;
use agxx_base::{Header, NameId, NumKind, Place};
use sqlite_items::Items;

/// A type.
#[derive(Clone, Copy, Debug, PartialEq, Eq)]
pub enum TypeName {
    /// A number type by its own name, `bool` among them.
    Num(NumKind),
    /// `int`
    Int,
    /// `unsigned`
    Unsigned,
    Void,
    /// A pointer to objects of a class.
    Pointer(NameId),
    /// `std::mutex`
    Mutex,
}

/// The word that begins a class or names it.
#[derive(Clone, Copy, Debug, PartialEq, Eq)]
pub enum ClassWord {
    Class,
    Struct,
}

/// The access word of a label.
#[derive(Clone, Copy, Debug, PartialEq, Eq)]
pub enum Access {
    Public,
    Protected,
    Private,
}

/// A line for the compiler.
#[derive(Clone, Copy, Debug, PartialEq, Eq)]
pub enum Directive {
    Include(Header),
    /// `#pragma once`
    Pragma,
}

/// A member of a class.
#[derive(Clone, Copy)]
pub struct Member {
    pub type_name: Placed<TypeName>,
    pub name: Name,
}

/// A parameter of a function, constructor or advice.
#[derive(Clone, Copy)]
pub struct Param {
    pub type_name: Placed<TypeName>,
    pub name: Name,
}

/// A function with its body.
#[derive(Drop)]
pub struct Function {
    pub result: Placed<TypeName>,
    pub name: Name,
    pub params: Items<Param>,
    pub body: Block,
}

/// A function without its body.
#[derive(Drop)]
pub struct Proto {
    pub result: Placed<TypeName>,
    pub name: Name,
    pub params: Items<Param>,
}

/// An initialiser of a constructor: a member's or the base's name, and arguments.
#[derive(Drop)]
pub struct Init {
    pub name: Name,
    pub arguments: Items<Expr>,
}

/// A constructor.
#[derive(Drop)]
pub struct Ctor {
    pub name: Name,
    pub params: Items<Param>,
    /// Empty where there is no `:`.
    pub inits: Items<Init>,
    pub body: Block,
}

/// A destructor.
#[derive(Drop)]
pub struct Dtor {
    /// Where `~` stands.
    pub at: Place,
    pub name: Name,
    pub body: Block,
}

/// What stands in the braces of a class. An item has the access of the last label before it. Labels that change
/// nothing are kept as they were read.
#[derive(Drop)]
pub enum Item {
    Label(Place, Access),
    Member(Member),
    Function(Function),
    Ctor(Ctor),
    Dtor(Dtor),
}

/// A class with its items.
#[derive(Drop)]
pub struct Class {
    pub at: Place,
    pub word: ClassWord,
    pub name: Name,
    pub base: Option<Name>,
    pub items: Items<Item>,
}

/// The declaration of a class's name alone.
#[derive(Clone, Copy)]
pub struct ClassName {
    pub at: Place,
    pub word: ClassWord,
    pub name: Name,
}

/// The initial value of a global number or pointer.
#[derive(Clone, Copy, Debug, PartialEq, Eq)]
pub enum Const {
    /// Whether `-` stands before the number, and the number.
    Number(bool, Number),
    Flag(bool),
    Null,
}

/// A global number or pointer.
#[derive(Clone, Copy)]
pub struct Variable {
    pub type_name: Placed<TypeName>,
    pub name: Name,
    /// The initial value, placed at its `=`.
    pub initial: Option<Placed<Const>>,
}

/// A global object.
#[derive(Drop)]
pub struct Object {
    pub class: Name,
    pub name: Name,
    /// Empty where there are no parentheses.
    pub arguments: Items<Expr>,
}

/// A global variable, object or mutex.
#[derive(Drop)]
pub enum Global {
    Variable(Variable),
    Object(Object),
    /// Where `std` stands, and the mutex's name.
    Mutex(Place, Name),
}

/// A declaration outside of classes.
#[derive(Drop)]
pub enum Decl {
    Class(Class),
    ClassName(ClassName),
    Function(Function),
    Proto(Proto),
    Global(Global),
}

/// A whole program.
#[derive(Drop)]
pub struct Program {
    /// Line 1, column 1 of its file.
    pub at: Place,
    pub directives: Items<Directive>,
    pub decls: Items<Decl>,
}
