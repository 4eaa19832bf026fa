//! Types of values, and what names stand for.

ghost use Rattle.std.specs.Prelude.{◌≡◌};

use agxx_base::{ClassId, NumKind};
use cxx_tree::Access;

/// The type of a value.
#[derive(Clone, Copy, Debug, PartialEq, Eq)]
pub enum ValueType {
    Number(NumKind),
    /// A pointer to objects of a class.
    Pointer(ClassId),
    /// That of `nullptr`.
    Null,
}

/// What a variable holds.
#[derive(Clone, Copy, Debug, PartialEq, Eq)]
pub enum Thing {
    Value(ValueType),
    /// An object, of this class unless it is declared with what is no class.
    Object(Option<ClassId>),
    Thread,
    Mutex,
    /// Nothing, since it is declared with no type that a variable can have.
    Nothing,
}

/// What the name of a variable means, and what the variable holds.
#[derive(Clone, Copy, Debug, PartialEq, Eq)]
pub enum Variable {
    /// A local or a parameter.
    Local(Thing),
    /// A member, by the class that declares it.
    Member(ClassId, Access, Thing),
    Global(Thing),
}
