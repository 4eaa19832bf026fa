//! Where an expression or a statement stands.

use agxx_base::ClassId;
use cxx_tree::TypeName;

/// What a body belongs to.
#[derive(Clone, Copy, Debug, PartialEq, Eq)]
pub enum Owner {
    /// A function with a result of this type, which may be `void`.
    Function(TypeName),
    /// A constructor or a destructor.
    Lifecycle,
    /// The declaration of a global object.
    Global,
}

/// Where an expression or a statement stands.
#[derive(Clone, Copy, Debug, PartialEq, Eq)]
pub struct Context {
    /// The class in whose functions, constructor or destructor it stands.
    pub class: Option<ClassId>,
    pub owner: Owner,
    /// The place among the declarations of the one that it is part of.
    pub index: usize,
}

/// What stands before a member's name.
#[derive(Clone, Copy, Debug, PartialEq, Eq)]
pub enum Holder {
    /// An object of this class, as far as its name or pointer tells.
    Class(ClassId),
    Thread,
    Mutex,
    /// Nothing that has members, which violates a rule.
    Unknown,
}
