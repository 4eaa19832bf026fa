//! What is known of the nodes of a program.

use agxx_base::{ClassId, FnId, NameId};
use cxx_tree::TypeName;

/// What a name means at its place.
#[derive(Clone, Copy, Debug, PartialEq, Eq)]
pub enum Meaning {
    /// A local or a parameter.
    Local(NameId),
    /// A member, by the class that declares it.
    Member(ClassId, NameId),
    Global(NameId),
    Function(FnId),
    /// None of these: what isn't a name, or the name of a class, or of a thread's or mutex's function.
    Other,
}

/// The type and the meaning of a node. What has no type of its own, as `nullptr`, an object's name or a thread's, has
/// the type `void`.
#[derive(Clone, Copy, Debug, PartialEq, Eq)]
pub struct Entry {
    pub type_name: TypeName,
    pub meaning: Meaning,
}
