//! What all trees are made of: places, numbers of nodes, names, numbers and strings.

use agxx_base::{NameId, NodeId, NumKind, Place, Text};

/// What an expression or a reference to a name has besides its parts.
#[derive(Clone, Copy)]
pub struct Node {
    /// Where its first token stands.
    pub at: Place,
    pub id: NodeId,
}

/// A part of one or a few tokens, such as a name, a type or an operator, and where the first of them stands.
#[derive(Clone, Copy)]
pub struct Placed<T> {
    pub at: Place,
    pub item: T,
}

/// A name and where it stands.
pub type Name = Placed<NameId>;

/// A number of the text: its bits, zero-extended, and its kind, which is never `Bool`, `I8`, `U8`, `I16` or `U16`.
#[derive(Clone, Copy, Debug, PartialEq, Eq)]
pub struct Number {
    pub bits: u64,
    pub kind: NumKind,
}

/// A string in quotes.
#[derive(Drop)]
pub struct Quoted {
    /// Where the opening quote stands.
    pub at: Place,
    /// The bytes that it stands for, with the escapes read.
    pub bytes: Text,
}
