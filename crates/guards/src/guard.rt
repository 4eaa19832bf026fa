//! Which class is guarded, and how.

use agxx_base::{ListOf, NameId, Place};

/// The code that guards a class.
#[derive(Clone, Copy, Debug, PartialEq, Eq)]
pub enum GuardKind {
    /// Two copies of each member, by the built-in aspect `GOP_Copies`.
    Copies,
    /// Check words over all members, by the built-in aspect `GOP_Hamming`.
    Hamming,
}

/// A class that an aspect guards.
#[derive(Clone, Copy, Debug)]
pub struct Guard {
    /// The class's name. A name that is no class's guards nothing.
    pub class: NameId,
    pub kind: GuardKind,
    /// Where the aspect's name stands.
    pub at: Place,
}

/// The guards of all aspects, in order.
pub type Guards = ListOf<Guard>;
