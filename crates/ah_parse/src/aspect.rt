//! Aspects that guard classes.

use agxx_base::{ListOf, Place, Text};
use guards::GuardKind;

/// An aspect that guards classes.
#[derive(Debug, Drop)]
pub struct GuardAspect {
    /// The aspect's own name.
    pub name: Text,
    /// Where its name stands.
    pub at: Place,
    /// The code that its base brings.
    pub kind: GuardKind,
    /// The names of the classes, as its pointcut has them.
    pub classes: ListOf<Text>,
}
