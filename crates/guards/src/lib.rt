//! Guards: which classes of a program are protected, and by which code. Aspect files give them, the rules on protection
//! and the weaver go by them.
#![tactic(auto)]

mod guard;

pub use guard::{Guard, GuardKind, Guards};
