//! The protected program: each function of a class enters the parts of its objects and leaves them, and each guarded
//! class gets its part.
//!
//! Read `specs/GuardedParts`, `Protected`, `GeneratedNames`.
#![tactic(auto)]

mod added;
mod kinds;
mod parts;
mod program;
mod texts;
mod wrapped;

pub use program::protect;
