//! The distinct names of a program.
#![tactic(auto)]

mod expr;
mod program;
mod sights;
mod stmt;

pub use program::name_past;
