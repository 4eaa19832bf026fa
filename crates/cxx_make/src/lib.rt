//! Trees of generated text: statements, expressions, members and functions of which all stands at one place, and the
//! names that are generated. Callers cite `specs/Made.antt` and `specs/Generated.antt`.
#![tactic(auto)]

mod maker;
mod names;

pub use maker::Maker;
pub use names::{intern_all, named_after, numbered, text_after, text_numbered};
