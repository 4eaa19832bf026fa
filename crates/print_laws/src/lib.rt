//! Laws of the canonical text: its words are the tokens of the program, and it reads as the program. The crate has
//! definitions and laws alone.
//!
//! Read `specs/Spelled`, `ReadBack`.
#![tactic(auto)]

mod laws;

pub use laws::{texts_are_spelled, texts_read_back};
