//! Laws of the normal form: it has nothing of places and numbers, and keeps what a program needs to have a text. The
//! crate has definitions and laws alone.
//!
//! Read `specs/Same`, `Kept`.
#![tactic(auto)]

mod laws;

pub use laws::{normal_keeps_text, normal_respects_same};
