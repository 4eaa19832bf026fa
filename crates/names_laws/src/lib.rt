//! Laws of what names mean: which class derives from which, and which names are distinct. The crate has definitions
//! and laws alone.
//!
//! Read `Derivation` (a class derives from itself and from what its base derives from), then `DistinctNames` (names,
//! each once, in order of first sight) and `SpelledNames` (the names that are counted are those of a program's
//! spelling).
#![tactic(auto)]

mod laws;

pub use laws::{derivation_is_an_order, distinct_names_are_each_once, names_are_spelled};
