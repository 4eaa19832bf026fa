//! Laws of check words. The crate has definitions and laws alone.
//!
//! Read `specs/PositionsOfWords`, `Places`, `Words`, `Masks`, `WordValues`.
#![tactic(auto)]

mod laws;

pub use laws::{masks_are_places, places_mend, positions_are_all, words_are_values, words_mend};
