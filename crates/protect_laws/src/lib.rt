//! Laws of protected programs. The crate has definitions and laws alone.
//!
//! Read `specs/Exits`, `Strip`, `Guarded`, `Bodies`, `Kept`, `Normal`, `Example`.
#![tactic(auto)]

mod laws;

pub use laws::{
    bodies_are_guarded, example_has_its_words, exits_come_after_leaves, generated_names_are_known,
    parts_are_guarded, protected_fits_woven, protected_is_normal, stripped_is_source,
};
