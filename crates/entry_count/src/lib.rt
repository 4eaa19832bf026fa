//! Entering and leaving parts: what is generated for a part besides its code's words, and bodies that enter parts and
//! leave them before each exit.
//!
//! Read `specs/PartCode`, `Wrapping`.
#![tactic(auto)]

mod part_code;
mod part_maker;
mod part_names;
mod returned;
mod wrapping;

pub use part_code::{PartCode, enter_leave};
pub use part_names::{mutex_texts, part_texts, value_texts};
pub use returned::returns_in;
pub use wrapping::wrap;
