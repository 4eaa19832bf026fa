//! Laws of entering and leaving parts. The crate has definitions and laws alone.
//!
//! Read `specs/EntryBlocks` (what enters and leaves, in core form), `Elaboration` (it is what is generated), and
//! `Steady` (while somebody is inside, it does the same whatever the words of the part are).
#![tactic(auto)]

mod laws;

pub use laws::{blocks_are_steady, entry_is_what_is_generated};
