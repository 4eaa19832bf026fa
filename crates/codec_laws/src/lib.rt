//! Laws of the codes: what their words mean, the names that they generate, and what the generated statements do. The
//! crate has definitions and laws alone.
//!
//! Read `Values` (members are kept, damage is repaired) and `Names`; then `Solo` (a block's run by itself), `Blocks`,
//! `BlockRuns` (what it comes to), `OfPart` and `BlockTurns` (its steps among other threads), and `Elaboration` (the
//! blocks are what is generated).
#![tactic(auto)]

mod laws;

pub use laws::{
    blocks_are_what_is_generated, blocks_do_what_they_mean, blocks_turn_among_others,
    copies_keep_values, generated_names_differ,
};
