//! Laws of what is generated for check words: the blocks that repair and renew a part, and what their runs come to. The
//! crate has definitions and laws alone.
//!
//! Read `Blocks` (what repairs and renews, in core form), `BlockRuns` (what their runs come to), `OfPart` (they name
//! nothing but the words of their part), `Elaboration` (they are what is generated) and `Names`.
#![tactic(auto)]

mod laws;

pub use laws::{
    check_blocks_are_of_part, check_blocks_are_what_is_generated, check_blocks_do_what_they_mean,
    check_names_differ,
};
