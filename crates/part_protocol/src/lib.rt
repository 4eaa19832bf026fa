//! The protocol by which threads enter and leave parts, over parts alone: it knows no programs. The crate has
//! definitions and laws alone.
//!
//! Read `specs/Gate` (the counter and the lock, whatever the words hold); `Part`, `Rules` (what the words mean, and
//! what runs between lock and unlock), `BlockLaws` (what a code has to keep), `Invariant` (what holds of a part),
//! `Moves` (what a turn does to it), and `Laws`.
#![tactic(auto)]

mod laws;

pub use laws::{gates_are_in_order, mending_is_alone, parts_are_kept, parts_are_right};
