//! Laws of whole runs by a plan: how many turns they take, and that a source is never halted. The crate has definitions
//! and laws alone.
//!
//! Read `TurnLimits`, then `HaltFree` (code without `std::abort();`) and `NeverHalted`.
#![tactic(auto)]

mod laws;

pub use laws::{sources_never_halt, turns_are_limited};
