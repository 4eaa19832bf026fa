//! Which programs have a text that reads as them: what their names, numbers and strings must be. The crate has
//! definitions and laws alone.
//!
//! Read `specs/Written`.
#![tactic(auto)]

mod laws;

pub use laws::parsed_is_written;
