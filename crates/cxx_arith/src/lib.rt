//! Arithmetic on numbers of C++'s kinds, as the language defines it: which kind a result has, which number it is, and
//! where an operator stops. It takes no memory.
//!
//! What the contracts cite are definitions over whole numbers, in `specs/Arithmetic`; the code computes in 128 bits.
#![tactic(auto)]

mod binary;
mod kinds;
mod laws;
mod unary;
mod value;

pub use binary::apply;
pub use kinds::{common_kind, promoted};
pub use laws::{
    numbers_are_kept, remainder_stops_with_quotient, results_are_in_range, values_are_kept,
};
pub use unary::{apply_one, convert};
pub use value::{ArithStop, Value, flag, number};
