//! Laws of the core form: it has nothing of the numbers of nodes, its numbers of functions mean functions, and it is
//! the one that was written out by hand for examples.
#![tactic(auto)]

mod laws;

pub use laws::{examples_elaborate, numbering_keeps_core, numbers_mean_functions};
