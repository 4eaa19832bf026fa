//! How many nodes trees have. Each function adds the nodes of a part to a count, which stays at 2^64 - 1 where there
//! are more.

mod expr;
mod program;
mod stmt;

pub use program::node_count;
