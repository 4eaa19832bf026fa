//! The rules on names and types, each by itself, and the law that `cxx_types` finds just what they say. The crate has
//! definitions and laws alone.
//!
//! Read `Sites` (what is known where a part stands) and `Types` (the type of an expression there), then `Forms`,
//! `StmtForms` and `ProgramForms` (what stands in a program of which any rule speaks), then a file for each rule, from
//! `UnknownName` to `TooMany`, and `Rules`.
#![tactic(auto)]

mod laws;

pub use laws::{each_node_once, each_rule_by_itself};
