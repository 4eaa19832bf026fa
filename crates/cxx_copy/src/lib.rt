//! Copies of trees as new trees. Callers cite `cxx_tree`'s mirrors of trees: what is given is the same tree.
#![tactic(auto)]

mod class;
mod copier;
mod decl;
mod expr;
mod simple;
mod stmt;

pub use copier::Copier;
