//! Makes the core form of a program, in which each name stands with its meaning and each operator with the types of its
//! operands.
#![tactic(auto)]

mod classes;
mod elaborator;
mod expressions;
mod functions;
mod globals;
mod meanings;
mod programs;
mod simple;
mod statements;
mod threads;

pub use programs::elaborate;
