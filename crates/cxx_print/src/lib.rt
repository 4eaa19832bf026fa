//! The canonical text of a program: which text a tree has, and that it is written to a sink, made in memory or counted
//! as such. Callers cite `text_of` of `specs/Programs`.
//!
//! Read `Document` (words, and what stands between them) and `Texts` (the text of each), then `Expressions`,
//! `Statements` and `Programs`, which have the form of each line of the grammar. `Printing` is of the code alone.
#![tactic(auto, using(crate::proofs::Printed::printing))]

mod expr;
mod laws;
mod printer;
mod program;
mod simple;
mod sinks;
mod stmt;
mod texts;
mod words;
mod writing;

pub use laws::examples_print;
pub use writing::{print, text_len, to_text};
