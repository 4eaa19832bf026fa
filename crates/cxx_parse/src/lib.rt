//! The parser of programs: from tokens to trees. The layer above calls `parse_program`, and cites `Parsed` and
//! `Numbering` of the definitions.
//!
//! Each rule of the grammar is a function of the code, and the same function is defined over lists of words in
//! `specs/`. What the answers mean is told without it, by the spelling of trees; but by it the places in a tree are
//! told too.
#![tactic(auto)]

mod classes;
mod constants;
mod declarations;
mod programs;
mod read;
mod words;

pub use read::{parse_program, reading_is_unique, spelling_is_unique};
