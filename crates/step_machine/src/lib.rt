//! The machine that runs programs, step by step. What it does is defined in `specs`: `Act` says what an item does,
//! `Machine` what a turn of a thread does, `Runs` what a run by a list of turns comes to.
#![tactic(auto)]

mod datum;
mod laws;
mod outcome;

pub use datum::Datum;
pub use laws::{examples_run, lists_and_functions_agree, some_turns_change_nothing};
pub use outcome::{State, StepKind, Stop};
