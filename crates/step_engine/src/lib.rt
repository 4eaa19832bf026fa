//! The engine: it runs programs step by step, over objects behind the trait `Heap`. What a step does is defined in
//! `step_machine`.
#![tactic(auto)]

mod act;
mod calls;
mod effect;
mod engine;
mod enter;
mod flips;
mod inserted;
mod members;
mod objects;
mod runs;
mod start;
mod threads;
mod turning;
mod turns;

pub use engine::Engine;
pub use runs::{Counts, Turns};
