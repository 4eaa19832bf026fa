//! Check words: a code over the members of a part, at each bit place by itself, that repairs one inverted bit and stops
//! the program where there are two. `Hamming` is what weaving takes, callers cite its code, `specs/Hamming`.
//!
//! Read `specs/Positions`, `HammingWords`, `HammingNames`, `HammingTrees`, `Hamming`.
#![tactic(auto)]

mod chains;
mod generated;
mod hamming;
mod lists;
mod names;
mod positions;
mod renewal;
mod repair;
mod words;

pub use hamming::Hamming;
