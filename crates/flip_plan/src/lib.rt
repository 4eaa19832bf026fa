//! Plans: how many turns a run has at most, which thread each turn is, and which bits of the memory flip before which
//! turn. A plan is read from text.
//!
//! Lines end at LF. Words are separated by space, tab, CR or form feed. A line without words, or whose first word
//! begins with `#`, is passed over. The other lines are these; numbers are decimal.
//!
//! - `limit N`: at most N turns are taken, 0 to 100,000,000. Exactly one line.
//! - `turns T..`: the turns, one item or more: `T` is a turn of thread T (0 to 63), `T*N` are N turns of it (1 to
//!   100,000,000). Several lines are joined; at most 100,000,000 turns in all.
//! - `cycle T..`: the turns that then come again and again, at most 1,000,000. At most one line; without it they are
//!   `0 1 2 3 4 5 6 7`.
//! - `flip I O W B`: before turn I (0 to 99,999,999) bit B (0 to 63) of word W (0 to 65,535) of object O (0 to
//!   65,535) flips.
//! - `free I O W B`: this bit flips before the first turn, from turn I on, before which its flip is admissible. The
//!   lines `flip` and `free` are numbered together, and there are at most 100,000 of them.
#![tactic(auto)]

mod build;
mod check;
mod flip;
mod line;
mod lines;
mod numbers;
mod pieces;
mod plan;
mod read;
mod rules;
mod runs;
mod seen;

pub use flip::PlannedFlip;
pub use plan::{Plan, default_plan};
pub use read::read_plan;
