//! The rules on protection, from P1 to P5, which a program that violates no rule on names and types has to keep where
//! aspects guard its classes.
//!
//! Read `Parts` (which classes are guarded, and which have a part), then a file for each rule, from
//! `MemberReachedFromOutside` to `DeletesItself`, and `Violations`. Callers cite `refusal_of_guards`. How a program is
//! gone through is in `Nearest`, `ThroughMembers`, `ThroughDeletes` and `FirstFound`: by what is known of its nodes,
//! which are numbered in text order (`Numbered`).
#![tactic(auto)]

mod check;
mod deleted;
mod firsts;
mod known;
mod members;
mod reached;
mod twice;

pub use check::check_guards;
