//! Ghost states, from which the state of a protected program and that of its source are read, and what is to be
//! proved of them. The crate has definitions and small laws alone.
//!
//! Read `specs/CoreCodes`, `Names`, `ProtectedCore` (what protection makes of a core program); `EntryFrames`,
//! `GhostFrames`, `Ghost` (both states); `Bodies`, `Deeds`, `Roles`, `Outcomes` (a turn, in both and for each part);
//! `SourceCode`, `Invariant`, `Located`; then `Lemmas` and `Statements`, and `Example`.
#![tactic(auto)]

mod laws;

pub use laws::{answers_are_turns, bodies_unfold, ghosts_are_read, protected_core_runs};
