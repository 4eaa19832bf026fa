//! The normal form of programs, which is what is run, woven and printed. Each rule of it is a definition of its own in
//! `specs`: `Directives`, `Declarations`, `Labels`, `Initialisers`, `Completion`, `Entry` and `Numbers`; `Normal`
//! composes them.
#![tactic(auto)]

mod class;
mod ctor;
mod decl;
mod entry;
mod expr;
mod laws;
mod listing;
mod members;
mod names;
mod numbering;
mod order;
mod program;
mod simple;
mod stmt;

pub use laws::{
    labels_keep_access, normal_is_idempotent, numbering_changes_numbers, numbers_are_counted,
};
pub use program::normal;
