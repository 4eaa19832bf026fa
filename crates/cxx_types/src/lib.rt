//! Names and types of a program, and the rules on them. The crate goes through a program once, in text order: it takes
//! down each rule that is violated, and the type and meaning of each node. Callers cite `IsTypedOf` and `IsChecked` of
//! `Typing`, and `refusal_of` of `Violations`.
//!
//! Read `Checking` and `State` (what a walk finds), then `Access`, `Conversion`, `Selections`, `Calls`, `Expressions`,
//! `Locals`, `Statements`, `Classes` and `Programs` (the walk), then `Violations` and `Typing`.
#![tactic(auto)]

mod access;
mod base_arguments;
mod calls;
mod chains;
mod checker;
mod classes;
mod context;
mod conversion;
mod entries;
mod entry;
mod expressions;
mod limits;
mod locals;
mod programs;
mod selections;
mod statements;
mod typed;

pub use chains::{Chain, Chains, JoinPoint, Link, Links, PointKind};
pub use context::Context;
pub use cxx_layout::{ClassList, Layout, WordInfo};
pub use cxx_names::ValueType;
pub use entry::{Entry, Meaning};
pub use typed::{Typed, check};
