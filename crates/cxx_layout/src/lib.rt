//! The words of objects, and the classes with a part in them.
#![tactic(auto)]

mod layouts;
mod parts;

pub use layouts::{ClassList, Layout, Layouts, WordInfo};
