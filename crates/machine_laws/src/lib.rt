//! Laws of the machine's layout of objects, and of what words hold. The crate has definitions and laws alone.
//!
//! Read `Locate` (which class and which of its words the number of a word is) and `Locates`; `Layouts` (the words along
//! a line of classes, and the layouts by declarations); then `Members` (what holds of each member that is named) and
//! `Widths` (words in every run).
#![tactic(auto)]

mod laws;

pub use laws::{layouts_agree, widths_are_kept, words_are_located};
