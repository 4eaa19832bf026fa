//! The machine of programs that are run without weaving. Its heap finds a word by its number.
#![tactic(auto)]

mod map_words;
mod source_run;

pub use map_words::MapWords;
pub use source_run::SourceRun;
