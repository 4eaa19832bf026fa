//! The machine of woven programs. Its heap keeps the words of each object side by side.
#![tactic(auto)]

mod list_words;
mod woven_run;

pub use list_words::ListWords;
pub use woven_run::WovenRun;

#[cfg(test)]
mod tests;
