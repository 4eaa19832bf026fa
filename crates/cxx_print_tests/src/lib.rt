//! Tests of the text that `cxx_print` writes, on programs that are read from text.
#![tactic(auto)]

#[cfg(test)]
mod tests;
