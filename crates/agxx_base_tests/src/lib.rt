//! Tests of calls of `agxx_base`: calls that fail in turn, and the real files, which no clause speaks of.
#![tactic(auto)]

#[cfg(test)]
mod tests;
