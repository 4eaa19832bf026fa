//! Tests of calls of the parser's crates that no built program shows.
#![tactic(auto)]

#[cfg(test)]
mod tests;
