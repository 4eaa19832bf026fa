//! Tests of calls of `cxx_normal` that no built program shows.
#![tactic(auto)]

#[cfg(test)]
mod tests;
