//! Tests of `cxx_types`, by the calls that other crates make. The crate has nothing else.
#![tactic(auto)]

#[cfg(test)]
mod tests;
