//! Tests of calls of `cxx_tree`: nodes that are counted, trees that are compared, lists that grow without memory.
#![tactic(auto)]

#[cfg(test)]
mod tests;
