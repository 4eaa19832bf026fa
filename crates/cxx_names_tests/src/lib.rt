//! Tests of calls of `cxx_distinct` and `cxx_layout` that no built program shows.
#![tactic(auto)]

#[cfg(test)]
mod distinct;
#[cfg(test)]
mod layout;
