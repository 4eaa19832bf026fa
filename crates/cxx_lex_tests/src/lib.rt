//! Tests of calls of `cxx_lex` that no built program shows.
#![tactic(auto)]

#[cfg(test)]
mod tests;
