//! Tests of calls of `flip_plan`: plans whose meanings and refusals were worked out by hand.
#![tactic(auto)]

#[cfg(test)]
mod tests;
