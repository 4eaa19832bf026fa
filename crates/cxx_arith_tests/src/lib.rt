//! Tables of arithmetic, as C++ has it, against the calls of `cxx_arith`.
#![tactic(auto)]

#[cfg(test)]
mod tests;
