//! What a machine is set to run: the texts of the names and a program, with tables made once, so that each look-up
//! takes constant time, or time in the length of one name. What is found is defined in `Setting` and `Inserted` of
//! `step_machine`.
#![tactic(auto)]

mod inserted;
mod places;
mod setting;
mod tables;
mod texts;

pub use setting::Setting;

#[cfg(test)]
mod tests;
