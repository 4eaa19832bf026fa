//! Frames of the machine: what is left to do in one, its values and variables, and the items that touch nothing else.
#![tactic(auto)]

mod agenda;
mod data;
mod frame;
mod outcome;
mod stack;
mod thread;
mod unfold;
mod values;
mod work;

pub use agenda::Agenda;
pub use data::{as_number, bits_of, converted, object_of, zero_of};
pub use frame::Frame;
pub use outcome::Outcome;
pub use stack::Stack;
pub use thread::{Thread, any_on};
pub use work::{Ending, Work};
