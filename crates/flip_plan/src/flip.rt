//! Flips of a plan.

use agxx_base::ObjectId;

/// A bit that flips.
#[derive(Clone, Copy, Debug, PartialEq, Eq)]
pub struct PlannedFlip {
    /// The turn before which it flips, counted from 0.
    pub moment: u64,
    pub object: ObjectId,
    /// The word of the object, counted from 0.
    pub word: u32,
    /// The bit of the word, counted from 0 for the lowest.
    pub bit: u32,
    /// The number of its line among the lines of flips, counted from 1.
    pub number: u32,
    /// Whether it waits, from its moment on, until it is admissible.
    pub waits: bool,
}
