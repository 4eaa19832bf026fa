//! What is known of the lines before one.

/// What the lines read so far had.
#[derive(Clone, Copy, Debug, PartialEq, Eq)]
pub(crate) struct Seen {
    /// A `limit`.
    pub(crate) limit: bool,
    /// A `cycle`.
    pub(crate) cycle: bool,
    /// How many more turns there may be.
    pub(crate) turn_room: u32,
    /// How many more turns of the cycle there may be.
    pub(crate) cycle_room: u32,
    /// How many more flips there may be.
    pub(crate) flip_room: u32,
}
