//! Whether the flips of a run were admissible.

/// Whether the flips of a run lie in the fault model.
#[derive(Clone, Copy, Debug, PartialEq, Eq)]
pub enum Verdict {
    /// All flips that came were admissible.
    Admissible,
    /// The first that wasn't, by the number of its line among the lines of flips, counted from 1.
    First(u32),
}
