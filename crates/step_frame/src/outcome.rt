//! What comes of an item that touches its frame alone.

use agxx_base::Place;
use step_machine::Stop;

/// What comes of an item that touches its frame alone.
#[derive(Clone, Copy)]
pub enum Outcome {
    Stays,
    /// The run stops, and the frame is as it was.
    Stops(Stop, Place),
}
