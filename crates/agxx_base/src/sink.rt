//! Sinks that take bytes.

ghost use Rattle.std.specs.Prelude.{◌≤◌, ◌+◌, ℕ, List, Option};
ghost use Rattle.agxx_base.specs.Causes.{HasCause};
ghost use Rattle.agxx_base.specs.Sink.{Takes};

use crate::{Failed, Piece};

/// A place that takes bytes in order.
pub trait Sink {
    /// How often the sink has failed. It never falls, and a number that stands at 2^64 - 1 may stay there.
    ghost faults: { Self → ℕ };

    /// The bytes taken so far, where they are told.
    ghost taken: { Self → Option (List ℕ) };

    /// A count of calls of `write`, which rises by at most one in each.
    ghost writes: { Self → ℕ };

    /// Appends the piece's bytes, or the first of them, and tells how many it took.
    fn write(&mut self, piece: &Piece) -> Result<usize, Failed>
        requires { piece.now.len ≤ 4096 }
        ensures takes { Takes (taken self.old) (taken self.new) piece.now result }
        ensures cause { HasCause (faults self.old) (faults self.new) result }
        ensures writes { writes self.new ≤ writes self.old + 1 };
}
