//! Files that are read by name.

ghost use Rattle.std.specs.Prelude.{◌≡◌, ◌≤◌, ◌+◌, ℕ, List, Option};
ghost use Rattle.agxx_base.specs.Causes.{HasCause};
ghost use Rattle.agxx_base.specs.Files.{Listing, Starts, Reads};

use crate::{Failed, Piece, Text};

/// A source of files. One file at a time is started and read on to its end.
pub trait Files {
    /// How often a file has failed. It never falls, and a number that stands at 2^64 - 1 may stay there.
    ghost faults: { Self → ℕ };

    /// The names and bytes of all files, where they are told.
    ghost listed: { Self → Option Listing };

    /// What is left of the started file, where the list is told.
    ghost left: { Self → List ℕ };

    /// A count of calls of `read`, which rises by at most one in each.
    ghost reads: { Self → ℕ };

    /// Starts the file of this name. `Ok(false)` says that there is none; after it, and after `Failed`, nothing is
    /// left.
    fn start_file(&mut self, name: &Text) -> Result<bool, Failed>
        ensures starts { Starts (listed self.old) name.now (faults self.old) (faults self.new) (left self.new) result }
        ensures listed { listed self.new ≡ listed self.old }
        ensures cause { HasCause (faults self.old) (faults self.new) result }
        ensures reads { reads self.new ≡ reads self.old };

    /// Puts the next bytes of the started file into the piece and tells how many they are, 0 at its end.
    fn read(&mut self, into: &mut Piece) -> Result<usize, Failed>
        ensures next { Reads (listed self.old) (left self.old) (left self.new) into.new result }
        ensures listed { listed self.new ≡ listed self.old }
        ensures cause { HasCause (faults self.old) (faults self.new) result }
        ensures reads { reads self.new ≤ reads self.old + 1 };
}
