//! Which forms a file may have, and the names that have a meaning at their place.

ghost use Rattle.std.specs.Prelude.{◌≡◌};
ghost use Rattle.cxx_stmt.specs.Dialect as spec;

use agxx_base::{Mode, NameId};

/// The grammar of a program file: how it is read, and the numbers of the names that have a meaning at their place.
#[derive(Clone, Copy, Debug)]
pub struct Dialect {
    pub mode: Mode,
    pub std: NameId,
    pub mutex: NameId,
    pub thread: NameId,
    pub cout: NameId,
    pub endl: NameId,
    pub abort: NameId,
}

impl Dialect {
    /// Whether woven text is read, which has forms of its own.
    pub fn is_woven(&self) -> bool
        ensures { result ≡ spec.is_woven self.now.mode }
    {
        match self.mode {
            Mode::Source => false,
            Mode::Woven => true,
        }
    }
}
