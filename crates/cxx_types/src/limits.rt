//! How many things a program may have.

ghost use Rattle.std.specs.Prelude.{◌≡◌};
ghost use Rattle.cxx_types.specs.Counts as spec;

use agxx_base::Mode;

/// How many things there may be of each kind.
#[derive(Clone, Copy, Debug, PartialEq, Eq)]
pub struct Counts {
    pub(crate) names: usize,
    pub(crate) classes: usize,
    pub(crate) globals: usize,
    /// Free functions.
    pub(crate) functions: usize,
    /// Members of one class.
    pub(crate) members: usize,
    /// Functions of one class.
    pub(crate) methods: usize,
    /// Locals and threads of one function.
    pub(crate) locals: usize,
    /// `return`s of one function.
    pub(crate) returns: usize,
}

/// In a program that a user wrote.
const MOST_IN_SOURCE: Counts = Counts {
    names: 100_000,
    classes: 256,
    globals: 1000,
    functions: 1000,
    members: 240,
    methods: 200,
    locals: 500,
    returns: 200,
};

/// In a program that may have been woven.
const MOST_IN_WOVEN: Counts = Counts {
    names: 200_000,
    classes: 320,
    globals: 1100,
    functions: 6000,
    members: 1000,
    methods: 5000,
    locals: 1000,
    returns: 400,
};

/// How many things a program may have that is read so.
pub(crate) fn most(mode: Mode) -> Counts
    ensures { result ≡ spec.most mode }
{
    match mode {
        Mode::Source => MOST_IN_SOURCE,
        Mode::Woven => MOST_IN_WOVEN,
    }
}
