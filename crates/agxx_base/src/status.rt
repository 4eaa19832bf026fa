//! How a call of the program ends.

ghost use Rattle.std.specs.Prelude.{◌≡◌};
ghost use Rattle.agxx_base.specs.Status.{number_of};

/// The answer of the program. Its number is the exit status.
#[derive(Clone, Copy, Debug, PartialEq, Eq)]
pub enum Status {
    /// All was written; a run ended.
    Done,
    /// The input violates a rule.
    Refused,
    /// The words are no command.
    Usage,
    /// A run stopped by a named cause.
    Stopped,
    /// A run is still going after the plan's limit of turns.
    Unfinished,
    /// `std::abort();` ended the run.
    Halted,
    /// A file could not be read.
    ReadFault,
    /// An output could not be written.
    WriteFault,
    /// A request for memory was refused.
    Memory,
}

impl Status {
    /// The exit status, from 0 to 8 in the order of the variants.
    pub fn number(self) -> u8
        ensures { result ≡ number_of self }
    {
        match self {
            Status::Done => 0,
            Status::Refused => 1,
            Status::Usage => 2,
            Status::Stopped => 3,
            Status::Unfinished => 4,
            Status::Halted => 5,
            Status::ReadFault => 6,
            Status::WriteFault => 7,
            Status::Memory => 8,
        }
    }
}
