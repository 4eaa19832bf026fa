//! Why a text is not written.

use agxx_base::{Failed, Fault, Memory, Place, Refusal, Rule, Status};

/// Why a text is not written.
#[derive(Clone, Copy)]
pub(crate) enum Stop {
    Refused(Refusal),
    Usage,
    ReadFault,
    WriteFault,
    Memory,
}

impl From<Memory> for Stop {
    fn from(_: Memory) -> Stop {
        Stop::Memory
    }
}

impl From<Fault> for Stop {
    fn from(fault: Fault) -> Stop {
        match fault {
            Fault::Refused(refusal) => Stop::Refused(refusal),
            Fault::Memory => Stop::Memory,
        }
    }
}

/// A failed sink.
impl From<Failed> for Stop {
    fn from(_: Failed) -> Stop {
        Stop::WriteFault
    }
}

impl Stop {
    /// The input is larger than a text may be.
    pub(crate) fn too_large() -> Stop {
        Stop::Refused(Refusal {
            rule: Rule::S1,
            place: Place {
                file: 0,
                line: 1,
                column: 1,
            },
        })
    }

    /// The status that `agxx` has for it.
    pub(crate) fn status(self) -> Status {
        match self {
            Stop::Refused(_) => Status::Refused,
            Stop::Usage => Status::Usage,
            Stop::ReadFault => Status::ReadFault,
            Stop::WriteFault => Status::WriteFault,
            Stop::Memory => Status::Memory,
        }
    }
}
