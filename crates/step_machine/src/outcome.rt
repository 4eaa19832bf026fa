//! What a step is, why a run stops, and what has become of a run.

use agxx_base::{ClassId, ObjectId, Place};

/// Why a run stops.
#[derive(Clone, Copy, Debug, PartialEq, Eq)]
pub enum Stop {
    Overflow,
    ZeroDivisor,
    Shift,
    Null,
    Dead,
    WrongDelete,
    Busy,
    SelfLock,
    NotHeld,
    NotJoinable,
    Joinable,
    NoReturn,
    Objects,
    Threads,
    Depth,
    Output,
}

/// What a turn of a thread is.
#[derive(Clone, Copy, Debug, PartialEq, Eq)]
pub enum StepKind {
    /// A step of the program as it was written.
    Source,
    /// A step of what was woven in.
    Inserted,
    /// Its next item waits for a lock, or for the end of a thread.
    Blocked,
    /// There is nothing that it could do.
    Idle,
}

/// What has become of a run.
#[derive(Clone, Copy, Debug, PartialEq, Eq)]
pub enum State {
    Running,
    /// With the value of `main`.
    Ended(i32),
    Stopped(Stop, Place),
    /// By `std::abort();`, with the object and the class of the function where it stands.
    Halted(Option<ObjectId>, Option<ClassId>),
    /// A step found no memory.
    Lost,
}
