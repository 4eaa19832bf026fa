//! What a turn of a thread may change of what the threads share.

use agxx_base::{ClassId, NameId, ObjectId};
use cxx_arith::Value;
use step_machine::Datum;

/// A mutex.
#[derive(Clone, Copy)]
pub enum Lock {
    /// A global one.
    Shared(NameId),
    /// One of an object, by its number there.
    Inside(ObjectId, u32),
}

/// A change. Where it speaks of an object that isn't live, or of a word that the object hasn't, nothing changes.
#[derive(Clone, Copy)]
pub enum Change<'p> {
    /// A word of an object gets these bits.
    Store(ObjectId, u32, u64),
    /// A global variable gets a value.
    Assign(NameId, Datum),
    /// These bytes are printed.
    Show(&'p [u8]),
    /// A number is printed in decimal.
    Print(Value),
    /// An object of so many words is made.
    Create(ClassId, u32),
    /// An object is destroyed.
    Kill(ObjectId),
    /// The thread takes a mutex.
    Take(Lock),
    /// A mutex is held by nobody from now on.
    Free(Lock),
}
