//! What locals, members and the values of a frame are.

use agxx_base::ObjectId;
use cxx_arith::Value;

/// A value at run time.
#[derive(Clone, Copy, Debug, PartialEq, Eq)]
pub enum Datum {
    Number(Value),
    /// To an object, whichever class the pointer has.
    Pointer(ObjectId),
    Null,
}
