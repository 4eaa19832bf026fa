//! Kinds of numbers, and the two modes of reading.

/// The number types of C++ that the language has, `bool` among them. `int` is `I32` and `unsigned` is `U32`.
#[derive(Clone, Copy, Debug, PartialEq, Eq)]
pub enum NumKind {
    Bool,
    I8,
    U8,
    I16,
    U16,
    I32,
    U32,
    I64,
    U64,
}

/// How a program is read: as a user wrote it, or as text that may have been woven, which has reserved names,
/// mutex members, `std::abort();` and wider limits.
#[derive(Clone, Copy, Debug, PartialEq, Eq)]
pub enum Mode {
    Source,
    Woven,
}
