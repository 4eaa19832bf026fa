//! The limits that several layers go by.

/// The most bytes of a text that may have been woven, and of a plan.
pub const LARGEST_TEXT: u32 = 16_777_216;

/// The most bytes of a program as a user writes it.
pub const LARGEST_SOURCE: u32 = 4_194_304;

/// How many bytes a run may print.
pub const OUTPUT_LIMIT: usize = 16_777_216;

/// How many counted frames a thread may have.
pub const DEPTH_LIMIT: usize = 200;

/// How many objects a run may make.
pub const OBJECT_LIMIT: usize = 65_536;
