//! Where something stands in the files of a call.

/// A place in a file. Files are numbered from 0 in the order of the command's words; lines and columns count from 1,
/// columns in bytes. Places compare in the order of reading.
#[derive(Clone, Copy, Debug, PartialEq, Eq, PartialOrd, Ord)]
pub struct Place {
    pub file: u32,
    pub line: u32,
    pub column: u32,
}
