//! The tokens of a file as the grammar sees them.

use agxx_base::{Header, Keyword, NameId, Sign};
use cxx_tree::{Number, Placed};

/// A token, with a name by its number and a literal by its value.
#[derive(Clone, Copy)]
pub enum Word<'w> {
    Name(NameId),
    Number(Number),
    /// A string, by the bytes that it stands for.
    Text(&'w [u8]),
    Keyword(Keyword),
    Sign(Sign),
    /// `#include` of a header.
    Include(Header),
    /// `#pragma once`
    Pragma,
}

/// A token and where it begins.
pub type WordAt<'w> = Placed<Word<'w>>;
