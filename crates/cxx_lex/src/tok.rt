//! Tokens.

use agxx_base::{Header, Keyword, NumKind, Place, Rule, Sign};

/// What a token is. Names that have a meaning at their place, as `std` or `before`, are plain names here.
#[derive(Clone, Copy, Debug, PartialEq, Eq)]
pub enum TokKind {
    Name,
    /// A number, and the first of the kinds of its form that holds it.
    Number { value: u64, kind: NumKind },
    /// A string literal, quotes and escapes included; `string_bytes` gives the bytes that it stands for.
    Text,
    /// `#include <..>`
    Include(Header),
    /// `#pragma once`
    PragmaOnce,
    /// A word that is never a name.
    Keyword(Keyword),
    Sign(Sign),
}

/// A token: its kind, its bytes in the text that was read, and where they begin.
#[derive(Clone, Copy, Debug)]
pub struct Tok<'s> {
    pub kind: TokKind,
    pub text: &'s [u8],
    pub at: Place,
}

/// What a text begins with: the kind of its token, or the rule that it violates, and how many bytes it has.
#[derive(Clone, Copy, Debug, PartialEq, Eq)]
pub struct Lexeme {
    pub kind: Result<TokKind, Rule>,
    pub len: usize,
}
