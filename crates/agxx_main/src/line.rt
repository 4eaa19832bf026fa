//! Lines that are put together.

ghost use Rattle.std.specs.Prelude.{◌≡◌, [], ◌∷◌, ◌++◌, IfOk, OnOk};
ghost use Rattle.std.specs.Fmt.{decimal, signed_decimal};

use agxx_base::{Memory, Text};
use std::alloc::Global;
use std::marker::Model;

/// Lines that are put together.
#[derive(Drop)]
pub(crate) struct Line {
    alloc: Global,
    bytes: Vec<u8>,
}

impl Model for Line {
    ghost use Rattle.std.specs.Prelude.{List, ℕ};

    ghost Value = { List ℕ };

    ghost view = { λ line. line.bytes.items };
}

impl Line {
    /// Nothing yet, which takes no memory.
    pub(crate) fn new(alloc: Global) -> Line
        ensures { result ≡ [] }
    {
        Line {
            alloc,
            bytes: Vec::new(alloc),
        }
    }

    /// Appends a text.
    pub(crate) fn text(&mut self, bytes: &[u8]) -> Result<(), Memory>
        ensures { OnOk result (self.new ≡ self.old ++ bytes.now) }
    {
        self.bytes.extend_from_slice(bytes)?;
        Ok(())
    }

    /// Appends a number in decimal.
    pub(crate) fn number(&mut self, number: u64) -> Result<(), Memory>
        ensures { OnOk result (self.new ≡ self.old ++ decimal number) }
    {
        let digits = format!(in self.alloc; "{number}")?;
        self.text(digits.as_bytes())
    }

    /// Appends a number in decimal, with its sign where it is negative.
    pub(crate) fn signed(&mut self, number: i32) -> Result<(), Memory>
        ensures { OnOk result (self.new ≡ self.old ++ signed_decimal number) }
    {
        let digits = format!(in self.alloc; "{number}")?;
        self.text(digits.as_bytes())
    }

    /// What was put together.
    pub(crate) fn whole(self) -> Text
        ensures { result ≡ self }
    {
        let Line { alloc: _, bytes } = self;
        Text::from_vec(bytes)
    }

    /// The line with its newline.
    pub(crate) fn end(mut self) -> Result<Text, Memory>
        ensures { IfOk result (λ text. text ≡ self ++ 10 ∷ []) }
    {
        self.bytes.push(b'\n')?;
        let Line { alloc: _, bytes } = self;
        Ok(Text::from_vec(bytes))
    }
}
