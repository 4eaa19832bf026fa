//! Sinks for a text in memory, and for one of which only the length is asked.

ghost use Rattle.std.specs.Prelude.{◌≡◌, ◌≤◌, ◌+◌, [], None, Some};
ghost use Rattle.agxx_base.specs.Causes.{HasCause};
ghost use Rattle.agxx_base.specs.Sink.{Takes};

use agxx_base::{Failed, Piece, Sink, Text};
use std::alloc::Global;

/// Takes all, and keeps nothing.
#[derive(Drop)]
pub(crate) struct Nowhere;

impl Sink for Nowhere {
    ghost faults = { λ _. 0 };

    ghost taken = { λ _. None };

    ghost writes = { λ _. 0 };

    fn write(&mut self, piece: &Piece) -> Result<usize, Failed>
        requires { piece.now.len ≤ 4096 }
        ensures takes { Takes None None piece.now result }
        ensures cause { HasCause 0 0 result }
        ensures writes { 0 ≤ 0 + 1 }
    {
        Ok(piece.len)
    }
}

/// Keeps all in memory, as long as there is some.
#[derive(Drop)]
pub(crate) struct Growing {
    pub(crate) bytes: Vec<u8>,
    faults: u64,
}

impl Growing {
    pub(crate) fn new(alloc: Global) -> Growing
        ensures { result.bytes.items ≡ [] }
    {
        Growing {
            bytes: Vec::new(alloc),
            faults: 0,
        }
    }

    pub(crate) fn into_text(self) -> Text
        ensures { result ≡ self.bytes.items }
    {
        Text::from_vec(self.bytes)
    }
}

impl Sink for Growing {
    ghost faults = { λ g. g.faults };

    ghost taken = { λ g. Some g.bytes.items };

    ghost writes = { λ _. 0 };

    fn write(&mut self, piece: &Piece) -> Result<usize, Failed>
        requires { piece.now.len ≤ 4096 }
        ensures takes { Takes (Some self.old.bytes.items) (Some self.new.bytes.items) piece.now result }
        ensures cause { HasCause self.old.faults self.new.faults result }
        ensures writes { 0 ≤ 0 + 1 }
    {
        if self
            .bytes
            .extend_from_slice(&piece.bytes[..piece.len])
            .is_err()
        {
            self.faults = self.faults.saturating_add(1);
            return Err(Failed);
        }
        Ok(piece.len)
    }
}
