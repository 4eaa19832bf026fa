//! A sink in memory.

ghost use Rattle.std.specs.Prelude.{◌≡◌, ◌≤◌, ◌+◌, [], Some};
ghost use Rattle.agxx_base.specs.Causes.{HasCause};
ghost use Rattle.agxx_base.specs.Sink.{Takes};

use agxx_base::{Failed, Piece, Sink, Text};
use std::alloc::Global;

/// A sink that keeps the bytes in memory, and fails where there is none for them.
#[derive(Drop)]
pub(crate) struct Buffer {
    bytes: Vec<u8>,
    faults: u64,
}

impl Buffer {
    /// Nothing taken, which takes no memory.
    pub(crate) fn new(alloc: Global) -> Buffer
        ensures { result.bytes.items ≡ [] }
    {
        Buffer {
            bytes: Vec::new(alloc),
            faults: 0,
        }
    }

    /// The bytes that were taken.
    pub(crate) fn into_text(self) -> Text
        ensures { result ≡ self.bytes.items }
    {
        Text::from_vec(self.bytes)
    }
}

impl Sink for Buffer {
    ghost faults = { λ b. b.faults };

    ghost taken = { λ b. Some b.bytes.items };

    ghost writes = { λ b. 0 };

    fn write(&mut self, piece: &Piece) -> Result<usize, Failed>
        requires { piece.now.len ≤ 4096 }
        ensures takes { Takes (Some self.old.bytes.items) (Some self.new.bytes.items) piece.now result }
        ensures cause { HasCause self.old.faults self.new.faults result }
        ensures writes { 0 ≤ 0 + 1 }
    {
        match self.bytes.extend_from_slice(&piece.bytes[..piece.len]) {
            Ok(()) => Ok(piece.len),
            Err(_) => {
                self.faults = self.faults.saturating_add(1);
                Err(Failed)
            }
        }
    }
}
