//! A sink in memory, whose calls fail where they are told to.

ghost use Rattle.std.specs.Prelude.{◌≡◌, ◌≤◌, ◌<◌, ◌+◌, ◌-◌, OnOk, OnErr, IfOk, Some, take, length};
ghost use Rattle.agxx_base.specs.Calls.{failing_at};
ghost use Rattle.agxx_base.specs.Causes.{HasCause};
ghost use Rattle.agxx_base.specs.MemSink.{WritesInMemory, accepted, empty_sink, sink_with};
ghost use Rattle.agxx_base.specs.Pieces.{bytes_of};
ghost use Rattle.agxx_base.specs.Sink.{Takes};

use crate::calls::{Calls, count_fault};
use crate::{Failed, Memory, Piece, Sink};
use std::alloc::Global;
use std::marker::Model;

/// A sink in memory. Calls of `write` are counted from 1, and those that are listed fail.
#[derive(Drop)]
pub struct MemSink {
    // all the room, the bytes taken at its start
    buffer: Vec<u8>,
    used: usize,
    limit: Option<usize>,
    writes: Calls,
    faults: u64,
}

impl Model for MemSink {
    ghost use Rattle.std.specs.Prelude.{◌≤◌, ◌-◌, take, vec_len};
    ghost use Rattle.agxx_base.specs.MemSink.{SinkState};

    ghost Value = { SinkState };

    ghost view = { λ m. record {
      taken = take m.used m.buffer.items;
      room = vec_len m.buffer - m.used;
      limit = m.limit;
      writes = m.writes;
      faults = m.faults;
    } };

    ghost invariant = { λ m. m.used ≤ vec_len m.buffer };
}

impl MemSink {
    /// An empty sink with room for so many bytes and no limit per call. Later writes take no memory.
    pub fn new(alloc: Global, room: usize) -> Result<MemSink, Memory>
        ensures { IfOk result (λ sink. sink ≡ empty_sink room) }
    {
        Ok(MemSink {
            buffer: vec![in alloc; 0u8; room]?,
            used: 0,
            limit: None,
            writes: Calls::new(alloc),
            faults: 0,
        })
    }

    /// Limits how many bytes each later call takes.
    pub fn take_at_most(&mut self, bytes: usize)
        ensures { self.new ≡ record self.old { limit = Some bytes } }
    {
        self.limit = Some(bytes);
    }

    /// Lets a call of `write` fail.
    pub fn fail_write(&mut self, call: u64) -> Result<(), Memory>
        ensures ok { OnOk result (self.new ≡ record self.old { writes = failing_at self.old.writes call }) }
        ensures err { OnErr result (self.new ≡ self.old) }
    {
        self.writes.fail(call)
    }

    /// The bytes taken so far.
    pub fn bytes(&self) -> &[u8]
        ensures { result.now ≡ self.now.taken }
    {
        &self.buffer[..self.used]
    }

    // How many of so many bytes the next write takes.
    fn accepts(&self, bytes: usize) -> usize
        ensures { result ≡ accepted self.now bytes }
    {
        let room = self.buffer.len() - self.used;
        bytes.min(room).min(self.limit.unwrap_or(bytes))
    }

    // Takes the first n of the bytes.
    fn append(&mut self, bytes: &[u8])
        requires { length bytes.now ≤ self.old.room }
        ensures { self.new ≡ sink_with self.old bytes.now }
    {
        let end = self.used + bytes.len();
        self.buffer[self.used..end].copy_from_slice(bytes);
        self.used = end;
    }
}

impl Sink for MemSink {
    ghost faults = { λ m. m.faults };

    ghost taken = { λ m. Some m.taken };

    ghost writes = { λ m. m.writes.made };

    fn write(&mut self, piece: &Piece) -> Result<usize, Failed>
        requires { piece.now.len ≤ 4096 }
        ensures exactly { WritesInMemory self.old self.new piece.now result }
        ensures takes { Takes (Some self.old.taken) (Some self.new.taken) piece.now result }
        ensures cause { HasCause self.old.faults self.new.faults result }
        ensures writes { self.new.writes.made ≤ self.old.writes.made + 1 }
    {
        let count = self.accepts(piece.len);
        if self.writes.next_fails() || (0 < piece.len && count == 0) {
            count_fault(&mut self.faults);
            return Err(Failed);
        }
        self.append(&piece.bytes[..count]);
        Ok(count)
    }
}
