//! A printer: it hands bytes on to a sink in pieces, and counts them.

ghost use Rattle.std.specs.Prelude.{◌≡◌, ◌<◌, ◌∷◌, [], true, false, is_err, length};
ghost use Rattle.cxx_print.specs.Printing.{Appends, begun, with_byte};

use agxx_base::{Failed, Names, Piece, Sink, write_whole};
use std::marker::Model;

/// What is held of a text, up to a piece, until the sink is given it. Once the sink has failed, it is given no more.
#[derive(Drop)]
pub(crate) struct Printer<'n> {
    names: &'n Names,
    piece: Piece,
    failed: bool,
    // up to 2^64 - 1
    count: u64,
}

impl<'n> Model for Printer<'n> {
    ghost use Rattle.std.specs.Prelude.{◌≤◌};
    ghost use Rattle.agxx_base.specs.Pieces.{bytes_of};
    ghost use Rattle.cxx_print.specs.Printing.{State};

    ghost Value = { State };

    ghost view = { λ p. record {
      names = p.names.now;
      held = bytes_of p.piece;
      failed = p.failed;
      count = p.count;
    } };

    ghost invariant = { λ p. p.piece.len ≤ 4096 };
}

impl<'n> Printer<'n> {
    pub(crate) fn new(names: &'n Names) -> Printer<'n>
        ensures { result ≡ begun names.now }
    {
        Printer {
            names,
            piece: Piece::empty(),
            failed: false,
            count: 0,
        }
    }

    pub(crate) fn names(&self) -> &'n Names
        ensures { result.now ≡ self.now.names }
    {
        self.names
    }

    /// How the printing ended.
    pub(crate) fn outcome(&self) -> Result<(), Failed>
        ensures { is_err result ≡ self.now.failed }
    {
        if self.failed { Err(Failed) } else { Ok(()) }
    }

    fn failed(&self) -> bool
        ensures { result ≡ self.now.failed }
    {
        self.failed
    }

    pub(crate) fn count(&self) -> u64
        ensures { result ≡ self.now.count }
    {
        self.count
    }

    fn held(&self) -> &[u8]
        ensures { result.now ≡ self.now.held }
    {
        &self.piece.bytes[..self.piece.len]
    }

    // Holds nothing any more.
    fn clear(&mut self, failed: bool)
        ensures { self.new ≡ record self.old { held = []; failed = failed } }
    {
        self.piece.len = 0;
        self.failed = failed;
    }

    fn lose<O: Sink>(&mut self, sink: &mut O)
        requires { self.old.failed ≡ true }
        ensures appends { Appends O.taken O.faults (self.old, sink.old) (self.new, sink.new) [] }
        ensures held { self.new.held ≡ [] }
    {
        let _ = sink;
        self.clear(true);
    }

    fn write_held<O: Sink>(&mut self, sink: &mut O)
        requires { self.old.failed ≡ false }
        ensures appends { Appends O.taken O.faults (self.old, sink.old) (self.new, sink.new) [] }
        ensures held { self.new.held ≡ [] }
    {
        let written = write_whole(sink, self.held());
        self.clear(written.is_err());
    }

    /// Gives the sink what is held.
    pub(crate) fn flush<O: Sink>(&mut self, sink: &mut O)
        ensures appends { Appends O.taken O.faults (self.old, sink.old) (self.new, sink.new) [] }
        ensures held { self.new.held ≡ [] }
    {
        if self.failed() {
            self.lose(sink);
        } else {
            self.write_held(sink);
        }
    }

    fn byte<O: Sink>(&mut self, sink: &mut O, byte: u8)
        ensures { Appends O.taken O.faults (self.old, sink.old) (self.new, sink.new) (byte ∷ []) }
    {
        if self.piece.len == self.piece.bytes.len() {
            self.flush(sink);
        }
        self.hold(byte);
    }

    // One more byte, where there is room.
    fn hold(&mut self, byte: u8)
        requires { length self.old.held < 4096 }
        ensures { self.new ≡ with_byte self.old byte }
    {
        self.piece.bytes[self.piece.len] = byte;
        self.piece.len += 1;
        self.count = self.count.saturating_add(1);
    }

    pub(crate) fn put<O: Sink>(&mut self, sink: &mut O, bytes: &[u8])
        ensures { Appends O.taken O.faults (self.old, sink.old) (self.new, sink.new) bytes.now }
    {
        for byte in bytes {
            self.byte(sink, *byte);
        }
    }
}
