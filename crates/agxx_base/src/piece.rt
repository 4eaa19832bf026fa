//! The unit in which files are read and sinks are written.

ghost use Rattle.std.specs.Prelude.{◌≡◌, length, take, min};
ghost use Rattle.agxx_base.specs.Pieces.{bytes_of};

/// Up to 4,096 bytes: the first `len` of `bytes`.
#[derive(Drop)]
pub struct Piece {
    pub bytes: [u8; 4096],
    pub len: usize,
}

impl Piece {
    /// A piece of no bytes.
    pub fn empty() -> Piece
        ensures { result.len ≡ 0 }
    {
        Piece {
            bytes: [0; 4096],
            len: 0,
        }
    }

    /// Takes over as many of the bytes as fit, from their start.
    pub fn fill(&mut self, bytes: &[u8])
        ensures bytes { bytes_of self.new ≡ take 4096 bytes.now }
        ensures len { self.new.len ≡ min 4096 (length bytes.now) }
    {
        let len = self.bytes.len().min(bytes.len());
        self.bytes[..len].copy_from_slice(&bytes[..len]);
        self.len = len;
    }
}
