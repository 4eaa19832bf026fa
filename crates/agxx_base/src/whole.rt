//! Whole files read, and whole lists of bytes written.

ghost use Rattle.std.specs.Prelude.{◌≡◌, ◌≤◌, ◌+◌, length, vec_len, [], IfOk, OnOk, IfSome, IsErrOf};
ghost use Rattle.agxx_base.specs.Causes.{Rose};
ghost use Rattle.agxx_base.specs.Files.{IsLonger, ReadsWhole};
ghost use Rattle.agxx_base.specs.Sink.{WritesWhole};

use crate::{Failed, Files, Memory, Piece, Sink, Text};
use std::alloc::Global;
use thiserror::Error;

/// Why a file was not read whole.
#[derive(Clone, Copy, Debug, PartialEq, Eq, Error)]
pub enum ReadError {
    #[error("no memory for the file")]
    Memory,
    #[error("the file could not be read")]
    ReadFault,
    #[error("the file is too large")]
    TooLarge,
}

/// Reads a file of at most `limit` bytes to its end.
pub fn read_whole<F: Files>(
    alloc: Global,
    files: &mut F,
    name: &Text,
    limit: u32,
) -> Result<Text, ReadError>
    ensures answer { ReadsWhole (F.listed files.old) name.now limit (F.faults files.old) (F.faults files.new) result }
    ensures listed { F.listed files.new ≡ F.listed files.old }
    // The file was read to its end.
    ensures end { OnOk result (IfSome (F.listed files.old) (λ _. F.left files.new ≡ [])) }
    ensures reads { F.reads files.new ≤ F.reads files.old + limit + 2 }
{
    match files.start_file(name) {
        Ok(true) => Ok(Text::from_vec(read_rest(alloc, files, limit)?)),
        _ => Err(ReadError::ReadFault),
    }
}

// Reads the started file on to its end.
fn read_rest<F: Files>(alloc: Global, files: &mut F, limit: u32) -> Result<Vec<u8>, ReadError>
    ensures later { F.faults files.old ≤ F.faults files.new }
    ensures within { IfOk result (λ bytes. vec_len bytes ≤ limit) }
    ensures whole { IfOk result (λ bytes. IfSome (F.listed files.old) (λ _. F.left files.old ≡ bytes.items)) }
    ensures too_large { IsErrOf result ReadError.TooLarge → IsLonger (F.listed files.old) limit (F.left files.old) }
    ensures read_fault { IsErrOf result ReadError.ReadFault → Rose (F.faults files.old) (F.faults files.new) }
    ensures listed { F.listed files.new ≡ F.listed files.old }
    ensures end { OnOk result (IfSome (F.listed files.old) (λ _. F.left files.new ≡ [])) }
    ensures reads { F.reads files.new ≤ F.reads files.old + limit + 2 }
{
    let limit = limit as usize;
    let mut bytes = Vec::new(alloc);
    let mut piece = Piece::empty();
    loop {
        let Ok(count) = files.read(&mut piece) else {
            return Err(ReadError::ReadFault);
        };
        if count == 0 {
            return Ok(bytes);
        }
        if count > limit - bytes.len() {
            return Err(ReadError::TooLarge);
        }
        if bytes.extend_from_slice(&piece.bytes[..count]).is_err() {
            return Err(ReadError::Memory);
        }
    }
}

/// Writes all bytes, in pieces, and goes on behind what the sink took of each. After `Failed` a prefix was written.
pub fn write_whole<O: Sink>(sink: &mut O, bytes: &[u8]) -> Result<(), Failed>
    ensures answer { WritesWhole (O.taken sink.old) (O.taken sink.new) bytes.now
        (O.faults sink.old) (O.faults sink.new) result }
    ensures writes { O.writes sink.new ≤ O.writes sink.old + length bytes.now }
{
    let mut piece = Piece::empty();
    let mut done = 0;
    while done < bytes.len() {
        piece.fill(&bytes[done..]);
        done += sink.write(&piece)?;
    }
    Ok(())
}
