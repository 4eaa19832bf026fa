//! Real files, and standard output and error. No clause says which bytes they give or take: this is the trusted edge.

ghost use Rattle.std.specs.Prelude.{◌≡◌, Option, None, [], List, ℕ};

use crate::calls::count_fault;
use crate::{Failed, Files, Piece, Sink, Text};
use std::fs;
use std::io::{Read, Write};
use std::rt::Files as FileSystem;

/// The files of the system, by their paths. A file that can't be opened, a name that isn't UTF-8, a failed read and
/// want of memory in the system are faults.
#[derive(Drop)]
pub struct DiskFiles<'r, R: FileSystem> {
    runtime: &'r R,
    started: Option<R::File>,
    faults: u64,
}

impl<'r, R: FileSystem> DiskFiles<'r, R> {
    /// No file is started.
    pub fn new(runtime: &'r R) -> DiskFiles<'r, R>
        ensures { result.faults ≡ 0 }
    {
        DiskFiles {
            runtime,
            started: None,
            faults: 0,
        }
    }

    // Opens a file, if its name is text.
    fn open(&self, name: &Text) -> Option<R::File> {
        let Ok(path) = str::from_utf8(name.bytes()) else {
            return None;
        };
        fs::open(self.runtime, path).ok()
    }
}

impl<R: FileSystem> Files for DiskFiles<'_, R> {
    ghost faults = { λ d. d.faults };

    ghost listed = { λ _. None };

    ghost left = { λ _. [] };

    ghost reads = { λ _. 0 };

    fn start_file(&mut self, name: &Text) -> Result<bool, Failed> {
        self.started = self.open(name);
        if self.started.is_none() {
            count_fault(&mut self.faults);
            return Err(Failed);
        }
        Ok(true)
    }

    fn read(&mut self, into: &mut Piece) -> Result<usize, Failed> {
        let Some(file) = &mut self.started else {
            into.len = 0;
            return Ok(0);
        };
        let Ok(count) = file.read(&mut into.bytes) else {
            count_fault(&mut self.faults);
            return Err(Failed);
        };
        into.len = count;
        Ok(count)
    }
}

/// A writer of the system, as standard output or error. Each write is flushed, so nothing is held back at the end. A
/// failed write or flush, and a write that takes nothing of a piece with bytes, are faults.
#[derive(Drop)]
pub struct StdSink<W: Write + Drop> {
    writer: W,
    faults: u64,
}

impl<W: Write + Drop> StdSink<W> {
    /// A sink over the writer.
    pub fn new(writer: W) -> StdSink<W>
        ensures { result.faults ≡ 0 }
    {
        StdSink { writer, faults: 0 }
    }
}

impl<W: Write + Drop> Sink for StdSink<W> {
    ghost faults = { λ s. s.faults };

    ghost taken = { λ _. None };

    ghost writes = { λ _. 0 };

    fn write(&mut self, piece: &Piece) -> Result<usize, Failed> {
        match self.writer.write(&piece.bytes[..piece.len]) {
            Ok(count) if (0 < count || piece.len == 0) && self.writer.flush().is_ok() => Ok(count),
            _ => {
                count_fault(&mut self.faults);
                Err(Failed)
            }
        }
    }
}
