//! Files in memory, whose calls fail where they are told to.

ghost use Rattle.std.specs.Prelude.{◌≡◌, ◌≤◌, ◌<◌, ◌+◌, ◌∷◌, ◌++◌, [], length, min, take, drop};
ghost use Rattle.std.specs.Prelude.{OnOk, OnErr, Some, is_some, unwrap_or, position};
ghost use Rattle.std.specs.Str.{bytes_eq};
ghost use Rattle.agxx_base.specs.Causes.{HasCause};
ghost use Rattle.agxx_base.specs.Calls.{no_calls, failing_at};
ghost use Rattle.agxx_base.specs.Cursor.{IsInside, left_at};
ghost use Rattle.agxx_base.specs.Files.{Starts, Reads, file_named};
ghost use Rattle.agxx_base.specs.MemFiles.{StartsInMemory, ReadsInMemory};
ghost use Rattle.agxx_base.specs.Pieces.{bytes_of};

use crate::calls::{Calls, count_fault};
use crate::{Failed, Files, Memory, Piece, Text};
use std::alloc::Global;
use std::marker::Model;

/// Files in memory. Calls of `start_file` and of `read` are counted from 1, and those that are listed fail.
#[derive(Drop)]
pub struct MemFiles {
    files: Vec<(Text, Text)>,
    started: Option<Cursor>,
    starts: Calls,
    reads: Calls,
    faults: u64,
}

// The place of the started file in the list, and how many of its bytes were read.
#[derive(Clone, Copy)]
struct Cursor {
    file: usize,
    read: usize,
}

impl Model for MemFiles {
    ghost use Rattle.agxx_base.specs.MemFiles.{FilesState};
    ghost use Rattle.agxx_base.specs.Cursor.{left_at, IsInside};

    ghost Value = { FilesState };

    ghost view = { λ m. record {
      files = m.files.items;
      left = left_at m.files.items m.started;
      starts = m.starts;
      reads = m.reads;
      faults = m.faults;
    } };

    ghost invariant = { λ m. IsInside m.files.items m.started };
}

impl MemFiles {
    /// No file, no call that fails. It takes no memory.
    pub fn new(alloc: Global) -> MemFiles
        ensures { result ≡ record { files = []; left = []; starts = no_calls; reads = no_calls; faults = 0 } }
    {
        MemFiles {
            files: Vec::new(alloc),
            started: None,
            starts: Calls::new(alloc),
            reads: Calls::new(alloc),
            faults: 0,
        }
    }

    /// Adds a file behind the others. Without memory it is dropped.
    pub fn add(&mut self, name: Text, bytes: Text) -> Result<(), Memory>
        ensures ok { OnOk result (self.new ≡ record self.old { files = self.old.files ++ (name, bytes) ∷ [] }) }
        ensures err { OnErr result (self.new ≡ self.old) }
    {
        self.files.push((name, bytes))?;
        Ok(())
    }

    /// Lets a call of `start_file` fail.
    pub fn fail_start(&mut self, call: u64) -> Result<(), Memory>
        ensures ok { OnOk result (self.new ≡ record self.old { starts = failing_at self.old.starts call }) }
        ensures err { OnErr result (self.new ≡ self.old) }
    {
        self.starts.fail(call)
    }

    /// Lets a call of `read` fail.
    pub fn fail_read(&mut self, call: u64) -> Result<(), Memory>
        ensures ok { OnOk result (self.new ≡ record self.old { reads = failing_at self.old.reads call }) }
        ensures err { OnErr result (self.new ≡ self.old) }
    {
        self.reads.fail(call)
    }
}

impl Files for MemFiles {
    ghost faults = { λ m. m.faults };

    ghost listed = { λ m. Some m.files };

    ghost left = { λ m. m.left };

    ghost reads = { λ m. m.reads.made };

    fn start_file(&mut self, name: &Text) -> Result<bool, Failed>
        ensures exactly { StartsInMemory name.now self.old self.new result }
        ensures starts { Starts (Some self.old.files) name.now self.old.faults self.new.faults self.new.left result }
        ensures listed { Some self.new.files ≡ Some self.old.files }
        ensures cause { HasCause self.old.faults self.new.faults result }
        ensures reads { self.new.reads.made ≡ self.old.reads.made }
    {
        self.started = None;
        if self.starts.next_fails() {
            count_fault(&mut self.faults);
            return Err(Failed);
        }
        self.started = cursor_at(&self.files, name);
        Ok(self.started.is_some())
    }

    fn read(&mut self, into: &mut Piece) -> Result<usize, Failed>
        ensures exactly { ReadsInMemory self.old self.new into.new result }
        ensures next { Reads (Some self.old.files) self.old.left self.new.left into.new result }
        ensures listed { Some self.new.files ≡ Some self.old.files }
        ensures cause { HasCause self.old.faults self.new.faults result }
        ensures reads { self.new.reads.made ≤ self.old.reads.made + 1 }
    {
        if self.reads.next_fails() {
            count_fault(&mut self.faults);
            return Err(Failed);
        }
        give(&self.files, &mut self.started, into);
        Ok(into.len)
    }
}

// A cursor at the start of the first file of this name.
fn cursor_at(files: &[(Text, Text)], name: &Text) -> Option<Cursor>
    ensures inside { IsInside files.now result }
    ensures found { is_some result ≡ is_some (file_named name.now files.now) }
    ensures left { left_at files.now result ≡ unwrap_or (file_named name.now files.now) [] }
{
    match place_of(files, name) {
        Some(file) => Some(Cursor { file, read: 0 }),
        None => None,
    }
}

// The place of the first file of this name.
fn place_of(files: &[(Text, Text)], name: &Text) -> Option<usize>
    ensures { result ≡ position (λ file. bytes_eq name.now file.0) files.now }
{
    files.iter().position(|file| name.bytes() == file.0.bytes())
}

// Puts the next bytes of the started file into the piece.
fn give(files: &[(Text, Text)], started: &mut Option<Cursor>, into: &mut Piece)
    requires { IsInside files.now started.old }
    ensures inside { IsInside files.now started.new }
    ensures bytes { bytes_of into.new ≡ take 4096 (left_at files.now started.old) }
    ensures len { into.new.len ≡ min 4096 (length (left_at files.now started.old)) }
    ensures left { left_at files.now started.new ≡ drop 4096 (left_at files.now started.old) }
{
    let Some(cursor) = started else {
        into.fill(&[]);
        return;
    };
    let file = &files[cursor.file];
    let bytes = file.1.bytes();
    into.fill(&bytes[cursor.read..]);
    cursor.read += into.len;
}
