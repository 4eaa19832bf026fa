//! Files that are opened.

ghost use Rattle.std.specs.Prelude.{◌≡◌, ◌≤◌, IfOk};
ghost use Rattle.agxx_main.specs.Answers as answers;
ghost use Rattle.agxx_main.specs.Outcome.{Opening};

use crate::answer::Answer;
use agxx_base::{Files, Memory, Place, ReadError, Refusal, Rule, Text, read_whole};
use std::alloc::Global;

/// What came of opening a file.
#[derive(Drop)]
pub(crate) enum Opened {
    /// Its text.
    Text(Text),
    /// It can't be read or is too large, which is all that is answered.
    Closed(Answer),
}

pub(crate) fn at_beginning(rule: Rule) -> Refusal
    ensures { result ≡ answers.at_beginning rule }
{
    Refusal {
        rule,
        place: Place {
            file: 0,
            line: 1,
            column: 1,
        },
    }
}

/// Reads a file of at most so many bytes.
pub(crate) fn open<F: Files>(
    alloc: Global,
    file: &Text,
    limit: u32,
    files: &mut F,
) -> Result<Opened, Memory>
    ensures opening { IfOk result (λ opened. Opening (F.listed files.old) (F.faults files.old) (F.faults files.new)
        file.now limit opened) }
    ensures listed { F.listed files.new ≡ F.listed files.old }
    ensures later { F.faults files.old ≤ F.faults files.new }
{
    match read_whole(alloc, files, file, limit) {
        Ok(text) => Ok(Opened::Text(text)),
        Err(ReadError::TooLarge) => {
            Ok(Opened::Closed(Answer::refused(alloc, file, at_beginning(Rule::S1))?))
        }
        Err(ReadError::ReadFault) => Ok(Opened::Closed(Answer::unreadable(alloc, file)?)),
        Err(ReadError::Memory) => Err(Memory),
    }
}
