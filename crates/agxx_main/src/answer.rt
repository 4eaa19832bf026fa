//! The program's answer, before it is written.

ghost use Rattle.std.specs.Prelude.{◌≡◌, IfOk};
ghost use Rattle.agxx_main.specs.Lines as lines;

use crate::line::Line;
use agxx_base::{Memory, Refusal, Status, Text};
use std::alloc::Global;

/// What the program tells: its status, and the bytes for standard output and standard error.
#[derive(Debug, Drop)]
pub struct Answer {
    pub status: Status,
    pub out: Text,
    pub diag: Text,
}

fn unreadable_line(alloc: Global, file: &[u8]) -> Result<Text, Memory>
    ensures { IfOk result (λ text. text ≡ lines.unreadable_line file.now) }
{
    let mut line = Line::new(alloc);
    line.text(b"agxx: cannot read ".as_slice())?;
    line.text(file)?;
    line.end()
}

fn refusal_line(alloc: Global, file: &[u8], refusal: Refusal) -> Result<Text, Memory>
    ensures { IfOk result (λ text. text ≡ lines.refusal_line file.now refusal) }
{
    let mut line = Line::new(alloc);
    line.text(file)?;
    line.text(b":".as_slice())?;
    line.number(u64::from(refusal.place.line))?;
    line.text(b":".as_slice())?;
    line.number(u64::from(refusal.place.column))?;
    line.text(b": ".as_slice())?;
    line.text(refusal.rule.code().as_bytes())?;
    line.text(b": ".as_slice())?;
    line.text(refusal.rule.message().as_bytes())?;
    line.end()
}

const USAGE: &str =
    "usage: agxx weave CC AH.. | exec CC [PLAN] | run PLAN CC AH.. | source PLAN CC AH.. | points CC AH.. | demo N\n";

impl Answer {
    ghost use Rattle.agxx_main.specs.Answers as answers;

    /// The words are no command.
    pub fn usage(alloc: Global) -> Result<Answer, Memory>
        ensures { IfOk result (λ answer. answer ≡ answers.usage) }
    {
        let out = Text::from_vec(Vec::new(alloc));
        let diag = Text::from_bytes(alloc, USAGE.as_bytes())?;
        Ok(Answer {
            status: Status::Usage,
            out,
            diag,
        })
    }

    /// The file can't be read.
    pub fn unreadable(alloc: Global, file: &Text) -> Result<Answer, Memory>
        ensures { IfOk result (λ answer. answer ≡ answers.unreadable file.now) }
    {
        let out = Text::from_vec(Vec::new(alloc));
        let diag = unreadable_line(alloc, file.bytes())?;
        Ok(Answer {
            status: Status::ReadFault,
            out,
            diag,
        })
    }

    /// The file violates a rule.
    pub fn refused(alloc: Global, file: &Text, refusal: Refusal) -> Result<Answer, Memory>
        ensures { IfOk result (λ answer. answer ≡ answers.refused file.now refusal) }
    {
        let out = Text::from_vec(Vec::new(alloc));
        let diag = refusal_line(alloc, file.bytes(), refusal)?;
        Ok(Answer {
            status: Status::Refused,
            out,
            diag,
        })
    }
}
