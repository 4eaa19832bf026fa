//! The top call: all that the program does.

ghost use Rattle.std.specs.Prelude.{◌≡◌, ◌≤◌, IfOk, OnErr};
ghost use Rattle.agxx_base.specs.Causes.{Rose};
ghost use Rattle.agxx_main.specs.Outcome.{IsDue, HasDue, Ends, Gets, GivesUp};
ghost use Rattle.agxx_main.specs.Replies.{answer_of};
ghost use Rattle.agxx_main.specs.Laws.{HasOneAnswer, UsageHasAnswer, CommandHasAnswer, DueIsAnswer};

use crate::answer::Answer;
use crate::commands::answer_call;
use crate::reply::Reply;
use agxx_base::{Files, Memory, Sink, Status, Words, write_whole};
use agxx_calls::read_call;
use std::alloc::Global;

/// Writes a reply to standard output and then to standard error, or tells that memory was refused.
fn deliver<O: Sink, E: Sink>(reply: Result<Reply, Memory>, out: &mut O, diag: &mut E) -> Status
    ensures given { IfOk reply (λ r. Gets (answer_of r) (O.taken out.old) (O.taken out.new)
        (E.taken diag.old) (E.taken diag.new)
        (Rose (O.faults out.old) (O.faults out.new))
        (Rose (E.faults diag.old) (E.faults diag.new)) result) }
    ensures out_later { O.faults out.old ≤ O.faults out.new }
    ensures diag_later { E.faults diag.old ≤ E.faults diag.new }
    ensures memory { OnErr reply (GivesUp (O.taken out.old) (O.taken out.new)
        (E.taken diag.old) (E.taken diag.new) result) }
{
    let Ok(reply) = reply else {
        return Status::Memory;
    };
    if reply.write_out(out).is_err() {
        return Status::WriteFault;
    }
    if write_whole(diag, reply.diag()).is_err() {
        return Status::WriteFault;
    }
    reply.status()
}

/// What is answered for the words of a command line.
fn answer<F: Files>(alloc: Global, words: &Words, files: &mut F) -> Result<Reply, Memory>
    ensures due { IfOk result (λ reply.
        IsDue words.now (F.listed files.old) (F.faults files.old) (F.faults files.new) (answer_of reply)) }
    // Something is due also where memory was refused.
    ensures some { OnErr result
        (HasDue words.now (F.listed files.old) (F.faults files.old) (F.faults files.new)) }
    ensures listed { F.listed files.new ≡ F.listed files.old }
    ensures later { F.faults files.old ≤ F.faults files.new }
{
    let call = read_call(alloc, words)?;
    match call {
        None => Ok(Reply::Told(Answer::usage(alloc)?)),
        Some(call) => answer_call(alloc, &call, files),
    }
}

/// Does what the words of a command line ask for, the program's name left out: reads from `files`, writes the output
/// to `out` and diagnostics to `diag`, and answers the status.
pub fn agxx<F: Files, O: Sink, E: Sink>(
    alloc: Global,
    words: &Words,
    files: &mut F,
    out: &mut O,
    diag: &mut E,
) -> Status
    ensures ends { Ends words.now (F.listed files.old) (F.faults files.old) (F.faults files.new)
        (O.taken out.old) (O.taken out.new) (E.taken diag.old) (E.taken diag.new)
        (Rose (O.faults out.old) (O.faults out.new))
        (Rose (E.faults diag.old) (E.faults diag.new)) result }
    ensures listed { F.listed files.new ≡ F.listed files.old }
    // No count of faults falls.
    ensures files_later { F.faults files.old ≤ F.faults files.new }
    ensures out_later { O.faults out.old ≤ O.faults out.new }
    ensures diag_later { E.faults diag.old ≤ E.faults diag.new }
{
    deliver(answer(alloc, words, files), out, diag)
}

/// There is an answer for all words and files, and one alone, but for whether and where a file that is no program
/// within the limits is told to be too deep. It is what `agxx` answers where files are told and no read or write fails.
/// The function does nothing: it carries the laws.
pub fn answers_are_determined()
    ensures one { HasOneAnswer }
    ensures usage { UsageHasAnswer }
    ensures command { CommandHasAnswer }
    ensures due { DueIsAnswer }
{}
