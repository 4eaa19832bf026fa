//! The text of a program, written to a sink, in memory, or counted.

ghost use Rattle.std.specs.Prelude.{◌≡◌, ◌-◌, ◌^◌, min, length, IfOk};
ghost use Rattle.agxx_base.specs.Sink.{WritesWhole};
ghost use Rattle.cxx_print.specs.Programs.{text_of};
ghost use Rattle.cxx_tree.specs.ProgramTree.{program_tree};

use crate::printer::Printer;
use crate::sinks::{Growing, Nowhere};
use agxx_base::{Failed, Memory, Names, Sink, Text};
use cxx_tree::Program;
use std::alloc::Global;

/// Writes the canonical text of a program, in pieces, without memory. After `Failed` a prefix of it was written.
pub fn print<O: Sink>(names: &Names, program: &Program, sink: &mut O) -> Result<(), Failed>
    ensures { WritesWhole (O.taken sink.old) (O.taken sink.new)
        (text_of names.now (program_tree program.now))
        (O.faults sink.old) (O.faults sink.new) result }
{
    let mut printer = Printer::new(names);
    printer.program(sink, program);
    printer.flush(sink);
    printer.outcome()
}

/// The canonical text of a program.
pub fn to_text(alloc: Global, names: &Names, program: &Program) -> Result<Text, Memory>
    ensures { IfOk result (λ text. text ≡ text_of names.now (program_tree program.now)) }
{
    let mut sink = Growing::new(alloc);
    match print(names, program, &mut sink) {
        Ok(()) => Ok(sink.into_text()),
        Err(Failed) => Err(Memory),
    }
}

/// How many bytes the canonical text of a program has, up to 2^64 - 1. It takes no memory.
pub fn text_len(names: &Names, program: &Program) -> u64
    ensures { result ≡ min (length (text_of names.now (program_tree program.now))) (2 ^ 64 - 1) }
{
    let mut printer = Printer::new(names);
    printer.program(&mut Nowhere, program);
    printer.count()
}
