//! The program of a text, and its canonical text.

ghost use Rattle.std.specs.Prelude.{◌≡◌, ◌≤◌, length, IfOk, OnOk};
ghost use Rattle.agxx_base.specs.Sink.{appended};
ghost use Rattle.cxx_tree.specs.ProgramTree.{program_tree};
ghost use Rattle.agxx_text.specs.Printed.{IsRead, IsPrinted, text_in};

use crate::form::{Form, Task};
use crate::stop::Stop;
use agxx_base::{LARGEST_TEXT, Mode, Names, Sink};
use cxx_lex::lex_all;
use cxx_normal::normal;
use cxx_parse::parse_program;
use cxx_print::print;
use cxx_tree::Program;
use std::alloc::Global;

/// A program and its names.
#[derive(Drop)]
pub(crate) struct Named {
    names: Names,
    program: Program,
}

/// Reads the text of a woven program.
fn read_program(alloc: Global, text: &[u8]) -> Result<Named, Stop>
    requires { length text.now ≤ LARGEST_TEXT }
    ensures { IfOk result (λ read. IsRead text.now read.names (program_tree read.program)) }
{
    let mut names = Names::new(alloc);
    let toks = lex_all(alloc, text, 0, Mode::Woven)?;
    let program = parse_program(alloc, &mut names, &toks, Mode::Woven)?;
    Ok(Named { names, program })
}

/// Writes the canonical text of a program in this form.
fn write_program<O: Sink>(
    alloc: Global,
    form: Form,
    read: &mut Named,
    out: &mut O,
) -> Result<(), Stop>
    ensures { OnOk result (O.taken out.new ≡ appended (O.taken out.old)
        (text_in form read.old.names (program_tree read.old.program))) }
{
    match form {
        Form::Parsed => print(&read.names, &read.program, out)?,
        Form::Normal => {
            let normal = normal(alloc, &read.program, &mut read.names)?;
            print(&read.names, &normal, out)?;
        }
    }
    Ok(())
}

/// Writes the canonical text of the program of a text.
fn print_text<O: Sink>(alloc: Global, form: Form, text: &[u8], out: &mut O) -> Result<(), Stop>
    requires { length text.now ≤ LARGEST_TEXT }
    ensures { OnOk result (IsPrinted form text.now (O.taken out.old) (O.taken out.new)) }
{
    let mut read = read_program(alloc, text)?;
    write_program(alloc, form, &mut read, out)
}

/// Does a task on a text.
pub(crate) fn do_task<O: Sink>(
    alloc: Global,
    task: Task,
    text: &[u8],
    out: &mut O,
) -> Result<(), Stop> {
    if text.len() > LARGEST_TEXT as usize {
        return Err(Stop::too_large());
    }
    match task {
        Task::Read => {
            let _read = read_program(alloc, text)?;
            Ok(())
        }
        Task::Print(form) => print_text(alloc, form, text, out),
    }
}
