//! The program `agxx`: a weaver that hardens C++ objects against bit flips. Its top call is `agxx`, which reads the
//! words of the command line, does what they ask for and answers the status. `main` hands it the real files, standard
//! output and standard error.
#![tactic(auto)]

mod answer;
mod buffer;
mod commands;
mod files;
mod line;
mod program;
mod reply;
mod run;
mod sheet;
mod summary;
mod top;
mod way;
mod weave;

use agxx_base::{DiskFiles, Memory, Status, StdSink, Text, Words};
use std::process::ExitCode;
use std::rt::Env;
use std::{env, io};
use top::agxx;

/// The words after the program's name, or none where one of them isn't text: no command has such a word.
fn command_words(rt: &(impl Env + AllocGlobal)) -> Result<Words, Memory> {
    let mut words = Words::new(rt.alloc());
    let args = match env::args(rt) {
        Ok(args) => args,
        Err(error) if error.kind() == io::ErrorKind::OutOfMemory => return Err(Memory),
        Err(_) => return Ok(words),
    };
    for arg in args.skip(1) {
        words.push(Text::from_bytes(rt.alloc(), arg.as_bytes())?)?;
    }
    Ok(words)
}

fn main(rt: HostRuntime) -> ExitCode {
    let status = match command_words(&rt) {
        Ok(words) => agxx(
            rt.alloc(),
            &words,
            &mut DiskFiles::new(&rt),
            &mut StdSink::new(rt.stdout()),
            &mut StdSink::new(rt.stderr()),
        ),
        Err(Memory) => Status::Memory,
    };
    ExitCode::from(status.number())
}
