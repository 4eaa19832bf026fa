//! A program for tests alone: it reads a program's text from standard input and writes its canonical text to standard
//! output. Its one word says of which tree: `parsed` is the program as it was read, `normal` its normal form; with
//! `read` it only reads and writes nothing. A text is read as that of a woven program. One that is refused, as other
//! faults, ends with the status that `agxx` has for it, and the line on standard error is that of `agxx exec`, with `-`
//! in place of the file.
#![tactic(auto)]

mod form;
mod printed;
mod stop;

use agxx_base::{Status, StdSink};
use form::Task;
use printed::do_task;
use std::io::Read;
use std::process::ExitCode;
use std::{env, io};
use stop::Stop;

/// The stop for a failed read or want of memory.
fn stop_of(error: &io::Error) -> Stop {
    match error.kind() {
        io::ErrorKind::OutOfMemory => Stop::Memory,
        _ => Stop::ReadFault,
    }
}

/// The task that the words after the program's name ask for.
fn task(rt: &HostRuntime) -> Result<Task, Stop> {
    let mut args = env::args(rt).map_err(|error| stop_of(&error))?;
    let _program = args.next();
    match (args.next(), args.next()) {
        (Some(word), None) => Task::named(word.as_str()).ok_or(Stop::Usage),
        _ => Err(Stop::Usage),
    }
}

/// Does the task on standard input.
fn run(rt: &HostRuntime) -> Result<(), Stop> {
    let task = task(rt)?;
    let mut text = Vec::new(rt.alloc());
    rt.stdin()
        .read_to_end(&mut text)
        .map_err(|error| stop_of(&error))?;
    do_task(
        rt.alloc(),
        task,
        text.as_slice(),
        &mut StdSink::new(rt.stdout()),
    )
}

/// The status of a run; a refusal is told on standard error.
fn told(rt: &HostRuntime, stop: Stop) -> Status {
    if let Stop::Refused(refusal) = stop {
        let (place, rule) = (refusal.place, refusal.rule);
        let (line, column, code, message) = (place.line, place.column, rule.code(), rule.message());
        if eprintln!(rt; "-:{line}:{column}: {code}: {message}").is_err() {
            return Status::WriteFault;
        }
    }
    stop.status()
}

fn main(rt: HostRuntime) -> ExitCode {
    let status = match run(&rt) {
        Ok(()) => Status::Done,
        Err(stop) => told(&rt, stop),
    };
    ExitCode::from(status.number())
}
