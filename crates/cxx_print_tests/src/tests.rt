//! What the calls do with the text of a program: it is written in pieces, made in memory and counted, and sinks may
//! fail. How programs are spelled is told by the cases of `cases/spellings.txt`.

use agxx_base::{Failed, MemSink, Mode, Names};
use cxx_lex::lex_all;
use cxx_parse::parse_program;
use cxx_print::{print, text_len, to_text};
use cxx_tree::Program;
use std::alloc::Global;
use std::test::Fail;

// The program of a text, and its names.
fn read(alloc: Global, text: &[u8]) -> Result<(Names, Program), Fail> {
    if text.len() > 65536 {
        return Err("too long")?;
    }
    let mut names = Names::new(alloc);
    let Ok(toks) = lex_all(alloc, text, 0, Mode::Woven) else {
        return Err("no tokens")?;
    };
    match parse_program(alloc, &mut names, &toks, Mode::Woven) {
        Ok(program) => Ok((names, program)),
        Err(_) => Err("no program")?,
    }
}

// Many declarations, whose text is longer than what a sink is given at once.
fn long_source(alloc: Global) -> Result<Vec<u8>, Fail> {
    let mut text = Vec::new(alloc);
    for _ in 0..1000 {
        text.extend_from_slice(b"int x = 1;\n".as_slice())?;
    }
    Ok(text)
}

#[test]
fn made_in_memory_and_counted(rt: HostRuntime) -> Result<(), Fail> {
    let source = long_source(rt.alloc())?;
    let (names, program) = read(rt.alloc(), source.as_slice())?;
    let Ok(text) = to_text(rt.alloc(), &names, &program) else {
        return Err("no memory")?;
    };
    assert!(rt; text.bytes() == source.as_slice());
    assert_eq!(rt; text_len(&names, &program), 11000);
    Ok(())
}

#[test]
fn written_in_pieces(rt: HostRuntime) -> Result<(), Fail> {
    let source = long_source(rt.alloc())?;
    let (names, program) = read(rt.alloc(), source.as_slice())?;
    let mut sink = MemSink::new(rt.alloc(), 20000)?;
    sink.take_at_most(1000);
    assert_eq!(rt; print(&names, &program, &mut sink), Ok(()));
    assert!(rt; sink.bytes() == source.as_slice());
    Ok(())
}

#[test]
fn a_sink_that_fails(rt: HostRuntime) -> Result<(), Fail> {
    let source = long_source(rt.alloc())?;
    let (names, program) = read(rt.alloc(), source.as_slice())?;
    let mut sink = MemSink::new(rt.alloc(), 20000)?;
    sink.fail_write(2)?;
    assert_eq!(rt; print(&names, &program, &mut sink), Err(Failed));
    assert!(rt; source.as_slice().starts_with(sink.bytes()));
    assert_eq!(rt; sink.bytes().len(), 4096);
    let mut small = MemSink::new(rt.alloc(), 5000)?;
    assert_eq!(rt; print(&names, &program, &mut small), Err(Failed));
    assert!(rt; source.as_slice().starts_with(small.bytes()));
    assert_eq!(rt; small.bytes().len(), 5000);
    Ok(())
}
