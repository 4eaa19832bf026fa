//! Happy paths, calls that fail in turn, and the real files, which no clause speaks of.

use agxx_base::{
    DiskFiles, Failed, Files, MemFiles, MemSink, Names, ReadError, StdSink, Text, Words,
    read_whole, write_whole,
};
use std::fs;
use std::test::Fail;

const LIMIT: u32 = 10_000;

#[test]
fn real_files_are_read_and_written(rt: HostRuntime) -> Result<(), Fail> {
    let bytes = vec![in rt.alloc(); b'x'; 5000]?;
    fs::write(&rt, "a.txt", bytes.as_slice())?;
    let mut files = DiskFiles::new(&rt);
    let name = Text::from_bytes(rt.alloc(), b"a.txt")?;
    let text = read_whole(rt.alloc(), &mut files, &name, LIMIT)?;
    assert_eq!(rt; text.bytes(), bytes.as_slice());
    assert_eq!(rt;
        read_whole(rt.alloc(), &mut files, &name, 4999).err(),
        Some(ReadError::TooLarge)
    );

    for absent in [b"b.txt".as_slice(), b"\xff", b""] {
        let name = Text::from_bytes(rt.alloc(), absent)?;
        let answer = read_whole(rt.alloc(), &mut files, &name, LIMIT);
        assert_eq!(rt; answer.err(), Some(ReadError::ReadFault), "{absent:?}");
    }

    let mut sink = StdSink::new(fs::create(&rt, "c.txt")?);
    assert_eq!(rt; write_whole(&mut sink, text.bytes()), Ok(()));
    assert_eq!(rt; write_whole(&mut sink, b"end"), Ok(()));
    assert_eq!(rt; fs::read(&rt, "c.txt")?.len(), 5003);
    assert_eq!(rt;
        write_whole(&mut StdSink::new(rt.stdout()), b"shown\n"),
        Ok(())
    );
    Ok(())
}

// Four reads take a file of 9,000 bytes to its end.
#[test]
fn files_in_memory_fail_at_their_calls(rt: HostRuntime) -> Result<(), Fail> {
    let name = Text::from_bytes(rt.alloc(), b"a.cc")?;
    for (call, limit, wanted) in [
        (1, 9000, Some(ReadError::ReadFault)),
        (3, 9000, Some(ReadError::ReadFault)),
        (4, 9000, Some(ReadError::ReadFault)),
        (5, 9000, None),
        (5, 8999, Some(ReadError::TooLarge)),
        (5, 0, Some(ReadError::TooLarge)),
    ] {
        let mut files = MemFiles::new(rt.alloc());
        let bytes = vec![in rt.alloc(); b'y'; 9000]?;
        files.add(
            Text::from_bytes(rt.alloc(), b"a.cc")?,
            Text::from_vec(bytes),
        )?;
        files.add(
            Text::from_bytes(rt.alloc(), b"a.cc")?,
            Text::from_bytes(rt.alloc(), b"z")?,
        )?;
        files.fail_start(2)?;
        files.fail_read(call)?;
        let answer = read_whole(rt.alloc(), &mut files, &name, limit);
        assert_eq!(rt; answer.err(), wanted, "call {call}, limit {limit}");
        assert_eq!(rt; files.start_file(&name), Err(Failed));
        assert_eq!(rt; files.start_file(&name), Ok(true));
        let other = Text::from_bytes(rt.alloc(), b"b.cc")?;
        assert_eq!(rt; files.start_file(&other), Ok(false));
    }
    Ok(())
}

#[test]
fn sinks_in_memory_take_what_they_may(rt: HostRuntime) -> Result<(), Fail> {
    for (room, limit, call, wanted) in [
        (10, 1, 2, b"7".as_slice()),
        (10, 1, 4, b"7, "),
        (10, 1, 5, b"7, 9"),
        (10, 4096, 1, b""),
        (10, 0, 9, b""),
        (3, 2, 9, b"7, "),
        (4, 3, 9, b"7, 9"),
    ] {
        let mut sink = MemSink::new(rt.alloc(), room)?;
        sink.take_at_most(limit);
        sink.fail_write(call)?;
        let whole = write_whole(&mut sink, b"7, 9").is_ok();
        assert_eq!(rt;
            sink.bytes(),
            wanted,
            "room {room}, limit {limit}, call {call}"
        );
        assert_eq!(rt;
            whole,
            wanted.len() == 4,
            "room {room}, limit {limit}, call {call}"
        );
    }
    let bytes = vec![in rt.alloc(); 5u8; 9000]?;
    let mut sink = MemSink::new(rt.alloc(), 9000)?;
    assert_eq!(rt; write_whole(&mut sink, bytes.as_slice()), Ok(()));
    assert_eq!(rt; sink.bytes(), bytes.as_slice());
    Ok(())
}

#[test]
fn names_are_numbered_at_first_sight(rt: HostRuntime) -> Result<(), Fail> {
    let mut names = Names::new(rt.alloc());
    for (text, wanted) in [
        (b"main".as_slice(), 0),
        (b"", 1),
        (b"m", 2),
        (b"main", 0),
        (b"m", 2),
        (b"n", 3),
    ] {
        let id = names.intern(text).or(Err("no memory"))?;
        assert_eq!(rt; id.0, wanted);
        assert_eq!(rt; names.text_of(id), text);
    }
    assert_eq!(rt; names.len(), 4);
    Ok(())
}

#[test]
fn words_keep_their_order(rt: HostRuntime) -> Result<(), Fail> {
    let mut words = Words::new(rt.alloc());
    for word in [b"exec".as_slice(), b"a.cc"] {
        words.push(Text::from_bytes(rt.alloc(), word)?)?;
    }
    assert_eq!(rt; words.len(), 2);
    assert_eq!(rt; words.item(0).bytes(), b"exec".as_slice());
    assert_eq!(rt; words.item(1).bytes(), b"a.cc".as_slice());
    Ok(())
}
