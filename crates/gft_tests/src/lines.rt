//! Lines, writes and files with each call failing in turn, and at their limits.
use gft_core::Text;
use gft_io::{
    FileStore, LineErr, Lines, LoadErr, MemSink, MemSource, MemStore, ReadSource, Source, Store,
    WriteSink, write_all,
};
use std::alloc::{AllocError, Global};
use std::io::Cursor;
use std::test::Fail;

/// What the calls answer, one after another: a line as it stands or as its length.
fn answers<S: Source>(alloc: Global, source: &mut S, calls: usize) -> Result<Vec<u8>, Fail> {
    let mut lines = Lines::new(alloc)?;
    let mut said = Vec::new(alloc);
    for _ in 0..calls {
        match lines.next(alloc, source) {
            Ok(Some(line)) => say_line(alloc, &mut said, &line)?,
            Ok(None) => said.extend_from_slice(b"end")?,
            Err(LineErr::ReadFault) => said.extend_from_slice(b"fault")?,
            Err(LineErr::InputLimit) => said.extend_from_slice(b"limit")?,
            Err(LineErr::LineTooLong) => said.extend_from_slice(b"long")?,
            Err(LineErr::NoMemory) => said.extend_from_slice(b"memory")?,
        }
        said.push(b';')?;
    }
    Ok(said)
}

/// A line in quotes, or its length where that is over 20.
fn say_line(alloc: Global, said: &mut Vec<u8>, line: &[u8]) -> Result<(), AllocError> {
    if line.len() > 20 {
        return said.extend_from_slice(format!(in alloc; "{}", line.len())?.as_bytes());
    }
    said.push(b'"')?;
    said.extend_from_slice(line)?;
    said.push(b'"')?;
    Ok(())
}

/// `count` bytes `x`, and then the tail.
fn long_text(alloc: Global, count: usize, tail: &[u8]) -> Result<Vec<u8>, AllocError> {
    let mut text = vec![in alloc; b'x'; count]?;
    text.extend_from_slice(tail)?;
    Ok(text)
}

#[test]
fn each_newline_ends_a_line_and_no_fault_loses_one(rt: HostRuntime) -> Result<(), Fail> {
    let alloc = rt.alloc();
    let rows: [(usize, &[u8], &[u64], &[u8]); 20] = [
        (0, b"", &[], b"end;end;end;"),
        (0, b"\n", &[], b"\"\";end;end;"),
        (0, b"a", &[], b"\"a\";end;end;"),
        (0, b"a\n", &[], b"\"a\";end;end;"),
        (0, b"a\n\nb", &[], b"\"a\";\"\";\"b\";"),
        (0, b"a\r\nb\0c\n", &[], b"\"a\r\";\"b\0c\";end;"),
        (0, b"a\nb\n", &[1], b"fault;\"a\";\"b\";"),
        (0, b"a\nb\n", &[2], b"\"a\";\"b\";fault;"),
        (0, b"a\nb", &[2], b"\"a\";fault;\"b\";"),
        (0, b"a\nb", &[3], b"\"a\";\"b\";fault;"),
        (0, b"a\nb", &[2, 3], b"\"a\";fault;fault;"),
        (8191, b"\nb\n", &[], b"8191;\"b\";end;"),
        (8192, b"\nb\n", &[], b"8192;\"b\";end;"),
        (8192, b"\nb\n", &[2], b"fault;8192;\"b\";"),
        (65536, b"\nb\n", &[], b"65536;\"b\";end;"),
        (65536, b"", &[], b"65536;end;end;"),
        (65537, b"\nb\n", &[], b"long;\"b\";end;"),
        (65537, b"", &[], b"long;end;end;"),
        (200000, b"\nb\n", &[5, 20], b"fault;fault;long;"),
        (200000, b"\n\nb", &[], b"long;\"\";\"b\";"),
    ];
    for (count, tail, failing, want) in rows {
        let text = long_text(alloc, count, tail)?;
        let mut source = MemSource::new(text, Vec::from_slice(alloc, failing)?);
        let said = answers(alloc, &mut source, 3)?;
        assert_eq!(rt; said.as_slice(), want);
    }
    Ok(())
}

#[test]
fn a_sink_takes_what_its_room_holds(rt: HostRuntime) -> Result<(), Fail> {
    let alloc = rt.alloc();
    let rows: [(usize, &[u64], bool, &[u8]); 5] = [
        (4, &[], true, b"abcd"),
        (3, &[], false, b"ab"),
        (4, &[1], false, b"cd"),
        (4, &[2], false, b"ab"),
        (4, &[3], true, b"abcd"),
    ];
    for (room, failing, want, held) in rows {
        let mut sink = MemSink::new(alloc, room, Vec::from_slice(alloc, failing)?)?;
        let first = write_all(&mut sink, b"ab").is_ok();
        let second = write_all(&mut sink, b"cd").is_ok();
        assert_eq!(rt; first && second, want);
        assert_eq!(rt; sink.bytes().as_slice(), held);
        assert!(rt; write_all(&mut sink, b"").is_ok());
    }
    Ok(())
}

#[test]
fn a_store_gives_what_it_was_given(rt: HostRuntime) -> Result<(), Fail> {
    let alloc = rt.alloc();
    let files = vec![in alloc; (Text::from_str(alloc, "a")?, vec![in alloc; 1, 2]?)]?;
    let mut store = MemStore::new(files, vec![in alloc; 3, 5]?);
    assert_eq!(rt; store.load(alloc, "a", 2)?.as_slice(), [1, 2].as_slice());
    assert_eq!(rt; store.load(alloc, "a", 1).err(), Some(LoadErr::TooLong));
    assert_eq!(rt; store.load(alloc, "a", 2).err(), Some(LoadErr::Failed));
    assert_eq!(rt; store.load(alloc, "b", 9).err(), Some(LoadErr::Missing));
    assert!(rt; store.save(alloc, "b", b"x").is_err());
    assert!(rt; store.save(alloc, "b", b"xy").is_ok());
    assert!(rt; store.save(alloc, "a", b"").is_ok());
    assert_eq!(rt; store.load(alloc, "a", 0)?.len(), 0);
    assert_eq!(rt; store.load(alloc, "b", 2)?.as_slice(), b"xy".as_slice());
    Ok(())
}

#[test]
fn adapters_pass_bytes_on(rt: HostRuntime) -> Result<(), Fail> {
    let alloc = rt.alloc();
    let mut source = ReadSource::new(b"a\nb".as_slice());
    assert_eq!(rt;
        answers(alloc, &mut source, 3)?.as_slice(),
        b"\"a\";\"b\";end;".as_slice()
    );
    let mut bytes = [0; 3];
    assert!(rt;
        write_all(
            &mut WriteSink::new(Cursor::new(bytes.as_mut_slice())),
            b"abc"
        )
        .is_ok()
    );
    assert_eq!(rt; bytes.as_slice(), b"abc".as_slice());
    // A write of no byte is a fault, as at a writer that is full.
    let mut short = [0; 2];
    assert!(rt;
        write_all(
            &mut WriteSink::new(Cursor::new(short.as_mut_slice())),
            b"abc"
        )
        .is_err()
    );
    let mut store = FileStore::new(rt.clone()?);
    let path = "gft_io_test_of_a_store";
    assert!(rt; store.save(alloc, path, b"abc").is_ok());
    assert!(rt; store.save(alloc, path, b"ab").is_ok());
    assert_eq!(rt; store.load(alloc, path, 2)?.as_slice(), b"ab".as_slice());
    assert_eq!(rt; store.load(alloc, path, 1).err(), Some(LoadErr::TooLong));
    std::fs::remove_file(&rt, path)?;
    assert_eq!(rt; store.load(alloc, path, 2).err(), Some(LoadErr::Missing));
    assert_eq!(rt; store.load(alloc, ".", 2).err(), Some(LoadErr::Failed));
    assert!(rt; store.save(alloc, "no/such/folder", b"").is_err());
    Ok(())
}
