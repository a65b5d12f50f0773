// What the calls do on small inputs.
use apt_base::{
    FileShelf, LineEnd, LineReader, MemShelf, MemSink, MemSource, ReadEnd, Sink, Source,
    StdinSource, StdoutSink, WriteFault, read_whole, write_all,
};
use std::alloc::{AllocError, Global};
use std::fs;
use std::test::Fail;

/// A shelf with one file, which is read in pieces of 3 bytes.
fn shelf_with(alloc: Global, bytes: &str, failing: &[u64]) -> Result<MemShelf, AllocError> {
    let name = String::from_str(alloc, "status")?;
    let bytes = Vec::from_slice(alloc, bytes.as_bytes())?;
    let mut files = Vec::new(alloc);
    files.push((name, bytes))?;
    Ok(MemShelf::new(alloc, files, 3, Vec::from_slice(alloc, failing)?))
}

#[test]
fn a_file_is_read_up_to_the_limit(rt: HostRuntime) -> Result<(), Fail> {
    let alloc = rt.alloc();
    let mut shelf = shelf_with(alloc, "0123456789", &[])?;
    let read = read_whole(alloc, &mut shelf, "status", 10);
    assert!(rt; matches!(&read, Ok(bytes) if bytes.as_slice() == "0123456789".as_bytes()));
    Ok(())
}

#[test]
fn a_longer_file_is_refused(rt: HostRuntime) -> Result<(), Fail> {
    let alloc = rt.alloc();
    let mut shelf = shelf_with(alloc, "0123456789a", &[])?;
    let read = read_whole(alloc, &mut shelf, "status", 10);
    assert!(rt; matches!(&read, Err(ReadEnd::TooLong { limit: 10 })));
    Ok(())
}

#[test]
fn a_call_fails_where_it_is_to(rt: HostRuntime) -> Result<(), Fail> {
    let alloc = rt.alloc();
    let mut shelf = shelf_with(alloc, "0123456789", &[2])?;
    let read = read_whole(alloc, &mut shelf, "status", 10);
    assert!(rt; matches!(&read, Err(ReadEnd::ReadFault)));
    Ok(())
}

#[test]
fn bytes_are_written_in_pieces(rt: HostRuntime) -> Result<(), Fail> {
    let alloc = rt.alloc();
    let failing = Vec::from_slice(alloc, [1u64].as_slice())?;
    let Ok(mut sink) = MemSink::new(alloc, 100, 3, failing) else {
        return Err(Fail::new("no memory"));
    };
    assert_eq!(rt;
        write_all(&mut sink, "aptres: 3".as_bytes()),
        Err(WriteFault)
    );
    assert_eq!(rt; sink.written(), "apt".as_bytes());
    Ok(())
}

#[test]
fn lines_are_read_one_at_a_time(rt: HostRuntime) -> Result<(), Fail> {
    let alloc = rt.alloc();
    for piece in [1usize, 3, 100] {
        let text = Vec::from_slice(alloc, "next\r\n\n\rb\r\r\nquit\r".as_bytes())?;
        let mut source = MemSource::new(text, piece, Vec::new(alloc));
        let Ok(mut reader) = LineReader::new(alloc) else {
            return Err(Fail::new("no memory"));
        };
        let mut line = Vec::new(alloc);
        for want in ["next", "", "\rb\r", "quit\r"] {
            assert_eq!(rt; reader.next_line(&mut source, &mut line), Ok(true));
            assert_eq!(rt; line.as_slice(), want.as_bytes());
        }
        assert_eq!(rt; reader.next_line(&mut source, &mut line), Ok(false));
    }
    Ok(())
}

#[test]
fn a_line_has_at_most_4096_bytes(rt: HostRuntime) -> Result<(), Fail> {
    let alloc = rt.alloc();
    for (length, answer) in [(4096usize, Ok(true)), (4097, Err(LineEnd::TooLong))] {
        let mut text = vec![in alloc; b'x'; length]?;
        text.push(b'\n')?;
        let mut source = MemSource::new(text, 1, Vec::new(alloc));
        let Ok(mut reader) = LineReader::new(alloc) else {
            return Err(Fail::new("no memory"));
        };
        let mut line = Vec::new(alloc);
        assert_eq!(rt; reader.next_line(&mut source, &mut line), answer);
    }
    let failing = Vec::from_slice(alloc, [1u64].as_slice())?;
    let mut source = MemSource::new(Vec::from_slice(alloc, "quit\n".as_bytes())?, 2, failing);
    let Ok(mut reader) = LineReader::new(alloc) else {
        return Err(Fail::new("no memory"));
    };
    let mut line = Vec::new(alloc);
    assert_eq!(rt;
        reader.next_line(&mut source, &mut line),
        Err(LineEnd::ReadFault)
    );
    Ok(())
}

#[test]
fn files_of_the_system_are_read(rt: HostRuntime) -> Result<(), Fail> {
    let alloc = rt.alloc();
    let Ok(()) = fs::write(&rt, "packages", "Package: a\n") else {
        return Err(Fail::new("no memory"));
    };
    let mut shelf = FileShelf::new(alloc, &rt);
    let read = read_whole(alloc, &mut shelf, "packages", 100);
    assert!(rt; matches!(&read, Ok(bytes) if bytes.as_slice() == "Package: a\n".as_bytes()));
    let read = read_whole(alloc, &mut shelf, "no such file", 100);
    assert!(rt; matches!(&read, Err(ReadEnd::ReadFault)));
    Ok(())
}

#[test]
fn standard_input_is_read(rt: HostRuntime) -> Result<(), Fail> {
    let mut source = StdinSource::new(&rt);
    let mut buf = [0u8; 4];
    assert_eq!(rt; source.read(&mut buf[..0]), Ok(0));
    Ok(())
}

#[test]
fn standard_output_is_written(rt: HostRuntime) -> Result<(), Fail> {
    let mut sink = StdoutSink::new(&rt);
    assert_eq!(rt; write_all(&mut sink, "written\n".as_bytes()), Ok(()));
    assert_eq!(rt; sink.write(&[]), Ok(0));
    Ok(())
}
