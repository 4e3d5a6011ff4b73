//! What no clause says: that the constructors answer with ample memory, and that each device can be
//! called through its trait. The answers in the tables were worked out by hand.
use outside::{MemShelf, MemSink, Shelf, Sink, SureShelf};
use std::alloc::{AllocError, Global};
use std::test::Fail;

// Two files named a, of which the first counts, and an empty one between them.
fn files(alloc: Global) -> Result<Vec<(String, Vec<u8>)>, AllocError> {
    let mut files = Vec::new(alloc);
    for (name, text) in [("a", "abcde"), ("b", ""), ("a", "no")] {
        files.push((
            String::from_str(alloc, name)?,
            text.as_bytes().to_vec(alloc)?,
        ))?;
    }
    Ok(files)
}

// What a start and then six reads into three bytes answer: each length and piece, `!` for a failure.
fn told<S: Shelf>(alloc: Global, shelf: &mut S, name: &str) -> Result<Vec<u8>, AllocError> {
    let mut log = Vec::new(alloc);
    if shelf.start(name).is_err() {
        log.push(b'!')?;
        return Ok(log);
    }
    for _ in 0..6 {
        let mut buf = [0u8; 3];
        match shelf.read(&mut buf) {
            Ok(n) => {
                log.push(b'0' + n as u8)?;
                log.extend_from_slice(&buf[..n])?;
            }
            Err(Failed) => log.push(b'!')?,
        }
    }
    Ok(log)
}

#[test]
fn a_shelf_gives_its_files_in_pieces_and_fails_as_planned(rt: HostRuntime) -> Result<(), Fail> {
    let alloc = rt.alloc();
    for (piece, fails, name, want) in [
        (1, [99, 99], "a", "1a1b1c1d1e0"),
        (2, [99, 99], "a", "2ab2cd1e000"),
        (4096, [99, 99], "a", "3abc2de0000"),
        (4096, [99, 99], "b", "000000"),
        (4096, [99, 99], "c", "!"),
        (2, [2, 5], "a", "2ab!2cd1e!0"),
        (2, [7, 0], "a", "!"),
        (2, [7, 0], "b", "!"),
    ] {
        assert!(rt; piece > 0);
        let mut shelf = MemShelf::new(alloc, files(alloc)?, piece, fails.to_vec(alloc)?)?;
        let log = told(alloc, &mut shelf, name)?;
        assert_eq!(rt;
            log.as_slice(),
            want.as_bytes(),
            "{name} by {piece}, {fails:?} fail"
        );
    }
    for (name, want) in [("a", "3abc2de0000"), ("b", "000000"), ("c", "!")] {
        let mut shelf = SureShelf::new(alloc, files(alloc)?);
        let log = told(alloc, &mut shelf, name)?;
        assert_eq!(rt; log.as_slice(), want.as_bytes(), "{name}");
    }
    Ok(())
}

// Puts three texts, and answers which of the puts were Ok.
fn puts<O: Sink>(sink: &mut O) -> [bool; 3] {
    [
        sink.put(b"abc").is_ok(),
        sink.put(b"defgh").is_ok(),
        sink.put(b"ij").is_ok(),
    ]
}

#[test]
fn a_sink_takes_what_fits_and_fails_as_planned(rt: HostRuntime) -> Result<(), Fail> {
    let alloc = rt.alloc();
    for (room, fails, want, written) in [
        (10, [(9, 0), (9, 0)], [true, true, true], "abcdefghij"),
        (9, [(9, 0), (9, 0)], [true, true, false], "abcdefghi"),
        (0, [(9, 0), (9, 0)], [false, false, false], ""),
        (10, [(1, 2), (1, 4)], [true, false, true], "abcdeij"),
        (10, [(1, 5), (0, 7)], [false, false, true], "abcdefghij"),
        (6, [(2, 1), (1, 5)], [true, false, false], "abcdef"),
    ] {
        let mut sink = MemSink::new(alloc, room, fails.to_vec(alloc)?)?;
        assert_eq!(rt; puts(&mut sink), want, "room {room}, {fails:?} fail");
        assert_eq!(rt;
            sink.bytes(),
            written.as_bytes(),
            "room {room}, {fails:?} fail"
        );
    }
    Ok(())
}
