//! Devices over the readers and writers of the standard library.
use n2k_run::{Blocks, Failed, Sink, StdSink, StdSource, read_bytes, write_all};
use std::alloc::{AllocError, Global};
use std::io;
use std::io::{ErrorKind, Read, Write};
use std::test::Fail;

// A device whose first call is interrupted by a signal; the next call gives a dot, or accepts nothing.
#[derive(Drop)]
struct Interrupted {
    calls: u32,
}

impl Read for Interrupted {
    fn read(&mut self, buffer: &mut [u8]) -> io::Result<usize> {
        self.calls = self.calls.saturating_add(1);
        if self.calls == 1 {
            return Err(io::Error::new(ErrorKind::Interrupted, "a signal"));
        }
        if self.calls == 2 && !buffer.is_empty() {
            buffer[0] = b'.';
            return Ok(1);
        }
        Ok(0)
    }
}

impl Write for Interrupted {
    fn write(&mut self, _piece: &[u8]) -> io::Result<usize> {
        self.calls = self.calls.saturating_add(1);
        if self.calls == 1 {
            return Err(io::Error::new(ErrorKind::Interrupted, "a signal"));
        }
        Ok(0)
    }

    fn flush(&mut self) -> io::Result<()> {
        Ok(())
    }
}

#[test]
fn an_interrupted_read_is_made_again(rt: HostRuntime) -> Result<(), Fail> {
    let mut source = StdSource::new(Interrupted { calls: 0 });
    let bytes = read_bytes(rt.alloc(), &mut source, 16)?;
    assert_eq!(rt; bytes.as_slice(), b".".as_slice());
    Ok(())
}

#[test]
fn a_write_that_takes_nothing_fails(rt: HostRuntime) {
    let mut sink = StdSink::new(Interrupted { calls: 0 });
    assert_eq!(rt; sink.write(b"."), Err(Failed));
    let why = sink.failure().map(|error| error.kind());
    assert_eq!(rt; why, Some(ErrorKind::WriteZero));
}

// The number of bytes; byte n is n modulo 251.
const COUNT: usize = 45_000;

fn numbered(alloc: Global) -> Result<Vec<u8>, AllocError> {
    let mut bytes = vec![in alloc; 0u8; COUNT]?;
    let mut next = 0u8;
    for byte in bytes.iter_mut() {
        *byte = next;
        next = if next < 250 {
            next.saturating_add(1)
        } else {
            0
        };
    }
    Ok(bytes)
}

// How many bytes call number `calls` moves: 1 to 7 in turn.
fn piece_of(calls: usize) -> usize {
    (calls % 7).saturating_add(1)
}

// A reader that gives few bytes a call.
#[derive(Drop)]
struct FewRead<'a> {
    left: &'a [u8],
    calls: usize,
}

impl<'a> Read for FewRead<'a> {
    fn read(&mut self, buffer: &mut [u8]) -> io::Result<usize> {
        let count = piece_of(self.calls).min(buffer.len());
        self.calls = self.calls.saturating_add(1);
        self.left.read(&mut buffer[..count])
    }
}

// A writer that accepts few bytes a call, and records whether a call received less than all remaining bytes.
#[derive(Drop)]
struct FewWritten {
    held: Vec<u8>,
    calls: usize,
    was_cut: bool,
}

impl Write for FewWritten {
    fn write(&mut self, piece: &[u8]) -> io::Result<usize> {
        let count = piece_of(self.calls).min(piece.len());
        self.calls = self.calls.saturating_add(1);
        if piece.len() != COUNT.saturating_sub(self.held.len()) {
            self.was_cut = true;
        }
        self.held.write(&piece[..count])
    }

    fn flush(&mut self) -> io::Result<()> {
        Ok(())
    }
}

// std's contract of a reader does not cover a device that fails at a chosen call.
#[test]
fn ten_thousand_reads(rt: HostRuntime) -> Result<(), Fail> {
    let wanted = numbered(rt.alloc())?;
    let mut reader = FewRead {
        left: &wanted,
        calls: 0,
    };
    let mut source = StdSource::new(&mut reader);
    let bytes = read_bytes(rt.alloc(), &mut source, COUNT)?;
    drop(source);
    assert!(rt; bytes.as_slice() == wanted.as_slice());
    // Seven calls give 28 bytes, and one more call finds the end.
    assert_eq!(rt; reader.calls, 11_253);
    Ok(())
}

#[test]
fn ten_thousand_writes(rt: HostRuntime) -> Result<(), Fail> {
    let wanted = numbered(rt.alloc())?;
    let mut writer = FewWritten {
        held: Vec::new(rt.alloc()),
        calls: 0,
        was_cut: false,
    };
    let mut sink = StdSink::new(&mut writer);
    assert_eq!(rt; write_all(&mut sink, &wanted), Ok(()));
    drop(sink);
    assert!(rt; writer.held.as_slice() == wanted.as_slice());
    assert_eq!(rt; writer.calls, 11_252);
    assert!(rt; !writer.was_cut);
    Ok(())
}

// A reader that gives at most 1,050 bytes a call, and records how many bytes each call requests.
#[derive(Drop)]
struct Noting<'a> {
    left: &'a [u8],
    asked: Vec<usize>,
}

impl<'a> Read for Noting<'a> {
    fn read(&mut self, buffer: &mut [u8]) -> io::Result<usize> {
        if self.asked.push(buffer.len()).is_err() {
            return Err(io::Error::new(ErrorKind::OutOfMemory, "a growth"));
        }
        let count = buffer.len().min(1050);
        self.left.read(&mut buffer[..count])
    }
}

// The number of lines of 100 bytes; one of 9,001 bytes follows.
const SHORT_LINES: usize = 42;

fn short_lines_and_a_long_one(alloc: Global) -> Result<Vec<u8>, AllocError> {
    let mut log = Vec::new(alloc);
    let line = [b'x'; 99];
    for _ in 0..SHORT_LINES {
        log.extend_from_slice(&line)?;
        log.push(b'\n')?;
    }
    log.extend_from_slice(&vec![in alloc; b'x'; 9000]?)?;
    log.push(b'\n')?;
    Ok(log)
}

// The space in the block after the bytes that are kept: half a line, or the start of the long line. Once the long line
// fills the block its bytes are dropped, and each call requests the whole block.
const ASKED: [usize; 14] = [
    4096, 4046, 4096, 4046, 4096, 3046, 1996, 946, 4096, 4096, 4096, 4096, 4096, 4096,
];

// No contract limits how much a read requests: a source's definitions do not contain the requested size.
#[test]
fn each_read_asks_for_the_rest_of_the_block(rt: HostRuntime) -> Result<(), Fail> {
    let log = short_lines_and_a_long_one(rt.alloc())?;
    let mut reader = Noting {
        left: &log,
        asked: Vec::new(rt.alloc()),
    };
    let mut source = StdSource::new(&mut reader);
    let mut blocks = Blocks::new();
    // The long line and the end are entries too.
    for _ in 0..SHORT_LINES + 2 {
        assert!(rt; blocks.next_line(&mut source).is_ok());
    }
    drop(source);
    assert_eq!(rt; reader.asked.as_slice(), ASKED.as_slice());
    Ok(())
}
