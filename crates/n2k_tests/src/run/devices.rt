//! Devices in memory, and the calls that read and write them whole.
ghost use Rattle.std.specs.Prelude.{◌<◌};

use n2k_run::{Blocks, BytesFault, Failed, MemorySink, MemorySource, Next, read_bytes, write_all};
use std::alloc::{AllocError, Global};
use std::process::Abort;
use std::test::Fail;

const TEXT: &[u8] = b"0123456789abcdef";

fn moved_in_pieces<R: Abort + AllocGlobal>(rt: &R, piece: usize) -> Result<(), Fail>
    requires { 0 < piece }
{
    let mut source = MemorySource::new(TEXT, piece, 0);
    let bytes = read_bytes(rt.alloc(), &mut source, 16)?;
    assert_eq!(rt; bytes.as_slice(), TEXT);

    let mut sink = MemorySink::new(rt.alloc(), piece, 0);
    assert_eq!(rt; write_all(&mut sink, &bytes), Ok(()));
    assert_eq!(rt; sink.bytes(), TEXT);
    Ok(())
}

#[test]
fn pieces_of_1_of_7_and_all_bytes(rt: HostRuntime) -> Result<(), Fail> {
    moved_in_pieces(&rt, 1)?;
    moved_in_pieces(&rt, 7)?;
    moved_in_pieces(&rt, 100)
}

#[test]
fn bytes_up_to_a_limit(rt: HostRuntime) -> Result<(), Fail> {
    let mut short = MemorySource::new(b"abc", 100, 0);
    let taken = read_bytes(rt.alloc(), &mut short, 3)?;
    assert_eq!(rt; taken.as_slice(), b"abc".as_slice());
    Ok(())
}

// The read requests one byte more than the limit.
#[test]
fn past_a_limit_of_bytes(rt: HostRuntime) -> Result<(), Fail> {
    let mut long = MemorySource::new(b"abcabc", 100, 0);
    let refused = read_bytes(rt.alloc(), &mut long, 2);
    assert!(rt; matches!(refused, Err(BytesFault::TooLong)));
    let refused = read_bytes(rt.alloc(), &mut MemorySource::new(b"abc", 100, 0), 2);
    assert!(rt; matches!(refused, Err(BytesFault::TooLong)));
    let rest = read_bytes(rt.alloc(), &mut long, 3)?;
    assert_eq!(rt; rest.as_slice(), b"abc".as_slice());
    Ok(())
}

#[test]
fn a_write_fails_and_the_next_goes_on(rt: HostRuntime) -> Result<(), Fail> {
    let mut sink = MemorySink::new(rt.alloc(), 5, 3);
    assert_eq!(rt; write_all(&mut sink, TEXT), Err(Failed));
    assert_eq!(rt; sink.bytes(), b"0123456789".as_slice());
    assert_eq!(rt; write_all(&mut sink, b"!"), Ok(()));
    assert_eq!(rt; sink.bytes(), b"0123456789!".as_slice());
    Ok(())
}

// The next line of a log: its length, or 10,000 for a long line, 20,000 for the end, 30,000 for a failed read.
fn next_length(blocks: &mut Blocks, source: &mut MemorySource) -> usize {
    match blocks.next_line(source) {
        Ok(Next::Line(line)) => line.len(),
        Ok(Next::Long) => 10_000,
        Ok(Next::End) => 20_000,
        Err(Failed) => 30_000,
    }
}

// Short lines before and after a long line.
fn long_between(alloc: Global) -> Result<Vec<u8>, AllocError> {
    let mut log = Vec::new(alloc);
    log.extend_from_slice(b"ab\r\r\n\n")?;
    log.extend_from_slice(&vec![in alloc; b'x'; 9000]?)?;
    log.extend_from_slice(b"\nabc\n\r")?;
    Ok(log)
}

const LENGTHS: [usize; 8] = [3, 0, 30_000, 10_000, 3, 0, 20_000, 20_000];

#[test]
fn a_failed_read_loses_no_line(rt: HostRuntime) -> Result<(), Fail> {
    let log = long_between(rt.alloc())?;
    // The third read fails first, in the middle of the long line.
    let mut source = MemorySource::new(&log, 3000, 3);
    let mut blocks = Blocks::new();
    for wanted in &LENGTHS {
        assert_eq!(rt; next_length(&mut blocks, &mut source), *wanted);
    }
    Ok(())
}
