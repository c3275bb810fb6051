//! Examples of `n2k_run`.
use n2k_join::{Broken, Counts, Join, Window};
use n2k_run::{
    Blocks, BytesFault, Failed, MemorySink, MemorySource, Next, Options, RunRoom, Sink, Source,
    StdSink, StdSource, bad_text, broken_text, read_bytes, run, run_counted, run_frames,
    run_frames_counted, run_more, run_part, run_parts, run_plain, run_plain_counted, summary_text,
    write_all, write_summary,
};
use n2k_table_tests::samples::sample as sample_table;
use n2k_wire::{BadCause, Packing, is_interface};
use std::test::Fail;

// The program's default options.
fn usual_options() -> Options {
    Options {
        packing: Packing::Frames,
        empty: false,
        window: Window::new(10_000).unwrap(),
    }
}

// front page
#[test]
fn front_page(rt: HostRuntime) -> Result<(), Fail> {
    let alloc = rt.alloc();
    let table = sample_table(alloc)?;
    let options = Options {
        packing: Packing::Frames,
        empty: false,
        window: Window::new(10_000).unwrap(),
    };
    let mut log = StdSource::new("(1.0) can0 09F8027F#00FCFFFF0000FFFF\n".as_bytes());
    let mut out = MemorySink::new(alloc, 4096, 0);
    let mut err = MemorySink::new(alloc, 4096, 0);
    let part = run_part(alloc, &table, None, options, &mut log, &mut out, &mut err)?;
    assert_eq!(rt; part.counts.messages, 1);
    let end = "\"fields\":{\"SID\":0,\"COG Reference\":\"True\",\"SOG\":0.00}}\n";
    assert!(rt; out.bytes().ends_with(end.as_bytes()));
    Ok(())
}

// run_part
#[test]
fn parts(rt: HostRuntime) -> Result<(), Fail> {
    let alloc = rt.alloc();
    let (table, options) = (sample_table(alloc)?, usual_options());
    let mut out = MemorySink::new(alloc, 4096, 0);
    let mut err = MemorySink::new(alloc, 4096, 0);
    let mut log = StdSource::new("(11.0) can0 1DFF0405#4120202020202020\n".as_bytes());
    let part = run_part(alloc, &table, None, options, &mut log, &mut out, &mut err)?;
    assert_eq!(rt; (part.counts.messages, part.counts.held), (0, 1));
    let mut log = StdSource::new("(12.0) can0 1DFF0405#400DA39903444546\n".as_bytes());
    let saved = Some(part.state.as_slice());
    let part = run_part(alloc, &table, saved, options, &mut log, &mut out, &mut err)?;
    assert_eq!(rt; (part.counts.messages, part.counts.held), (1, 0));
    Ok(())
}

// run_more
#[test]
fn more(rt: HostRuntime) -> Result<(), Fail> {
    let alloc = rt.alloc();
    let (table, options) = (sample_table(alloc)?, usual_options());
    let mut join = Join::new(alloc, &table, options.window);
    let mut out = MemorySink::new(alloc, 4096, 0);
    let mut err = MemorySink::new(alloc, 4096, 0);
    let mut room = RunRoom::new(alloc);
    let monday = "(11.0) can0 1DFF0405#4120202020202020\n".as_bytes();
    run_more(
        alloc, &table, &mut join, options, monday, &mut room, &mut out, &mut err,
    )?;
    let tuesday = "(12.0) can0 1DFF0405#400DA39903444546\n".as_bytes();
    run_more(
        alloc, &table, &mut join, options, tuesday, &mut room, &mut out, &mut err,
    )?;
    assert_eq!(rt; (join.counts().lines, join.counts().messages), (2, 1));
    Ok(())
}

// RunRoom::new
#[test]
fn room(rt: HostRuntime) -> Result<(), Fail> {
    let alloc = rt.alloc();
    let (table, options) = (sample_table(alloc)?, usual_options());
    let mut join = Join::new(alloc, &table, options.window);
    let mut out = MemorySink::new(alloc, 4096, 0);
    let mut err = MemorySink::new(alloc, 4096, 0);
    let log = "(11.0) can0 1DFF0405#4120202020202020\n".as_bytes();
    let mut room = RunRoom::new(alloc);
    run_more(
        alloc, &table, &mut join, options, log, &mut room, &mut out, &mut err,
    )?;
    assert_eq!(rt; join.counts().lines, 1);
    Ok(())
}

// run_parts
#[test]
fn parts_in_memory(rt: HostRuntime) -> Result<(), Fail> {
    let alloc = rt.alloc();
    let (table, options) = (sample_table(alloc)?, usual_options());
    let mut out = MemorySink::new(alloc, 4096, 0);
    let mut err = MemorySink::new(alloc, 4096, 0);
    let monday = "(11.0) can0 1DFF0405#4120202020202020\n".as_bytes();
    let tuesday = "(12.0) can0 1DFF0405#400DA39903444546\n".as_bytes();
    let parts = [monday, tuesday];
    let part = run_parts(alloc, &table, options, &parts, &mut out, &mut err)?;
    assert_eq!(rt; (part.counts.lines, part.counts.messages), (2, 1));
    Ok(())
}

// run
#[test]
fn runs(rt: HostRuntime) -> Result<(), Fail> {
    let alloc = rt.alloc();
    let (table, options) = (sample_table(alloc)?, usual_options());
    let mut join = Join::new(alloc, &table, options.window);
    let mut log = StdSource::new("(1.0) can0 09F8027F#0500\nhello\n".as_bytes());
    let mut out = MemorySink::new(alloc, 4096, 0);
    let mut err = MemorySink::new(alloc, 4096, 0);
    run(
        alloc, &table, &mut join, options, &mut log, &mut out, &mut err,
    )?;
    assert_eq!(rt; (join.counts().messages, join.counts().bad), (1, 1));
    assert_eq!(rt; err.bytes(), "line 2 bad B3 form\n".as_bytes());
    Ok(())
}

// run_plain
#[test]
fn plain_runs(rt: HostRuntime) -> Result<(), Fail> {
    let alloc = rt.alloc();
    let mut log = StdSource::new("(1.0) can0 18EAFF01#14F001\n".as_bytes());
    let mut out = MemorySink::new(alloc, 4096, 0);
    let mut err = MemorySink::new(alloc, 4096, 0);
    let counts = run_plain(alloc, &mut log, &mut out, &mut err)?;
    assert_eq!(rt; counts.messages, 1);
    let line = "1970-01-01T00:00:01.000Z,6,59904,1,255,3,14,f0,01\n";
    assert_eq!(rt; out.bytes(), line.as_bytes());
    Ok(())
}

// run_frames
#[test]
fn runs_that_send(rt: HostRuntime) -> Result<(), Fail> {
    let alloc = rt.alloc();
    let table = sample_table(alloc)?;
    let line = "1970-01-01T00:00:10.300Z,7,130820,5,255,11,a3,99,01,41,42,43,00,00,00,00,00";
    let mut log = StdSource::new(line.as_bytes());
    let mut out = MemorySink::new(alloc, 4096, 0);
    let mut err = MemorySink::new(alloc, 4096, 0);
    assert!(rt; is_interface(b"can0"));
    run_frames(alloc, &table, Some("can0"), &mut log, &mut out, &mut err)?;
    let sent = "(0000000010.300000) can0 1DFF0405#000BA39901414243\n\
        (0000000010.300000) can0 1DFF0405#010000000000FFFF\n";
    assert_eq!(rt; out.bytes(), sent.as_bytes());
    Ok(())
}

// run_counted
#[test]
fn runs_without_a_state(rt: HostRuntime) -> Result<(), Fail> {
    let alloc = rt.alloc();
    let (table, options) = (sample_table(alloc)?, usual_options());
    let mut sum = Counts::NONE;
    let mut log = StdSource::new("(1.0) can0 09F8027F#0500\nhello\n".as_bytes());
    let mut out = MemorySink::new(alloc, 4096, 0);
    let mut err = MemorySink::new(alloc, 4096, 0);
    run_counted(
        alloc, &table, options, &mut sum, &mut log, &mut out, &mut err,
    )?;
    assert_eq!(rt; (sum.messages, sum.bad), (1, 1));
    Ok(())
}

// run_plain_counted
#[test]
fn runs_that_are_counted(rt: HostRuntime) -> Result<(), Fail> {
    let alloc = rt.alloc();
    let mut log = StdSource::new("(1.0) can0 18EAFF01#14F001\n".as_bytes());
    let mut out = MemorySink::new(alloc, 4096, 0);
    let mut err = MemorySink::new(alloc, 4096, 0);
    let mut counts = Counts::NONE;
    run_plain_counted(alloc, &mut counts, &mut log, &mut out, &mut err)?;
    assert_eq!(rt; counts.messages, 1);
    let line = "1970-01-01T00:00:01.000Z,6,59904,1,255,3,14,f0,01\n";
    assert_eq!(rt; out.bytes(), line.as_bytes());
    Ok(())
}

// run_frames_counted
#[test]
fn runs_that_send_and_are_counted(rt: HostRuntime) -> Result<(), Fail> {
    let alloc = rt.alloc();
    let table = sample_table(alloc)?;
    let line = "1970-01-01T00:00:10.300Z,7,130820,5,255,11,a3,99,01,41,42,43,00,00,00,00,00";
    let mut log = StdSource::new(line.as_bytes());
    let mut out = MemorySink::new(alloc, 4096, 0);
    let mut err = MemorySink::new(alloc, 4096, 0);
    assert!(rt; is_interface(b"can0"));
    let (name, mut counts) = (Some("can0"), Counts::NONE);
    run_frames_counted(
        alloc,
        &table,
        name,
        &mut counts,
        &mut log,
        &mut out,
        &mut err,
    )?;
    let sent = "(0000000010.300000) can0 1DFF0405#000BA39901414243\n\
        (0000000010.300000) can0 1DFF0405#010000000000FFFF\n";
    assert_eq!(rt; out.bytes(), sent.as_bytes());
    Ok(())
}

// read_bytes
#[test]
fn whole_reads(rt: HostRuntime) -> Result<(), Fail> {
    let alloc = rt.alloc();
    let mut source = MemorySource::new(b"abc", 1, 0);
    let bytes = read_bytes(alloc, &mut source, 3)?;
    assert_eq!(rt; bytes.as_slice(), b"abc".as_slice());
    let mut source = MemorySource::new(b"abc", 1, 0);
    let refused = read_bytes(alloc, &mut source, 2);
    assert!(rt; matches!(refused, Err(BytesFault::TooLong)));
    Ok(())
}

// MemorySink::bytes, write_all
#[test]
fn whole_writes(rt: HostRuntime) {
    let alloc = rt.alloc();
    let mut sink = MemorySink::new(alloc, 1, 0);
    assert_eq!(rt; write_all(&mut sink, b"abc"), Ok(()));
    assert_eq!(rt; sink.bytes(), b"abc".as_slice());
}

// bad_text
#[test]
fn reports_of_bad_lines(rt: HostRuntime) -> Result<(), Fail> {
    let alloc = rt.alloc();
    let mut text = Vec::new(alloc);
    bad_text(alloc, 3, BadCause::Data, &mut text)?;
    assert_eq!(rt; text.as_slice(), "line 3 bad B6 data\n".as_bytes());
    Ok(())
}

// broken_text
#[test]
fn reports_of_broken_groups(rt: HostRuntime) -> Result<(), Fail> {
    let alloc = rt.alloc();
    let group = Broken {
        pgn: 130820,
        src: 5,
        dst: 255,
        seq: 3,
        first: 1,
    };
    let mut text = Vec::new(alloc);
    broken_text(alloc, 3, &group, &mut text)?;
    let report = "line 3 broken pgn 130820 src 5 dst 255 seq 3 first 1\n";
    assert_eq!(rt; text.as_slice(), report.as_bytes());
    Ok(())
}

// summary_text
#[test]
fn summaries(rt: HostRuntime) -> Result<(), Fail> {
    let alloc = rt.alloc();
    let mut text = Vec::new(alloc);
    summary_text(alloc, &Counts::NONE, &mut text)?;
    let summary = "lines 0 messages 0 bad 0 unknown 0 broken 0 open 0\n";
    assert_eq!(rt; text.as_slice(), summary.as_bytes());
    Ok(())
}

// write_summary
#[test]
fn summaries_written(rt: HostRuntime) {
    let alloc = rt.alloc();
    let mut err = MemorySink::new(alloc, 4096, 0);
    assert_eq!(rt; write_summary(&Counts::NONE, &mut err), Ok(()));
    let summary = "lines 0 messages 0 bad 0 unknown 0 broken 0 open 0\n";
    assert_eq!(rt; err.bytes(), summary.as_bytes());
}

// Blocks::next_line, Blocks::new
#[test]
fn blocks(rt: HostRuntime) {
    let mut source = StdSource::new("one\r\ntwo".as_bytes());
    let mut blocks = Blocks::new();
    let next = blocks.next_line(&mut source);
    assert!(rt; matches!(next, Ok(Next::Line(line)) if line == b"one".as_slice()));
    let next = blocks.next_line(&mut source);
    assert!(rt; matches!(next, Ok(Next::Line(line)) if line == b"two".as_slice()));
    assert!(rt; matches!(blocks.next_line(&mut source), Ok(Next::End)));
}

// Source::read, MemorySource::new, StdSource::new, StdSource::failure
#[test]
fn sources(rt: HostRuntime) {
    let mut source = MemorySource::new(b"abcde", 3, 2);
    let mut buffer = [0; 8];
    assert_eq!(rt; source.read(&mut buffer), Ok(3));
    assert!(rt; buffer.starts_with(b"abc"));
    assert_eq!(rt; source.read(&mut buffer), Err(Failed));
    assert_eq!(rt; source.read(&mut buffer), Ok(2));
    assert_eq!(rt; source.read(&mut buffer), Ok(0));

    let mut source = StdSource::new("abc".as_bytes());
    let mut buffer = [0; 8];
    assert_eq!(rt; source.read(&mut buffer), Ok(3));
    assert_eq!(rt; source.read(&mut buffer), Ok(0));

    let mut source = StdSource::new("abc".as_bytes());
    assert_eq!(rt; source.read(&mut [0; 8]), Ok(3));
    assert!(rt; source.failure().is_none());
}

// Sink::write, MemorySink::new, MemorySink::clear, StdSink::new, StdSink::failure
#[test]
fn sinks(rt: HostRuntime) {
    let alloc = rt.alloc();
    let mut sink = MemorySink::new(alloc, 3, 2);
    assert_eq!(rt; sink.write(b"abcde"), Ok(3));
    assert_eq!(rt; sink.write(b"de"), Err(Failed));
    assert_eq!(rt; sink.write(b"de"), Ok(2));
    assert_eq!(rt; sink.bytes(), b"abcde".as_slice());

    let mut sink = MemorySink::new(alloc, 4, 0);
    assert_eq!(rt; sink.write(b"abc"), Ok(3));
    sink.clear();
    assert_eq!(rt; sink.bytes(), b"".as_slice());
    assert_eq!(rt; sink.write(b"de"), Ok(2));
    assert_eq!(rt; sink.bytes(), b"de".as_slice());

    let mut text = Vec::new(alloc);
    let mut sink = StdSink::new(&mut text);
    assert_eq!(rt; sink.write(b"abc"), Ok(3));
    drop(sink);
    assert_eq!(rt; text.as_slice(), b"abc".as_slice());

    let mut sink = StdSink::new(Vec::new(alloc));
    assert_eq!(rt; sink.write(b"abc"), Ok(3));
    assert!(rt; sink.failure().is_none());
}
