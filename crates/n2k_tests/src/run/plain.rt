//! Worked examples of frames as plain lines.
use super::samples::{Outputs, TWO_SOURCES, empty_outputs, has_printed, has_summary, source};
use n2k_join::Counts;
use n2k_run::{MemorySink, MemorySource, RunFault, read_bytes, run_plain, run_plain_counted};
use std::alloc::{AllocError, Global};
use std::process::Abort;
use std::test::Fail;

const TWO_SOURCES_TEXT: &str = "1970-01-01T00:00:10.000Z,7,130820,5,255,8,00,0b,a3,99,01,41,42,43
1970-01-01T00:00:10.100Z,7,130820,6,255,8,20,0b,a3,99,02,58,59,20
1970-01-01T00:00:10.200Z,7,130820,6,255,8,21,20,20,20,20,20,ff,ff
1970-01-01T00:00:10.300Z,7,130820,5,255,8,01,00,00,00,00,00,ff,ff
";

struct Example {
    log: &'static str,
    text: &'static str,
    reports: &'static str,
    summary: &'static str,
}

const EXAMPLES: [Example; 6] = [
    // cog-and-sog
    Example {
        log: "(1502979132.106111) can0 09F8027F#00FCFFFF0000FFFF",
        text: "2017-08-17T14:12:12.106Z,2,129026,127,255,8,00,fc,ff,ff,00,00,ff,ff\n",
        reports: "",
        summary: "lines 1 messages 1 bad 0 unknown 0 broken 0 open 0\n",
    },
    // rate-of-turn, with a CR
    Example {
        log: "2011-11-24-22:42:04.388,2,127251,36,255,8,7d,0b,7d,02,00,ff,ff,ff\r\n",
        text: "2011-11-24-22:42:04.388,2,127251,36,255,8,7d,0b,7d,02,00,ff,ff,ff\n",
        reports: "",
        summary: "lines 1 messages 1 bad 0 unknown 0 broken 0 open 0\n",
    },
    // unknown-pgn
    Example {
        log: "(1.0) can0 18EAFF01#14F001\n",
        text: "1970-01-01T00:00:01.000Z,6,59904,1,255,3,14,f0,01\n",
        reports: "",
        summary: "lines 1 messages 1 bad 0 unknown 0 broken 0 open 0\n",
    },
    // empty-log
    Example {
        log: "",
        text: "",
        reports: "",
        summary: "lines 0 messages 0 bad 0 unknown 0 broken 0 open 0\n",
    },
    // candump-forms
    Example {
        log: "(1.0)  can0  09f8027f#00fcffff0000ffff R
(1.0) can0 09F8027F#00FCFFFF0000FFFF_9
(1.0) can0 123#00
(1.0) can0 09F8027F#R8
(1.0) can0 09F8027F##100
(1.0) can0 20000080#0000000000000000
# note

(253402300799.999999999) can0 18EAFF01#
(253402300800.0) can0 18EAFF01#
",
        text: "1970-01-01T00:00:01.000Z,2,129026,127,255,8,00,fc,ff,ff,00,00,ff,ff
1970-01-01T00:00:01.000Z,2,129026,127,255,8,00,fc,ff,ff,00,00,ff,ff
9999-12-31T23:59:59.999Z,6,59904,1,255,0
",
        reports: "line 10 bad B2 stamp\n",
        summary: "lines 10 messages 3 bad 1 unknown 0 broken 0 open 0\n",
    },
    // two-sources
    Example {
        log: TWO_SOURCES,
        text: TWO_SOURCES_TEXT,
        reports: "",
        summary: "lines 4 messages 4 bad 0 unknown 0 broken 0 open 0\n",
    },
];

// Writes the plain lines of a log that arrives in chunks, and returns the counts.
fn write_plain(
    alloc: Global,
    log: &[u8],
    piece: usize,
    to: &mut Outputs,
) -> Result<Counts, RunFault> {
    let mut log = source(log, piece);
    run_plain(alloc, &mut log, &mut to.text, &mut to.reports)
}

fn prints<R: Abort + AllocGlobal>(rt: &R, example: &Example, piece: usize) -> Result<(), Fail> {
    let mut outputs = empty_outputs(rt.alloc(), piece);
    let counts = write_plain(rt.alloc(), example.log.as_bytes(), piece, &mut outputs)?;
    has_printed(rt, &outputs, example.text, example.reports);
    has_summary(rt, &counts, example.summary)
}

#[test]
fn worked_examples_in_pieces_of_1_of_7_and_all_bytes(rt: HostRuntime) -> Result<(), Fail> {
    for example in &EXAMPLES {
        prints(&rt, example, 1)?;
        prints(&rt, example, 7)?;
        prints(&rt, example, 100_000)?;
    }
    Ok(())
}

const PIECES: [usize; 5] = [1, 7, 4095, 4096, 100_000];

fn reports_in<R: Abort + AllocGlobal>(
    rt: &R,
    log: &[u8],
    piece: usize,
    text: &str,
    reports: &str,
    wanted: Counts,
) -> Result<(), Fail> {
    let mut outputs = empty_outputs(rt.alloc(), 100);
    let counts = write_plain(rt.alloc(), log, piece, &mut outputs)?;
    has_printed(rt, &outputs, text, reports);
    assert_eq!(rt; counts, wanted);
    Ok(())
}

// A log gives this text, these reports and these counts, whatever chunks it arrives in.
fn reports_in_pieces<R: Abort + AllocGlobal>(
    rt: &R,
    log: &[u8],
    text: &str,
    reports: &str,
    wanted: Counts,
) -> Result<(), Fail> {
    for piece in &PIECES {
        reports_in(rt, log, *piece, text, reports, wanted)?;
    }
    Ok(())
}

// A number of x's, and the bytes after them.
const LONG_LINES: [(usize, &[u8]); 5] = [
    (2048, b"\r\n"),
    (2048, b"x\n"),
    (2048, b"\r\r\n#"),
    (2047, b"\n#"),
    (2048, b"\n\r"),
];

const LONG_REPORTS: &str = "line 1 bad B2 stamp
line 2 bad B1 long
line 3 bad B1 long
line 5 bad B1 long
";

fn push_long(alloc: Global, count: usize, end: &[u8], log: &mut Vec<u8>) -> Result<(), AllocError> {
    let long = vec![in alloc; b'x'; count]?;
    log.extend_from_slice(&long)?;
    log.extend_from_slice(end)
}

#[test]
fn long_lines(rt: HostRuntime) -> Result<(), Fail> {
    let mut log = Vec::new(rt.alloc());
    for (count, end) in &LONG_LINES {
        push_long(rt.alloc(), *count, end, &mut log)?;
    }
    let counts = Counts {
        lines: 6,
        bad: 4,
        ..Counts::NONE
    };
    reports_in_pieces(&rt, &log, "", LONG_REPORTS, counts)
}

const TEN_LINES: &str = "
(10.1) can0 1DFF0405#010
(10.2) can0 40000000#00
2011-11-24-22:42:04.388,2,127251,36,255,3,7d,0b
(10.3) can0 1DFF0405#
(10.4) can0 1DFF0405#010000000000FFFF
(10) can0 1DFF0405#00
x,8,127251,36,255,0
hello
";

const TEN_TEXT: &str = "1970-01-01T00:00:10.000Z,7,130820,5,255,8,00,0b,a3,99,01,41,42,43
1970-01-01T00:00:10.300Z,7,130820,5,255,0
1970-01-01T00:00:10.400Z,7,130820,5,255,8,01,00,00,00,00,00,ff,ff
";

const TEN_REPORTS: &str = "line 2 bad B1 long
line 3 bad B6 data
line 4 bad B4 identifier
line 5 bad B6 data
line 8 bad B2 stamp
line 9 bad B5 number
line 10 bad B3 form
";

// A frame's line, and x's at the start of the other lines.
fn ten_lines(alloc: Global) -> Result<Vec<u8>, AllocError> {
    let mut log = Vec::new(alloc);
    log.extend_from_slice(b"(10.0) can0 1DFF0405#000BA39901414243\n")?;
    push_long(alloc, 2049, TEN_LINES.as_bytes(), &mut log)?;
    Ok(log)
}

#[test]
fn ten_lines_of_which_seven_are_bad(rt: HostRuntime) -> Result<(), Fail> {
    let log = ten_lines(rt.alloc())?;
    let counts = Counts {
        lines: 10,
        messages: 3,
        bad: 7,
        ..Counts::NONE
    };
    reports_in_pieces(&rt, &log, TEN_TEXT, TEN_REPORTS, counts)
}

// The text of a block is written before the next block is read: if the first write fails, only the first block has been
// read.
#[test]
fn a_block_is_written_before_the_next_is_read(rt: HostRuntime) -> Result<(), Fail> {
    let mut reader = MemorySource::new(TWO_SOURCES.as_bytes(), 60, 0);
    let mut writer = MemorySink::new(rt.alloc(), 100, 1);
    let mut reports = MemorySink::new(rt.alloc(), 100, 0);
    let answer = run_plain(rt.alloc(), &mut reader, &mut writer, &mut reports);
    assert_eq!(rt; answer, Err(RunFault::Write));
    let left = read_bytes(rt.alloc(), &mut reader, 1000)?;
    assert_eq!(rt; Some(left.as_slice()), TWO_SOURCES.as_bytes().get(60..));
    Ok(())
}

// The counts before a failed read include the printed lines, and no incomplete line.
#[test]
fn counts_of_a_log_that_fails(rt: HostRuntime) {
    let mut reader = MemorySource::new(TWO_SOURCES.as_bytes(), 60, 3);
    let mut outputs = empty_outputs(rt.alloc(), 100);
    let mut counts = Counts::NONE;
    let answer = run_plain_counted(
        rt.alloc(),
        &mut counts,
        &mut reader,
        &mut outputs.text,
        &mut outputs.reports,
    );
    assert_eq!(rt; answer, Err(RunFault::Read));
    assert_eq!(rt; (counts.lines, counts.messages, counts.bad), (2, 2, 0));
    // Each line has 66 bytes.
    let two = TWO_SOURCES_TEXT.as_bytes().get(..132);
    assert_eq!(rt; Some(outputs.text.bytes()), two);
}

// `tests/faults/refused-growth` refuses each growth of the run in turn: the result is the same as with ample memory or
// a refusal, and the written bytes are a prefix.
#[test]
fn refused_memory_leaves_a_prefix(rt: HostRuntime) {
    let mut outputs = empty_outputs(rt.alloc(), 10);
    match write_plain(rt.alloc(), TWO_SOURCES.as_bytes(), 60, &mut outputs) {
        Ok(counts) => {
            assert_eq!(rt; counts.messages, 4);
            assert_eq!(rt; outputs.text.bytes(), TWO_SOURCES_TEXT.as_bytes());
        }
        Err(fault) => {
            assert!(rt; fault == RunFault::Memory || fault == RunFault::Write);
            assert!(rt;
                TWO_SOURCES_TEXT
                    .as_bytes()
                    .starts_with(outputs.text.bytes())
            );
        }
    }
}
