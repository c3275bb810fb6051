//! Worked examples of logs that are decoded.
use super::samples::{
    Outputs, REPEAT_BREAKS, REPEAT_BREAKS_REPORT, REPEAT_BREAKS_TEXT, TWO_SOURCES,
    TWO_SOURCES_TEXT, decode, empty_outputs, frames, has_printed, has_summary,
};
use n2k_join_tests::samples::{long_window, shortest_window};
use n2k_run::Options;
use n2k_table::Table;
use n2k_table_tests::samples::{pairs_table, sample};
use n2k_wire::Packing;
use serde_json::Value;
use std::alloc::{AllocError, Global};
use std::process::Abort;
use std::test::Fail;

#[derive(Drop)]
struct Example {
    log: &'static str,
    text: &'static str,
    reports: &'static str,
    summary: &'static str,
}

const EXAMPLES: [Example; 10] = [
    // empty-log
    Example {
        log: "",
        text: "",
        reports: "",
        summary: "lines 0 messages 0 bad 0 unknown 0 broken 0 open 0\n",
    },
    // two-sources
    Example {
        log: TWO_SOURCES,
        text: TWO_SOURCES_TEXT,
        reports: "",
        summary: "lines 4 messages 2 bad 0 unknown 0 broken 0 open 0\n",
    },
    // repeat-breaks
    Example {
        log: REPEAT_BREAKS,
        text: REPEAT_BREAKS_TEXT,
        reports: REPEAT_BREAKS_REPORT,
        summary: "lines 5 messages 1 bad 0 unknown 0 broken 1 open 0\n",
    },
    // frames-in-reverse
    Example {
        log: "(11.0) can0 1DFF0405#4120202020202020
(12.0) can0 1DFF0405#400DA39903444546
",
        text: "{\"timestamp\":\"1970-01-01T00:00:12.000Z\",\"prio\":7,\"src\":5,\"dst\":255,\"pgn\":130820,\"description\":\"Sample: Label\",\"fields\":{\"Maker\":419,\"Kind\":3,\"Label\":\"DEF\"}}
",
        reports: "",
        summary: "lines 2 messages 1 bad 0 unknown 0 broken 0 open 0\n",
    },
    // longest-message
    Example {
        log: "(1.0) can0 1DFF0405#00DFA399054A4B4C
(2.0) can0 1DFF0405#0120202020202020
(3.0) can0 1DFF0405#0220202020202020
(4.0) can0 1DFF0405#0320202020202020
(5.0) can0 1DFF0405#0420202020202020
(6.0) can0 1DFF0405#0520202020202020
(7.0) can0 1DFF0405#0620202020202020
(8.0) can0 1DFF0405#0720202020202020
(9.0) can0 1DFF0405#0820202020202020
(10.0) can0 1DFF0405#0920202020202020
(11.0) can0 1DFF0405#0A20202020202020
(12.0) can0 1DFF0405#0B20202020202020
(13.0) can0 1DFF0405#0C20202020202020
(14.0) can0 1DFF0405#0D20202020202020
(15.0) can0 1DFF0405#0E20202020202020
(16.0) can0 1DFF0405#0F20202020202020
(17.0) can0 1DFF0405#1020202020202020
(18.0) can0 1DFF0405#1120202020202020
(19.0) can0 1DFF0405#1220202020202020
(20.0) can0 1DFF0405#1320202020202020
(21.0) can0 1DFF0405#1420202020202020
(22.0) can0 1DFF0405#1520202020202020
(23.0) can0 1DFF0405#1620202020202020
(24.0) can0 1DFF0405#1720202020202020
(25.0) can0 1DFF0405#1820202020202020
(26.0) can0 1DFF0405#1920202020202020
(27.0) can0 1DFF0405#1A20202020202020
(28.0) can0 1DFF0405#1B20202020202020
(29.0) can0 1DFF0405#1C20202020202020
(30.0) can0 1DFF0405#1D20202020202020
(31.0) can0 1DFF0405#1E20202020202020
(32.0) can0 1DFF0405#1F20202020202020
(33.0) can0 1DFF0405#00E0A399054A4B4C
",
        text: "{\"timestamp\":\"1970-01-01T00:00:32.000Z\",\"prio\":7,\"src\":5,\"dst\":255,\"pgn\":130820,\"description\":\"Sample: Label\",\"fields\":{\"Maker\":419,\"Kind\":5,\"Label\":\"JKL\"}}
",
        reports: "line 33 bad B7 fast
",
        summary: "lines 33 messages 1 bad 1 unknown 0 broken 0 open 0\n",
    },
    // short-totals
    Example {
        log: "(1.0) can0 1DFF0405#000BA39901414243
(2.0) can0 1DFF0405#0006A39901414243
",
        text: "{\"timestamp\":\"1970-01-01T00:00:02.000Z\",\"prio\":7,\"src\":5,\"dst\":255,\"pgn\":130820,\"description\":\"Sample: Label\",\"fields\":{\"Maker\":419,\"Kind\":1}}
",
        reports: "line 2 broken pgn 130820 src 5 dst 255 seq 0 first 1
",
        summary: "lines 2 messages 1 bad 0 unknown 0 broken 1 open 0\n",
    },
    // extra-frame
    Example {
        log: "(1.0) can0 1DFF0405#800DA39906414243
(2.0) can0 1DFF0405#8320202020202020
(3.0) can0 1DFF0405#8120202020202020
(4.0) can0 1DFF0405#800DA39906414243
",
        text: "",
        reports: "line 4 broken pgn 130820 src 5 dst 255 seq 4 first 1
",
        summary: "lines 4 messages 0 bad 0 unknown 0 broken 1 open 1\n",
    },
    // whole-among-frames
    Example {
        log: "(10.000001) can0 1DFF0405#000BA39901414243
2020-01-01T00:00:00.000Z,7,130820,5,255,9,07,98,01,41,42,43,44,45,46
(10.300000) can0 1DFF0405#010000000000FFFF
",
        text: "{\"timestamp\":\"2020-01-01T00:00:00.000Z\",\"prio\":7,\"src\":5,\"dst\":255,\"pgn\":130820,\"description\":\"Unmatched\",\"fields\":{\"Data\":\"07 98 01 41 42 43 44 45 46\"}}
{\"timestamp\":\"1970-01-01T00:00:10.300Z\",\"prio\":7,\"src\":5,\"dst\":255,\"pgn\":130820,\"description\":\"Sample: Label\",\"fields\":{\"Maker\":419,\"Kind\":1,\"Label\":\"ABC\"}}
",
        reports: "",
        summary: "lines 3 messages 2 bad 0 unknown 0 broken 0 open 0\n",
    },
    // mixed-message
    Example {
        log: "(1.0) can0 1DFF0405#0141414141414141
(9.0) can0 1DFF0405#000DA39903444546
",
        text: "{\"timestamp\":\"1970-01-01T00:00:09.000Z\",\"prio\":7,\"src\":5,\"dst\":255,\"pgn\":130820,\"description\":\"Sample: Label\",\"fields\":{\"Maker\":419,\"Kind\":3,\"Label\":\"DEFAAAAA\"}}
",
        reports: "",
        summary: "lines 2 messages 1 bad 0 unknown 0 broken 0 open 0\n",
    },
    // an unknown PGN, and a frame of a fast packet without a byte
    Example {
        log: "(1.0) can0 18EAFF01#14F001\n(10.3) can0 1DFF0405#\n",
        text: "",
        reports: "line 2 bad B7 fast\n",
        summary: "lines 2 messages 0 bad 1 unknown 1 broken 0 open 0\n",
    },
];

fn decodes<R: Abort + AllocGlobal>(
    rt: &R,
    table: &Table,
    log: &[u8],
    example: &Example,
    options: Options,
    piece: usize,
) -> Result<(), Fail> {
    let mut outputs = empty_outputs(rt.alloc(), piece);
    let counts = decode(rt.alloc(), table, options, log, piece, &mut outputs)?;
    has_printed(rt, &outputs, example.text, example.reports);
    has_summary(rt, &counts, example.summary)
}

const PIECES: [usize; 5] = [1, 7, 4095, 4096, 100_000];

fn decodes_in_pieces<R: Abort + AllocGlobal>(
    rt: &R,
    table: &Table,
    log: &[u8],
    example: &Example,
) -> Result<(), Fail> {
    for piece in &PIECES {
        decodes(rt, table, log, example, frames(long_window()), *piece)?;
    }
    Ok(())
}

#[test]
fn worked_examples_in_pieces(rt: HostRuntime) -> Result<(), Fail> {
    let table = sample(rt.alloc())?;
    for example in &EXAMPLES {
        let log = example.log.as_bytes();
        decodes_in_pieces(&rt, &table, log, example)?;
    }
    Ok(())
}

// Logs under the shortest window, and how many empty lines are inserted before the last line.
const UNDER_32: [(usize, Example); 3] = [
    // stale-group, and the same with one line less
    (
        31,
        Example {
            log: "(1.0) can0 1DFF0405#0141414141414141\n(9.0) can0 1DFF0405#000DA39903444546\n",
            text: "",
            reports: "line 33 broken pgn 130820 src 5 dst 255 seq 0 first 1\n",
            summary: "lines 33 messages 0 bad 0 unknown 0 broken 1 open 1\n",
        },
    ),
    (
        30,
        Example {
            log: "(1.0) can0 1DFF0405#0141414141414141\n(9.0) can0 1DFF0405#000DA39903444546\n",
            text: "{\"timestamp\":\"1970-01-01T00:00:09.000Z\",\"prio\":7,\"src\":5,\"dst\":255,\"pgn\":130820,\"description\":\"Sample: Label\",\"fields\":{\"Maker\":419,\"Kind\":3,\"Label\":\"DEFAAAAA\"}}\n",
            reports: "",
            summary: "lines 32 messages 1 bad 0 unknown 0 broken 0 open 0\n",
        },
    ),
    // two-broken-at-one-line
    (
        30,
        Example {
            log: "(10.000001) can0 1DFF0405#000BA39901414243
(10.100000) can0 1DFF0406#200BA39902585920
(10.100000) can0 1DFF0406#200BA39902585920
",
            text: "",
            reports: "line 33 broken pgn 130820 src 5 dst 255 seq 0 first 1
line 33 broken pgn 130820 src 6 dst 255 seq 1 first 2
",
            summary: "lines 33 messages 0 bad 0 unknown 0 broken 2 open 1\n",
        },
    ),
];

// Inserts empty lines before the last line of a log.
fn with_empty_lines(alloc: Global, log: &str, empty: usize) -> Result<Vec<u8>, Fail> {
    let prefix = log.trim_end().rfind('\n').ok_or("one line")?;
    let (prefix, last) = log.split_at(prefix);
    let mut text = Vec::new(alloc);
    text.extend_from_slice(prefix.as_bytes())?;
    for _ in 0..empty {
        text.push(b'\n')?;
    }
    text.extend_from_slice(last.as_bytes())?;
    Ok(text)
}

#[test]
fn windows_that_end(rt: HostRuntime) -> Result<(), Fail> {
    let table = sample(rt.alloc())?;
    for (empty, example) in &UNDER_32 {
        let log = with_empty_lines(rt.alloc(), example.log, *empty)?;
        decodes(&rt, &table, &log, example, frames(shortest_window()), 7)?;
    }
    Ok(())
}

// Whether absent fields are printed, and lines that are read as whole messages.
const WHOLE: [(bool, Example); 2] = [
    // pairs, and the last line of whole-among-frames
    (
        false,
        Example {
            log: "t,6,130822,5,255,9,01,0a,64,00,0b,9c,ff,0c,00
t,6,130822,5,255,4,01,ff,ff,7f
t,6,130822,5,255,1,01
t,6,130822,5,255,0
2020-01-01T00:00:00.000Z,7,130820,5,255,6,a3,99,01,41,42,43
",
            text: "{\"timestamp\":\"t\",\"prio\":6,\"src\":5,\"dst\":255,\"pgn\":130822,\"description\":\"Sample: Pairs\",\"fields\":{\"SID\":1,\"list\":[{\"Id\":10,\"Value\":10.0},{\"Id\":11,\"Value\":-10.0}]}}
{\"timestamp\":\"t\",\"prio\":6,\"src\":5,\"dst\":255,\"pgn\":130822,\"description\":\"Sample: Pairs\",\"fields\":{\"SID\":1,\"list\":[{}]}}
{\"timestamp\":\"t\",\"prio\":6,\"src\":5,\"dst\":255,\"pgn\":130822,\"description\":\"Sample: Pairs\",\"fields\":{\"SID\":1,\"list\":[]}}
{\"timestamp\":\"t\",\"prio\":6,\"src\":5,\"dst\":255,\"pgn\":130822,\"description\":\"Sample: Pairs\",\"fields\":{\"list\":[]}}
{\"timestamp\":\"2020-01-01T00:00:00.000Z\",\"prio\":7,\"src\":5,\"dst\":255,\"pgn\":130820,\"description\":\"Sample: Label\",\"fields\":{\"Maker\":419,\"Kind\":1}}
",
            reports: "",
            summary: "lines 5 messages 5 bad 0 unknown 0 broken 0 open 0\n",
        },
    ),
    (
        true,
        Example {
            log: "t,6,130822,5,255,4,01,ff,ff,7f\n",
            text: "{\"timestamp\":\"t\",\"prio\":6,\"src\":5,\"dst\":255,\"pgn\":130822,\"description\":\"Sample: Pairs\",\"fields\":{\"SID\":1,\"list\":[{\"Id\":null,\"Value\":null}]}}\n",
            reports: "",
            summary: "lines 1 messages 1 bad 0 unknown 0 broken 0 open 0\n",
        },
    ),
];

#[test]
fn whole_messages(rt: HostRuntime) -> Result<(), Fail> {
    let table = pairs_table(rt.alloc())?;
    for (empty, example) in &WHOLE {
        let options = Options {
            packing: Packing::Whole,
            empty: *empty,
            window: long_window(),
        };
        decodes(&rt, &table, example.log.as_bytes(), example, options, 7)?;
    }
    Ok(())
}

// Ten lines, of which one gives a message; the second line has 2,049 bytes.
const TEN_LINES: Example = Example {
    log: "
(10.1) can0 1DFF0405#010
(10.2) can0 40000000#00
2011-11-24-22:42:04.388,2,127251,36,255,3,7d,0b
(10.3) can0 1DFF0405#
(10.4) can0 1DFF0405#010000000000FFFF
(10) can0 1DFF0405#00
x,8,127251,36,255,0
hello
",
    text: "{\"timestamp\":\"1970-01-01T00:00:10.400Z\",\"prio\":7,\"src\":5,\"dst\":255,\"pgn\":130820,\"description\":\"Sample: Label\",\"fields\":{\"Maker\":419,\"Kind\":1,\"Label\":\"ABC\"}}
",
    reports: "line 2 bad B1 long
line 3 bad B6 data
line 4 bad B4 identifier
line 5 bad B6 data
line 6 bad B7 fast
line 8 bad B2 stamp
line 9 bad B5 number
line 10 bad B3 form
",
    summary: "lines 10 messages 1 bad 8 unknown 0 broken 0 open 0\n",
};

// A frame's line, and x's at the start of the other lines.
fn ten_lines(alloc: Global, others: &str) -> Result<Vec<u8>, AllocError> {
    let mut log = Vec::new(alloc);
    log.extend_from_slice(b"(10.0) can0 1DFF0405#000BA39901414243\n")?;
    let long = vec![in alloc; b'x'; 2049]?;
    log.extend_from_slice(&long)?;
    log.extend_from_slice(others.as_bytes())?;
    Ok(log)
}

#[test]
fn ten_lines_eight_bad(rt: HostRuntime) -> Result<(), Fail> {
    let table = sample(rt.alloc())?;
    let log = ten_lines(rt.alloc(), TEN_LINES.log)?;
    decodes_in_pieces(&rt, &table, &log, &TEN_LINES)
}

// A timestamp may contain characters that JSON escapes.
const STAMPS: &str = "\"\\,2,129026,36,255,8,7d,0b,7d,02,00,ff,ff,ff
(1502979132.106111) can0 09F8027F#00FCFFFF0000FFFF
";

// The timestamp of a JSON line.
fn stamp_of(alloc: Global, line: &str) -> Result<String, Fail> {
    let value = Value::from_str(alloc, line)?;
    let stamp = value
        .get("timestamp")
        .and_then(|stamp| stamp.as_str())
        .ok_or("no stamp")?;
    Ok(stamp.to_string(alloc)?)
}

fn stamps_of(alloc: Global, text: &str) -> Result<Vec<String>, Fail> {
    let mut stamps = Vec::new(alloc);
    for line in text.lines() {
        stamps.push(stamp_of(alloc, line)?)?;
    }
    Ok(stamps)
}

fn printed(alloc: Global, table: &Table, log: &[u8]) -> Result<Outputs, Fail> {
    let mut outputs = empty_outputs(alloc, 1000);
    decode(alloc, table, frames(long_window()), log, 1000, &mut outputs)?;
    Ok(outputs)
}

// Each printed line is valid JSON. The texts above show the order of its members.
#[test]
fn each_line_is_read_by_serde_json(rt: HostRuntime) -> Result<(), Fail> {
    let table = sample(rt.alloc())?;
    let outputs = printed(rt.alloc(), &table, STAMPS.as_bytes())?;
    let stamps = stamps_of(rt.alloc(), std::str::from_utf8(outputs.text.bytes())?)?;
    assert_eq!(rt; stamps.len(), 2);
    assert_eq!(rt; stamps[0].as_str(), "\"\\");
    assert_eq!(rt; stamps[1].as_str(), "2017-08-17T14:12:12.106Z");
    Ok(())
}

// The lines of a block give more than 43,000 bytes, which a buffer keeps in two parts.
#[test]
fn text_of_a_block_in_two_parts(rt: HostRuntime) -> Result<(), Fail> {
    let alloc = rt.alloc();
    let table = sample(alloc)?;
    let options = Options {
        packing: Packing::Frames,
        empty: true,
        window: long_window(),
    };
    let mut log = Vec::new(alloc);
    let mut text = Vec::new(alloc);
    for _ in 0..400 {
        log.extend_from_slice(b"(1.0) c 09F8027F#\n")?;
        text.extend_from_slice(
            b"{\"timestamp\":\"1970-01-01T00:00:01.000Z\",\"prio\":2,\"src\":127,\"dst\":255,\"pgn\":129026,\"description\":\"COG & SOG, Rapid Update\",\"fields\":{\"SID\":null,\"COG Reference\":null,\"COG\":null,\"SOG\":null}}\n",
        )?;
    }
    let mut outputs = empty_outputs(alloc, 100_000);
    decode(alloc, &table, options, &log, 4096, &mut outputs)?;
    assert_eq!(rt; outputs.text.bytes(), text.as_slice());
    Ok(())
}
