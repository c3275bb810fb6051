//! Worked examples of messages that are written as frames and read again.
use super::samples::{Outputs, decode, empty_outputs, frames, has_printed, has_summary, source};
use n2k_join::Counts;
use n2k_join_tests::samples::long_window;
use n2k_run::{RunFault, run_frames};
use n2k_table::Table;
use n2k_table_tests::samples::sample;
use n2k_wire::is_interface;
use std::alloc::{AllocError, Global};
use std::process::Abort;
use std::test::Fail;

// A log, the interface of its candump lines (none for plain lines), and the output.
#[derive(Drop)]
struct Example {
    log: &'static str,
    interface: Option<&'static str>,
    text: &'static str,
    reports: &'static str,
    summary: &'static str,
}

// A message of 11 bytes, and its frames.
pub(crate) const SPLIT_AND_BACK: &str =
    "1970-01-01T00:00:10.300Z,7,130820,5,255,11,a3,99,01,41,42,43,00,00,00,00,00\n";

pub(crate) const SPLIT_AND_BACK_PLAIN: &str =
    "1970-01-01T00:00:10.300Z,7,130820,5,255,8,00,0b,a3,99,01,41,42,43
1970-01-01T00:00:10.300Z,7,130820,5,255,8,01,00,00,00,00,00,ff,ff
";

pub(crate) const SPLIT_AND_BACK_CANDUMP: &str = "(0000000010.300000) can0 1DFF0405#000BA39901414243
(0000000010.300000) can0 1DFF0405#010000000000FFFF
";

const EXAMPLES: [Example; 6] = [
    // empty-log
    Example {
        log: "",
        interface: None,
        text: "",
        reports: "",
        summary: "lines 0 messages 0 bad 0 unknown 0 broken 0 open 0\n",
    },
    // split-and-back, as plain lines
    Example {
        log: SPLIT_AND_BACK,
        interface: None,
        text: SPLIT_AND_BACK_PLAIN,
        reports: "",
        summary: "lines 1 messages 1 bad 0 unknown 0 broken 0 open 0\n",
    },
    // split-and-back, as candump writes it
    Example {
        log: SPLIT_AND_BACK,
        interface: Some("can0"),
        text: SPLIT_AND_BACK_CANDUMP,
        reports: "",
        summary: "lines 1 messages 1 bad 0 unknown 0 broken 0 open 0\n",
    },
    // refused-message-uses-its-number
    Example {
        log: "1970-01-01T00:00:10.300Z,7,130820,5,255,11,a3,99,01,41,42,43,00,00,00,00,00
x,7,130820,5,255,11,a3,99,01,41,42,43,00,00,00,00,00
1970-01-01T00:00:10.300Z,7,130820,5,255,11,a3,99,01,41,42,43,00,00,00,00,00
",
        interface: Some("can0"),
        text: "(0000000010.300000) can0 1DFF0405#000BA39901414243
(0000000010.300000) can0 1DFF0405#010000000000FFFF
(0000000010.300000) can0 1DFF0405#400BA39901414243
(0000000010.300000) can0 1DFF0405#410000000000FFFF
",
        reports: "line 2 bad B11 time\n",
        summary: "lines 3 messages 2 bad 1 unknown 0 broken 0 open 0\n",
    },
    // Bad lines, and a message of a single frame, which is written unchanged, so that any timestamp is valid.
    Example {
        log: "1970-01-01T00:00:10.300Z,2,129026,36,255,9,00,01,02,03,04,05,06,07,08
# skipped
1970-01-01T00:00:10.300Z,6,59904,1,255,3,14,f0,01
(1502979132.106111) can0 09F8027F#00FCFFFF0000FFFF
2011-11-24-22:42:04.388,2,127251,36,255,8,7d,0b,7d,02,00,ff,ff,ff
(1.0) can0 18EAFF01#14F001
hello
",
        interface: None,
        text: "2011-11-24-22:42:04.388,2,127251,36,255,8,7d,0b,7d,02,00,ff,ff,ff\n",
        reports: "line 1 bad B9 size
line 3 bad B8 unknown
line 4 bad B10 frame
line 6 bad B10 frame
line 7 bad B3 form
",
        summary: "lines 7 messages 1 bad 5 unknown 0 broken 0 open 0\n",
    },
    // Bad lines at an interface. A message that can't be split is refused first.
    Example {
        log: "2011-11-24-22:42:04.388,2,127251,36,255,8,7d,0b,7d,02,00,ff,ff,ff
1970-01-01T00:00:10.300Z,7,130820,5,9,0
x,7,130820,5,9,0
x,6,59904,1,9,0
x,2,129026,36,9,9,00,01,02,03,04,05,06,07,08
",
        interface: Some("can0"),
        text: "",
        reports: "line 1 bad B11 time
line 2 bad B12 address
line 3 bad B11 time
line 4 bad B8 unknown
line 5 bad B9 size
",
        summary: "lines 5 messages 0 bad 5 unknown 0 broken 0 open 0\n",
    },
];

// Writes a log's frames as candump lines, or as plain lines.
pub(crate) fn frames_at(
    alloc: Global,
    table: &Table,
    interface: Option<&str>,
    log: &[u8],
    piece: usize,
    to: &mut Outputs,
) -> Result<Counts, RunFault> {
    let (mut log, text, reports) = (source(log, piece), &mut to.text, &mut to.reports);
    match interface {
        Some(name) if is_interface(name.as_bytes()) => {
            run_frames(alloc, table, Some(name), &mut log, text, reports)
        }
        _ => run_frames(alloc, table, None, &mut log, text, reports),
    }
}

fn makes<R: Abort + AllocGlobal>(
    rt: &R,
    table: &Table,
    example: &Example,
    piece: usize,
) -> Result<(), Fail> {
    let (log, interface) = (example.log.as_bytes(), example.interface);
    let mut outputs = empty_outputs(rt.alloc(), piece);
    let counts = frames_at(rt.alloc(), table, interface, log, piece, &mut outputs)?;
    has_printed(rt, &outputs, example.text, example.reports);
    has_summary(rt, &counts, example.summary)
}

const PIECES: [usize; 5] = [1, 7, 4095, 4096, 100_000];

fn makes_in_pieces<R: Abort + AllocGlobal>(
    rt: &R,
    table: &Table,
    example: &Example,
) -> Result<(), Fail> {
    for piece in &PIECES {
        makes(rt, table, example, *piece)?;
    }
    Ok(())
}

#[test]
fn worked_examples_in_pieces(rt: HostRuntime) -> Result<(), Fail> {
    let table = sample(rt.alloc())?;
    for example in &EXAMPLES {
        makes_in_pieces(&rt, &table, example)?;
    }
    Ok(())
}

// The frames of a log's messages, as plain lines.
fn frames_of<R: Abort + AllocGlobal>(rt: &R, table: &Table, log: &str) -> Result<Outputs, Fail> {
    let mut outputs = empty_outputs(rt.alloc(), 1000);
    frames_at(rt.alloc(), table, None, log.as_bytes(), 1000, &mut outputs)?;
    assert_eq!(rt; outputs.reports.bytes(), b"".as_slice());
    Ok(outputs)
}

// A log decodes to this text and these reports, with this many messages and broken groups and no open group.
fn decodes_to<R: Abort + AllocGlobal>(
    rt: &R,
    table: &Table,
    log: &[u8],
    text: &[u8],
    reports: &str,
    messages: u64,
    broken: u64,
) -> Result<(), Fail> {
    let options = frames(long_window());
    let mut outputs = empty_outputs(rt.alloc(), 1000);
    let counts = decode(rt.alloc(), table, options, log, 1000, &mut outputs)?;
    assert_eq!(rt; outputs.text.bytes(), text);
    assert_eq!(rt; outputs.reports.bytes(), reports.as_bytes());
    let wanted = Counts {
        lines: counts.lines,
        messages,
        broken,
        ..Counts::NONE
    };
    assert_eq!(rt; counts, wanted);
    Ok(())
}

const NINE: &str = "1970-01-01T00:00:10.300Z,7,130820,5,255,11,a3,99,01,41,42,43,00,00,00,00,00
1970-01-01T00:00:10.300Z,7,130820,5,255,11,a3,99,01,41,42,43,00,00,00,00,00
1970-01-01T00:00:10.300Z,7,130820,5,255,11,a3,99,01,41,42,43,00,00,00,00,00
1970-01-01T00:00:10.300Z,7,130820,5,255,11,a3,99,01,41,42,43,00,00,00,00,00
1970-01-01T00:00:10.300Z,7,130820,5,255,11,a3,99,01,41,42,43,00,00,00,00,00
1970-01-01T00:00:10.300Z,7,130820,5,255,11,a3,99,01,41,42,43,00,00,00,00,00
1970-01-01T00:00:10.300Z,7,130820,5,255,11,a3,99,01,41,42,43,00,00,00,00,00
1970-01-01T00:00:10.300Z,7,130820,5,255,11,a3,99,01,41,42,43,00,00,00,00,00
1970-01-01T00:00:10.300Z,7,130820,5,255,11,a3,99,01,41,42,43,00,00,00,00,00
";

// The JSON line of a message of `SPLIT_AND_BACK`.
const LABEL: &str =
    "{\"timestamp\":\"1970-01-01T00:00:10.300Z\",\"prio\":7,\"src\":5,\"dst\":255,\"pgn\":130820,\"description\":\"Sample: Label\",\"fields\":{\"Maker\":419,\"Kind\":1,\"Label\":\"ABC\"}}\n";

const XY: &str =
    "{\"timestamp\":\"1970-01-01T00:00:10.200Z\",\"prio\":7,\"src\":6,\"dst\":255,\"pgn\":130820,\"description\":\"Sample: Label\",\"fields\":{\"Maker\":419,\"Kind\":2,\"Label\":\"XY\"}}\n";

// Inserts two frames of another source, after the third and the eleventh line.
fn with_another_source(alloc: Global, frames: &[u8]) -> Result<Vec<u8>, AllocError> {
    let mut log = Vec::new(alloc);
    for (number, line) in frames.split_inclusive(|byte| *byte == b'\n').enumerate() {
        log.extend_from_slice(line)?;
        match number {
            2 => log.extend_from_slice(b"(10.100000) can0 1DFF0406#200BA39902585920\n")?,
            10 => log.extend_from_slice(b"(10.200000) can0 1DFF0406#212020202020FFFF\n")?,
            _ => {}
        }
    }
    Ok(log)
}

// The JSON lines of nine messages, with the message of another source after the fifth.
fn nine_and_another(alloc: Global) -> Result<Vec<u8>, AllocError> {
    let mut lines = Vec::new(alloc);
    for number in 0..9 {
        if number == 5 {
            lines.extend_from_slice(XY.as_bytes())?;
        }
        lines.extend_from_slice(LABEL.as_bytes())?;
    }
    Ok(lines)
}

// The frames of nine messages give the messages back, also with two frames of another source among them.
#[test]
fn nine_messages_and_another_source(rt: HostRuntime) -> Result<(), Fail> {
    let table = sample(rt.alloc())?;
    let frames = frames_of(&rt, &table, NINE)?;
    let log = with_another_source(rt.alloc(), frames.text.bytes())?;
    let wanted = nine_and_another(rt.alloc())?;
    decodes_to(&rt, &table, &log, &wanted, "", 10, 0)
}

fn without_the_second(alloc: Global, frames: &[u8]) -> Result<Vec<u8>, AllocError> {
    let mut log = Vec::new(alloc);
    for (number, line) in frames.split_inclusive(|byte| *byte == b'\n').enumerate() {
        if number != 1 {
            log.extend_from_slice(line)?;
        }
    }
    Ok(log)
}

// The frames of nine messages without the second frame: the first message is lost, and the ninth, which has the same
// number, breaks its group.
#[test]
fn nine_messages_without_the_second_frame(rt: HostRuntime) -> Result<(), Fail> {
    let table = sample(rt.alloc())?;
    let frames = frames_of(&rt, &table, NINE)?;
    let log = without_the_second(rt.alloc(), frames.text.bytes())?;
    let wanted = LABEL.repeat(rt.alloc(), 8)?;
    let report = "line 16 broken pgn 130820 src 5 dst 255 seq 0 first 1\n";
    decodes_to(&rt, &table, &log, wanted.as_bytes(), report, 8, 1)
}

// Eight messages of one stream, of the kinds 1 to 8.
const EIGHT: &str = "1970-01-01T00:00:10.300Z,7,130820,5,255,11,a3,99,01,41,42,43,00,00,00,00,00
1970-01-01T00:00:10.300Z,7,130820,5,255,11,a3,99,02,41,42,43,00,00,00,00,00
1970-01-01T00:00:10.300Z,7,130820,5,255,11,a3,99,03,41,42,43,00,00,00,00,00
1970-01-01T00:00:10.300Z,7,130820,5,255,11,a3,99,04,41,42,43,00,00,00,00,00
1970-01-01T00:00:10.300Z,7,130820,5,255,11,a3,99,05,41,42,43,00,00,00,00,00
1970-01-01T00:00:10.300Z,7,130820,5,255,11,a3,99,06,41,42,43,00,00,00,00,00
1970-01-01T00:00:10.300Z,7,130820,5,255,11,a3,99,07,41,42,43,00,00,00,00,00
1970-01-01T00:00:10.300Z,7,130820,5,255,11,a3,99,08,41,42,43,00,00,00,00,00
";

// The second frame of each message in order, then the first frames in reverse.
fn under_way(alloc: Global, frames: &[u8]) -> Result<Vec<u8>, AllocError> {
    let mut firsts = Vec::new(alloc);
    let mut log = Vec::new(alloc);
    for (number, line) in frames.split_inclusive(|byte| *byte == b'\n').enumerate() {
        if number % 2 == 0 {
            firsts.push(line)?;
        } else {
            log.extend_from_slice(line)?;
        }
    }
    for line in firsts.iter().rev() {
        log.extend_from_slice(*line)?;
    }
    Ok(log)
}

// The JSON member of each message's kind, in the order in which the messages are completed.
const KINDS: [&str; 8] = [
    "\"Kind\":8",
    "\"Kind\":7",
    "\"Kind\":6",
    "\"Kind\":5",
    "\"Kind\":4",
    "\"Kind\":3",
    "\"Kind\":2",
    "\"Kind\":1",
];

// The JSON lines of the messages of `KINDS`.
fn labels(alloc: Global) -> Result<Vec<u8>, Fail> {
    let mut lines = Vec::new(alloc);
    for kind in &KINDS {
        let label = LABEL.replace(alloc, KINDS[7], kind)?;
        lines.extend_from_slice(label.as_bytes())?;
    }
    Ok(lines)
}

// eight-under-way, from messages to frames and back: eight groups are open at once.
#[test]
fn eight_under_way(rt: HostRuntime) -> Result<(), Fail> {
    let table = sample(rt.alloc())?;
    let frames = frames_of(&rt, &table, EIGHT)?;
    let log = under_way(rt.alloc(), frames.text.bytes())?;
    let wanted = labels(rt.alloc())?;
    decodes_to(&rt, &table, &log, &wanted, "", 8, 0)
}
