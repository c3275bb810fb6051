//! Worked examples of logs in parts.
use super::samples::{
    Outputs, REPEAT_BREAKS, TWO_SOURCES, TWO_SOURCES_TEXT, empty_outputs, frames, has_printed,
    has_summary, source,
};
use n2k_join::Window;
use n2k_join_tests::samples::{long_window, spelled};
use n2k_run::{MemorySink, MemorySource, Options, Part, PartFault, RunFault, run_part, run_parts};
use n2k_table::Table;
use n2k_table_tests::samples::sample;
use std::alloc::Global;
use std::process::Abort;
use std::test::Fail;

// A log, its output and its reports, and the state after it. In states ' is a quotation mark, and ID the table's id.
#[derive(Drop)]
struct Example {
    log: &'static str,
    text: &'static str,
    reports: &'static str,
    summary: &'static str,
    state: &'static str,
}

const EXAMPLES: [Example; 4] = [
    // empty-log
    Example {
        log: "",
        text: "",
        reports: "",
        summary: "lines 0 messages 0 bad 0 unknown 0 broken 0 open 0\n",
        state: "{'bad':0,'broken':0,'format':2,'groups':[],'lines':0,'messages':0,'table':'ID','unknown':0,'window':10000}",
    },
    // two-sources
    Example {
        log: TWO_SOURCES,
        text: TWO_SOURCES_TEXT,
        reports: "",
        summary: "lines 4 messages 2 bad 0 unknown 0 broken 0 open 0\n",
        state: "{'bad':0,'broken':0,'format':2,'groups':[],'lines':4,'messages':2,'table':'ID','unknown':0,'window':10000}",
    },
    // the last line of whole-among-frames, as a frame
    Example {
        log: "2020-01-01T00:00:00.000Z,7,130820,5,255,6,a3,99,01,41,42,43\n",
        text: "",
        reports: "",
        summary: "lines 1 messages 0 bad 0 unknown 0 broken 0 open 1\n",
        state: "{'bad':0,'broken':0,'format':2,'groups':[{'dst':255,'first':1,'frames':[[3,'9901414243ffff']],'pgn':130820,'seq':5,'src':5}],'lines':1,'messages':0,'table':'ID','unknown':0,'window':10000}",
    },
    // Every kind of line: skipped, bad, single, whole, with an unknown PGN, fast packets of three senders, a broken
    // group, and a group that stays open.
    Example {
        log: "# a comment
(1.0) can0 1DFF0405#000BA39901414243
(2.0) can0 1DFF0406#200BA39902585920
hello
(3.0) can0 1DFF0407#4120202020202020
(4.0) can0 09F8027F#00FCFFFF0000FFFF
(5.0) can0 1DFF0405#000BA39904444546
2020-01-01T00:00:00.000Z,7,130820,5,255,9,07,98,01,41,42,43,44,45,46
(6.0) can0 18EAFF01#14F001
(7.0) can0 1DFF0406#212020202020FFFF
(8.0) can0 1DFF0405#
(9.0) can0 1DFF0407#400DA39903444546
(10.0) can0 1DFF0405#010000000000FFFF
(11.0) can0 1DFF0407#6120202020202020
",
        text: "{\"timestamp\":\"1970-01-01T00:00:04.000Z\",\"prio\":2,\"src\":127,\"dst\":255,\"pgn\":129026,\"description\":\"COG & SOG, Rapid Update\",\"fields\":{\"SID\":0,\"COG Reference\":\"True\",\"SOG\":0.00}}
{\"timestamp\":\"2020-01-01T00:00:00.000Z\",\"prio\":7,\"src\":5,\"dst\":255,\"pgn\":130820,\"description\":\"Unmatched\",\"fields\":{\"Data\":\"07 98 01 41 42 43 44 45 46\"}}
{\"timestamp\":\"1970-01-01T00:00:07.000Z\",\"prio\":7,\"src\":6,\"dst\":255,\"pgn\":130820,\"description\":\"Sample: Label\",\"fields\":{\"Maker\":419,\"Kind\":2,\"Label\":\"XY\"}}
{\"timestamp\":\"1970-01-01T00:00:09.000Z\",\"prio\":7,\"src\":7,\"dst\":255,\"pgn\":130820,\"description\":\"Sample: Label\",\"fields\":{\"Maker\":419,\"Kind\":3,\"Label\":\"DEF\"}}
{\"timestamp\":\"1970-01-01T00:00:10.000Z\",\"prio\":7,\"src\":5,\"dst\":255,\"pgn\":130820,\"description\":\"Sample: Label\",\"fields\":{\"Maker\":419,\"Kind\":4,\"Label\":\"DEF\"}}
",
        reports: "line 4 bad B3 form
line 7 broken pgn 130820 src 5 dst 255 seq 0 first 2
line 11 bad B7 fast
",
        summary: "lines 14 messages 5 bad 2 unknown 1 broken 1 open 1\n",
        state: "{'bad':2,'broken':1,'format':2,'groups':[{'dst':255,'first':14,'frames':[[1,'20202020202020']],'pgn':130820,'seq':3,'src':7}],'lines':14,'messages':5,'table':'ID','unknown':1,'window':10000}",
    },
];

// A part left this state and this summary.
fn is_left<R: Abort + AllocGlobal>(
    rt: &R,
    part: &Part,
    state: &str,
    summary: &str,
) -> Result<(), Fail> {
    let wanted = spelled(rt.alloc(), state)?;
    assert_eq!(rt; part.state.as_slice(), wanted.as_bytes());
    has_summary(rt, &part.counts, summary)
}

// Runs the parts of a log in turn.
fn joined(
    alloc: Global,
    table: &Table,
    options: Options,
    parts: &[&[u8]],
    to: &mut Outputs,
) -> Result<Part, PartFault> {
    run_parts(alloc, table, options, parts, &mut to.text, &mut to.reports)
}

// The parts of a log give the same as the whole log.
fn gives<R: Abort + AllocGlobal>(
    rt: &R,
    table: &Table,
    parts: &[&[u8]],
    example: &Example,
) -> Result<(), Fail> {
    let mut outputs = empty_outputs(rt.alloc(), 4096);
    let last = joined(
        rt.alloc(),
        table,
        frames(long_window()),
        parts,
        &mut outputs,
    )?;
    has_printed(rt, &outputs, example.text, example.reports);
    is_left(rt, &last, example.state, example.summary)
}

// A log gives the same whole and cut in two after each of its lines.
fn gives_in_two<R: Abort + AllocGlobal>(
    rt: &R,
    table: &Table,
    example: &Example,
) -> Result<(), Fail> {
    gives(rt, table, &[example.log.as_bytes()], example)?;
    let log = example.log.as_bytes();
    for (at, byte) in log.iter().enumerate() {
        if *byte == b'\n' {
            let prefix = log.get(..=at).ok_or("no front")?;
            let back = log.get(prefix.len()..).ok_or("no back")?;
            gives(rt, table, &[prefix, back], example)?;
        }
    }
    Ok(())
}

// A log gives the same if each of its lines is a part, after an empty part.
fn gives_by_lines<R: Abort + AllocGlobal>(
    rt: &R,
    table: &Table,
    example: &Example,
) -> Result<(), Fail> {
    let mut lines = Vec::new(rt.alloc());
    lines.push(b"".as_slice())?;
    for line in example
        .log
        .as_bytes()
        .split_inclusive(|byte| *byte == b'\n')
    {
        lines.push(line)?;
    }
    gives(rt, table, &lines, example)
}

#[test]
fn cut_after_each_line(rt: HostRuntime) -> Result<(), Fail> {
    let table = sample(rt.alloc())?;
    for example in &EXAMPLES {
        gives_in_two(&rt, &table, example)?;
        gives_by_lines(&rt, &table, example)?;
    }
    gives(&rt, &table, &[], &EXAMPLES[0])
}

// The states of the two-sources log after its second and its third line.
const AFTER_TWO: &str =
    "{'bad':0,'broken':0,'format':2,'groups':[{'dst':255,'first':1,'frames':[[0,'0ba39901414243']],'pgn':130820,'seq':0,'src':5},{'dst':255,'first':2,'frames':[[0,'0ba39902585920']],'pgn':130820,'seq':1,'src':6}],'lines':2,'messages':0,'table':'ID','unknown':0,'window':10000}";

const AFTER_THREE: &str =
    "{'bad':0,'broken':0,'format':2,'groups':[{'dst':255,'first':1,'frames':[[0,'0ba39901414243']],'pgn':130820,'seq':0,'src':5}],'lines':3,'messages':1,'table':'ID','unknown':0,'window':10000}";

// A state without a window, whose groups have waited too long under the shortest window.
pub(crate) const OVERDUE: &str =
    "{'bad':0,'broken':0,'format':1,'groups':[{'dst':255,'first':1,'frames':[[0,'0ba39901414243']],'pgn':130820,'seq':0,'src':5},{'dst':255,'first':2,'frames':[[0,'0ba39902585920']],'pgn':130820,'seq':1,'src':6}],'lines':50,'messages':0,'table':'ID','unknown':0}";

pub(crate) const OVERDUE_REPORTS: &str = "line 51 broken pgn 130820 src 5 dst 255 seq 0 first 1
line 51 broken pgn 130820 src 6 dst 255 seq 1 first 2
";

// A state, the lines after it, and the result.
#[derive(Drop)]
struct Resumed {
    state: &'static str,
    window: u32,
    log: &'static str,
    text: &'static str,
    reports: &'static str,
    summary: &'static str,
}

const RESUMED: [Resumed; 5] = [
    // two-sources-cut, after the second line
    Resumed {
        state: AFTER_TWO,
        window: 10_000,
        log: "(10.200000) can0 1DFF0406#212020202020FFFF
(10.300000) can0 1DFF0405#010000000000FFFF
",
        text: TWO_SOURCES_TEXT,
        reports: "",
        summary: "lines 4 messages 2 bad 0 unknown 0 broken 0 open 0\n",
    },
    // two-sources-cut, after the third line
    Resumed {
        state: AFTER_THREE,
        window: 10_000,
        log: "(10.300000) can0 1DFF0405#010000000000FFFF
",
        text: "{\"timestamp\":\"1970-01-01T00:00:10.300Z\",\"prio\":7,\"src\":5,\"dst\":255,\"pgn\":130820,\"description\":\"Sample: Label\",\"fields\":{\"Maker\":419,\"Kind\":1,\"Label\":\"ABC\"}}
",
        reports: "",
        summary: "lines 4 messages 2 bad 0 unknown 0 broken 0 open 0\n",
    },
    // The group of source 5 waits for other frames: a second frame 3 breaks it.
    Resumed {
        state: "{'bad':0,'broken':0,'format':1,'groups':[{'dst':255,'first':1,'frames':[[3,'0ba39901414243']],'pgn':130820,'seq':0,'src':5},{'dst':255,'first':2,'frames':[[0,'0ba39902585920']],'pgn':130820,'seq':1,'src':6}],'lines':2,'messages':0,'table':'ID','unknown':0}",
        window: 10_000,
        log: "(10.3) can0 1DFF0405#030000000000FFFF\n",
        text: "",
        reports: "line 3 broken pgn 130820 src 5 dst 255 seq 0 first 1\n",
        summary: "lines 3 messages 0 bad 0 unknown 0 broken 1 open 2\n",
    },
    // The group of source 5 has a frame past its length of 6, so that no frame completes it.
    Resumed {
        state: "{'bad':0,'broken':0,'format':1,'groups':[{'dst':255,'first':1,'frames':[[0,'06a39901414243'],[3,'20202020202020']],'pgn':130820,'seq':0,'src':5},{'dst':255,'first':2,'frames':[[0,'0ba39902585920']],'pgn':130820,'seq':1,'src':6}],'lines':2,'messages':0,'table':'ID','unknown':0}",
        window: 10_000,
        log: "(10.3) can0 1DFF0405#0100000000FFFFFF\n",
        text: "",
        reports: "",
        summary: "lines 3 messages 0 bad 0 unknown 0 broken 0 open 2\n",
    },
    // overdue-old-state: a state without a window; the next line breaks its groups, the oldest first.
    Resumed {
        state: OVERDUE,
        window: 32,
        log: "\n",
        text: "",
        reports: OVERDUE_REPORTS,
        summary: "lines 51 messages 0 bad 0 unknown 0 broken 2 open 0\n",
    },
];

// Runs a part whose reads and writes succeed.
fn part_of_log(
    alloc: Global,
    table: &Table,
    options: Options,
    state: Option<&[u8]>,
    log: &[u8],
    to: &mut Outputs,
) -> Result<Part, PartFault> {
    run_part(
        alloc,
        table,
        state,
        options,
        &mut source(log, 4096),
        &mut to.text,
        &mut to.reports,
    )
}

// two-sources, as one part without a state
#[test]
fn one_part_from_the_beginning(rt: HostRuntime) -> Result<(), Fail> {
    let table = sample(rt.alloc())?;
    let (options, log) = (frames(long_window()), TWO_SOURCES.as_bytes());
    let mut outputs = empty_outputs(rt.alloc(), 7);
    let part = part_of_log(rt.alloc(), &table, options, None, log, &mut outputs)?;
    has_printed(&rt, &outputs, TWO_SOURCES_TEXT, "");
    is_left(&rt, &part, EXAMPLES[1].state, EXAMPLES[1].summary)
}

// Runs the part after a state, which is given in its short spelling.
fn resume(
    alloc: Global,
    table: &Table,
    options: Options,
    state: &str,
    log: &str,
    to: &mut Outputs,
) -> Result<Part, Fail> {
    let state = spelled(alloc, state)?;
    let (state, log) = (Some(state.as_bytes()), log.as_bytes());
    Ok(part_of_log(alloc, table, options, state, log, to)?)
}

fn goes_on<R: Abort + AllocGlobal>(rt: &R, table: &Table, resumed: &Resumed) -> Result<(), Fail> {
    let options = frames(Window::new(resumed.window).ok_or("no window")?);
    let mut outputs = empty_outputs(rt.alloc(), 7);
    let part = resume(
        rt.alloc(),
        table,
        options,
        resumed.state,
        resumed.log,
        &mut outputs,
    )?;
    has_printed(rt, &outputs, resumed.text, resumed.reports);
    has_summary(rt, &part.counts, resumed.summary)
}

#[test]
fn goes_on_from_states(rt: HostRuntime) -> Result<(), Fail> {
    let table = sample(rt.alloc())?;
    for resumed in &RESUMED {
        goes_on(&rt, &table, resumed)?;
    }
    Ok(())
}

// The frames 1 and 0 of a message of 18 bytes; `TWO` is its frame 2.
const ONE_THEN_ZERO: &str = "(1.0) can0 1DFF0405#0144454647482020
(2.0) can0 1DFF0405#0012A39901414243
";

const TWO: &str = "(3.0) can0 1DFF0405#022020202020FFFF\n";

const OUT_OF_ORDER: &str =
    "{\"timestamp\":\"1970-01-01T00:00:03.000Z\",\"prio\":7,\"src\":5,\"dst\":255,\"pgn\":130820,\"description\":\"Sample: Label\",\"fields\":{\"Maker\":419,\"Kind\":1,\"Label\":\"ABCDEFGH\"}}
";

// order-in-parts: frames that a part accepted out of order stay in its state, and a part in order completes the
// message.
#[test]
fn a_part_without_the_order_is_completed_in_order(rt: HostRuntime) -> Result<(), Fail> {
    let table = sample(rt.alloc())?;
    let mut outputs = empty_outputs(rt.alloc(), 7);
    let (options, log) = (frames(long_window()), ONE_THEN_ZERO.as_bytes());
    let prefix = part_of_log(rt.alloc(), &table, options, None, log, &mut outputs)?;
    let (options, state) = (frames(long_window().in_order()), prefix.state.as_slice());
    let log = TWO.as_bytes();
    part_of_log(rt.alloc(), &table, options, Some(state), log, &mut outputs)?;
    has_printed(&rt, &outputs, OUT_OF_ORDER, "");
    Ok(())
}

// If each part is in order, the group is broken, and no message is printed.
#[test]
fn parts_in_order_print_no_message_out_of_order(rt: HostRuntime) -> Result<(), Fail> {
    let table = sample(rt.alloc())?;
    let parts = [ONE_THEN_ZERO.as_bytes(), TWO.as_bytes()];
    let options = frames(long_window().in_order());
    let mut outputs = empty_outputs(rt.alloc(), 7);
    joined(rt.alloc(), &table, options, &parts, &mut outputs)?;
    let report = "line 2 broken pgn 130820 src 5 dst 255 seq 0 first 1\n";
    has_printed(&rt, &outputs, "", report);
    Ok(())
}

const FRONT_HALF: &str = "(1502979132.106111) can0 09F8027F#00FC";

const BACK_HALF: &str = "FFFF0000FFFF\n";

const HALVES: Example = Example {
    log: "",
    text: "{\"timestamp\":\"2017-08-17T14:12:12.106Z\",\"prio\":2,\"src\":127,\"dst\":255,\"pgn\":129026,\"description\":\"COG & SOG, Rapid Update\",\"fields\":{\"SID\":0,\"COG Reference\":\"True\"}}\n",
    reports: "line 2 bad B3 form\n",
    summary: "lines 2 messages 1 bad 1 unknown 0 broken 0 open 0\n",
    state: "{'bad':1,'broken':0,'format':2,'groups':[],'lines':2,'messages':1,'table':'ID','unknown':0,'window':10000}",
};

// A cut belongs after a line feed: here each half of a line becomes a line.
#[test]
fn cut_inside_a_line(rt: HostRuntime) -> Result<(), Fail> {
    let table = sample(rt.alloc())?;
    gives(
        &rt,
        &table,
        &[FRONT_HALF.as_bytes(), BACK_HALF.as_bytes()],
        &HALVES,
    )
}

// Runs the two-sources log in chunks of this size, with one failing read.
fn with_failing_read(
    alloc: Global,
    table: &Table,
    piece: usize,
    failing_read: u64,
    to: &mut Outputs,
) -> Result<Part, PartFault> {
    let log = TWO_SOURCES.as_bytes();
    run_part(
        alloc,
        table,
        None,
        frames(long_window()),
        &mut MemorySource::new(log, piece.max(1), failing_read),
        &mut to.text,
        &mut to.reports,
    )
}

// The output before the failing read, and the state that is left.
fn stops_with_read<R: Abort + AllocGlobal>(
    rt: &R,
    table: &Table,
    (piece, failing_read): (usize, u64),
    text: &str,
    left: &str,
    summary: &str,
) -> Result<(), Fail> {
    let mut outputs = empty_outputs(rt.alloc(), 7);
    let answer = with_failing_read(rt.alloc(), table, piece, failing_read, &mut outputs);
    let Err(PartFault::Stopped(RunFault::Read, part)) = answer else {
        return Err("the read was taken".into());
    };
    assert_eq!(rt; outputs.text.bytes(), text.as_bytes());
    is_left(rt, &part, left, summary)
}

const XY: &str =
    "{\"timestamp\":\"1970-01-01T00:00:10.200Z\",\"prio\":7,\"src\":6,\"dst\":255,\"pgn\":130820,\"description\":\"Sample: Label\",\"fields\":{\"Maker\":419,\"Kind\":2,\"Label\":\"XY\"}}
";

const TWO_OPEN: &str = "lines 2 messages 0 bad 0 unknown 0 broken 0 open 2\n";

const ONE_OPEN: &str = "lines 3 messages 1 bad 0 unknown 0 broken 0 open 1\n";

// read-fails: in chunks of 60 bytes two lines arrived, and part of the third; in chunks of one line three arrived.
#[test]
fn a_failed_read_leaves_a_state(rt: HostRuntime) -> Result<(), Fail> {
    let table = sample(rt.alloc())?;
    stops_with_read(&rt, &table, (60, 3), "", AFTER_TWO, TWO_OPEN)?;
    stops_with_read(&rt, &table, (43, 4), XY, AFTER_THREE, ONE_OPEN)
}

// A state at the line limit.
const FULL: &str =
    "{'bad':0,'broken':0,'format':2,'groups':[],'lines':999999999999999,'messages':0,'table':'ID','unknown':0,'window':10000}";

#[test]
fn no_line_past_the_last(rt: HostRuntime) -> Result<(), Fail> {
    let table = sample(rt.alloc())?;
    let options = frames(long_window());
    let mut outputs = empty_outputs(rt.alloc(), 7);
    let full = spelled(rt.alloc(), FULL)?;
    let state = Some(full.as_bytes());
    let answer = part_of_log(rt.alloc(), &table, options, state, b"\n", &mut outputs);
    let Err(PartFault::Stopped(RunFault::TooManyLines, part)) = answer else {
        return Err("one line more was taken".into());
    };
    assert_eq!(rt; part.state.as_slice(), full.as_bytes());
    Ok(())
}

// The fault of a log's run in which one write of the output and one of the reports fail, and what was written.
fn failed(
    alloc: Global,
    table: &Table,
    log: &str,
    failing_write: u64,
    failing_report: u64,
) -> (Option<RunFault>, Outputs) {
    let options = frames(long_window());
    let mut outputs = Outputs {
        text: MemorySink::new(alloc, 10, failing_write),
        reports: MemorySink::new(alloc, 10, failing_report),
    };
    match part_of_log(alloc, table, options, None, log.as_bytes(), &mut outputs) {
        Err(PartFault::Run(fault)) => (Some(fault), outputs),
        _ => (None, outputs),
    }
}

// write-fails: a prefix is written.
#[test]
fn a_failed_write_leaves_a_prefix(rt: HostRuntime) -> Result<(), Fail> {
    let table = sample(rt.alloc())?;
    let (fault, outputs) = failed(rt.alloc(), &table, TWO_SOURCES, 3, 0);
    assert_eq!(rt; fault, Some(RunFault::Write));
    assert_eq!(rt; outputs.text.bytes(), b"{\"timestamp\":\"1970-0".as_slice());
    Ok(())
}

// The report of repeat-breaks cannot be written.
#[test]
fn a_failed_report_leaves_a_prefix(rt: HostRuntime) -> Result<(), Fail> {
    let table = sample(rt.alloc())?;
    let (fault, outputs) = failed(rt.alloc(), &table, REPEAT_BREAKS, 0, 3);
    assert_eq!(rt; fault, Some(RunFault::Report));
    assert_eq!(rt; outputs.reports.bytes(), b"line 3 broken pgn 13".as_slice());
    Ok(())
}
