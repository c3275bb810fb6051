//! Reports and summaries.
use n2k_join::{Broken, Counts};
use n2k_run::{Failed, MemorySink, bad_text, broken_text, write_summary};
use n2k_wire::BadCause;
use std::test::Fail;

// The causes and reports of ten-lines-eight-bad.
const BAD: [(u64, BadCause, &str); 8] = [
    (2, BadCause::Long, "line 2 bad B1 long\n"),
    (3, BadCause::Data, "line 3 bad B6 data\n"),
    (4, BadCause::Identifier, "line 4 bad B4 identifier\n"),
    (5, BadCause::Data, "line 5 bad B6 data\n"),
    (6, BadCause::Fast, "line 6 bad B7 fast\n"),
    (8, BadCause::Stamp, "line 8 bad B2 stamp\n"),
    (9, BadCause::Number, "line 9 bad B5 number\n"),
    (10, BadCause::Form, "line 10 bad B3 form\n"),
];

#[test]
fn bad_lines_are_reported(rt: HostRuntime) -> Result<(), Fail> {
    for (line, cause, report) in &BAD {
        let mut text = Vec::new(rt.alloc());
        bad_text(rt.alloc(), *line, *cause, &mut text)?;
        assert_eq!(rt; text.as_slice(), report.as_bytes());
    }
    Ok(())
}

// The group of repeat-breaks.
const BROKEN: Broken = Broken {
    pgn: 130820,
    src: 5,
    dst: 255,
    seq: 3,
    first: 1,
};

const BROKEN_REPORT: &str = "line 3 broken pgn 130820 src 5 dst 255 seq 3 first 1\n";

#[test]
fn a_broken_group_is_reported(rt: HostRuntime) -> Result<(), Fail> {
    let mut text = Vec::new(rt.alloc());
    broken_text(rt.alloc(), 3, &BROKEN, &mut text)?;
    assert_eq!(rt; text.as_slice(), BROKEN_REPORT.as_bytes());
    Ok(())
}

const MOST_COUNTED: Counts = Counts {
    lines: u64::MAX,
    messages: u64::MAX,
    bad: u64::MAX,
    unknown: u64::MAX,
    broken: u64::MAX,
    held: u64::MAX,
};

const LONGEST_SUMMARY: &str =
    "lines 18446744073709551615 messages 18446744073709551615 bad 18446744073709551615 \
    unknown 18446744073709551615 broken 18446744073709551615 open 18446744073709551615\n";

#[test]
fn the_longest_summary(rt: HostRuntime) {
    let mut sink = MemorySink::new(rt.alloc(), 7, 0);
    assert_eq!(rt; write_summary(&MOST_COUNTED, &mut sink), Ok(()));
    assert_eq!(rt; sink.bytes(), LONGEST_SUMMARY.as_bytes());
}

#[test]
fn a_summary_that_fails(rt: HostRuntime) {
    let mut failing = MemorySink::new(rt.alloc(), 7, 2);
    assert_eq!(rt; write_summary(&MOST_COUNTED, &mut failing), Err(Failed));
    assert_eq!(rt; failing.bytes(), b"lines 1".as_slice());
}
