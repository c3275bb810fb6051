//! The worked examples of groups.
use super::logs::{
    EIGHT_UNDER_WAY, EXTRA_FRAME, FIRST_FRAME_LOST, FRAMES_IN_REVERSE, LONGEST_MESSAGE,
    MIXED_MESSAGE, ODD_FRAMES, REPEAT_BREAKS, SHORT_LAST_FRAME, SHORT_TOTALS, TWO_SOURCES,
    seventy_senders,
};
use crate::samples::{long_window, shortest_window, take};
use n2k_join::{Broken, Counts, Join, JoinFault, Step, Window};
use n2k_table::Table;
use n2k_table_tests::samples::sample;
use n2k_wire::{Packing, plain_text, read_line};
use std::alloc::Global;
use std::process::Abort;
use std::test::Fail;

fn push_told(told: &str, text: &mut Vec<u8>) -> Result<(), Fail> {
    text.extend_from_slice(told.as_bytes())?;
    Ok(())
}

// Appends the stream of a group, and the line at which the group began.
fn push_group(alloc: Global, group: &Broken, text: &mut Vec<u8>) -> Result<(), Fail> {
    let sender = format!(in alloc; "{} {} {}", group.pgn, group.src, group.dst)?;
    push_told(&sender, text)?;
    let rest = format!(in alloc; " {} {}\n", group.seq, group.first)?;
    push_told(&rest, text)
}

// Appends the number of a line and the group that the line breaks.
fn push_broken(alloc: Global, line: u64, group: &Broken, text: &mut Vec<u8>) -> Result<(), Fail> {
    let prefix = format!(in alloc; "{line} broken ")?;
    push_told(&prefix, text)?;
    push_group(alloc, group, text)
}

// Appends what a line gave after its number: the group that it breaks, its cause, its message as a plain line.
fn push_step(alloc: Global, line: u64, step: &Step, text: &mut Vec<u8>) -> Result<(), Fail> {
    if let Some(group) = &step.broken {
        push_broken(alloc, line, group, text)?;
    }
    if let Some(cause) = step.bad {
        let told = format!(in alloc; "{line} bad {cause:?}\n")?;
        text.extend_from_slice(told.as_bytes())?;
    }
    if let Some(message) = &step.message {
        let told = format!(in alloc; "{line} ")?;
        text.extend_from_slice(told.as_bytes())?;
        plain_text(alloc, message, text)?;
    }
    Ok(())
}

// Passes a line to the join and appends what the line gave.
fn tell(
    alloc: Global,
    join: &mut Join,
    table: &Table,
    line: &str,
    text: &mut Vec<u8>,
) -> Result<(), Fail> {
    let number = join.counts().lines.saturating_add(1);
    while let Some(group) = join.expire() {
        push_broken(alloc, number, &group, text)?;
    }
    let step = join.line(table, read_line(line.as_bytes(), Packing::Frames))?;
    push_step(alloc, number, &step, text)
}

fn tell_all(
    alloc: Global,
    join: &mut Join,
    table: &Table,
    log: &str,
    text: &mut Vec<u8>,
) -> Result<(), Fail> {
    for line in log.lines() {
        tell(alloc, join, table, line, text)?;
    }
    Ok(())
}

fn push_counts(alloc: Global, counts: &Counts, text: &mut Vec<u8>) -> Result<(), Fail> {
    let Counts {
        lines,
        messages,
        bad,
        unknown,
        broken,
        held,
    } = *counts;
    let told = format!(in alloc; "{lines} {messages} {bad} {unknown} {broken} {held}")?;
    text.extend_from_slice(told.as_bytes())?;
    Ok(())
}

// What the lines of a log gave, and then the six counts. `between` empty lines separate the two parts of the log.
fn told_apart(
    alloc: Global,
    window: Window,
    prefix: &str,
    between: u8,
    back: &str,
) -> Result<Vec<u8>, Fail> {
    let table = sample(alloc)?;
    let mut join = Join::new(alloc, &table, window);
    let mut text = Vec::new(alloc);
    tell_all(alloc, &mut join, &table, prefix, &mut text)?;
    for _ in 0..between {
        tell(alloc, &mut join, &table, "", &mut text)?;
    }
    tell_all(alloc, &mut join, &table, back, &mut text)?;
    push_counts(alloc, &join.counts(), &mut text)?;
    Ok(text)
}

fn tells<R: Abort + AllocGlobal>(
    rt: &R,
    window: Window,
    log: &str,
    wanted: &str,
) -> Result<(), Fail> {
    let text = told_apart(rt.alloc(), window, log, 0, "")?;
    assert_eq!(rt; text.as_slice(), wanted.as_bytes());
    Ok(())
}

// A log, and what its lines give, each after its number; the six counts at the end.
const WORKED: [(&str, &str); 10] = [
    (
        TWO_SOURCES,
        "3 1970-01-01T00:00:10.200Z,7,130820,6,255,11,a3,99,02,58,59,20,20,20,20,20,20
4 1970-01-01T00:00:10.300Z,7,130820,5,255,11,a3,99,01,41,42,43,00,00,00,00,00
4 2 0 0 0 0",
    ),
    (
        FRAMES_IN_REVERSE,
        "2 1970-01-01T00:00:12.000Z,7,130820,5,255,13,a3,99,03,44,45,46,20,20,20,20,20,20,20
2 1 0 0 0 0",
    ),
    (
        REPEAT_BREAKS,
        "3 broken 130820 5 255 3 1
5 1970-01-01T00:00:05.000Z,7,130820,5,255,20,a3,99,04,47,48,49,20,20,20,20,20,20,20,20,20,20,20,20,20,20
5 1 0 0 1 0",
    ),
    (
        EXTRA_FRAME,
        "4 broken 130820 5 255 4 1
4 0 0 0 1 1",
    ),
    (
        MIXED_MESSAGE,
        "2 1970-01-01T00:00:09.000Z,7,130820,5,255,13,a3,99,03,44,45,46,41,41,41,41,41,41,41
2 1 0 0 0 0",
    ),
    (
        FIRST_FRAME_LOST,
        "3 1970-01-01T00:00:03.000Z,7,130820,5,255,20,a3,99,04,47,48,49,41,41,41,41,41,41,41,42,42,42,42,42,42,42
5 1 0 0 0 1",
    ),
    (
        ODD_FRAMES,
        "1 bad Fast
2 bad Fast
4 1970-01-01T00:00:04.000Z,2,127251,36,255,2,7d,0b
4 1 2 1 0 0",
    ),
    (
        SHORT_TOTALS,
        "1 1970-01-01T00:00:01.000Z,7,130820,5,255,0
3 broken 130820 5 255 0 2
3 1970-01-01T00:00:03.000Z,7,130820,5,255,6,a3,99,01,41,42,43
6 1970-01-01T00:00:06.000Z,7,130820,5,255,14,01,02,03,04,05,06,07,08,09,0a,0b,0c,0d,0e
6 3 0 0 1 0",
    ),
    (
        SHORT_LAST_FRAME,
        "2 1970-01-01T00:00:02.000Z,7,130820,5,255,7,01,02,03,04,05,06,07
2 1 0 0 0 0",
    ),
    (
        LONGEST_MESSAGE,
        "32 1970-01-01T00:00:32.000Z,7,130820,5,255,223,a3,99,05,4a,4b,4c,20,20,20,20,20,20,20,20,20,20,20,20,20,20,20,20,20,20,20,20,20,20,20,20,20,20,20,20,20,20,20,20,20,20,20,20,20,20,20,20,20,20,20,20,20,20,20,20,20,20,20,20,20,20,20,20,20,20,20,20,20,20,20,20,20,20,20,20,20,20,20,20,20,20,20,20,20,20,20,20,20,20,20,20,20,20,20,20,20,20,20,20,20,20,20,20,20,20,20,20,20,20,20,20,20,20,20,20,20,20,20,20,20,20,20,20,20,20,20,20,20,20,20,20,20,20,20,20,20,20,20,20,20,20,20,20,20,20,20,20,20,20,20,20,20,20,20,20,20,20,20,20,20,20,20,20,20,20,20,20,20,20,20,20,20,20,20,20,20,20,20,20,20,20,20,20,20,20,20,20,20,20,20,20,20,20,20,20,20,20,20,20,20,20,20,20,20,20,20,20,20,20,20,20,20,20,20,20,20,20,20,20,20,20,20,20,20
33 bad Fast
33 1 1 0 0 0",
    ),
];

#[test]
fn groups_as_worked(rt: HostRuntime) -> Result<(), Fail> {
    for (log, wanted) in &WORKED {
        tells(&rt, long_window(), log, wanted)?;
    }
    Ok(())
}

// Logs of `WORKED` in order. A lost frame 0 costs its own message, swapped frames give none, and after a repeated frame
// the next frame 0 breaks the group which that frame opened.
const IN_ORDER: [(&str, &str); 4] = [
    (
        FIRST_FRAME_LOST,
        "3 broken 130820 5 255 0 1
5 1970-01-01T00:00:05.000Z,7,130820,5,255,20,a3,99,04,47,48,49,20,20,20,20,20,20,20,20,20,20,20,20,20,20
5 1 0 0 1 0",
    ),
    (
        FRAMES_IN_REVERSE,
        "2 broken 130820 5 255 2 1
2 0 0 0 1 1",
    ),
    (
        REPEAT_BREAKS,
        "3 broken 130820 5 255 3 1
4 broken 130820 5 255 3 3
5 0 0 0 2 1",
    ),
    (
        MIXED_MESSAGE,
        "2 broken 130820 5 255 0 1
2 0 0 0 1 1",
    ),
];

#[test]
fn groups_in_order(rt: HostRuntime) -> Result<(), Fail> {
    for (log, wanted) in &IN_ORDER {
        tells(&rt, long_window().in_order(), log, wanted)?;
    }
    Ok(())
}

// Compares under the shortest window, with `between` empty lines between two lines.
fn tells_apart<R: Abort + AllocGlobal>(
    rt: &R,
    prefix: &str,
    between: u8,
    back: &str,
    wanted: &str,
) -> Result<(), Fail> {
    let text = told_apart(rt.alloc(), shortest_window(), prefix, between, back)?;
    assert_eq!(rt; text.as_slice(), wanted.as_bytes());
    Ok(())
}

const STALE: &str = "33 broken 130820 5 255 0 1
33 0 0 0 1 1";

const NOT_STALE: &str =
    "32 1970-01-01T00:00:09.000Z,7,130820,5,255,13,a3,99,03,44,45,46,41,41,41,41,41,41,41
32 1 0 0 0 0";

// A window of 32 lines ends a group of line 1 at line 33, not at line 32.
#[test]
fn stale_group(rt: HostRuntime) -> Result<(), Fail> {
    let (prefix, back) = MIXED_MESSAGE.split_once("\n").ok_or("two lines")?;
    tells_apart(&rt, prefix, 31, back, STALE)?;
    tells_apart(&rt, prefix, 30, back, NOT_STALE)
}

// At line 33 the window of the first group ends, and a second frame 0 breaks the second group.
const TWO_OPEN: &str = "(10.000001) can0 1DFF0405#000BA39901414243
(10.100000) can0 1DFF0406#200BA39902585920";

const AGAIN: &str = "(10.100000) can0 1DFF0406#200BA39902585920";

const BOTH_BROKEN: &str = "33 broken 130820 5 255 0 1
33 broken 130820 6 255 1 2
33 0 0 0 2 1";

#[test]
fn two_broken_at_one_line(rt: HostRuntime) -> Result<(), Fail> {
    tells_apart(&rt, TWO_OPEN, 30, AGAIN, BOTH_BROKEN)
}

// Whether the message is the label of this kind.
fn is_label(step: &Step, kind: u8) -> bool {
    match &step.message {
        Some(message) => message.data()
            == [0xa3, 0x99, kind, 0x41, 0x42, 0x43, 0, 0, 0, 0, 0].as_slice(),
        None => false,
    }
}

#[test]
fn eight_under_way(rt: HostRuntime) -> Result<(), Fail> {
    let table = sample(rt.alloc())?;
    let mut join = Join::new(rt.alloc(), &table, long_window());
    let mut kind = 8u8;
    for line in EIGHT_UNDER_WAY.lines() {
        let step = take(&mut join, &table, line)?;
        if step.message.is_some() {
            assert!(rt; is_label(&step, kind), "{kind}");
            kind = kind.saturating_sub(1);
        }
    }
    let counts = join.counts();
    assert_eq!(rt; (counts.messages, counts.broken, counts.held), (8, 0, 0));
    Ok(())
}

#[test]
fn seventy_under_way(rt: HostRuntime) -> Result<(), Fail> {
    let table = sample(rt.alloc())?;
    let mut join = Join::new(rt.alloc(), &table, long_window());
    let log = seventy_senders(rt.alloc()).ok_or("no memory")?;
    let mut src = 0u8;
    for line in log.lines() {
        let step = take(&mut join, &table, line)?;
        if step.message.is_some() {
            assert!(rt; is_label(&step, src), "{src}");
            src = src.saturating_add(1);
        }
    }
    let counts = join.counts();
    assert_eq!(rt; (counts.messages, counts.broken, counts.held), (70, 1, 0));
    Ok(())
}

// Whether a line's message is returned in place. Groups whose window ends at the line are broken first.
fn accepts_in_place(join: &mut Join, table: &Table, line: &str) -> Result<bool, JoinFault> {
    while join.expire().is_some() {}
    let mut entry = read_line(line.as_bytes(), Packing::Frames);
    let step = join.accept_in_place(table, &mut entry)?;
    Ok(step.message.is_some())
}

// How many messages the lines of a log give in place.
fn taken_in_place_by(join: &mut Join, table: &Table, log: &str) -> Result<u32, JoinFault> {
    let mut lent = 0u32;
    for line in log.lines() {
        let accepts_in_place = accepts_in_place(join, table, line)?;
        lent = lent.saturating_add(u32::from(accepts_in_place));
    }
    Ok(lent)
}

// Each of the last two lines completes a message, which is returned in place.
#[test]
fn messages_are_in_place(rt: HostRuntime) -> Result<(), Fail> {
    let table = sample(rt.alloc())?;
    let mut join = Join::new(rt.alloc(), &table, long_window());
    let lent = taken_in_place_by(&mut join, &table, TWO_SOURCES)?;
    assert_eq!(rt; lent, 2);
    Ok(())
}
