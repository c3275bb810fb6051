//! What a run leaves if memory is refused. `tests/faults/refused-growth` refuses each growth in turn: the result is the
//! same as with ample memory or a refusal, and the written bytes are a prefix of the full output.
use super::parts::{OVERDUE, OVERDUE_REPORTS};
use super::samples::{
    Outputs, REPEAT_BREAKS, REPEAT_BREAKS_REPORT, REPEAT_BREAKS_TEXT, TWO_SOURCES,
    TWO_SOURCES_TEXT, decode, empty_outputs, frames, source,
};
use super::sending::{SPLIT_AND_BACK, SPLIT_AND_BACK_CANDUMP, SPLIT_AND_BACK_PLAIN, frames_at};
use n2k_join::StateFault;
use n2k_join_tests::samples::{long_window, shortest_window, spelled};
use n2k_run::{MemorySink, Options, PartFault, RunFault, run_part, run_parts};
use n2k_table::Table;
use n2k_table_tests::samples::sample;
use std::process::Abort;
use std::test::Fail;

// The sink contains all of a text, or a prefix of it.
fn is_written<R: Abort>(rt: &R, whole: bool, sink: &MemorySink, text: &str) {
    if whole {
        assert_eq!(rt; sink.bytes(), text.as_bytes());
    } else {
        assert!(rt; text.as_bytes().starts_with(sink.bytes()));
    }
}

// Each of the two outputs contains all of its text, or a prefix of it.
fn holds<R: Abort>(rt: &R, whole: bool, outputs: &Outputs, text: &str, reports: &str) {
    is_written(rt, whole, &outputs.text, text);
    is_written(rt, whole, &outputs.reports, reports);
}

// Whether a run reports refused memory: its own, or that of a sink in memory, which fails like a device.
fn is_refused(fault: RunFault) -> bool {
    matches!(fault, RunFault::Memory | RunFault::Write | RunFault::Report)
}

fn run_leaves_a_prefix<R: Abort + AllocGlobal>(
    rt: &R,
    table: &Table,
    log: &str,
    text: &str,
    reports: &str,
) {
    let (options, log) = (frames(long_window()), log.as_bytes());
    let mut outputs = empty_outputs(rt.alloc(), 10);
    let answer = decode(rt.alloc(), table, options, log, 60, &mut outputs);
    holds(rt, answer.is_ok(), &outputs, text, reports);
    if let Err(fault) = answer {
        assert!(rt; is_refused(fault));
    }
}

#[test]
fn refused_memory_in_a_run(rt: HostRuntime) {
    let Ok(table) = sample(rt.alloc()) else {
        return;
    };
    run_leaves_a_prefix(&rt, &table, TWO_SOURCES, TWO_SOURCES_TEXT, "");
    run_leaves_a_prefix(
        &rt,
        &table,
        REPEAT_BREAKS,
        REPEAT_BREAKS_TEXT,
        REPEAT_BREAKS_REPORT,
    );
}

// If a part's input state is refused, nothing was written. If its own state cannot be saved, all may have been written.
fn part_leaves_a_prefix<R: Abort + AllocGlobal>(
    rt: &R,
    table: &Table,
    options: Options,
    state: Option<&[u8]>,
    log: &str,
    text: &str,
    reports: &str,
) {
    let mut outputs = empty_outputs(rt.alloc(), 10);
    let answer = run_part(
        rt.alloc(),
        table,
        state,
        options,
        &mut source(log.as_bytes(), 60),
        &mut outputs.text,
        &mut outputs.reports,
    );
    holds(rt, answer.is_ok(), &outputs, text, reports);
    match answer {
        Ok(_) | Err(PartFault::Memory) => {}
        Err(PartFault::State(fault)) => {
            assert!(rt; fault == StateFault::Memory);
            assert!(rt; outputs.text.bytes().is_empty() && outputs.reports.bytes().is_empty());
        }
        Err(PartFault::Run(fault)) => assert!(rt; is_refused(fault)),
        Err(PartFault::Stopped(_, _)) => assert!(rt; false, "stopped"),
    }
}

#[test]
fn refused_memory_in_a_part(rt: HostRuntime) {
    let Ok(table) = sample(rt.alloc()) else {
        return;
    };
    let options = frames(long_window());
    part_leaves_a_prefix(
        &rt,
        &table,
        options,
        None,
        TWO_SOURCES,
        TWO_SOURCES_TEXT,
        "",
    );
}

// A state of the old format, after no lines.
const OLD_EMPTY: &str =
    "{'bad':0,'broken':0,'format':1,'groups':[],'lines':0,'messages':0,'table':'ID','unknown':0}";

fn old_state_leaves_a_prefix<R: Abort + AllocGlobal>(
    rt: &R,
    table: &Table,
    state: &str,
    reports: &str,
) -> Result<(), Fail> {
    let state = spelled(rt.alloc(), state)?;
    part_leaves_a_prefix(
        rt,
        table,
        frames(shortest_window()),
        Some(state.as_bytes()),
        "\n",
        "",
        reports,
    );
    Ok(())
}

// overdue-old-state: a state of the old format is read, and the next line breaks its groups. empty-state has no groups.
#[test]
fn an_old_state_goes_on_or_is_refused(rt: HostRuntime) -> Result<(), Fail> {
    let table = sample(rt.alloc())?;
    old_state_leaves_a_prefix(&rt, &table, OVERDUE, OVERDUE_REPORTS)?;
    old_state_leaves_a_prefix(&rt, &table, OLD_EMPTY, "")
}

// two-sources-cut, after each line
#[test]
fn refused_memory_in_parts(rt: HostRuntime) {
    let Ok(table) = sample(rt.alloc()) else {
        return;
    };
    let mut lines = Vec::new(rt.alloc());
    for line in TWO_SOURCES
        .as_bytes()
        .split_inclusive(|byte| *byte == b'\n')
    {
        if lines.push(line).is_err() {
            return;
        }
    }
    let mut outputs = empty_outputs(rt.alloc(), 10);
    let answer = run_parts(
        rt.alloc(),
        &table,
        frames(long_window()),
        &lines,
        &mut outputs.text,
        &mut outputs.reports,
    );
    holds(&rt, answer.is_ok(), &outputs, TWO_SOURCES_TEXT, "");
    match answer {
        Ok(_) | Err(PartFault::Memory) => {}
        Err(PartFault::State(fault)) => assert!(rt; fault == StateFault::Memory),
        Err(PartFault::Run(fault)) => assert!(rt; is_refused(fault)),
        Err(PartFault::Stopped(_, _)) => assert!(rt; false, "stopped"),
    }
}

fn frames_leave_a_prefix<R: Abort + AllocGlobal>(
    rt: &R,
    table: &Table,
    interface: Option<&str>,
    text: &str,
) {
    let log = SPLIT_AND_BACK.as_bytes();
    let mut outputs = empty_outputs(rt.alloc(), 10);
    let answer = frames_at(rt.alloc(), table, interface, log, 60, &mut outputs);
    holds(rt, answer.is_ok(), &outputs, text, "");
    if let Err(fault) = answer {
        assert!(rt; is_refused(fault));
    }
}

#[test]
fn refused_memory_in_frames(rt: HostRuntime) {
    let Ok(table) = sample(rt.alloc()) else {
        return;
    };
    frames_leave_a_prefix(&rt, &table, None, SPLIT_AND_BACK_PLAIN);
    frames_leave_a_prefix(&rt, &table, Some("can0"), SPLIT_AND_BACK_CANDUMP);
}
