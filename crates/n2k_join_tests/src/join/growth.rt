//! A refused growth leaves a join unchanged.
use super::logs::{
    EIGHT_UNDER_WAY, EXTRA_FRAME, FRAMES_IN_REVERSE, MIXED_MESSAGE, ODD_FRAMES, REPEAT_BREAKS,
    SHORT_LAST_FRAME, SHORT_TOTALS, TWO_SOURCES, seventy_senders,
};
use crate::samples::{long_window, take};
use n2k_join::{Counts, Join, JoinFault};
use n2k_table::Table;
use n2k_table_tests::samples::sample;
use std::alloc::Global;
use std::process::Abort;
use std::test::Fail;

// The join's state as text. Only one growth is refused, so the second try has memory.
fn saved(alloc: Global, join: &Join) -> Result<Vec<u8>, Fail> {
    match join.save(alloc) {
        Ok(text) => Ok(text),
        Err(_) => Ok(join.save(alloc)?),
    }
}

// Passes a line to the join. If a growth is refused, the join is unchanged and accepts the same line.
fn take_though_refused(
    alloc: Global,
    table: &Table,
    join: &mut Join,
    line: &str,
) -> Result<(), Fail> {
    let counts = join.counts();
    let state = saved(alloc, join)?;
    match take(join, table, line) {
        Err(JoinFault::Memory) => {
            if join.counts() != counts || saved(alloc, join)?.as_slice() != state.as_slice() {
                return Err("a refused line changed the join".into());
            }
            take(join, table, line)?;
        }
        taken => {
            taken?;
        }
    }
    Ok(())
}

// The state after a log, and the counts.
fn after(alloc: Global, table: &Table, log: &str) -> Result<(Vec<u8>, Counts), Fail> {
    let mut join = Join::new(alloc, table, long_window());
    for line in log.lines() {
        take_though_refused(alloc, table, &mut join, line)?;
    }
    Ok((saved(alloc, &join)?, join.counts()))
}

// Only one growth is refused, so the second reading of a log has ample memory.
fn is_same_again<R: Abort + AllocGlobal>(rt: &R, table: &Table, log: &str) -> Result<(), Fail> {
    let (state, counts) = after(rt.alloc(), table, log)?;
    let (ample, ample_counts) = after(rt.alloc(), table, log)?;
    assert_eq!(rt; counts, ample_counts);
    assert_eq!(rt; state.as_slice(), ample.as_slice());
    Ok(())
}

const LOGS: [&str; 9] = [
    TWO_SOURCES,
    FRAMES_IN_REVERSE,
    REPEAT_BREAKS,
    EXTRA_FRAME,
    MIXED_MESSAGE,
    ODD_FRAMES,
    SHORT_TOTALS,
    SHORT_LAST_FRAME,
    EIGHT_UNDER_WAY,
];

// `tests/faults/refused-growth` refuses each growth in turn.
#[test]
fn refused_growth_changes_nothing(rt: HostRuntime) -> Result<(), Fail> {
    let Ok(table) = sample(rt.alloc()) else {
        return Ok(());
    };
    let Some(senders) = seventy_senders(rt.alloc()) else {
        return Ok(());
    };
    is_same_again(&rt, &table, &senders)?;
    for log in &LOGS {
        is_same_again(&rt, &table, log)?;
    }
    Ok(())
}
