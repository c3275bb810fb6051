//! What the tests of runs use: the two-sources log, options, outputs in memory, and runs of a log in memory. None has a
//! clause, so that no test's proof depends on what a run promises.
use n2k_join::{Counts, Join, Window};
use n2k_run::{MemorySink, MemorySource, Options, RunFault, run, summary_text};
use n2k_table::Table;
use n2k_wire::Packing;
use std::alloc::Global;
use std::process::Abort;
use std::test::Fail;

// The two frames of each of two senders, alternating, 43 bytes a line.
pub(crate) const TWO_SOURCES: &str = "(10.000001) can0 1DFF0405#000BA39901414243
(10.100000) can0 1DFF0406#200BA39902585920
(10.200000) can0 1DFF0406#212020202020FFFF
(10.300000) can0 1DFF0405#010000000000FFFF
";

// The output of `TWO_SOURCES`.
pub(crate) const TWO_SOURCES_TEXT: &str =
    "{\"timestamp\":\"1970-01-01T00:00:10.200Z\",\"prio\":7,\"src\":6,\"dst\":255,\"pgn\":130820,\"description\":\"Sample: Label\",\"fields\":{\"Maker\":419,\"Kind\":2,\"Label\":\"XY\"}}
{\"timestamp\":\"1970-01-01T00:00:10.300Z\",\"prio\":7,\"src\":5,\"dst\":255,\"pgn\":130820,\"description\":\"Sample: Label\",\"fields\":{\"Maker\":419,\"Kind\":1,\"Label\":\"ABC\"}}
";

// A repeated frame breaks its group.
pub(crate) const REPEAT_BREAKS: &str = "(1.0) can0 1DFF0405#6014A39904474849
(2.0) can0 1DFF0405#6120202020202020
(3.0) can0 1DFF0405#6120202020202020
(4.0) can0 1DFF0405#6014A39904474849
(5.0) can0 1DFF0405#6220202020202020
";

pub(crate) const REPEAT_BREAKS_TEXT: &str =
    "{\"timestamp\":\"1970-01-01T00:00:05.000Z\",\"prio\":7,\"src\":5,\"dst\":255,\"pgn\":130820,\"description\":\"Sample: Label\",\"fields\":{\"Maker\":419,\"Kind\":4,\"Label\":\"GHI\"}}\n";

pub(crate) const REPEAT_BREAKS_REPORT: &str =
    "line 3 broken pgn 130820 src 5 dst 255 seq 3 first 1\n";

// Options to read frames under a window.
pub(crate) fn frames(window: Window) -> Options {
    Options {
        packing: Packing::Frames,
        empty: false,
        window,
    }
}

// The output and the reports.
#[derive(Drop)]
pub(crate) struct Outputs {
    pub(crate) text: MemorySink,
    pub(crate) reports: MemorySink,
}

// Empty outputs, which accept this many bytes a call.
pub(crate) fn empty_outputs(alloc: Global, piece: usize) -> Outputs {
    let piece = piece.max(1);
    Outputs {
        text: MemorySink::new(alloc, piece, 0),
        reports: MemorySink::new(alloc, piece, 0),
    }
}

// A log that arrives in chunks.
pub(crate) fn source(log: &[u8], piece: usize) -> MemorySource<'_> {
    MemorySource::new(log, piece.max(1), 0)
}

// Decodes a log in chunks, and returns the counts.
pub(crate) fn decode(
    alloc: Global,
    table: &Table,
    options: Options,
    log: &[u8],
    piece: usize,
    to: &mut Outputs,
) -> Result<Counts, RunFault> {
    let mut join = Join::new(alloc, table, options.window);
    let mut log = source(log, piece);
    run(
        alloc,
        table,
        &mut join,
        options,
        &mut log,
        &mut to.text,
        &mut to.reports,
    )?;
    Ok(join.counts())
}

pub(crate) fn has_printed<R: Abort>(rt: &R, outputs: &Outputs, text: &str, reports: &str) {
    assert_eq!(rt; outputs.text.bytes(), text.as_bytes());
    assert_eq!(rt; outputs.reports.bytes(), reports.as_bytes());
}

pub(crate) fn has_summary<R: Abort + AllocGlobal>(
    rt: &R,
    counts: &Counts,
    text: &str,
) -> Result<(), Fail> {
    let mut summary = Vec::new(rt.alloc());
    summary_text(rt.alloc(), counts, &mut summary)?;
    assert_eq!(rt; summary.as_slice(), text.as_bytes());
    Ok(())
}
