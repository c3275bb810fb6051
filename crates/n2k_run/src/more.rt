//! More of a log, in memory, after a prefix that a join has taken.
ghost use Rattle.std.specs.Prelude.{◌≡◌, ℕ, List};
ghost use Rattle.std.specs.Io.{IsEmptyOrEndsWith};
ghost use Rattle.n2k_run.specs.Headline.{state_after};
ghost use Rattle.n2k_run.specs.Lines.{line_feed};
ghost use Rattle.n2k_run.specs.More.{EndsMore};
ghost use Rattle.n2k_run.specs.Runs.{sinks_seen};

use crate::decoding::run_in;
use crate::device::Sink;
use crate::engine::RunRoom;
use crate::fault::RunFault;
use crate::options::{Options, lemma_window_valid};
use crate::part_source::PartSource;
use n2k_join::{Join, laws};
use n2k_table::Table;
use std::alloc::Global;

/// Runs `run` over the lines of `more`, the bytes of a log after the lines that a join has taken, if these ended with a
/// line: exactly the rest of the whole log's output and reports is written, and the join is in the state after the
/// whole log. So a decoder that is kept needs no saved state; it keeps the
/// room too, whose contents don't matter. After a fault the join can't be used further.
///
/// ```rust
/// let (table, options) = (sample_table(alloc)?, usual_options());
/// let mut join = Join::new(alloc, &table, options.window);
/// let mut out = MemorySink::new(alloc, 4096, 0);
/// let mut err = MemorySink::new(alloc, 4096, 0);
/// let mut room = RunRoom::new(alloc);
/// let monday = "(11.0) can0 1DFF0405#4120202020202020\n".as_bytes();
/// run_more(
///     alloc, &table, &mut join, options, monday, &mut room, &mut out, &mut err,
/// )?;
/// let tuesday = "(12.0) can0 1DFF0405#400DA39903444546\n".as_bytes();
/// run_more(
///     alloc, &table, &mut join, options, tuesday, &mut room, &mut out, &mut err,
/// )?;
/// assert_eq!(rt; (join.counts().lines, join.counts().messages), (2, 1));
/// ```
pub fn run_more<W: Sink, E: Sink>(
    alloc: Global,
    table: &Table,
    join: &mut Join,
    options: Options,
    more: &[u8],
    room: &mut RunRoom,
    writer: &mut W,
    reporter: &mut E,
) -> Result<(), RunFault>
    requires window { join.old.window ≡ options.window }
    ensures headline { (prefix : List ℕ) → IsEmptyOrEndsWith prefix line_feed →
        join.old ≡ state_after table.now options prefix →
        let before = sinks_seen W.Sink E.Sink writer.old reporter.old in
        let after = sinks_seen W.Sink E.Sink writer.new reporter.new in
        EndsMore table.now options prefix more.now before after join.new result }
{
    laws::steps_agree();
    laws::lines_stay();
    lemma_window_valid(&options);
    let mut reader = PartSource::new(more);
    run_in(
        alloc,
        table,
        join,
        options,
        room,
        &mut reader,
        writer,
        reporter,
    )
}
