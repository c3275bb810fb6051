//! Runs of a log in parts, each from the state that was saved after the part before it.
ghost use Rattle.std.specs.Prelude.{◌≡◌, ℕ, List, [], map, ◌++◌, IfOk, IsSome, OnErr, None, Ok, option_map, true};
ghost use Rattle.std.specs.List.{concat};
ghost use Rattle.n2k_wire.specs.declared.entry.Entry.{Entry};
ghost use Rattle.n2k_table.specs.Table.{kind};
ghost use Rattle.n2k_join.specs.Refusal.{GivesOrMemory};
ghost use Rattle.n2k_join.specs.Saved.{IsId};
ghost use Rattle.n2k_join.specs.State.{State, state};
ghost use Rattle.n2k_run.specs.InOrder.{PrintsInOrder};
ghost use Rattle.n2k_run.specs.Inner.Parts.{Finishes, HasSaved, Saves};
ghost use Rattle.n2k_run.specs.Headline.{AreCutAtLines, PrintsLog};
ghost use Rattle.n2k_run.specs.Parts.{AreWithinReads, EndsParts, IsNotRead, IsOfKind, IsPartOf, OnRefusal, RefusedByMemory, RunsFrom, RunsPart, begun, entries_of_parts, with_part};
ghost use Rattle.n2k_run.specs.Runs.{seen, sinks_seen};

use crate::decoding::run;
use crate::device::{Sink, Source};
use crate::fault::RunFault;
use crate::laws::printed_in_order;
use crate::options::{Options, lemma_window_valid};
use crate::part_source::PartSource;
use n2k_join::{Counts, Join, StateFault, laws};
use n2k_table::Table;
use std::alloc::{AllocError, Global};
use thiserror::Error;

/// The result of a log, or of a part of it: the text to continue from, and the counts of all lines so far.
#[derive(Debug, Drop)]
pub struct Part {
    /// The saved state: one JSON text, without an LF (docs/PROFILE.md has its members).
    pub state: Vec<u8>,
    /// The counts of all lines so far, including earlier parts.
    pub counts: Counts,
}

/// Why a part of a log was not run to its end.
#[derive(Debug, Drop, Error)]
pub enum PartFault {
    /// The given state is refused. Nothing was read or written.
    #[error("the state is refused: {0}")]
    State(StateFault),
    /// The run stopped after a line, for `RunFault::Read` or `RunFault::TooManyLines`; the log can continue from its
    /// Part.
    #[error("{0}")]
    Stopped(RunFault, Part),
    /// The run ended with `RunFault::Write`, `RunFault::Report` or `RunFault::Memory`, and no state to continue from.
    #[error("{0}")]
    Run(RunFault),
    /// An allocation was refused while the state was saved.
    #[error("out of memory")]
    Memory,
}

impl From<AllocError> for PartFault {
    ghost use Rattle.std.specs.Prelude.{◌≡◌};
    ghost use Rattle.n2k_run.specs.declared.part.PartFault.TheVariants.{Memory};

    ghost from_gives = { λ _ fault. fault ≡ Memory };

    fn from(_: AllocError) -> Self {
        PartFault::Memory
    }
}

impl From<StateFault> for PartFault {
    ghost use Rattle.std.specs.Prelude.{◌≡◌};
    ghost use Rattle.n2k_run.specs.declared.part.PartFault.TheVariants.{State as OfState};

    ghost from_gives = { λ refused fault. fault ≡ OfState refused };

    fn from(fault: StateFault) -> Self {
        PartFault::State(fault)
    }
}

/// The join that a part begins with.
fn begin(
    alloc: Global,
    table: &Table,
    options: &Options,
    saved: Option<&[u8]>,
) -> Result<Join, StateFault>
    ensures state { GivesOrMemory (λ join. join) result (begun table.now options.now
        (option_map (λ bytes. bytes.now) saved.entry)) }
    ensures window { IfOk result (λ join. join.window ≡ options.now.window) }
    ensures handed { OnErr result (IsSome (option_map (λ bytes. bytes.now) saved.entry)) }
{
    laws::groups_stay_fast();
    match saved {
        None => Ok(Join::new(alloc, table, options.window)),
        Some(bytes) => Join::resume(alloc, table, options.window, bytes),
    }
}

/// The type guarantees a valid id of a table.
fn lemma_id_valid(table: &Table)
    ensures { IsId table.now.id }
{
    n2k_table::laws::ids_are_valid(&table.lazy_id());
}

/// The state and the counts of a join.
fn part_of(alloc: Global, join: &Join) -> Result<Part, AllocError>
    ensures { IfOk result (Saves join.now) }
{
    Ok(Part {
        state: join.save(alloc)?,
        counts: join.counts(),
    })
}

/// The result after a run that left the join in this state.
fn finish(alloc: Global, join: &Join, ran: Result<(), RunFault>) -> Result<Part, PartFault>
    ensures part { HasSaved result join.now }
    ensures ran { Finishes result ran }
    ensures fault_kinds { IsOfKind result }
{
    match ran {
        Ok(()) => Ok(part_of(alloc, join)?),
        Err(fault @ (RunFault::Read | RunFault::TooManyLines)) => {
            Err(PartFault::Stopped(fault, part_of(alloc, join)?))
        }
        Err(fault) => Err(PartFault::Run(fault)),
    }
}

/// Runs a part of a log as `run` does, from the state that was saved after the part before it (`None`: from the first
/// line), and returns the state and the counts after it. If a log is cut after any of its lines, its parts run so give
/// exactly the messages, the reports, the counts and the state of one run over the whole log.
///
/// The state must have the same table and the same window, and the other options must be those of the parts before. If
/// the state is refused, nothing has been read or written. After `Stopped` the log can continue from the Part, the
/// state after the last line that was taken: after `Read`, begin the next part after the last LF that was read, and
/// pass an incomplete line again. `Run` and `Memory` have no Part; a prefix of the part's texts and reports has been
/// written.
///
/// ```rust
/// let (table, options) = (sample_table(alloc)?, usual_options());
/// let mut out = MemorySink::new(alloc, 4096, 0);
/// let mut err = MemorySink::new(alloc, 4096, 0);
/// let mut log = StdSource::new("(11.0) can0 1DFF0405#4120202020202020\n".as_bytes());
/// let part = run_part(alloc, &table, None, options, &mut log, &mut out, &mut err)?;
/// assert_eq!(rt; (part.counts.messages, part.counts.held), (0, 1));
/// let mut log = StdSource::new("(12.0) can0 1DFF0405#400DA39903444546\n".as_bytes());
/// let saved = Some(part.state.as_slice());
/// let part = run_part(alloc, &table, saved, options, &mut log, &mut out, &mut err)?;
/// assert_eq!(rt; (part.counts.messages, part.counts.held), (1, 0));
/// ```
pub fn run_part<R: Source, W: Sink, E: Sink>(
    alloc: Global,
    table: &Table,
    saved: Option<&[u8]>,
    options: Options,
    reader: &mut R,
    writer: &mut W,
    reporter: &mut E,
) -> Result<Part, PartFault>
    ensures runs { let before = seen R.Source W.Sink E.Sink reader.old writer.old reporter.old in
        let after = seen R.Source W.Sink E.Sink reader.new writer.new reporter.new in
        RunsFrom table.now options (option_map (λ bytes. bytes.now) saved.entry) before after result }
    ensures untouched { OnRefusal result
        ((reader.new ≡ reader.old) × (writer.new ≡ writer.old) × (reporter.new ≡ reporter.old)) }
{
    laws::steps_agree();
    laws::lines_stay();
    laws::groups_stay_fast();
    lemma_id_valid(table);
    lemma_window_valid(&options);
    let mut join = begin(alloc, table, &options, saved)?;
    let ran = run(alloc, table, &mut join, options, reader, writer, reporter);
    finish(alloc, &join, ran)
}

/// Runs a log from its first line as `run_part` does, but saves no state, and so needs no id of the table. It returns the
/// counts also with a fault.
///
/// ```rust
/// let (table, options) = (sample_table(alloc)?, usual_options());
/// let mut sum = Counts::NONE;
/// let mut log = StdSource::new("(1.0) can0 09F8027F#0500\nhello\n".as_bytes());
/// let mut out = MemorySink::new(alloc, 4096, 0);
/// let mut err = MemorySink::new(alloc, 4096, 0);
/// run_counted(
///     alloc, &table, options, &mut sum, &mut log, &mut out, &mut err,
/// )?;
/// assert_eq!(rt; (sum.messages, sum.bad), (1, 1));
/// ```
pub fn run_counted<R: Source, W: Sink, E: Sink>(
    alloc: Global,
    table: &Table,
    options: Options,
    counts: &mut Counts,
    reader: &mut R,
    writer: &mut W,
    reporter: &mut E,
) -> Result<(), RunFault>
    // With some Part of these counts it is a run of `run_part`.
    ensures runs { let before = seen R.Source W.Sink E.Sink reader.old writer.old reporter.old in
        let after = seen R.Source W.Sink E.Sink reader.new writer.new reporter.new in
        (part : Part) × (part.counts ≡ counts.new)
        × RunsFrom table.now options None before after (with_part part result) }
{
    laws::steps_agree();
    laws::lines_stay();
    laws::groups_stay_fast();
    laws::state_reads_back();
    lemma_id_valid(table);
    lemma_window_valid(&options);
    let mut join = Join::new(alloc, table, options.window);
    let ran = run(alloc, table, &mut join, options, reader, writer, reporter);
    laws::joins_are_valid(&join);
    *counts = join.counts();
    ran
}

/// The Part of the empty log.
fn empty_part(alloc: Global, table: &Table, options: &Options) -> Result<Part, AllocError>
    ensures { IfOk result (IsPartOf table.now options.now (state table.now.id options.now.window (kind table.now) [])) }
{
    laws::groups_stay_fast();
    lemma_id_valid(table);
    lemma_window_valid(options);
    part_of(alloc, &Join::new(alloc, table, options.window))
}

/// Runs the next part, which is in memory.
fn next_part<W: Sink, E: Sink>(
    alloc: Global,
    table: &Table,
    last: &Part,
    options: &Options,
    part: &[u8],
    writer: &mut W,
    reporter: &mut E,
) -> Result<Part, PartFault>
    ensures fault_kinds { IsOfKind result }
    ensures memory_only { (s : State) → IsPartOf table.now options.now s last.now → RefusedByMemory result }
    ensures log { (prefix : List Entry) → IsPartOf table.now options.now
        (state table.now.id options.now.window (kind table.now) prefix) last.now →
        let before = sinks_seen W.Sink E.Sink writer.old reporter.old in
        let after = sinks_seen W.Sink E.Sink writer.new reporter.new in
        RunsPart table.now options.now prefix part.now before after result }
{
    let mut reader = PartSource::new(part);
    let state = Some(last.state.as_slice());
    run_part(alloc, table, state, *options, &mut reader, writer, reporter)
}

/// Runs the parts of a log that are in memory, in order, each from the bytes saved after the part before it: as one run
/// over the joined log, if each part but the last is empty or ends with a line. Without parts it gives the state of the
/// empty log.
///
/// After a fault, the parts before the failed part have been printed whole; for that part see `run_part`.
/// `RunFault::Read` is impossible if each part has fewer than 10^12 - 1 bytes: a part in memory does not fail, and its
/// end is found.
///
/// ```rust
/// let (table, options) = (sample_table(alloc)?, usual_options());
/// let mut out = MemorySink::new(alloc, 4096, 0);
/// let mut err = MemorySink::new(alloc, 4096, 0);
/// let monday = "(11.0) can0 1DFF0405#4120202020202020\n".as_bytes();
/// let tuesday = "(12.0) can0 1DFF0405#400DA39903444546\n".as_bytes();
/// let parts = [monday, tuesday];
/// let part = run_parts(alloc, &table, options, &parts, &mut out, &mut err)?;
/// assert_eq!(rt; (part.counts.lines, part.counts.messages), (2, 1));
/// ```
pub fn run_parts<W: Sink, E: Sink>(
    alloc: Global,
    table: &Table,
    options: Options,
    parts: &[&[u8]],
    writer: &mut W,
    reporter: &mut E,
) -> Result<Part, PartFault>
    ensures fault_kinds { IsOfKind result }
    ensures memory_only { RefusedByMemory result }
    ensures never_read { AreWithinReads (map (λ part. part.now) parts.now) → IsNotRead result }

    // The output of the entries of all parts, in order; or the part at which the run ended.
    ensures log { let before = sinks_seen W.Sink E.Sink writer.old reporter.old in
        let after = sinks_seen W.Sink E.Sink writer.new reporter.new in
        EndsParts table.now options (map (λ part. part.now) parts.now) before after result }

    // The headline: a log that was cut after lines is printed as by one run.
    ensures headline { AreCutAtLines (map (λ part. part.now) parts.now) →
        let before = sinks_seen W.Sink E.Sink writer.old reporter.old in
        let after = sinks_seen W.Sink E.Sink writer.new reporter.new in
        IfOk result (PrintsLog table.now options (concat (map (λ part. part.now) parts.now)) before after) }

    // In order each line that was printed is of one message: a line by itself, or frames in order with nothing between.
    ensures in_order { options.window.in_order ≡ true →
        let before = sinks_seen W.Sink E.Sink writer.old reporter.old in
        let after = sinks_seen W.Sink E.Sink writer.new reporter.new in
        IfOk result (λ _. PrintsInOrder table.now options (entries_of_parts options (map (λ part. part.now) parts.now))
        before after) }
{
    laws::steps_agree();
    laws::lines_stay();
    printed_in_order();
    lemma_window_valid(&options);
    let mut last = empty_part(alloc, table, &options)?;
    for part in parts {
        last = next_part(alloc, table, &last, &options, part, writer, reporter)?;
    }
    Ok(last)
}
