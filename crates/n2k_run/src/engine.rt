//! The engine of the runs: it takes the lines of a log from a block, and a handler takes their entries one by one.
ghost use Rattle.std.specs.Prelude.{◌≡◌, [], false, OnOk};
ghost use Rattle.n2k_run.specs.Blocks.{CallsAre};
ghost use Rattle.n2k_run.specs.Fold.{Fold, after_all};
ghost use Rattle.n2k_wire.specs.Entry.{IsShort, entry};
ghost use Rattle.n2k_run.specs.Reading.{ReadsBytes, idle_calls};
ghost use Rattle.n2k_run.specs.Runs.{Devices, Runs, output_from, seen};
ghost use Rattle.n2k_wire.specs.declared.entry.BadCause.TheVariants.{Long};
ghost use Rattle.n2k_wire.specs.declared.entry.Entry.TheVariants.{Bad};
ghost use Rattle.n2k_run.specs.Inner.Engine.{BetweenLines, FailsPending, Proceeds, ReadsNext, TakesEntry, TakesLines, TakesNext, WritesPending, read_on};

use crate::blocks::{Blocks, Next, line_end, without_return};
use crate::device::{Failed, Sink, Source};
use crate::fault::RunFault;
use crate::writing::{write_all, write_parts};
use n2k_table::LineBuffer;
use n2k_wire::{BadCause, Entry, LineReader, Packing};
use std::alloc::Global;

/// Takes the entries of a log in order, and makes texts and reports of them.
pub(crate) trait EntryHandler {
    /// The state after the entries so far.
    type State;

    /// The state as definitions see it.
    ghost Known: { Type 0 };

    /// A state, as definitions know it.
    ghost known: { Self.State → Known };

    /// The text and the report of each entry, by the state before it.
    ghost fold: { Self → Fold Known };

    /// A state in which it can take an entry.
    ghost is_ready: { Self → Self.State → Type 0 };

    /// Takes the entry of the next line, and appends its text and its report. `TooManyLines` if the line limit is
    /// reached, and then nothing has changed; `Memory` if an allocation was refused. The entry may be changed.
    fn take(
        &self,
        alloc: Global,
        state: &mut Self::State,
        entry: &mut Entry,
        text: &mut LineBuffer,
        report: &mut Vec<u8>,
    ) -> Result<(), RunFault>
        requires short { IsShort entry.old }
        requires ready { is_ready self.now state.old }
        ensures taken { TakesEntry (fold self.now) (known state.old) (known state.new) entry.old text.old.items
            text.new.items report.old.items report.new.items result }
        ensures ready { OnOk result (is_ready self.now state.new) };
}

/// The texts and reports that a run has made and not written yet.
#[derive(Drop)]
pub(crate) struct Pending {
    pub(crate) text: LineBuffer,
    pub(crate) report: Vec<u8>,
}

impl Pending {
    /// Nothing is pending.
    pub(crate) fn new(alloc: Global) -> Self
        ensures text { result.text.items ≡ [] }
        ensures report { result.report.items ≡ [] }
    {
        Pending {
            text: LineBuffer::new(alloc),
            report: Vec::new(alloc),
        }
    }

    /// Drops the pending texts, and keeps their room.
    fn clear(&mut self)
        ensures text { self.new.text.items ≡ [] }
        ensures report { self.new.report.items ≡ [] }
    {
        let Pending { text, report } = self;
        text.clear();
        report.clear();
    }

    /// Writes the pending texts, the reports first. If a device fails, a prefix of its text has been written.
    pub(crate) fn write<W: Sink, E: Sink>(
        &mut self,
        writer: &mut W,
        reporter: &mut E,
    ) -> Result<(), RunFault>
        ensures written { WritesPending self.old.text.items self.old.report.items (W.contents writer.old)
            (W.contents writer.new) (E.contents reporter.old) (E.contents reporter.new) result }
        ensures device { FailsPending (W.failed_calls writer.old) (W.failed_calls writer.new)
            (E.failed_calls reporter.old) (E.failed_calls reporter.new) result }
        ensures none_pending { OnOk result ((self.new.text.items ≡ []) × (self.new.report.items ≡ [])) }
    {
        write_all(reporter, &self.report).map_err(|_| RunFault::Report)?;
        self.report.clear();
        let (prefix, rest) = self.text.parts();
        write_parts(writer, prefix, rest).map_err(|_| RunFault::Write)?;
        self.text.clear();
        Ok(())
    }
}

/// The room of a run: a block of its log, and its texts. New room is zeroed, 36 KiB, so a caller with many runs keeps one.
#[derive(Drop)]
pub struct RunRoom {
    blocks: Blocks,
    pending: Pending,
    lines: LineReader,
}

impl RunRoom {
    /// Room for any run.
    ///
    /// ```rust
    /// let (table, options) = (sample_table(alloc)?, usual_options());
    /// let mut join = Join::new(alloc, &table, options.window);
    /// let mut out = MemorySink::new(alloc, 4096, 0);
    /// let mut err = MemorySink::new(alloc, 4096, 0);
    /// let log = "(11.0) can0 1DFF0405#4120202020202020\n".as_bytes();
    /// let mut room = RunRoom::new(alloc);
    /// run_more(
    ///     alloc, &table, &mut join, options, log, &mut room, &mut out, &mut err,
    /// )?;
    /// assert_eq!(rt; join.counts().lines, 1);
    /// ```
    pub fn new(alloc: Global) -> RunRoom {
        RunRoom {
            blocks: Blocks::new(),
            pending: Pending::new(alloc),
            lines: LineReader::new(),
        }
    }
}

/// The parts that stay the same over a run.
#[derive(Drop)]
struct Engine<'a, H> {
    alloc: Global,
    handler: &'a H,
    packing: Packing,
}

/// Takes a line that is too long. A separate function, since an entry is large and such lines are rare.
fn take_long<H: EntryHandler>(
    engine: &Engine<'_, H>,
    state: &mut H::State,
    pending: &mut Pending,
) -> Result<(), RunFault>
    requires { H.is_ready engine.now.handler.now state.old }
    ensures taken { TakesEntry (H.fold engine.now.handler.now) (H.known state.old) (H.known state.new) (Bad Long)
        pending.old.text.items pending.new.text.items pending.old.report.items pending.new.report.items result }
    ensures ready { OnOk result (H.is_ready engine.now.handler.now state.new) }
{
    let mut entry = Entry::Bad(BadCause::Long);
    let Pending { text, report } = pending;
    engine
        .handler
        .take(engine.alloc, state, &mut entry, text, report)
}

/// Takes a line, given without its LF and CR.
#[inline(always)]
fn take_line<H: EntryHandler>(
    engine: &Engine<'_, H>,
    state: &mut H::State,
    line: &[u8],
    lines: &mut LineReader,
    pending: &mut Pending,
) -> Result<(), RunFault>
    requires { H.is_ready engine.now.handler.now state.old }
    ensures taken { TakesEntry (H.fold engine.now.handler.now) (H.known state.old) (H.known state.new)
        (entry line.now engine.now.packing) pending.old.text.items pending.new.text.items pending.old.report.items
        pending.new.report.items result }
    ensures ready { OnOk result (H.is_ready engine.now.handler.now state.new) }
{
    let entry = lines.read_mut(line, engine.packing);
    let Pending { text, report } = pending;
    engine
        .handler
        .take(engine.alloc, state, entry, text, report)
}

/// Takes the next line of the log. This mostly reads, which may wait: so nothing may be pending.
fn take_next<H: EntryHandler, R: Source>(
    engine: &Engine<'_, H>,
    state: &mut H::State,
    blocks: &mut Blocks,
    reader: &mut R,
    lines: &mut LineReader,
    pending: &mut Pending,
) -> Result<(), RunFault>
    requires ready { H.is_ready engine.now.handler.now state.old }
    requires written { (pending.old.text.items ≡ []) × (pending.old.report.items ≡ []) }
    ensures taken { TakesNext (H.fold engine.now.handler.now) engine.now.packing (H.known state.old) (H.known state.new)
        blocks.old blocks.new (R.remaining reader.old) (R.remaining reader.new)
        pending.old.text.items pending.new.text.items pending.old.report.items pending.new.report.items result }
    ensures ready { OnOk result (H.is_ready engine.now.handler.now state.new) }
    ensures device { ReadsNext blocks.new (R.failed_calls reader.old) (R.failed_calls reader.new) result }
    ensures reads { ReadsBytes (idle_calls blocks.new.has_ended result) (R.remaining reader.old)
        (R.remaining reader.new) (R.calls reader.old) (R.calls reader.new) }
    ensures called { CallsAre (R.calls reader.old) (R.calls reader.new) blocks.old.reads blocks.new.reads }
{
    match blocks.next_line(reader) {
        Ok(Next::Line(line)) => take_line(engine, state, line, lines, pending),
        Ok(Next::Long) => take_long(engine, state, pending),
        Ok(Next::End) => Ok(()),
        Err(Failed) => Err(RunFault::Read),
    }
}

/// Takes the next line of the log, and then each line whose end the block has.
fn take_lines<H: EntryHandler, R: Source>(
    engine: &Engine<'_, H>,
    state: &mut H::State,
    blocks: &mut Blocks,
    reader: &mut R,
    lines: &mut LineReader,
    pending: &mut Pending,
) -> Result<(), RunFault>
    requires ready { H.is_ready engine.now.handler.now state.old }
    requires written { (pending.old.text.items ≡ []) × (pending.old.report.items ≡ []) }
    requires open { blocks.old.has_ended ≡ false }
    ensures taken { (s₀ : H.Known) (before now : Devices) → BetweenLines (H.fold engine.now.handler.now) engine.now.packing
        s₀ (H.known state.old) blocks.old pending.old.text.items pending.old.report.items before
        (read_on now (R.remaining reader.old) (R.calls reader.old) (R.failed_calls reader.old))
        → TakesLines (H.fold engine.now.handler.now) engine.now.packing s₀ (H.known state.new) blocks.new
        pending.new.text.items pending.new.report.items before now (R.remaining reader.new) (R.calls reader.new)
        (R.failed_calls reader.new) result }
    ensures proceeds { OnOk result (Proceeds (H.fold engine.now.handler.now) (H.known state.old) (H.known state.new)
        blocks.new.has_ended) }
    ensures ready { OnOk result (H.is_ready engine.now.handler.now state.new) }
{
    take_next(engine, state, blocks, reader, lines, pending)?;
    let held = blocks.held();
    let mut at = 0;
    while let Some(size) = line_end(&held[at..]) {
        let line = without_return(&held[at..at + size]);
        take_line(engine, state, line, lines, pending)?;
        at += size + 1;
    }
    blocks.skip(at);
    Ok(())
}

/// The run of a handler over a log, from a given state: the promise of every run.
pub(crate) fn run_entries<H: EntryHandler, R: Source, W: Sink, E: Sink>(
    alloc: Global,
    handler: &H,
    packing: Packing,
    state: &mut H::State,
    room: &mut RunRoom,
    reader: &mut R,
    writer: &mut W,
    reporter: &mut E,
) -> Result<(), RunFault>
    requires { H.is_ready handler.now state.old }
    ensures runs { let before = seen R.Source W.Sink E.Sink reader.old writer.old reporter.old in
        let after = seen R.Source W.Sink E.Sink reader.new writer.new reporter.new in
        Runs (output_from (H.fold handler.now) packing (H.known state.old))
        (λ es. H.known state.new ≡ after_all (H.fold handler.now) (H.known state.old) es) before after result }
    ensures ready { OnOk result (H.is_ready handler.now state.new) }
{
    let engine = Engine {
        alloc,
        handler,
        packing,
    };
    let RunRoom {
        blocks,
        pending,
        lines,
    } = room;
    blocks.restart();
    pending.clear();
    'lines: while !blocks.has_ended() {
        pending.write(writer, reporter)?;
        match take_lines(&engine, state, blocks, reader, lines, pending) {
            Ok(()) => {}
            Err(fault) => match fault {
                RunFault::Memory => return Err(fault),
                _ => {
                    pending.write(writer, reporter)?;
                    return Err(fault);
                }
            },
        }
    }
    pending.write(writer, reporter)
}
