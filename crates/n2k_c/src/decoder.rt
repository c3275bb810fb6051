//! A decoder or encoder that is kept between calls.
ghost use Rattle.std.specs.Prelude.{◌≡◌, ◌≢◌, ◌<◌, ◌≤◌, ℕ, true, false, List, [], Err, IfOk, IfErr, OnOk, MatchResult, length, option_map, take};
ghost use Rattle.std.specs.Io.{IsEmptyOrEndsWith};
ghost use Rattle.memchr.specs.Find.{NoneAfter, Nowhere, Passes, is_byte};
ghost use Rattle.n2k_join.specs.Refusal.{GivesOrMemory};
ghost use Rattle.n2k_join.specs.declared.fault.StateFault.TheVariants.{Memory};
ghost use Rattle.n2k_wire.specs.Candump.{frame_payload};
ghost use Rattle.n2k_table.specs.Table.{TableParts};
ghost use Rattle.n2k_run.specs.declared.options.Options.{Options};
ghost use Rattle.n2k_run.specs.Decoded.{out, reports};
ghost use Rattle.n2k_run.specs.Inner.Block.{FindsEnd};
ghost use Rattle.n2k_run.specs.Lines.{line_feed};
ghost use Rattle.n2k_run.specs.Parts.{IsPrefix, begun};
ghost use Rattle.n2k_c.specs.declared.refusal.Refusal.TheVariants.{Room};
ghost use Rattle.n2k_c.specs.Answers.{EndsLog, Feeds, Fills, HasCounts, HasRoom, IsStateOf, Prints, PrintsNext, ClosesDecoder, TakesReports, Waits, WantsRoom};
ghost use Rattle.n2k_c.specs.Inner.{NotSavedOf, RunsCut};
ghost use Rattle.n2k_c.specs.Job.{Job, decoding, encoding};
ghost use Rattle.n2k_c.specs.Frame.{frame_line};
ghost use Rattle.n2k_c.specs.Queue.{first_line};
ghost use Rattle.n2k_c.specs.Stands.{HasTaken, Stands, is_encoder};

use crate::frame::{Frame, line_of};
use crate::queue::Queue;
use crate::refusal::Refusal;
use crate::work::{Decoding, Work};
use memchr::{memchr, memrchr};
use n2k_encode_run::Encoding;
use n2k_join::{Counts, Join, StateFault};
use n2k_run::{Options, RunFault, RunRoom};
use n2k_table::Table;
use std::alloc::Global;
use std::sync::Arc;

/// What is kept: the table, what is done with the lines, a line that is cut, and the texts that wait.
#[derive(Drop)]
pub struct Decoder {
    pub table: Arc<Table, Global>,
    pub work: Work,
    pub ended: bool,
    pub cut: Vec<u8>,
    pub output: Queue,
    pub reports: Queue,
}

/// The join that a log begins with, or goes on with.
fn begin(
    alloc: Global,
    table: &Table,
    options: &Options,
    handed: Option<&[u8]>,
) -> Result<Join, StateFault>
    ensures { GivesOrMemory (λ join. join) result (begun table.now options.now
        (option_map (λ bytes. bytes.now) handed.entry)) }
{
    match handed {
        None => Ok(Join::new(alloc, table, options.window)),
        Some(bytes) => Join::resume(alloc, table, options.window, bytes),
    }
}

/// A decoder that goes on from a saved state, or begins a log.
pub fn open(
    alloc: Global,
    table: Arc<Table, Global>,
    options: Options,
    handed: Option<&[u8]>,
) -> Result<Decoder, StateFault>
    ensures stands { IfOk result (λ d. (prefix : List ℕ)
        → IsPrefix table.value options prefix (option_map (λ bytes. bytes.now) handed.entry)
        → Stands table.value (decoding options) prefix false (out table.value options prefix) (reports table.value options prefix) d) }
    ensures refused { IfErr result (λ fault. fault ≢ Memory
        → begun table.value options (option_map (λ bytes. bytes.now) handed.entry) ≡ Err fault) }
{
    let join = begin(alloc, &table, &options, handed)?;
    let Options { packing, empty, .. } = options;
    let decoding = Decoding {
        join,
        packing,
        empty,
        room: RunRoom::new(alloc),
    };
    Ok(Decoder::new(alloc, table, Work::Decodes(decoding)))
}

/// An encoder before the first line.
pub fn open_encoder(alloc: Global, table: Arc<Table, Global>, nearest: bool) -> Decoder
    ensures { Stands table.value (encoding nearest) [] false [] [] result }
{
    Decoder::new(alloc, table, Work::Encodes(Encoding::new(alloc, nearest)))
}

impl Decoder {
    /// Nothing was fed.
    fn new(alloc: Global, table: Arc<Table, Global>, work: Work) -> Decoder
        ensures table { result.table.value ≡ table.value }
        ensures work { result.work ≡ work }
        ensures ended { result.ended ≡ false }
        ensures cut { result.cut.items ≡ [] }
        ensures output { result.output.held ≡ [] }
        ensures reports { result.reports.held ≡ [] }
    {
        Decoder {
            table,
            work,
            ended: false,
            cut: Vec::new(alloc),
            output: Queue::new(alloc),
            reports: Queue::new(alloc),
        }
    }

    /// Takes the line that is cut as it is.
    fn run_cut(&mut self, alloc: Global) -> Result<(), RunFault>
        ensures log { OnOk result (self.new.ended ≡ self.old.ended) }
        ensures cut { OnOk result (self.new.cut.items ≡ []) }
        ensures runs { (t : TableParts) (job : Job) (taken printed reported : List ℕ)
            → IsEmptyOrEndsWith taken line_feed → HasTaken t job taken printed reported self.old
            → RunsCut t job taken printed reported self.old self.new result }
    {
        let Decoder {
            table,
            work,
            cut,
            output,
            reports,
            ..
        } = self;
        match work.take(alloc, table, cut, output, reports) {
            Ok(()) => {
                cut.clear();
                Ok(())
            }
            Err(fault) => Err(fault),
        }
    }

    /// Takes more of a log: its lines as they complete. After a refusal it is spent.
    pub fn feed(&mut self, alloc: Global, bytes: &[u8]) -> Result<(), Refusal>
        ensures { MatchResult result (λ _. Feeds bytes.now self.old self.new) (ClosesDecoder bytes.now self.old) }
    {
        match memrchr(b'\n', bytes) {
            None => self.wait(bytes),
            Some(last) => self.take_lines(alloc, bytes, last),
        }
    }

    /// Lets bytes wait in which no line ends.
    fn wait(&mut self, bytes: &[u8]) -> Result<(), Refusal>
        requires { Nowhere (Passes (is_byte 10) bytes.now) 0 (length bytes.now) }
        ensures { MatchResult result (λ _. Feeds bytes.now self.old self.new) (ClosesDecoder bytes.now self.old) }
    {
        self.cut.extend_from_slice(bytes)?;
        Ok(())
    }

    /// Takes the lines of bytes in which the last one ends there; the rest waits.
    fn take_lines(&mut self, alloc: Global, bytes: &[u8], last: usize) -> Result<(), Refusal>
        requires after { NoneAfter (Passes (is_byte 10) bytes.now) 0 (length bytes.now) last }
        requires here { Passes (is_byte 10) bytes.now last }
        ensures { MatchResult result (λ _. Feeds bytes.now self.old self.new) (ClosesDecoder bytes.now self.old) }
    {
        let (lines, rest) = bytes.split_at(last + 1);
        self.cut.extend_from_slice(lines)?;
        match self.run_cut(alloc) {
            Ok(()) => {}
            Err(fault) => return Err(Refusal::from(fault)),
        }
        self.cut.extend_from_slice(rest)?;
        Ok(())
    }

    /// Takes the candump line of a frame. After a refusal the decoder can't be used.
    pub fn take_frame(&mut self, alloc: Global, frame: &Frame<'_>) -> Result<(), Refusal>
        requires short { length frame.now.«data».now ≤ frame_payload }
        requires time { frame.now.nanoseconds < 1000000000 }
        ensures { let line = frame_line frame.now.identifier frame.now.«data».now frame.now.seconds frame.now.nanoseconds in
            MatchResult result (λ _. Feeds line self.old self.new) (ClosesDecoder line self.old) }
    {
        match line_of(alloc, frame) {
            Ok(line) => self.feed(alloc, &line),
            Err(_) => Err(Refusal::Memory),
        }
    }

    /// Takes the line that is cut as the log's last. After a refusal it is spent.
    pub fn end(&mut self, alloc: Global) -> Result<(), Refusal>
        ensures { MatchResult result (λ _. EndsLog self.old self.new) (ClosesDecoder [] self.old) }
    {
        match self.run_cut(alloc) {
            Ok(()) => {
                self.ended = true;
                Ok(())
            }
            Err(fault) => Err(Refusal::from(fault)),
        }
    }

    /// Moves the waiting output to a room, if it fits.
    pub fn take_output(&mut self, room: &mut [u8], wanted: &mut usize) -> Result<(), Refusal>
        ensures { MatchResult result (λ _. Fills room.old room.new wanted.new × Prints (take wanted.new room.new) self.old self.new)
            (λ refusal. (refusal ≡ Room) × (self.new ≡ self.old)
            × WantsRoom self.old.output.held room.old room.new wanted.new) }
    {
        drain(&mut self.output, room, wanted)
    }

    /// Moves the first line of the waiting output to a room, if it fits.
    pub fn take_next(&mut self, room: &mut [u8], wanted: &mut usize) -> Result<(), Refusal>
        ensures { MatchResult result (λ _. Fills room.old room.new wanted.new × PrintsNext (take wanted.new room.new) self.old self.new)
            (λ refusal. (refusal ≡ Room) × (self.new ≡ self.old)
            × WantsRoom (first_line self.old.output.held) room.old room.new wanted.new) }
    {
        put(room, first_line(self.output.bytes()), wanted)?;
        self.output.advance(*wanted);
        Ok(())
    }

    /// Moves the waiting reports to a room, if they fit.
    pub fn take_reports(&mut self, room: &mut [u8], wanted: &mut usize) -> Result<(), Refusal>
        ensures { MatchResult result (λ _. Fills room.old room.new wanted.new × TakesReports (take wanted.new room.new) self.old self.new)
            (λ refusal. (refusal ≡ Room) × (self.new ≡ self.old)
            × WantsRoom self.old.reports.held room.old room.new wanted.new) }
    {
        drain(&mut self.reports, room, wanted)
    }

    /// The counts of the lines that were taken.
    pub fn counts(&self) -> Counts
        ensures { HasCounts result self.now }
    {
        self.work.counts()
    }

    /// How many bytes wait of a line that has not ended.
    pub fn waiting(&self) -> usize
        ensures { Waits result self.now }
    {
        self.cut.len()
    }

    /// Whether an unfinished line is waiting.
    pub fn is_cut(&self) -> bool
        ensures yes { result ≡ true → (size : ℕ) × (0 < size) × Waits size self.now }
        ensures no { result ≡ false → Waits 0 self.now }
    {
        self.waiting() > 0
    }

    /// Whether it encodes.
    pub fn is_encoder(&self) -> bool
        ensures { result ≡ is_encoder self.now.work }
    {
        self.work.is_encoder()
    }

    /// The state after the lines that were taken.
    pub fn save(&self, alloc: Global) -> Result<Vec<u8>, Refusal>
        ensures { MatchResult result (λ text. IsStateOf text.items self.now) (NotSavedOf self.now.work) }
    {
        self.work.save(alloc)
    }
}

/// Puts a text at the beginning of a room, if it fits; in any case returns its size.
pub fn put(room: &mut [u8], text: &[u8], wanted: &mut usize) -> Result<(), Refusal>
    ensures { MatchResult result (λ _. HasRoom text.now room.old room.new wanted.new)
        (λ refusal. (refusal ≡ Room) × WantsRoom text.now room.old room.new wanted.new) }
{
    *wanted = text.len();
    if text.len() > room.len() {
        return Err(Refusal::Room);
    }
    room[..text.len()].copy_from_slice(text);
    Ok(())
}

/// The place of the first line feed.
fn line_end(bytes: &[u8]) -> Option<usize>
    ensures { FindsEnd bytes.now result }
{
    memchr(b'\n', bytes)
}

/// The bytes up to and including the first line feed, or all bytes if there is none.
#[tactic(auto, using(crate::proofs::Queues::line_found, crate::proofs::Queues::no_line))]
fn first_line(bytes: &[u8]) -> &[u8]
    ensures value { result.now ≡ first_line bytes.now }
    ensures within { length result.now ≤ length bytes.now }
{
    match line_end(bytes) {
        Some(end) => &bytes[..end + 1],
        None => bytes,
    }
}

/// Moves a waiting text to a room, if it fits.
fn drain(waiting: &mut Queue, room: &mut [u8], wanted: &mut usize) -> Result<(), Refusal>
    ensures { MatchResult result (λ _. HasRoom waiting.old.held room.old room.new wanted.new × (waiting.new.held ≡ []))
        (λ refusal. (refusal ≡ Room) × (waiting.new ≡ waiting.old)
        × WantsRoom waiting.old.held room.old room.new wanted.new) }
{
    put(room, waiting.bytes(), wanted)?;
    waiting.clear();
    Ok(())
}
