//! The counts of a run, and its unwritten texts.
ghost use Rattle.std.specs.Prelude.{◌≡◌, ◌<◌, ◌≤◌, [], length, take, IfErr, IfOk, OnOk};
ghost use Rattle.std.specs.Io.KnownBytes.{Consumes, IsAtEnd, Keeps};
ghost use Rattle.n2k_run.specs.Device.{one_more};
ghost use Rattle.n2k_run.specs.Inner.Engine.{FailsPending, WritesPending};
ghost use Rattle.n2k_encode_run.specs.Inner.Writing.{Settles};

use n2k_join::Counts;
use n2k_run::{RunFault, Sink, Source, write_all};
use std::alloc::Global;

/// The counts of a run, and its unwritten texts and reports.
#[derive(Drop)]
pub(crate) struct Ledger {
    pub(crate) counts: Counts,
    pub(crate) text: Vec<u8>,
    pub(crate) report: Vec<u8>,
}

impl Ledger {
    /// The ledger after lines with these counts, whose texts are written.
    pub(crate) fn new(alloc: Global, counts: Counts) -> Ledger
        ensures counts { result.counts ≡ counts }
        ensures text { result.text.items ≡ [] }
        ensures report { result.report.items ≡ [] }
    {
        Ledger {
            counts,
            text: Vec::new(alloc),
            report: Vec::new(alloc),
        }
    }

    /// Reads into the block once, and returns the number of bytes. A read may wait, so nothing may be pending.
    pub(crate) fn read_block<R: Source>(
        &self,
        reader: &mut R,
        block: &mut [u8],
    ) -> Result<usize, RunFault>
        requires room { 0 < length block.old }
        requires written { (self.now.text.items ≡ []) × (self.now.report.items ≡ []) }
        ensures bytes { IfOk result (λ n. Consumes (R.remaining reader.old) (R.remaining reader.new) (take n block.new)) }
        ensures bound { IfOk result (λ n. n ≤ length block.new) }
        ensures end { IfOk result (λ n. n ≡ 0 → IsAtEnd (R.remaining reader.new)) }
        ensures none_failed { OnOk result (R.failed_calls reader.new ≡ R.failed_calls reader.old) }
        ensures failed { IfErr result (λ fault. (fault ≡ RunFault.Read)
            × Keeps (R.remaining reader.old) (R.remaining reader.new)
            × (R.failed_calls reader.new ≡ one_more (R.failed_calls reader.old))) }
        ensures called { R.calls reader.new ≡ one_more (R.calls reader.old) }
    {
        reader.read(block).map_err(|_| RunFault::Read)
    }

    /// Writes the pending texts, the reports first. If a device fails, a prefix of its text has been written.
    pub(crate) fn write<W: Sink, E: Sink>(
        &mut self,
        writer: &mut W,
        reporter: &mut E,
    ) -> Result<(), RunFault>
        ensures written { WritesPending self.old.text.items self.old.report.items (W.contents writer.old)
            (W.contents writer.new) (E.contents reporter.old) (E.contents reporter.new) result }
        ensures device { FailsPending (W.failed_calls writer.old) (W.failed_calls writer.new)
            (E.failed_calls reporter.old) (E.failed_calls reporter.new) result }
        ensures none_pending { OnOk result ((self.new.text.items ≡ []) × (self.new.report.items ≡ [])) }
        ensures counts { self.new.counts ≡ self.old.counts }
    {
        write_all(reporter, &self.report).map_err(|_| RunFault::Report)?;
        self.report.clear();
        write_all(writer, &self.text).map_err(|_| RunFault::Write)?;
        self.text.clear();
        Ok(())
    }

    /// Writes the pending texts, unless memory was refused, and returns the result of taking the lines. Before TooManyLines
    /// there are lines to write.
    pub(crate) fn settle<W: Sink, E: Sink>(
        &mut self,
        taken: Result<(), RunFault>,
        writer: &mut W,
        reporter: &mut E,
    ) -> Result<(), RunFault>
        ensures settled { Settles taken self.old.text.items self.old.report.items (W.contents writer.old)
            (W.contents writer.new) (E.contents reporter.old) (E.contents reporter.new) (W.failed_calls writer.old)
            (W.failed_calls writer.new) (E.failed_calls reporter.old) (E.failed_calls reporter.new) result }
        ensures none_pending { OnOk result ((self.new.text.items ≡ []) × (self.new.report.items ≡ [])) }
        ensures counts { self.new.counts ≡ self.old.counts }
    {
        match taken {
            Ok(()) => self.write(writer, reporter),
            Err(RunFault::TooManyLines) => {
                self.write(writer, reporter)?;
                Err(RunFault::TooManyLines)
            }
            Err(fault) => Err(fault),
        }
    }
}
