//! What is done with the lines of a log: they are decoded or encoded.
ghost use Rattle.std.specs.Prelude.{◌≡◌, ℕ, List, MatchResult};
ghost use Rattle.std.specs.Io.{IsEmptyOrEndsWith};
ghost use Rattle.n2k_table.specs.Table.{TableParts};
ghost use Rattle.n2k_run.specs.Lines.{line_feed};
ghost use Rattle.n2k_c.specs.Inner.{IsSavedOf, NotSavedOf, RunsMore};
ghost use Rattle.n2k_c.specs.Job.{AreCounts, Job};
ghost use Rattle.n2k_c.specs.Stands.{IsAfter, is_encoder};

use crate::queue::Queue;
use crate::refusal::Refusal;
use n2k_encode_run::Encoding;
use n2k_join::{Counts, Join};
use n2k_run::{Options, RunFault, RunRoom, run_more};
use n2k_table::Table;
use n2k_wire::Packing;
use std::alloc::Global;

/// A decoder's join after the lines so far, how it reads and prints lines, and the room of its runs.
#[derive(Drop)]
pub struct Decoding {
    pub join: Join,
    pub packing: Packing,
    pub empty: bool,
    pub room: RunRoom,
}

/// What is done with the lines.
#[derive(Drop)]
pub enum Work {
    /// They are decoded.
    Decodes(Decoding),
    /// They are lines of JSON, and are encoded.
    Encodes(Encoding),
}

impl Work {
    /// Takes more lines. After a fault it can't be used further.
    pub fn take(
        &mut self,
        alloc: Global,
        table: &Table,
        more: &[u8],
        output: &mut Queue,
        reports: &mut Queue,
    ) -> Result<(), RunFault>
        ensures { (job : Job) (taken : List ℕ) → IsEmptyOrEndsWith taken line_feed
            → IsAfter table.now job taken self.old
            → RunsMore table.now job taken more.now self.new output.old.held output.new.held reports.old.held
            reports.new.held result }
    {
        match self {
            Work::Decodes(decoding) => {
                let options = Options {
                    packing: decoding.packing,
                    empty: decoding.empty,
                    window: decoding.join.window(),
                };
                run_more(
                    alloc,
                    table,
                    &mut decoding.join,
                    options,
                    more,
                    &mut decoding.room,
                    output,
                    reports,
                )
            }
            Work::Encodes(encoding) => encoding.take(alloc, table, more, output, reports),
        }
    }

    /// The counts of the lines so far.
    pub fn counts(&self) -> Counts
        ensures { (t : TableParts) (job : Job) (taken : List ℕ) → IsAfter t job taken self.now
            → AreCounts t job taken result }
    {
        match self {
            Work::Decodes(decoding) => decoding.join.counts(),
            Work::Encodes(encoding) => encoding.counts(),
        }
    }

    /// Whether the lines are encoded.
    pub fn is_encoder(&self) -> bool
        ensures { result ≡ is_encoder self.now }
    {
        match self {
            Work::Decodes(_) => false,
            Work::Encodes(_) => true,
        }
    }

    /// The state after the lines so far. An encoder has none.
    pub fn save(&self, alloc: Global) -> Result<Vec<u8>, Refusal>
        ensures { MatchResult result (λ text. IsSavedOf text.items self.now) (NotSavedOf self.now) }
    {
        match self {
            Work::Decodes(decoding) => {
                let text = decoding.join.save(alloc)?;
                Ok(text)
            }
            Work::Encodes(_) => Err(Refusal::Encoder),
        }
    }
}
