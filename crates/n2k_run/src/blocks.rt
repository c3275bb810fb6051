//! A log's bytes in blocks of a fixed size, and its lines, borrowed from the block.
ghost use Rattle.std.specs.Prelude.{◌≡◌, ◌⊎◌, ◌<◌, ◌≤◌, ◌+◌, [], false, length, IfOk, OnOk, OnErr};
ghost use Rattle.n2k_run.specs.Inner.Block.{FindsEnd, Judges};
ghost use Rattle.n2k_run.specs.Lines.{without_return};

use crate::device::{Failed, Source};
use crate::reading::MOST_READS;
use n2k_wire::LONGEST_LINE;
use std::marker::Model;

/// The bytes of a block.
pub(crate) const BLOCK: usize = 4096;

const LINE_FEED: u8 = b'\n';

const RETURN: u8 = b'\r';

/// The next line of a log.
#[derive(Drop)]
pub enum Next<'a> {
    /// A line of at most 2,048 bytes, without its LF and without one CR at its end. It borrows from the block.
    Line(&'a [u8]),
    /// A longer line. Its bytes have been skipped.
    Long,
    /// No further line.
    End,
}

/// The bytes of a log, at most 4,096 of them at once.
#[derive(Drop)]
pub struct Blocks {
    block: [u8; BLOCK],
    start: usize,
    end: usize,
    is_passing: bool,
    has_ended: bool,
    reads: u64,
}

impl Model for Blocks {
    ghost use Rattle.n2k_run.specs.Blocks.{BlocksView};

    ghost Value = { BlocksView };

    ghost use Rattle.n2k_run.specs.Inner.Block.{HasPlaces, block_view};

    ghost view = { block_view };

    ghost invariant = { HasPlaces };
}

/// The piece, without one carriage return at its end.
pub(crate) fn without_return(chunk: &[u8]) -> &[u8]
    ensures { result.now ≡ without_return chunk.now }
{
    match chunk {
        [line @ .., RETURN] => line,
        _ => chunk,
    }
}

/// The place of the first LF.
pub(crate) fn line_end(bytes: &[u8]) -> Option<usize>
    ensures { FindsEnd bytes.now result }
{
    memchr::memchr(LINE_FEED, bytes)
}

/// The result for a piece: its line, or `Long` if the line is over the limit or continues one that is.
fn next_of(chunk: &[u8], was_passing: bool) -> Next<'_>
    ensures { Judges was_passing (without_return chunk.now) result }
{
    let line = without_return(chunk);
    if was_passing || line.len() > LONGEST_LINE {
        return Next::Long;
    }
    Next::Line(line)
}

impl Blocks {
    ghost use Rattle.std.specs.Io.KnownBytes.{IsAtEnd};
    ghost use Rattle.std.specs.Io.BufRead.{Rests};
    ghost use Rattle.std.specs.Borrow.{sem};
    ghost use Rattle.n2k_run.specs.contracts.blocks.Blocks.{the_row};
    ghost use Rattle.n2k_run.specs.Blocks.{unanswered, HasFeed, HasNoFeed, Answers, AnswersKnown};
    ghost use Rattle.n2k_run.specs.Device.{CountsFailure, HasFailed, one_more};
    ghost use Rattle.n2k_run.specs.Inner.Block.{HasLine, MakesRoom, Reads, held_lines, skipped};
    ghost use Rattle.n2k_run.specs.Reading.{idle_calls, most_reads};
    ghost use Rattle.n2k_run.specs.Inner.Reading.{Gains};

    /// A block before the first read.
    ///
    /// ```rust
    /// let mut source = StdSource::new("one\r\ntwo".as_bytes());
    /// let mut blocks = Blocks::new();
    /// let next = blocks.next_line(&mut source);
    /// assert!(rt; matches!(next, Ok(Next::Line(line)) if line == b"one".as_slice()));
    /// ```
    pub fn new() -> Self
        ensures { result ≡ record {
          kept = [];
          is_passing = false;
          has_ended = false;
          reads = 0;
          room = BLOCK;
        } }
    {
        Blocks {
            block: [0; BLOCK],
            start: 0,
            end: 0,
            is_passing: false,
            has_ended: false,
            reads: 0,
        }
    }

    /// As before the first read. The block keeps its bytes, and none of them is returned.
    pub(crate) fn restart(&mut self)
        ensures { self.new ≡ record {
          kept = [];
          is_passing = false;
          has_ended = false;
          reads = 0;
          room = BLOCK;
        } }
    {
        self.start = 0;
        self.end = 0;
        self.is_passing = false;
        self.has_ended = false;
        self.reads = 0;
    }

    /// Whether the last result was given at the end of the source, so that another read can find nothing.
    pub(crate) fn has_ended(&self) -> bool
        ensures { result ≡ self.now.has_ended }
    {
        self.has_ended
    }

    /// The bytes not yet returned, or none if they continue a long line.
    pub(crate) fn held(&self) -> &[u8]
        ensures { result.now ≡ held_lines self.now }
    {
        if self.is_passing {
            return &[];
        }
        self.kept()
    }

    /// Discards the first of these bytes.
    pub(crate) fn skip(&mut self, count: usize)
        requires { count ≤ length self.old.kept }
        ensures { self.new ≡ skipped count self.old }
    {
        self.start += count;
    }

    /// The bytes that came and were not returned yet.
    fn kept(&self) -> &[u8]
        ensures { result.now ≡ self.now.kept }
    {
        &self.block[self.start..self.end]
    }

    /// The next line of the bytes not yet returned and of the source's remaining bytes. If the block has no line's end,
    /// it reads, each call with room for as much as the block takes: at most 10^12 reads in all. `Failed` if the source
    /// failed in this call, or if these reads are used up. No line is lost: a later call continues from there. It needs
    /// no memory.
    ///
    /// ```rust
    /// let mut source = StdSource::new("one\r\ntwo".as_bytes());
    /// let mut blocks = Blocks::new();
    /// let next = blocks.next_line(&mut source);
    /// assert!(rt; matches!(next, Ok(Next::Line(line)) if line == b"one".as_slice()));
    /// let next = blocks.next_line(&mut source);
    /// assert!(rt; matches!(next, Ok(Next::Line(line)) if line == b"two".as_slice()));
    /// assert!(rt; matches!(blocks.next_line(&mut source), Ok(Next::End)));
    /// ```
    pub fn next_line<R: Source>(&mut self, reader: &mut R) -> Result<Next<'_>, Failed>
        ensures* answers { sem 𝓛 (Rests the_row self.entry (λ new.
            Answers self.old new (R.remaining reader.old) (R.remaining reader.new) (R.calls reader.old)
            (R.calls reader.new) result
            × AnswersKnown self.old new (R.remaining reader.old) (R.remaining reader.new) result
            × OnErr result (HasFailed (R.failed_calls reader.old) (R.failed_calls reader.new)
            ⊎ ((new.reads ≡ most_reads) × (R.failed_calls reader.new ≡ R.failed_calls reader.old))))) }
        ensures quiet { HasFeed self.old.kept → reader.new ≡ reader.old }
        ensures none_failed { OnOk result (R.failed_calls reader.new ≡ R.failed_calls reader.old) }
    {
        let size = self.find_end(reader)?;
        let (start, was_passing) = (self.start, self.is_passing);
        self.start = self.end.min(start + size + 1);
        self.is_passing = false;
        if self.has_ended && size == 0 && !was_passing {
            return Ok(Next::End);
        }
        let block = &self.block;
        Ok(next_of(&block[start..start + size], was_passing))
    }

    /// The size of the first line, without its end. Reads until its end or the end of the source has come.
    fn find_end<R: Source>(&mut self, reader: &mut R) -> Result<usize, Failed>
        ensures found { IfOk result (λ size. HasLine self.new.kept size self.new.has_ended (R.remaining reader.new)) }
        ensures none { OnErr result (HasNoFeed self.new.kept) }
        ensures reads { Reads (idle_calls self.new.has_ended result) self.old self.new (R.remaining reader.old)
            (R.remaining reader.new) (R.calls reader.old) (R.calls reader.new) }
        ensures quiet { HasFeed self.old.kept → reader.new ≡ reader.old }
        ensures none_failed { OnOk result (R.failed_calls reader.new ≡ R.failed_calls reader.old) }
        ensures failed { OnErr result (HasFailed (R.failed_calls reader.old) (R.failed_calls reader.new)
            ⊎ ((self.new.reads ≡ most_reads) × (R.failed_calls reader.new ≡ R.failed_calls reader.old))) }
    {
        loop {
            if let Some(size) = line_end(self.kept()) {
                self.has_ended = false;
                return Ok(size);
            }
            if self.reads == MOST_READS {
                return Err(Failed);
            }
            self.make_room();
            if self.read_some(reader)? == 0 {
                self.has_ended = true;
                return Ok(self.kept().len());
            }
        }
    }

    /// Makes room for a read: moves the kept bytes to the start of the block, or discards them if no line can be so
    /// long.
    fn make_room(&mut self)
        requires { HasNoFeed self.old.kept }
        ensures stays { MakesRoom (unanswered self.old) (unanswered self.new) }
        ensures no_feed { HasNoFeed self.new.kept }
        ensures room { 0 < self.new.room }
        ensures reads { self.new.reads ≡ self.old.reads }
    {
        if self.is_passing || self.end - self.start == BLOCK {
            self.is_passing = true;
            self.start = 0;
            self.end = 0;
        } else {
            self.block.copy_within(self.start..self.end, 0);
            self.end -= self.start;
            self.start = 0;
        }
    }

    /// One read, after the kept bytes. Returns the number of bytes read.
    fn read_some<R: Source>(&mut self, reader: &mut R) -> Result<usize, Failed>
        requires room { 0 < self.old.room }
        requires few { self.old.reads < most_reads }
        ensures gains { Gains self.old.kept self.new.kept (R.remaining reader.old) (R.remaining reader.new) }
        ensures end { IfOk result (λ count. count ≡ 0 → (self.new.kept ≡ self.old.kept)
            × IsAtEnd (R.remaining reader.new)) }
        ensures count { IfOk result (λ count. length self.new.kept ≡ length self.old.kept + count) }
        ensures failed { OnErr result (self.new.kept ≡ self.old.kept) }
        ensures passing { self.new.is_passing ≡ self.old.is_passing }
        ensures reads { self.new.reads ≡ self.old.reads + 1 }
        ensures counted { CountsFailure (R.failed_calls reader.old) (R.failed_calls reader.new) result }
        ensures called { R.calls reader.new ≡ one_more (R.calls reader.old) }
    {
        self.reads += 1;
        let count = reader.read(&mut self.block[self.end..])?;
        self.end += count;
        Ok(count)
    }
}
