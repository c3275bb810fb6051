//! Devices over the readers and writers of the standard library.
ghost use Rattle.std.specs.Prelude.{◌≡◌, ◌<◌, ◌≤◌, length, IfOk, IsErr, MatchResult, Ok};
ghost use Rattle.std.specs.Io.KnownBytes.{ReadConsumes, WriteAppends};
ghost use Rattle.n2k_run.specs.Device.{IsWhy};
ghost use Rattle.n2k_run.specs.Inner.Failures.{count_of, last_of, noted};

use crate::device::{Failed, Sink, Source};
use std::io;
use std::io::{Error, ErrorKind, Read, Write};

/// The most attempts at a call that signals interrupt, before it counts as failed.
const MOST_TRIES: u32 = 1000;

/// One read, repeated if a signal interrupts it.
fn read_retrying<R: Read>(reader: &mut R, buffer: &mut [u8]) -> io::Result<usize>
    ensures bound { IfOk result (λ n. n ≤ length buffer.new) }
    ensures bytes { ReadConsumes (R.remaining reader.old) (R.remaining reader.new) result buffer.new }
{
    for _ in 0..MOST_TRIES {
        match reader.read(buffer) {
            Err(error) if error.kind() == ErrorKind::Interrupted => {}
            answer => return answer,
        }
    }
    Err(Error::from(ErrorKind::Interrupted))
}

/// One write, repeated if a signal interrupts it. A writer that accepts none of some bytes has failed.
fn write_retrying<W: Write>(writer: &mut W, chunk: &[u8]) -> io::Result<usize>
    ensures bound { IfOk result (λ n. n ≤ length chunk.now) }
    ensures moves { IfOk result (λ n. 0 < length chunk.now → 0 < n) }
    ensures bytes { WriteAppends (W.contents writer.old) (W.contents writer.new) result chunk.now }
{
    for _ in 0..MOST_TRIES {
        match writer.write(chunk) {
            Ok(0) if !chunk.is_empty() => return Err(Error::from(ErrorKind::WriteZero)),
            Err(error) if error.kind() == ErrorKind::Interrupted => {}
            answer => return answer,
        }
    }
    Err(Error::from(ErrorKind::Interrupted))
}

/// The calls of a device that failed.
#[derive(Clone, Copy, Debug)]
struct Failures {
    /// The error of the last failed call.
    last: Error,
    /// The number of failed calls before the last, at most 2^64 - 1.
    before: u64,
}

/// Counts a failed call, and keeps its error.
fn note(answer: io::Result<usize>, failures: &mut Option<Failures>) -> Result<usize, Failed>
    ensures answered { MatchResult result (λ n. answer ≡ Ok n) (λ _. IsErr answer) }
    ensures noted { failures.new ≡ noted answer failures.old }
{
    if let Err(last) = answer {
        let before = match failures {
            Some(failures) => failures.before.saturating_add(1),
            None => 0,
        };
        *failures = Some(Failures { last, before });
    }
    answer.map_err(|_| Failed)
}

/// A reader of the standard library as a source.
#[derive(Drop)]
pub struct StdSource<R> {
    reader: R,
    calls: u64,
    failed_reads: Option<Failures>,
}

impl<R: Read> StdSource<R> {
    /// A source of the reader's bytes.
    ///
    /// ```rust
    /// let mut source = StdSource::new("abc".as_bytes());
    /// let mut buffer = [0; 8];
    /// assert_eq!(rt; source.read(&mut buffer), Ok(3));
    /// assert_eq!(rt; source.read(&mut buffer), Ok(0));
    /// ```
    pub fn new(reader: R) -> Self
        ensures bytes { ⟦<StdSource<R> as Source>⟧.remaining result ≡ R.remaining reader }
        ensures none_called { ⟦<StdSource<R> as Source>⟧.calls result ≡ 0 }
        ensures none_failed { ⟦<StdSource<R> as Source>⟧.failed_calls result ≡ 0 }
    {
        StdSource {
            reader,
            calls: 0,
            failed_reads: None,
        }
    }

    /// The error of the last call that failed. None if no call has.
    ///
    /// ```rust
    /// let mut source = StdSource::new("abc".as_bytes());
    /// assert_eq!(rt; source.read(&mut [0; 8]), Ok(3));
    /// assert!(rt; source.failure().is_none());
    /// ```
    pub fn failure(&self) -> Option<Error>
        ensures last { result ≡ ⟦<StdSource<R> as Source>⟧.why self.now }
        ensures told { IsWhy (⟦<StdSource<R> as Source>⟧.failed_calls self.now) result }
    {
        Some(self.failed_reads.as_ref()?.last)
    }
}

impl<R: Read> Source for StdSource<R> {
    ghost calls = { λ s. s.calls };

    ghost failed_calls = { λ s. count_of s.failed_reads };

    ghost why = { λ s. last_of s.failed_reads };

    ghost remaining = { λ s. R.remaining s.reader };

    fn read(&mut self, buffer: &mut [u8]) -> Result<usize, Failed> {
        let answer = read_retrying(&mut self.reader, buffer);
        self.calls = self.calls.saturating_add(1);
        note(answer, &mut self.failed_reads)
    }
}

/// A writer of the standard library as a sink.
#[derive(Drop)]
pub struct StdSink<W> {
    writer: W,
    failed_writes: Option<Failures>,
}

impl<W: Write> StdSink<W> {
    /// A sink whose bytes go to the writer.
    ///
    /// ```rust
    /// let mut text = Vec::new(alloc);
    /// let mut sink = StdSink::new(&mut text);
    /// assert_eq!(rt; sink.write(b"abc"), Ok(3));
    /// drop(sink);
    /// assert_eq!(rt; text.as_slice(), b"abc".as_slice());
    /// ```
    pub fn new(writer: W) -> Self
        ensures bytes { ⟦<StdSink<W> as Sink>⟧.contents result ≡ W.contents writer }
        ensures none_failed { ⟦<StdSink<W> as Sink>⟧.failed_calls result ≡ 0 }
    {
        StdSink {
            writer,
            failed_writes: None,
        }
    }

    /// The error of the last call that failed. None if no call has.
    ///
    /// ```rust
    /// let mut sink = StdSink::new(Vec::new(alloc));
    /// assert_eq!(rt; sink.write(b"abc"), Ok(3));
    /// assert!(rt; sink.failure().is_none());
    /// ```
    pub fn failure(&self) -> Option<Error>
        ensures last { result ≡ ⟦<StdSink<W> as Sink>⟧.why self.now }
        ensures told { IsWhy (⟦<StdSink<W> as Sink>⟧.failed_calls self.now) result }
    {
        Some(self.failed_writes.as_ref()?.last)
    }
}

impl<W: Write> Sink for StdSink<W> {
    ghost failed_calls = { λ s. count_of s.failed_writes };

    ghost why = { λ s. last_of s.failed_writes };

    ghost contents = { λ s. W.contents s.writer };

    fn write(&mut self, chunk: &[u8]) -> Result<usize, Failed> {
        let answer = write_retrying(&mut self.writer, chunk);
        note(answer, &mut self.failed_writes)
    }
}
