//! Devices in memory, for tests: each call moves a given number of bytes, and a given call fails.

use crate::device::{Failed, Sink, Source};
use std::alloc::Global;
use std::marker::Model;

/// A source of bytes in memory.
#[derive(Drop)]
pub struct MemorySource<'a> {
    left: &'a [u8],
    chunk: usize,
    fails_at: u64,
    calls: u64,
    failed_calls: u64,
}

impl<'a> Model for MemorySource<'a> {
    ghost use Rattle.std.specs.Prelude.{◌<◌};
    ghost use Rattle.n2k_run.specs.Memory.{Supply};

    ghost Value = { Supply };

    ghost view = { λ s. record {
      left = s.left.now;
      chunk = s.chunk;
      fails_at = s.fails_at;
      calls = s.calls;
      failed_calls = s.failed_calls;
    } };

    ghost invariant = { λ s. 0 < s.chunk };
}

impl<'a> MemorySource<'a> {
    ghost use Rattle.std.specs.Prelude.{◌≡◌, ◌<◌};

    /// A source of these bytes. A call moves `chunk` bytes, or fewer if fewer are requested or left; call number
    /// `fail_at`, counted from 1, fails (0: none).
    ///
    /// ```rust
    /// let mut source = MemorySource::new(b"abcde", 3, 2);
    /// let mut buffer = [0; 8];
    /// assert_eq!(rt; source.read(&mut buffer), Ok(3));
    /// assert!(rt; buffer.starts_with(b"abc"));
    /// assert_eq!(rt; source.read(&mut buffer), Err(Failed));
    /// assert_eq!(rt; source.read(&mut buffer), Ok(2));
    /// assert_eq!(rt; source.read(&mut buffer), Ok(0));
    /// ```
    pub fn new(bytes: &'a [u8], chunk: usize, fail_at: u64) -> Self
        requires { 0 < chunk }
        ensures { result ≡ record {
          left = bytes.now;
          chunk = chunk;
          fails_at = fail_at;
          calls = 0;
          failed_calls = 0;
        } }
    {
        MemorySource {
            left: bytes,
            chunk,
            fails_at: fail_at,
            calls: 0,
            failed_calls: 0,
        }
    }
}

impl<'a> Source for MemorySource<'a> {
    ghost use Rattle.std.specs.Prelude.{◌≡◌, ◌≤◌, ◌↔◌, min, length, take, IsErr, IfOk, OnErr, Some};
    ghost use Rattle.std.specs.Io.KnownBytes.{ReadConsumes};
    ghost use Rattle.n2k_run.specs.Device.{CountsFailure, one_more};
    ghost use Rattle.n2k_run.specs.Memory.{after_read, after_failed_read};

    ghost calls = { λ s. s.calls };

    ghost failed_calls = { λ s. s.failed_calls };

    ghost remaining = { λ s. Some s.left };

    fn read(&mut self, buffer: &mut [u8]) -> Result<usize, Failed>
        ensures bound { IfOk result (λ n. n ≤ length buffer.new) }
        ensures bytes { ReadConsumes (Some self.old.left) (Some self.new.left) result buffer.new }
        ensures called { self.new.calls ≡ one_more self.old.calls }
        ensures counted { CountsFailure self.old.failed_calls self.new.failed_calls result }

        ensures fails { IsErr result ↔ (self.old.fails_at ≡ 1) }
        ensures count { IfOk result (λ n. n ≡ min self.old.chunk (min (length buffer.old) (length self.old.left))) }
        ensures given { IfOk result (λ n. take n buffer.new ≡ take n self.old.left) }
        ensures device { IfOk result (λ n. self.new ≡ after_read self.old n) }
        ensures failed_device { OnErr result (self.new ≡ after_failed_read self.old) }
    {
        let fails = self.fails_at == 1;
        self.fails_at = self.fails_at.saturating_sub(1);
        self.calls = self.calls.saturating_add(1);
        if fails {
            self.failed_calls = self.failed_calls.saturating_add(1);
            return Err(Failed);
        }
        let count = self.chunk.min(buffer.len()).min(self.left.len());
        let (given, left) = self.left.split_at(count);
        buffer[..count].copy_from_slice(given);
        self.left = left;
        Ok(count)
    }
}

/// A sink of bytes in memory.
#[derive(Drop)]
pub struct MemorySink {
    held: Vec<u8>,
    chunk: usize,
    fails_at: u64,
    failed_calls: u64,
}

impl Model for MemorySink {
    ghost use Rattle.std.specs.Prelude.{◌<◌};
    ghost use Rattle.n2k_run.specs.Memory.{Store};

    ghost Value = { Store };

    ghost view = { λ s. record {
      held = s.held.items;
      chunk = s.chunk;
      fails_at = s.fails_at;
      failed_calls = s.failed_calls;
    } };

    ghost invariant = { λ s. 0 < s.chunk };
}

impl MemorySink {
    ghost use Rattle.std.specs.Prelude.{◌≡◌, ◌<◌, []};

    /// An empty sink. A call moves `chunk` bytes, or fewer if fewer are given; call number `fail_at`, counted from 1,
    /// fails (0: none), and so does a call if memory is refused.
    ///
    /// ```rust
    /// let mut sink = MemorySink::new(alloc, 3, 2);
    /// assert_eq!(rt; sink.write(b"abcde"), Ok(3));
    /// assert_eq!(rt; sink.write(b"de"), Err(Failed));
    /// assert_eq!(rt; sink.write(b"de"), Ok(2));
    /// assert_eq!(rt; sink.bytes(), b"abcde".as_slice());
    /// ```
    pub fn new(alloc: Global, chunk: usize, fail_at: u64) -> Self
        requires { 0 < chunk }
        ensures { result ≡ record { held = []; chunk = chunk; fails_at = fail_at; failed_calls = 0 } }
    {
        MemorySink {
            held: Vec::new(alloc),
            chunk,
            fails_at: fail_at,
            failed_calls: 0,
        }
    }

    /// The bytes that were written.
    ///
    /// ```rust
    /// let mut sink = MemorySink::new(alloc, 1, 0);
    /// assert_eq!(rt; write_all(&mut sink, b"abc"), Ok(()));
    /// assert_eq!(rt; sink.bytes(), b"abc".as_slice());
    /// ```
    pub fn bytes(&self) -> &[u8]
        ensures { result.now ≡ self.now.held }
    {
        &self.held
    }

    /// Discards the written bytes, and keeps their room for later ones.
    ///
    /// ```rust
    /// let mut sink = MemorySink::new(alloc, 4, 0);
    /// assert_eq!(rt; sink.write(b"abc"), Ok(3));
    /// sink.clear();
    /// assert_eq!(rt; sink.bytes(), b"".as_slice());
    /// assert_eq!(rt; sink.write(b"de"), Ok(2));
    /// assert_eq!(rt; sink.bytes(), b"de".as_slice());
    /// ```
    pub fn clear(&mut self)
        ensures { self.new ≡ record self.old { held = [] } }
    {
        self.held.clear();
    }
}

impl Sink for MemorySink {
    ghost use Rattle.std.specs.Prelude.{◌≡◌, ◌<◌, ◌≤◌, min, length, take, IsErr, IfOk, OnErr, Some};
    ghost use Rattle.std.specs.Io.KnownBytes.{WriteAppends};
    ghost use Rattle.n2k_run.specs.Device.{CountsFailure};
    ghost use Rattle.n2k_run.specs.Memory.{after_write, after_failed_write};

    ghost failed_calls = { λ s. s.failed_calls };

    ghost contents = { λ s. Some s.held };

    fn write(&mut self, chunk: &[u8]) -> Result<usize, Failed>
        ensures bound { IfOk result (λ n. n ≤ length chunk.now) }
        ensures moves { IfOk result (λ n. 0 < length chunk.now → 0 < n) }
        ensures bytes { WriteAppends (Some self.old.held) (Some self.new.held) result chunk.now }
        ensures counted { CountsFailure self.old.failed_calls self.new.failed_calls result }

        // A write also fails if memory is refused.
        ensures fails { self.old.fails_at ≡ 1 → IsErr result }
        ensures count { IfOk result (λ n. n ≡ min self.old.chunk (length chunk.now)) }
        ensures device { IfOk result (λ n. self.new ≡ after_write self.old (take n chunk.now)) }
        ensures failed_device { OnErr result (self.new ≡ after_failed_write self.old) }
    {
        let fails = self.fails_at == 1;
        self.fails_at = self.fails_at.saturating_sub(1);
        let count = self.chunk.min(chunk.len());
        if fails || self.held.extend_from_slice(&chunk[..count]).is_err() {
            self.failed_calls = self.failed_calls.saturating_add(1);
            return Err(Failed);
        }
        Ok(count)
    }
}
