//! The source of a part in memory.

use crate::device::{Failed, Source};
use std::marker::Model;

/// The bytes of a part. None of its calls fails.
#[derive(Drop)]
pub(crate) struct PartSource<'a> {
    left: &'a [u8],
    calls: u64,
}

impl<'a> Model for PartSource<'a> {
    ghost use Rattle.n2k_run.specs.Inner.Parts.{PartLeft};

    ghost Value = { PartLeft };

    ghost view = { λ s. record { left = s.left.now; calls = s.calls } };
}

impl<'a> PartSource<'a> {
    ghost use Rattle.std.specs.Prelude.{◌≡◌};

    /// A source that gives these bytes.
    pub(crate) fn new(bytes: &'a [u8]) -> Self
        ensures { result ≡ record { left = bytes.now; calls = 0 } }
    {
        PartSource {
            left: bytes,
            calls: 0,
        }
    }
}

impl<'a> Source for PartSource<'a> {
    ghost use Rattle.std.specs.Prelude.{Some};

    ghost calls = { λ s. s.calls };

    ghost failed_calls = { λ _. 0 };

    ghost remaining = { λ s. Some s.left };

    fn read(&mut self, buffer: &mut [u8]) -> Result<usize, Failed> {
        self.calls = self.calls.saturating_add(1);
        let count = buffer.len().min(self.left.len());
        let (given, left) = self.left.split_at(count);
        buffer[..count].copy_from_slice(given);
        self.left = left;
        Ok(count)
    }
}
