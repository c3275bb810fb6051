//! A digest of what a job prints.

use n2k_run::{Failed, Sink};
use std::alloc::Global;

/// The number of buffered bytes at which the buffer goes into the digest.
const ENOUGH: usize = 1 << 16;

/// An odd number, by which each lane is multiplied.
const FACTOR: u64 = 0x9e37_79b9_7f4a_7c15;

/// Four sums, to which the words of a text are added in turn.
#[derive(Clone, Copy)]
struct Lanes {
    a: u64,
    b: u64,
    c: u64,
    d: u64,
}

/// A sink that keeps only a digest of its bytes. The digest is the same whatever chunks the bytes arrive in.
#[derive(Drop)]
pub(crate) struct Digest {
    lanes: Lanes,
    held: Vec<u8>,
    bytes: u64,
    failed_calls: u64,
}

fn mixed(sum: u64, word: u64) -> u64 {
    (sum ^ word).wrapping_mul(FACTOR).rotate_left(23)
}

/// The eight bytes at a position, as a number.
fn word_at(bytes: &[u8; 32], at: usize) -> u64 {
    match bytes[at % 32..].first_chunk::<8>() {
        Some(eight) => u64::from_le_bytes(*eight),
        None => 0,
    }
}

/// The lanes after 32 bytes, one word for each lane.
fn after(lanes: Lanes, bytes: &[u8; 32]) -> Lanes {
    Lanes {
        a: mixed(lanes.a, word_at(bytes, 0)),
        b: mixed(lanes.b, word_at(bytes, 8)),
        c: mixed(lanes.c, word_at(bytes, 16)),
        d: mixed(lanes.d, word_at(bytes, 24)),
    }
}

impl Digest {
    ghost use Rattle.std.specs.Prelude.{◌≡◌};

    /// The digest of no bytes.
    pub(crate) fn new(alloc: Global) -> Digest {
        Digest {
            lanes: Lanes {
                a: 1,
                b: 2,
                c: 3,
                d: 4,
            },
            held: Vec::new(alloc),
            bytes: 0,
            failed_calls: 0,
        }
    }

    /// Adds the buffered bytes to the digest, except the last ones that do not fill all lanes.
    fn take_held(&mut self)
        ensures { self.new.failed_calls ≡ self.old.failed_calls }
    {
        let (whole, rest) = self.held.as_slice().as_chunks::<32>();
        let mut lanes = self.lanes;
        for bytes in whole {
            lanes = after(lanes, bytes);
        }
        let mut last = [0; 32];
        let kept = rest.len().min(last.len());
        last[..kept].copy_from_slice(&rest[..kept]);
        self.lanes = lanes;
        self.held.clear();
        // This can't fail: the buffer contained these bytes before.
        let _ = self.held.extend_from_slice(&last[..kept]);
    }

    /// Adds all bytes. Unlike a sink's `write`, it returns no count, which a caller would have to check.
    pub(crate) fn push(&mut self, bytes: &[u8]) -> Result<(), Failed>
        ensures { self.new.failed_calls ≡ self.old.failed_calls }
    {
        if self.held.extend_from_slice(bytes).is_err() {
            return Err(Failed);
        }
        self.bytes = self.bytes.saturating_add(bytes.len() as u64);
        if self.held.len() >= ENOUGH {
            self.take_held();
        }
        Ok(())
    }

    /// The number of bytes, and their digest.
    pub(crate) fn finish(mut self) -> (u64, u64) {
        self.take_held();
        let Lanes { a, b, c, d } = self.lanes;
        let mut sum = mixed(mixed(mixed(mixed(self.bytes, a), b), c), d);
        for byte in self.held.as_slice() {
            sum = mixed(sum, u64::from(*byte));
        }
        (self.bytes, sum)
    }
}

impl Sink for Digest {
    ghost use Rattle.std.specs.Prelude.{None};

    ghost failed_calls = { λ d. d.failed_calls };

    // The bytes are not kept.
    ghost contents = { λ _. None };

    fn write(&mut self, piece: &[u8]) -> Result<usize, Failed> {
        if self.push(piece).is_err() {
            self.failed_calls = self.failed_calls.saturating_add(1);
            return Err(Failed);
        }
        Ok(piece.len())
    }
}
