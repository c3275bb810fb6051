//! Bytes that wait for the caller: a run appends them, and calls take them from the beginning.
ghost use Rattle.std.specs.Prelude.{◌≡◌, ◌≤◌, drop, length};

use n2k_run::{Failed, Sink};
use std::alloc::Global;
use std::marker::Model;

/// Bytes that wait. Those that were moved out stay in their place for a while, so that a line can be moved out without
/// moving all lines after it.
#[derive(Drop)]
pub struct Queue {
    bytes: Vec<u8>,
    /// How many of the bytes were moved out.
    gone: usize,
    failed_calls: u64,
}

impl Model for Queue {
    ghost use Rattle.std.specs.Prelude.{◌≤◌, drop, length};
    ghost use Rattle.n2k_c.specs.Queue.{Waiting};

    ghost Value = { Waiting };

    ghost view = { λ q. record { held = drop q.gone q.bytes.items; failed_calls = q.failed_calls } };

    ghost invariant = { λ q. q.gone ≤ length q.bytes.items };
}

impl Queue {
    ghost use Rattle.std.specs.Prelude.{[]};

    /// An empty queue.
    pub fn new(alloc: Global) -> Self
        ensures { result ≡ record { held = []; failed_calls = 0 } }
    {
        Queue {
            bytes: Vec::new(alloc),
            gone: 0,
            failed_calls: 0,
        }
    }

    /// The waiting bytes.
    pub fn bytes(&self) -> &[u8]
        ensures { result.now ≡ self.now.held }
    {
        &self.bytes[self.gone..]
    }

    /// Drops all waiting bytes, and keeps the buffer.
    pub fn clear(&mut self)
        ensures { self.new ≡ record self.old { held = [] } }
    {
        self.bytes.clear();
        self.gone = 0;
    }

    /// Removes so many bytes from the beginning. The bytes after them move up once they are the fewer: all moves together
    /// cost no more than the bytes that went.
    #[tactic(auto, using(crate::proofs::Queues::dropped_twice))]
    pub fn advance(&mut self, count: usize)
        requires { count ≤ length self.old.held }
        ensures { self.new ≡ record self.old { held = drop count self.old.held } }
    {
        self.gone += count;
        if self.bytes.len() - self.gone <= self.gone {
            move_up(&mut self.bytes, self.gone);
            self.gone = 0;
        }
    }
}

/// Drops so many bytes from the beginning.
#[tactic(auto, using(crate::proofs::Queues::rotated))]
fn move_up(bytes: &mut Vec<u8>, gone: usize)
    requires { gone ≤ length bytes.old.items }
    ensures { bytes.new.items ≡ drop gone bytes.old.items }
{
    let left = bytes.len() - gone;
    bytes.rotate_left(gone);
    bytes.truncate(left);
}

impl Sink for Queue {
    ghost use Rattle.std.specs.Prelude.{Some};

    ghost failed_calls = { λ q. q.failed_calls };

    ghost contents = { λ q. Some q.held };

    #[tactic(auto, using(crate::proofs::Queues::dropped_before, crate::proofs::Queues::all_taken))]
    fn write(&mut self, chunk: &[u8]) -> Result<usize, Failed> {
        if self.bytes.extend_from_slice(chunk).is_err() {
            self.failed_calls = self.failed_calls.saturating_add(1);
            return Err(Failed);
        }
        Ok(chunk.len())
    }
}
