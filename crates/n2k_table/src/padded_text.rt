//! A fast path: a text that many lines contain, with its front at a constant length as well. A copy of a constant length
//! is a few instructions; one of a length that varies is a call. `LineBuffer::extend_from_slice` appends any bytes.
#![tactic(auto, using(crate::proofs::Begins::begins_steps))]

ghost use Rattle.std.specs.Prelude.{◌≡◌};
ghost use Rattle.n2k_table.specs.Inner.LineBuffer.{AddsText};

use crate::line_buffer::TextBuffer;
use std::alloc::{AllocError, Global};
use std::marker::Model;

/// How many bytes are copied at once, for which there has to be room.
pub(crate) const PREFIX_ROOM: usize = 32;

/// How many bytes a front has: one more, since a text may be appended without its first byte.
const PREFIX: usize = PREFIX_ROOM + 1;

/// A text that is appended to many lines. One that is copied at once takes no memory of its own.
#[derive(Drop)]
pub(crate) struct PaddedText {
    /// How many bytes it has.
    len: usize,
    /// The bytes and zeros after them, if they have room.
    prefix: [u8; PREFIX],
    /// The bytes, if they are more than are copied at once.
    long: Vec<u8>,
}

impl Model for PaddedText {
    ghost use Rattle.std.specs.Prelude.{List, ℕ};
    ghost use Rattle.n2k_table.specs.Inner.Padded.{padded_text, IsPadded};

    ghost Value = { List ℕ };

    ghost view = { λ p. padded_text p.len p.prefix p.long.items };

    ghost invariant = { λ p. IsPadded p.len p.prefix p.long.items };
}

impl PaddedText {
    ghost use Rattle.std.specs.Prelude.{◌++◌, ◌+◌, ◌<◌, ◌≤◌, drop, length, IfOk, OnOk};

    /// That text, padded.
    pub(crate) fn new(alloc: Global, text: &[u8]) -> Result<PaddedText, AllocError>
        ensures { IfOk result (λ p. p ≡ text.now) }
    {
        let mut prefix = [0; PREFIX];
        if text.len() <= PREFIX {
            prefix[..text.len()].copy_from_slice(text);
        }
        let mut long = Vec::new(alloc);
        if text.len() > PREFIX_ROOM {
            long.reserve_exact(text.len())?;
            long.extend_from_slice(text)?;
        }
        Ok(PaddedText {
            len: text.len(),
            prefix,
            long,
        })
    }

    /// Appends the text from its first byte on, or from its second. There is room for 32 bytes and so many more.
    /// Behind the text there is room for those.
    #[inline(always)]
    pub(crate) fn push_from<const SIZE: usize>(
        &self,
        from: usize,
        more: usize,
        line: &mut TextBuffer<SIZE>,
    ) -> Result<(), AllocError>
        requires few { from < 2 }
        requires inside { from ≤ length self.now }
        requires little { more ≤ 1024 }
        requires room { line.old.held + 32 + more ≤ SIZE }
        ensures items { AddsText result line.old.items line.new.items (drop from self.now) }
        ensures room { OnOk result (line.new.held + more ≤ SIZE) }
    {
        let count = self.len - from;
        if count > PREFIX_ROOM {
            line.extend_from_slice(&self.long[from..])?;
            return line.reserve(more);
        }
        if let Some(wide) = self.prefix[from..].first_chunk::<PREFIX_ROOM>() {
            line.write(wide, count);
        }
        Ok(())
    }
}
