//! The parts of a frame that the join keeps.
ghost use Rattle.std.specs.Prelude.{◌≡◌, ◌+◌, ◌*◌, ◌^◌, ◌<◌, ◌≤◌, [], length, get_or, slice_index};
ghost use Rattle.std.specs.Hash as fed;
ghost use Rattle.std.specs.Cmp.Rules.{hashing};
ghost use Rattle.std.proofs.Common.{rules};
ghost use Rattle.std.specs.Int.{bit_at};
ghost use Rattle.std.specs.List.{AllByRecursion};
ghost use Rattle.std.proofs.Props.{props};
ghost use Rattle.n2k_wire.specs.Packet.{longest_message};
ghost use Rattle.n2k_join.specs.Frames.{frame_bytes, most_frames};

use std::hash::{Hash, Hasher};

/// The group that a frame belongs to: frames of one sender, receiver and PGN that have one sequence.
#[derive(Clone, Copy, PartialEq, Eq)]
pub(crate) struct FrameKey {
    pub(crate) src: u8,
    pub(crate) dst: u8,
    pub(crate) pgn: u32,
    pub(crate) sequence: u8,
}

/// A key is hashed as one number, which costs half of hashing its parts.
impl Hash for FrameKey {
    ghost hash_input = { λ k. fed.u64 (k.pgn + k.src * 2 ^ 32 + k.dst * 2 ^ 40 + k.sequence * 2 ^ 48) };

    ghost respects_eq = { Prim.search (hashing, rules) };

    #[inline(always)]
    fn hash<H: Hasher>(&self, state: &mut H) {
        let sender = u64::from(self.pgn) + u64::from(self.src) * 0x1_0000_0000;
        let stream = sender + u64::from(self.dst) * 0x100_0000_0000;
        state.write_u64(stream + u64::from(self.sequence) * 0x1_0000_0000_0000);
    }
}

/// A frame as a group keeps it: its number, and the seven bytes after the header.
#[derive(Clone, Copy)]
pub(crate) struct StoredPiece {
    pub(crate) number: u8,
    pub(crate) bytes: [u8; 7],
    pub(crate) ghost seven: { length bytes ≡ frame_bytes },
    pub(crate) ghost small: { number < most_frames },
    pub(crate) ghost total: { number ≡ 0 → slice_index bytes 0 ≤ longest_message },
}

/// The frame number, total and bytes in the data of a fast packet's frame.
#[derive(Clone, Copy)]
pub(crate) struct FastFrame {
    pub(crate) key: FrameKey,
    pub(crate) piece: StoredPiece,
}

/// An open group of frames: the line that opened it, the numbers that it has, and seven bytes for each possible number.
/// It is stored under its key.
#[derive(Clone, Copy)]
pub(crate) struct OpenGroup {
    pub(crate) first: u64,
    pub(crate) mask: u32,
    pub(crate) slots: [[u8; 7]; 32],
    pub(crate) ghost many: { length slots ≡ most_frames },
    pub(crate) ghost seven: { AllByRecursion (λ bytes. length bytes ≡ frame_bytes) slots } by { Prim.hlevel props },
    pub(crate) ghost total: { bit_at mask 0 ≡ 1 → slice_index (get_or slots 0 []) 0 ≤ longest_message },
}
