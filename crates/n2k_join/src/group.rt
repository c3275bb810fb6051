//! An open group of frames, as bytes and a mask.
ghost use Rattle.std.specs.Prelude.{◌≡◌, ◌==◌, ◌+◌, ◌-◌, ◌/◌, ◌^◌, ◌<◌, ◌≤◌, ◌++◌, [], ◌∷◌, ℕ, Some, None, true, false, not, option_map, length, IfSome, slice_index, is_some};
ghost use Rattle.n2k_wire.specs.Packet.{PacketParts, longest_message};
ghost use Rattle.n2k_join.specs.Frames.{Key, most_frames};
ghost use Rattle.n2k_join.specs.Groups.{has_from, complete, data_of};
ghost use Rattle.n2k_join.specs.Open.{pieces_of, group_of};
ghost use Rattle.n2k_join.specs.State.{held_frame, held_of};
ghost use Rattle.n2k_join.specs.Inner.Stored.{rejects, key_of, piece_of, frame_of};
ghost use Rattle.n2k_join.specs.Inner.Slots.{slot_of, group_in};

use crate::piece::{FastFrame, FrameKey, OpenGroup, StoredPiece};
use crate::step::Broken;
use n2k_wire::Packet;

/// Whether a mask has the bits up to the last, and no other.
fn is_ones(mask: u32, last: u8) -> bool
    requires { last < most_frames }
    ensures value { result ≡ (mask == 2 ^ (last + 1) - 1) }
    ensures range { mask < 2 ^ 32 }
{
    u64::from(mask) == (1 << u32::from(last + 1)) - 1
}

/// Whether a mask has a bit from the one of a number on.
fn is_any_from(mask: u32, number: u8) -> bool
    requires { number < most_frames }
    ensures value { result ≡ not (mask / 2 ^ number == 0) }
    ensures range { mask < 2 ^ 32 }
{
    mask >> u32::from(number) != 0
}

impl OpenGroup {
    /// A group before its first frame, which is that of line `first`.
    pub(crate) fn new(first: u64) -> OpenGroup
        ensures first { result.first ≡ first }
        ensures mask { result.mask ≡ 0 }
    {
        OpenGroup {
            first,
            mask: 0,
            slots: [[0; 7]; 32],
        }
    }

    /// The group that a frame opens at a line.
    pub(crate) fn open(first: u64, frame: &FastFrame) -> OpenGroup
        ensures { (packet : PacketParts) → group_in (key_of frame.now.key) result
            ≡ group_of (key_of frame.now.key) (frame_of first packet frame.now ∷ []) }
    {
        let mut group = OpenGroup::new(first);
        group.take(frame.piece);
        group
    }

    /// Whether a frame of the number is there.
    pub(crate) fn has(&self, number: u8) -> bool
        requires { number < most_frames }
        ensures { result ≡ is_some (slot_of self.now number) }
    {
        self.mask >> u32::from(number) & 1 == 1
    }

    /// Whether the group has no place for a frame number: the number is already there or, in order, is not greater than
    /// each number in the group.
    pub(crate) fn rejects(&self, in_order: bool, number: u8) -> bool
        requires { number < most_frames }
        ensures { (key : Key) → result ≡ rejects in_order number (group_in key self.now) }
    {
        if in_order {
            is_any_from(self.mask, number)
        } else {
            self.has(number)
        }
    }

    /// The bytes of the group's frame with a number.
    pub(crate) fn carried(&self, number: u8) -> Option<&[u8; 7]>
        requires { number < most_frames }
        ensures { option_map (λ bytes. bytes.now) result ≡ slot_of self.now number }
    {
        if self.has(number) {
            Some(&self.slots[usize::from(number)])
        } else {
            None
        }
    }

    /// Adds a piece whose number isn't there yet.
    pub(crate) fn take(&mut self, piece: StoredPiece)
        requires { slot_of self.old piece.number ≡ None }
        ensures first { self.new.first ≡ self.old.first }
        ensures taken { (key : Key) → group_in key self.new ≡ record (group_in key self.old) {
          pieces = pieces_of
              (held_of (group_in key self.old) ++ held_frame (group_in key self.old) (piece_of piece) ∷ []);
        } }
    {
        let StoredPiece { number, bytes, .. } = piece;
        self.slots[usize::from(number)] = bytes;
        self.mask |= 1 << u32::from(number);
    }

    /// Whether the group has exactly the numbers of its message.
    pub(crate) fn is_complete(&self) -> bool
        ensures { (key : Key) → result ≡ complete (held_of (group_in key self.now)) }
    {
        if !self.has(0) {
            return false;
        }
        is_ones(self.mask, self.slots[0][0] / 7)
    }

    /// Turns the packet that completed the group into its message: the group's data with the packet's stamp and
    /// identifier.
    pub(crate) fn write_message(&self, packet: &mut Packet)
        requires { (key : Key) → complete (held_of (group_in key self.now)) ≡ true }
        ensures message { (key : Key) → packet.new ≡ record {
          stamp = packet.old.stamp;
          id = packet.old.id;
          payload = data_of (held_of (group_in key self.now));
        } }
        ensures same { packet.new.id ≡ packet.old.id }
    {
        let total = usize::from(self.slots[0][0]);
        let sent = self.slots.as_flattened();
        packet.set_data(&sent[1..1 + total]);
    }

    /// The report of this group, with its key, if it ends without a message.
    pub(crate) fn broken(&self, key: &FrameKey) -> Broken
        ensures { result ≡ record {
          pgn = key.now.pgn;
          src = key.now.src;
          dst = key.now.dst;
          seq = key.now.sequence;
          first = self.now.first;
        } }
    {
        Broken {
            pgn: key.pgn,
            src: key.src,
            dst: key.dst,
            seq: key.sequence,
            first: self.first,
        }
    }
}
