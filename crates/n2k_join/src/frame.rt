//! Frames of fast packets.
ghost use Rattle.std.specs.Prelude.{◌≡◌, ℕ, option_map, slice_index_or};
ghost use Rattle.n2k_join.specs.Frames.{fast_frame, filler, seven_bytes};
ghost use Rattle.n2k_join.specs.Inner.Stored.{frame_of};

use crate::piece::{FastFrame, FrameKey, StoredPiece};
use n2k_wire::Packet;

/// The most frames of a group.
pub(crate) const MOST_FRAMES: u8 = 32;

/// The most messages of one sender, destination and PGN that are under way at once.
pub(crate) const MOST_SEQUENCES: u8 = 8;

/// The most bytes of a message.
pub(crate) const LONGEST_MESSAGE: u8 = 223;

/// The byte that fills a frame up.
const FILLER: u8 = 0xff;

/// The byte at a place, or the filler byte past the end.
pub(crate) fn byte_or_filler(bytes: &[u8], at: usize) -> u8
    ensures { result ≡ slice_index_or bytes.now at filler }
{
    bytes.get(at).copied().unwrap_or(FILLER)
}

/// The bytes after the header, filled up to seven. It is not inlined: most frames have seven, which are copied at
/// a constant length.
#[cold]
#[inline(never)]
fn filled_bytes(rest: &[u8]) -> [u8; 7]
    ensures { result ≡ seven_bytes rest.now }
{
    let at = |i| byte_or_filler(rest, i);
    [at(0), at(1), at(2), at(3), at(4), at(5), at(6)]
}

/// The frame in a packet of a fast PGN. `None` if the data are not a frame's: they are empty, or a frame 0 without a
/// total or with a total over 223.
#[tactic(auto, unfolding(crate::specs::Frames::fast_frame))]
pub(crate) fn fast_frame(packet: &Packet) -> Option<FastFrame>
    ensures { (line : ℕ) → option_map (λ frame. frame_of line packet.now frame) result ≡ fast_frame line packet.now }
{
    let (header, rest) = packet.data().split_first()?;
    let number = *header % MOST_FRAMES;
    let bytes = match rest.first_chunk::<7>() {
        Some(seven) => *seven,
        None => filled_bytes(rest),
    };
    if number == 0 && (rest.is_empty() || bytes[0] > LONGEST_MESSAGE) {
        return None;
    }
    let id = packet.id();
    let key = FrameKey {
        src: id.src,
        dst: id.dst,
        pgn: id.pgn,
        sequence: *header / MOST_FRAMES,
    };
    let piece = StoredPiece { number, bytes };
    Some(FastFrame { key, piece })
}
