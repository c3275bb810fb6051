//! A fast path; read `plain.rt` first. It reads a plain line with data,
//! `2011-11-24-22:42:04.388,2,127251,36,255,8,7d,0b,7d,02,00,ff,ff,ff`, by position: it looks for the end of the stamp
//! among 32 bytes at once and for the end of a number at few places, and takes data eight bytes at once. Only a result
//! that is returned is promised: without one, the line is read by `plain.rt`, which reads every plain line.
ghost use Rattle.std.specs.Prelude.{◌≡◌, ◌≤◌, ◌+◌, ◌++◌, [], ◌∷◌, length, map, not, take, true, Some, IfSome, IsTrue};
ghost use Rattle.std.specs.List.{list_all};
ghost use Rattle.std.specs.Simd.Lanes.{mask_l};
ghost use Rattle.n2k_wire.specs.Entry.{entry, IsEntry, IsShort};
ghost use Rattle.n2k_wire.specs.Packet.{IsPacket, greatest_pgn, greatest_priority, is_stamp, is_stamp_byte};
ghost use Rattle.n2k_wire.specs.Packet.{longest_message, longest_stamp, starts_stamp};
ghost use Rattle.n2k_wire.specs.Plain.{bytes_of, greatest_address, columns};
ghost use Rattle.n2k_wire.specs.Inner.Plain.{AreRead, AreSpelled, IsIdBefore, IsNumberBefore, IsPackedOf};
ghost use Rattle.n2k_wire.specs.declared.entry.Entry.TheVariants as entries;
ghost use Rattle.n2k_wire.specs.declared.entry.Packing.TheVariants as packings;

use crate::candump::FRAME_PAYLOAD;
use crate::cuts::after_byte;
use crate::digits::eight_bytes;
use crate::entry::{Entry, LONGEST_LINE, Packing, set_frame, set_frame_fast};
use crate::identifier::Id;
use crate::packet::{GREATEST_PGN, GREATEST_PRIORITY, LONGEST_MESSAGE, LONGEST_STAMP};
use crate::plain::{GREATEST_ADDRESS, number_to, set_packed};
use crate::stamp::UTC_LEN;
use std::simd::prelude::*;

/// The bytes of eight columns of two digits, with a comma between each two.
const EIGHT_COLUMNS: usize = 23;

/// The bytes of `YYYY-MM-DD-HH:MM:SS.mmm`, as canboat stamps its lines.
const CANBOAT_LEN: usize = 23;

/// The bytes of the longest message, filled up to whole frames of eight.
const FILLED_MESSAGE: usize = 224;

/// A bit for each byte that a stamp can't have.
#[tactic(auto, using(crate::proofs::FastLanes::stamp_mask))]
#[inline(always)]
fn mask_of_others(lanes: u8x32) -> u64
    ensures { result ≡ mask_l (map (λ b. not (is_stamp_byte b)) lanes) }
{
    let others = (lanes - u8x32::splat(b' ')).simd_gt(u8x32::splat(b'~' - b' '));
    (others | lanes.simd_eq(u8x32::splat(b','))).to_bitmask()
}

/// The number of stamp bytes that a text begins with. All are compared at once.
#[inline(always)]
fn stamp_len(text: &[u8; LONGEST_STAMP]) -> usize
    ensures prefix { list_all is_stamp_byte (take result text.now) ≡ true }
    ensures within { result ≤ longest_stamp }
{
    let mask = mask_of_others(u8x32::from_array(*text));
    if mask == 0 {
        LONGEST_STAMP
    } else {
        mask.trailing_zeros() as usize
    }
}

/// Whether a text begins as a stamp may.
#[inline]
fn starts_stamp(text: &[u8]) -> bool
    ensures { result ≡ starts_stamp text.now }
{
    match text {
        [] => false,
        [first, ..] => *first != b'(' && *first != b'#',
    }
}

/// The stamp before a line's first comma, and the text after the comma.
#[inline]
fn stamp_before(line: &[u8]) -> Option<(&[u8], &[u8])>
    ensures line { IfSome result (λ x. line.now ≡ x.0.now ++ (44 ∷ x.1.now)) }
    ensures stamp { IfSome result (λ x. IsTrue (is_stamp x.0.now)) }
{
    let len = stamp_len(line.first_chunk::<LONGEST_STAMP>()?);
    let (stamp, after) = line.split_at(len);
    let text = after_byte(b',', after)?;
    if !starts_stamp(stamp) {
        return None;
    }
    Some((stamp, text))
}

/// The number of so many digits before a comma, and the text after the comma.
#[inline(always)]
fn number_before(digits: usize, limit: u64, text: &[u8]) -> Option<(u64, &[u8])>
    ensures value { IfSome result (λ x. IsNumberBefore limit text.now x.0 x.1.now) }
    ensures bound { IfSome result (λ x. x.0 ≤ limit) }
{
    if text.len() < digits {
        return None;
    }
    let (column, after) = text.split_at(digits);
    let rest = after_byte(b',', after)?;
    let number = number_to(limit, column)?;
    Some((number, rest))
}

/// A number of one to three digits before a comma, and the text after the comma.
#[inline(always)]
fn short_number_before(limit: u64, text: &[u8]) -> Option<(u64, &[u8])>
    ensures value { IfSome result (λ x. IsNumberBefore limit text.now x.0 x.1.now) }
    ensures bound { IfSome result (λ x. x.0 ≤ limit) }
{
    match number_before(3, limit, text) {
        Some(found) => Some(found),
        None => match number_before(2, limit, text) {
            Some(found) => Some(found),
            None => number_before(1, limit, text),
        },
    }
}

/// A PGN of six digits or five before a comma, and the text after the comma.
#[inline(always)]
fn pgn_before(text: &[u8]) -> Option<(u64, &[u8])>
    ensures value { IfSome result (λ x. IsNumberBefore greatest_pgn text.now x.0 x.1.now) }
    ensures bound { IfSome result (λ x. x.0 ≤ greatest_pgn) }
{
    match number_before(6, u64::from(GREATEST_PGN), text) {
        Some(found) => Some(found),
        None => number_before(5, u64::from(GREATEST_PGN), text),
    }
}

/// The identifier of four numbers before commas, and the text after the last comma.
#[inline]
fn id_before(text: &[u8]) -> Option<(Id, &[u8])>
    ensures value { IfSome result (λ x. IsIdBefore text.now x.0 x.1.now) }
    ensures prio { IfSome result (λ x. x.0.prio ≤ greatest_priority) }
    ensures pgn { IfSome result (λ x. x.0.pgn ≤ greatest_pgn) }
{
    let (prio, text) = number_before(1, u64::from(GREATEST_PRIORITY), text)?;
    let (pgn, text) = pgn_before(text)?;
    let (src, text) = short_number_before(GREATEST_ADDRESS, text)?;
    let (dst, text) = short_number_before(GREATEST_ADDRESS, text)?;
    let id = Id {
        prio: prio as u8,
        pgn: pgn as u32,
        src: src as u8,
        dst: dst as u8,
    };
    Some((id, text))
}

/// The bytes of eight columns. Their digits, and the commas between them, are picked out of two vectors, which hold the
/// first sixteen bytes of the text and the last.
#[tactic(auto, using(crate::proofs::PlainFast::eight_spelled))]
#[inline(always)]
fn eight_columns(text: &[u8; EIGHT_COLUMNS]) -> Option<[u8; FRAME_PAYLOAD]>
    ensures { IfSome result (λ bytes. AreSpelled text.now bytes) }
{
    let prefix = u8x16::from_slice(text);
    let back = u8x16::from_slice(&text[7..]);
    let commas: u8x16 = prefix.shuffle(
        back,
        [2, 5, 8, 11, 14, 26, 29, 29, 29, 29, 29, 29, 29, 29, 29, 29],
    );
    if commas.simd_ne(u8x16::splat(b',')).to_bitmask() != 0 {
        return None;
    }
    let digits: u8x16 = prefix.shuffle(
        back,
        [0, 1, 3, 4, 6, 7, 9, 10, 12, 13, 15, 25, 27, 28, 30, 31],
    );
    let bytes = eight_bytes(digits)?;
    Some(bytes)
}

/// The bytes of a text of so many columns, at most eight. Columns of zeros fill it up, and their bytes follow.
#[inline]
fn last_columns(text: &[u8], count: usize) -> Option<[u8; FRAME_PAYLOAD]>
    requires { (1 ≤ count) × (count ≤ 8) }
    ensures { IfSome result (λ bytes. AreRead (columns text.now) (take count bytes) []) }
{
    if text.len() + 1 != 3 * count {
        return None;
    }
    let mut padded = *b"00,00,00,00,00,00,00,00";
    padded[..text.len()].copy_from_slice(text);
    let bytes = eight_columns(&padded)?;
    Some(bytes)
}

/// Writes eight bytes at a place of others.
#[inline(always)]
fn put_eight(bytes: &mut [u8], at: usize, eight: &[u8; FRAME_PAYLOAD])
    requires { at + 8 ≤ length bytes.old }
    ensures { take (at + 8) bytes.new ≡ take at bytes.old ++ eight.now }
{
    u8x8::from_array(*eight).copy_to_slice(&mut bytes[at..]);
}

/// Reads the bytes of a text of so many columns, eight at once.
#[inline]
fn read_columns(text: &[u8], len: usize, bytes: &mut [u8; FILLED_MESSAGE]) -> Option<()>
    requires { (1 ≤ len) × (len ≤ longest_message) }
    ensures { IfSome result (λ done. bytes_of len (columns text.now) ≡ Some (take len bytes.new)) }
{
    let eights = (len - 1) / FRAME_PAYLOAD;
    let mut rest = text;
    for i in 0..eights {
        let (chunk, more) = rest.split_first_chunk::<EIGHT_COLUMNS>()?;
        put_eight(bytes, FRAME_PAYLOAD * i, &eight_columns(chunk)?);
        rest = after_byte(b',', more)?;
    }
    let last = last_columns(rest, len - FRAME_PAYLOAD * eights)?;
    put_eight(bytes, FRAME_PAYLOAD * eights, &last);
    Some(())
}

/// Writes the entry of a line with these parts and the data of so many columns over the entry of an earlier line.
#[inline(never)]
fn set_read(
    out: &mut Entry,
    packing: Packing,
    stamp: &[u8],
    id: Id,
    text: &[u8],
    len: usize,
) -> Option<()>
    requires stamp { IsTrue (is_stamp stamp.now) }
    requires prio { id.prio ≤ greatest_priority }
    requires pgn { id.pgn ≤ greatest_pgn }
    requires few { len ≤ longest_message }
    ensures value { IfSome result (λ done.
        IsPackedOf packing stamp.now id (bytes_of len (columns text.now)) out.new) }
    ensures valid { IfSome result (λ done. IsEntry out.new) }
{
    if len == 0 {
        return None;
    }
    let mut data = [0; FILLED_MESSAGE];
    read_columns(text, len, &mut data)?;
    set_packed(out, packing, stamp, id, &data[..len]);
    Some(())
}

/// Makes an entry the frame of these parts. Stamps of the usual lengths are moved at once.
#[inline(always)]
fn set_stamped(out: &mut Entry, stamp: &[u8], id: Id, data: &[u8; FRAME_PAYLOAD])
    requires { IsPacket stamp.now id «data».now }
    ensures value { out.new ≡ entries.Frame (record { stamp = stamp.now; id = id; payload = «data».now }) }
    ensures valid { IsEntry out.new }
{
    match (stamp.as_array::<UTC_LEN>(), stamp.as_array::<CANBOAT_LEN>()) {
        (Some(ours), _) => set_frame_fast(out, ours, id, data),
        (_, Some(canboats)) => set_frame_fast(out, canboats, id, data),
        _ => set_frame(out, stamp, id, data),
    }
}

/// Writes the entry of a plain line with data over the entry of an earlier line. None for a line in another form.
pub(crate) fn read_plain_fast(line: &[u8], packing: Packing, out: &mut Entry) -> Option<()>
    ensures entry { IfSome result (λ done. out.new ≡ entry line.now packing) }
    ensures valid { IfSome result (λ done. IsEntry out.new) }
    ensures short { IfSome result (λ done. IsShort out.new) }
{
    if line.len() > LONGEST_LINE {
        return None;
    }
    let (stamp, text) = stamp_before(line)?;
    let (id, text) = id_before(text)?;
    let (len, text) = short_number_before(LONGEST_MESSAGE as u64, text)?;
    match (packing, text.as_array::<EIGHT_COLUMNS>()) {
        (Packing::Frames, Some(eight)) if len == FRAME_PAYLOAD as u64 => {
            let data = eight_columns(eight)?;
            set_stamped(out, stamp, id, &data);
            Some(())
        }
        _ => set_read(out, packing, stamp, id, text, len as usize),
    }
}
