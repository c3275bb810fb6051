//! A packet as a plain line, `2016-02-28T19:57:02.364Z,2,127250,67,255,8,ff,10,3b,ff,7f,ce,f5,fc`, written in place:
//! zeros are appended, and pieces of constant length are written over them, each perhaps only in part used.
ghost use Rattle.std.specs.Prelude.{◌≡◌, ◌+◌, ◌*◌, ◌/◌, ◌%◌, ◌^◌, ◌<◌, ◌≤◌, ◌++◌, ◌∷◌, [], codes, length, map, take};
ghost use Rattle.std.specs.Prelude.{OnOk, OnErr, false};
ghost use Rattle.std.specs.List.{flat_map};
ghost use Rattle.n2k_wire.specs.Packet.{longest_message};
ghost use Rattle.hex.specs.Hex.{encode_lower, encode_upper};
ghost use Rattle.n2k_wire.specs.Inner.Digits.{digit_lane};
ghost use Rattle.n2k_wire.specs.Heads.{begins_candump, plain_end, plain_head};
ghost use Rattle.n2k_wire.specs.Texts.{byte_column, number_column, plain_text};

use crate::candump::FRAME_PAYLOAD;
use crate::packet::Packet;
use std::alloc::{AllocError, Global};
use std::simd::prelude::*;

/// Room for the line of a frame, plain or candump, and for unused bytes after it: at most 53 bytes come before the last
/// piece of 32.
const FRAME_ROOM: usize = 96;

/// Room for any line and for unused bytes after it: three bytes for each byte of data, and at most 58 more.
pub const LINE_ROOM: usize = 736;

/// The bytes of the last piece of a line of eight bytes that count: the length, the bytes and the LF.
const END: usize = 27;

/// Writes a piece, whose first bytes are used, at a place of the text, and returns the place after those.
#[inline(always)]
pub(crate) fn put<const N: usize>(
    text: &mut [u8],
    at: usize,
    column: &[u8; N],
    count: usize,
) -> usize
    requires room { at + N ≤ length text.old }
    requires few { count ≤ N }
    ensures bytes { take result text.new ≡ take at text.old ++ take count column.now }
    ensures end { result ≡ at + count }
    ensures len { length text.new ≡ length text.old }
{
    Simd::<u8, N>::from_array(*column).copy_to_slice(&mut text[at..]);
    at + count
}

/// `0` and the three digits of a number, from the low end of a word on.
#[inline(always)]
fn digits_word(number: u32) -> u32
    requires { number < 1000 }
    ensures { result ≡ 48 + (48 + number / 100) * 2 ^ 8 + (48 + number / 10 % 10) * 2 ^ 16 +
        (48 + number % 10) * 2 ^ 24 }
{
    let number = u64::from(number);
    let tens = number / 10;
    let hundreds = number / 100;
    let word = number * 0x100_0000 - tens * 0x9ff_0000 - hundreds * 0x9_ff00;
    (word + 0x3030_3030) as u32
}

/// The number of leading zeros if a number is written with three digits.
#[inline(always)]
fn leading_zeros(number: u8) -> u32
    ensures two { number < 10 → result ≡ 2 }
    ensures one { 10 ≤ number → number < 100 → result ≡ 1 }
    ensures none { 100 ≤ number → result ≡ 0 }
    ensures few { result ≤ 2 }
{
    u32::from(number < 10) + u32::from(number < 100)
}

/// A number as a piece of a plain line. The comma takes the place of the last zero.
#[inline(always)]
fn small_column(number: u8) -> ([u8; 4], usize)
    ensures column { take result.1 result.0 ≡ number_column number }
    ensures few { result.1 ≤ 4 }
{
    let zeros = leading_zeros(number);
    let digits = digits_word(u32::from(number)) >> (8 * zeros);
    ((digits - 4).to_le_bytes(), 4 - zeros as usize)
}

/// A PGN as a piece of a plain line. The comma takes the place of the last zero.
#[inline(always)]
fn pgn_column(pgn: u32) -> ([u8; 8], usize)
    requires { (10000 ≤ pgn) × (pgn < 1000000) }
    ensures column { take result.1 result.0 ≡ number_column pgn }
    ensures few { result.1 ≤ 7 }
{
    let high = u64::from(digits_word(pgn / 1000));
    let low = u64::from(digits_word(pgn % 1000) / 256);
    let word = high + low * 0x1_0000_0000;
    if pgn < 100_000 {
        ((word / 256 - 4).to_le_bytes(), 6)
    } else {
        ((word - 4).to_le_bytes(), 7)
    }
}

/// Writes a number of any length as a piece of the line.
#[inline(never)]
fn put_number(text: &mut [u8], at: usize, number: u32) -> usize
    requires { at + 11 ≤ length text.old }
    ensures bytes { take result text.new ≡ take at text.old ++ number_column number }
    ensures end { result ≤ at + 11 }
    ensures len { length text.new ≡ length text.old }
{
    let mut buffer = itoa::Buffer::new();
    let digits = buffer.format(number).as_bytes();
    let start = put(text, at, b",", 1);
    let end = start + digits.len();
    text[start..end].copy_from_slice(digits);
    end
}

/// Writes a PGN as a piece of the line. PGNs of the bus have five or six digits.
#[inline(always)]
fn put_pgn(text: &mut [u8], at: usize, pgn: u32) -> usize
    requires { at + 11 ≤ length text.old }
    ensures bytes { take result text.new ≡ take at text.old ++ number_column pgn }
    ensures end { result ≤ at + 11 }
    ensures len { length text.new ≡ length text.old }
{
    if pgn >= 10_000 && pgn < 1_000_000 {
        let (column, count) = pgn_column(pgn);
        put(text, at, &column, count)
    } else {
        put_number(text, at, pgn)
    }
}

/// The digits of numbers below 16, with letters from `letter` on.
#[inline(always)]
fn digits_from(numbers: u8x16, letter: u8) -> u8x16
    requires { 10 ≤ letter }
    ensures { result ≡ map (digit_lane letter) numbers }
{
    numbers.simd_gt(u8x16::splat(9)).select(
        numbers + u8x16::splat(letter - 10),
        numbers + u8x16::splat(b'0'),
    )
}

/// The digits of eight bytes, with letters from `letter` on: `a` or `A`.
#[inline(always)]
pub(crate) fn eight_digits(data: &[u8; FRAME_PAYLOAD], letter: u8) -> u8x16
    requires { 10 ≤ letter }
    ensures lower { letter ≡ 97 → result ≡ encode_lower «data».now }
    ensures upper { letter ≡ 65 → take 16 result ≡ encode_upper «data».now }
{
    let bytes = u8x8::from_array(*data);
    let high = bytes >> u8x8::splat(4);
    let low = bytes & u8x8::splat(15);
    let both: u8x16 = high.shuffle(low, [0, 8, 1, 9, 2, 10, 3, 11, 4, 12, 5, 13, 6, 14, 7, 15]);
    digits_from(both, letter)
}

/// The text after the destination in the line of eight bytes.
#[inline(always)]
fn end_column(data: &[u8; FRAME_PAYLOAD]) -> [u8; 32]
    ensures { take 27 result ≡ plain_end «data».now }
{
    let digits = eight_digits(data, b'a');
    let line: u8x32 = digits.shuffle(
        u8x16::from_array(*b",8\n............."),
        [
            16, 17, 16, 0, 1, 16, 2, 3, 16, 4, 5, 16, 6, 7, 16, 8, 9, 16, 10, 11, 16, 12, 13, 16,
            14, 15, 18, 19, 19, 19, 19, 19,
        ],
    );
    line.to_array()
}

/// A byte as a piece of the line, and a byte that doesn't count.
#[inline]
fn byte_column(byte: u8) -> [u8; 4]
    ensures { take 3 result ≡ byte_column byte }
{
    let mut pair = [0; 2];
    let _ = hex::encode_to_slice([byte], &mut pair);
    let [high, low] = pair;
    [b',', high, low, 0]
}

/// Writes bytes as pieces of the line.
fn put_bytes(text: &mut [u8], at: usize, bytes: &[u8]) -> usize
    requires { at + 3 * length bytes.now + 1 ≤ length text.old }
    ensures bytes { take result text.new ≡ take at text.old ++ flat_map byte_column bytes.now }
    ensures end { result ≡ at + 3 * length bytes.now }
    ensures len { length text.new ≡ length text.old }
{
    let mut at = at;
    for byte in bytes {
        at = put(text, at, &byte_column(*byte), 3);
    }
    at
}

/// Writes the text after the destination.
#[inline(always)]
pub(crate) fn put_end(text: &mut [u8], at: usize, data: &[u8]) -> usize
    requires room { at + 32 ≤ length text.old }
    requires bytes { at + 3 * length «data».now + 5 ≤ length text.old }
    requires short { length «data».now ≤ 223 }
    ensures bytes { take result text.new ≡ take at text.old ++ plain_end «data».now }
    ensures end { result ≤ length text.old }
{
    if let Some(data) = data.as_array() {
        return put(text, at, &end_column(data), END);
    }
    let (column, count) = small_column(data.len() as u8);
    let at = put(text, at, &column, count);
    let at = put_bytes(text, at, data);
    put(text, at, b"\n", 1)
}

/// Writes the text before the length at a place of the text, and returns the place after it.
#[inline(always)]
pub(crate) fn put_head(text: &mut [u8], at: usize, packet: &Packet) -> usize
    requires { at + 53 ≤ length text.old }
    ensures bytes { take result text.new ≡ take at text.old ++ plain_head packet.now }
    ensures plain { begins_candump (plain_head packet.now) ≡ false }
    ensures end { result ≤ at + 53 }
    ensures len { length text.new ≡ length text.old }
{
    let id = packet.id();
    let (stamp, len) = packet.stamp_buffer();
    let at = put(text, at, stamp, len);
    let at = put(text, at, &[b',', b'0' + id.prio], 2);
    let at = put_pgn(text, at, id.pgn);
    let (column, count) = small_column(id.src);
    let at = put(text, at, &column, count);
    let (column, count) = small_column(id.dst);
    put(text, at, &column, count)
}

/// Writes the plain line of a packet at a place of the text, and returns the place after it. `LINE_ROOM` bytes are
/// enough for any line.
///
/// ```rust
/// let packet = frame_in("(1.0) can0 18EAFF01#14F001")?;
/// assert_eq!(rt; packet.data().len(), 3);
/// let mut text = [0; LINE_ROOM];
/// let end = write_line(&mut text, 0, &packet);
/// let wanted = "1970-01-01T00:00:01.000Z,6,59904,1,255,3,14,f0,01\n";
/// assert_eq!(rt; &text[..end], wanted.as_bytes());
/// ```
#[inline(always)]
pub fn write_line(text: &mut [u8], at: usize, packet: &Packet) -> usize
    requires room { at + 85 ≤ length text.old }
    requires bytes { at + 58 + 3 * length packet.now.payload ≤ length text.old }
    ensures bytes { take result text.new ≡ take at text.old ++ plain_text packet.now }
    ensures end { result ≤ length text.old }
{
    let at = put_head(text, at, packet);
    put_end(text, at, packet.data())
}

/// Appends zeros as room for the line of so many bytes and for unused bytes after it.
#[inline(always)]
pub(crate) fn append_room(bytes: usize, out: &mut Vec<u8>) -> Result<(), AllocError>
    requires { bytes ≤ longest_message }
    ensures before { OnOk result (take (length out.old.items) out.new.items ≡ out.old.items) }
    ensures room { OnOk result (length out.old.items + 85 ≤ length out.new.items) }
    ensures bytes { OnOk result (length out.old.items + 58 + 3 * bytes ≤ length out.new.items) }
    ensures unchanged { OnErr result (out.new.items ≡ out.old.items) }
{
    if bytes <= FRAME_PAYLOAD {
        out.extend_from_slice(&[0; FRAME_ROOM])
    } else {
        out.extend_from_slice(&[0; LINE_ROOM])
    }
}

/// Appends the plain line of a packet, `stamp,prio,pgn,src,dst,len,b0,b1,..` with its LF: numbers without leading
/// zeros, each byte as two digits in lower case. If memory is refused, `out` is unchanged.
///
/// ```rust
/// let packet = frame_in("(1.0) can0 18EAFF01#14F001")?;
/// let mut text = Vec::new(alloc);
/// plain_text(alloc, &packet, &mut text)?;
/// let wanted = "1970-01-01T00:00:01.000Z,6,59904,1,255,3,14,f0,01\n";
/// assert_eq!(rt; text.as_slice(), wanted.as_bytes());
/// ```
#[inline(always)]
pub fn plain_text(_alloc: Global, packet: &Packet, out: &mut Vec<u8>) -> Result<(), AllocError>
    ensures ok { OnOk result (out.new.items ≡ out.old.items ++ plain_text packet.now) }
    ensures unchanged { OnErr result (out.new.items ≡ out.old.items) }
{
    let start = out.len();
    append_room(packet.data().len(), out)?;
    let end = write_line(out.as_mut_slice(), start, packet);
    out.truncate(end);
    Ok(())
}
