//! The text of a line before the PGN: when a message was seen, its sender and its receiver.
#![tactic(auto, using(crate::proofs::Begins::begins_steps))]

ghost use Rattle.std.specs.Prelude.{◌≡◌, ◌++◌, ◌+◌, ◌≤◌, true, codes, decimal, take, OnOk};
ghost use Rattle.std.specs.List.{list_all};
ghost use Rattle.n2k_table.specs.Text.{text_json};
ghost use Rattle.n2k_table.specs.Inner.Line.{is_plain, is_usual, sender_json, before_pgn_json};
ghost use Rattle.n2k_table.specs.Inner.LineBuffer.{AddsText};

use crate::line_buffer::TextBuffer;
use crate::text::push_text;
use n2k_wire::{Id, Packet, UTC_LEN};
use std::alloc::AllocError;

/// Room for the text before the PGN, with the stamp of a candump line.
const HEADER_ROOM: usize = 69;

/// How many bytes of a stamp are tested at once.
const AT_ONCE: usize = 16;

/// The decimal text of each byte, filled up, and after it how many of its bytes count. To look a source or a
/// destination up costs a third of working its digits out.
static NUMBERS: [[u8; 4]; 256] = [
    *b"0--1", *b"1--1", *b"2--1", *b"3--1", *b"4--1", *b"5--1", *b"6--1", *b"7--1", *b"8--1",
    *b"9--1", *b"10-2", *b"11-2", *b"12-2", *b"13-2", *b"14-2", *b"15-2", *b"16-2", *b"17-2",
    *b"18-2", *b"19-2", *b"20-2", *b"21-2", *b"22-2", *b"23-2", *b"24-2", *b"25-2", *b"26-2",
    *b"27-2", *b"28-2", *b"29-2", *b"30-2", *b"31-2", *b"32-2", *b"33-2", *b"34-2", *b"35-2",
    *b"36-2", *b"37-2", *b"38-2", *b"39-2", *b"40-2", *b"41-2", *b"42-2", *b"43-2", *b"44-2",
    *b"45-2", *b"46-2", *b"47-2", *b"48-2", *b"49-2", *b"50-2", *b"51-2", *b"52-2", *b"53-2",
    *b"54-2", *b"55-2", *b"56-2", *b"57-2", *b"58-2", *b"59-2", *b"60-2", *b"61-2", *b"62-2",
    *b"63-2", *b"64-2", *b"65-2", *b"66-2", *b"67-2", *b"68-2", *b"69-2", *b"70-2", *b"71-2",
    *b"72-2", *b"73-2", *b"74-2", *b"75-2", *b"76-2", *b"77-2", *b"78-2", *b"79-2", *b"80-2",
    *b"81-2", *b"82-2", *b"83-2", *b"84-2", *b"85-2", *b"86-2", *b"87-2", *b"88-2", *b"89-2",
    *b"90-2", *b"91-2", *b"92-2", *b"93-2", *b"94-2", *b"95-2", *b"96-2", *b"97-2", *b"98-2",
    *b"99-2", *b"1003", *b"1013", *b"1023", *b"1033", *b"1043", *b"1053", *b"1063", *b"1073",
    *b"1083", *b"1093", *b"1103", *b"1113", *b"1123", *b"1133", *b"1143", *b"1153", *b"1163",
    *b"1173", *b"1183", *b"1193", *b"1203", *b"1213", *b"1223", *b"1233", *b"1243", *b"1253",
    *b"1263", *b"1273", *b"1283", *b"1293", *b"1303", *b"1313", *b"1323", *b"1333", *b"1343",
    *b"1353", *b"1363", *b"1373", *b"1383", *b"1393", *b"1403", *b"1413", *b"1423", *b"1433",
    *b"1443", *b"1453", *b"1463", *b"1473", *b"1483", *b"1493", *b"1503", *b"1513", *b"1523",
    *b"1533", *b"1543", *b"1553", *b"1563", *b"1573", *b"1583", *b"1593", *b"1603", *b"1613",
    *b"1623", *b"1633", *b"1643", *b"1653", *b"1663", *b"1673", *b"1683", *b"1693", *b"1703",
    *b"1713", *b"1723", *b"1733", *b"1743", *b"1753", *b"1763", *b"1773", *b"1783", *b"1793",
    *b"1803", *b"1813", *b"1823", *b"1833", *b"1843", *b"1853", *b"1863", *b"1873", *b"1883",
    *b"1893", *b"1903", *b"1913", *b"1923", *b"1933", *b"1943", *b"1953", *b"1963", *b"1973",
    *b"1983", *b"1993", *b"2003", *b"2013", *b"2023", *b"2033", *b"2043", *b"2053", *b"2063",
    *b"2073", *b"2083", *b"2093", *b"2103", *b"2113", *b"2123", *b"2133", *b"2143", *b"2153",
    *b"2163", *b"2173", *b"2183", *b"2193", *b"2203", *b"2213", *b"2223", *b"2233", *b"2243",
    *b"2253", *b"2263", *b"2273", *b"2283", *b"2293", *b"2303", *b"2313", *b"2323", *b"2333",
    *b"2343", *b"2353", *b"2363", *b"2373", *b"2383", *b"2393", *b"2403", *b"2413", *b"2423",
    *b"2433", *b"2443", *b"2453", *b"2463", *b"2473", *b"2483", *b"2493", *b"2503", *b"2513",
    *b"2523", *b"2533", *b"2543", *b"2553",
];

/// The decimal text of a byte, filled up, and how many of its bytes count: `b'0'` is a multiple of 4.
#[inline(always)]
pub(crate) fn number_text(number: u8) -> ([u8; 4], usize)
    ensures text { take result.1 result.0 ≡ decimal number }
    ensures few { result.1 ≤ 3 }
{
    let text = NUMBERS[number as usize];
    (text, (text[3] % 4) as usize)
}

/// Appends a label, and after it the decimal text of a byte.
#[inline(always)]
fn write_part<const SIZE: usize, const N: usize>(
    label: &[u8; N],
    number: u8,
    line: &mut TextBuffer<SIZE>,
)
    requires { line.old.held + N + 4 ≤ SIZE }
    ensures items { line.new.items ≡ line.old.items ++ (label.now ++ decimal number) }
    ensures held { line.new.held ≤ line.old.held + N + 3 }
{
    let (text, count) = number_text(number);
    line.write(label, N);
    line.write(&text, count);
}

/// Appends priority, source and destination, up to the PGN. There is room for 30 bytes. A priority has one digit.
#[inline(always)]
fn write_sender<const SIZE: usize>(id: Id, line: &mut TextBuffer<SIZE>)
    requires prio { id.prio ≤ 7 }
    requires room { line.old.held + 30 ≤ SIZE }
    ensures { line.new.items ≡ line.old.items ++ sender_json id }
{
    let prio = b'0' + id.prio;
    write_part(
        &[
            b',', b'"', b'p', b'r', b'i', b'o', b'"', b':', prio, b',', b'"', b's', b'r', b'c',
            b'"', b':',
        ],
        id.src,
        line,
    );
    write_part(b",\"dst\":", id.dst, line);
}

/// Appends a stamp as a text, if no byte needs an escape; the stamp of a candump line at once. After it there
/// is room for who sent the message.
#[inline(always)]
fn push_usual_stamp<const SIZE: usize>(
    stamp: &[u8],
    line: &mut TextBuffer<SIZE>,
) -> Result<(), AllocError>
    requires { list_all is_plain stamp.now ≡ true }
    ensures items { AddsText result line.old.items line.new.items (codes "{\"timestamp\":" ++ text_json stamp.now) }
    ensures room { OnOk result (line.new.held + 30 ≤ SIZE) }
{
    line.reserve(HEADER_ROOM)?;
    line.write(b"{\"timestamp\":\"", 14);
    match stamp.as_array::<UTC_LEN>() {
        Some(utc) => line.write(utc, UTC_LEN),
        None => {
            line.extend_from_slice(stamp)?;
            line.reserve(HEADER_ROOM)?;
        }
    }
    line.write(b"\"", 1);
    Ok(())
}

/// A digit, an upper letter or one of few other bytes. None needs an escape, and one range is tested faster than all
/// that do.
fn is_usual_byte(byte: u8) -> bool
    ensures { result ≡ is_usual byte }
{
    (byte >= b'-') & (byte <= b'Z')
}

/// Whether each byte is one. It looks at each, so that sixteen are compared at once.
#[inline(always)]
fn are_usual(bytes: &[u8; AT_ONCE]) -> bool
    ensures { result ≡ list_all is_usual bytes.now }
{
    let mut all = true;
    for byte in bytes {
        all &= is_usual_byte(*byte);
    }
    all
}

/// Whether a stamp has such bytes alone, sixteen to thirty-two of them: its first sixteen and its last sixteen are all
/// of it.
#[inline(always)]
fn is_usual_stamp(stamp: &[u8]) -> bool
    ensures { result ≡ true → list_all is_plain stamp.now ≡ true }
{
    match (
        stamp.first_chunk::<AT_ONCE>(),
        stamp.last_chunk::<AT_ONCE>(),
    ) {
        (Some(first), Some(last)) if stamp.len() <= 2 * AT_ONCE => are_usual(first)
            & are_usual(last),
        _ => false,
    }
}

/// Appends any stamp as a text.
#[inline(never)]
fn push_other_stamp<const SIZE: usize>(
    stamp: &[u8],
    line: &mut TextBuffer<SIZE>,
) -> Result<(), AllocError>
    ensures items { AddsText result line.old.items line.new.items (codes "{\"timestamp\":" ++ text_json stamp.now) }
    ensures room { OnOk result (line.new.held + 30 ≤ SIZE) }
{
    line.extend_from_slice(b"{\"timestamp\":")?;
    push_text(stamp, line)?;
    line.reserve(HEADER_ROOM)
}

/// Appends when a message was seen. Of most stamps a comparison takes sixteen bytes.
#[inline(always)]
fn push_time<const SIZE: usize>(stamp: &[u8], line: &mut TextBuffer<SIZE>) -> Result<(), AllocError>
    ensures items { AddsText result line.old.items line.new.items (codes "{\"timestamp\":" ++ text_json stamp.now) }
    ensures room { OnOk result (line.new.held + 30 ≤ SIZE) }
{
    if is_usual_stamp(stamp) {
        push_usual_stamp(stamp, line)
    } else {
        push_other_stamp(stamp, line)
    }
}

/// Appends the text before the PGN. It is inlined: a call takes more.
#[inline(always)]
#[tactic(auto, using(std::proofs::Common::append_assoc, crate::proofs::Begins::begins_steps), unfolding(crate::specs::Inner::Line::before_pgn_json))]
pub(crate) fn push_header<const SIZE: usize>(
    packet: &Packet,
    line: &mut TextBuffer<SIZE>,
) -> Result<(), AllocError>
    ensures { AddsText result line.old.items line.new.items (before_pgn_json packet.now) }
{
    push_time(packet.stamp(), line)?;
    write_sender(packet.id(), line);
    Ok(())
}
