//! Plain lines: `stamp,prio,pgn,src,dst,len,b0,b1,..`, the format that canboat's programs read and write.
ghost use Rattle.std.specs.Prelude.{◌≡◌, ◌≤◌, [], ◌∷◌, length, IfSome, IfOk};
ghost use Rattle.n2k_wire.specs.Plain.{plain, plain_packet, columns, number_to, pair, header, id_of, bytes_of, is_frame, packed};
ghost use Rattle.n2k_wire.specs.Inner.Plain.{columns_left, plain_header};
ghost use Rattle.n2k_wire.specs.Views.{Finds, Gives};
ghost use Rattle.n2k_wire.specs.Entry.{IsEntry, settled};
ghost use Rattle.n2k_wire.specs.Packet.{IsPacket, greatest_pgn, greatest_priority, longest_message};

use crate::candump::FRAME_PAYLOAD;
use crate::cuts::cut_at;
use crate::digits::decimal_number;
use crate::entry::{BadCause, Entry, Packing, set_frame, set_whole};
use crate::identifier::Id;
use crate::packet::{GREATEST_PGN, GREATEST_PRIORITY, LONGEST_MESSAGE, is_stamp};
use arrayvec::ArrayVec;
use hex::FromHex;

/// The greatest address of a packet and of a saved state.
pub const GREATEST_ADDRESS: u64 = 255;

/// The five columns after the stamp, and the text of the columns after those, if any.
#[derive(Clone, Copy)]
struct Header<'a> {
    prio: &'a [u8],
    pgn: &'a [u8],
    src: &'a [u8],
    dst: &'a [u8],
    len: &'a [u8],
    more: Option<&'a [u8]>,
}

/// The first column of a text, and the text of the columns after it, if any.
fn first_column(text: &[u8]) -> (&[u8], Option<&[u8]>)
    ensures { columns text.now ≡ result.0.now ∷ columns_left result.1 }
{
    match cut_at(b',', text) {
        Some((column, more)) => (column, Some(more)),
        None => (text, None),
    }
}

/// A column as a number up to a limit.
#[tactic(auto, unfolding(crate::specs::Plain::number_to))]
#[inline]
pub(crate) fn number_to(limit: u64, column: &[u8]) -> Option<u64>
    ensures value { result ≡ number_to limit column.now }
    ensures bound { IfSome result (λ n. n ≤ limit) }
{
    let number = decimal_number(10, column)?;
    if number > limit {
        return None;
    }
    Some(number)
}

#[tactic(auto, unfolding(crate::specs::Plain::header))]
fn read_header(text: Option<&[u8]>) -> Option<Header<'_>>
    ensures { Finds plain_header result (header (columns_left text.entry)) }
{
    let (prio, text) = first_column(text?);
    let (pgn, text) = first_column(text?);
    let (src, text) = first_column(text?);
    let (dst, text) = first_column(text?);
    let (len, more) = first_column(text?);
    Some(Header {
        prio,
        pgn,
        src,
        dst,
        len,
        more,
    })
}

/// The identifier of four numbers in their ranges.
#[tactic(auto, unfolding(crate::specs::Plain::id_of))]
fn read_id(header: &Header<'_>) -> Result<Id, BadCause>
    ensures value { Gives (λ id. id) result (id_of (plain_header header.now)) }
    ensures prio { IfOk result (λ id. id.prio ≤ greatest_priority) }
    ensures pgn { IfOk result (λ id. id.pgn ≤ greatest_pgn) }
{
    let prio = number_to(u64::from(GREATEST_PRIORITY), header.prio).ok_or(BadCause::Number)? as u8;
    let pgn = number_to(u64::from(GREATEST_PGN), header.pgn).ok_or(BadCause::Number)? as u32;
    let src = number_to(GREATEST_ADDRESS, header.src).ok_or(BadCause::Number)? as u8;
    let dst = number_to(GREATEST_ADDRESS, header.dst).ok_or(BadCause::Number)? as u8;
    Ok(Id {
        prio,
        pgn,
        src,
        dst,
    })
}

/// A column of two hexadecimal digits, as the one byte that they spell.
#[tactic(auto, unfolding(crate::specs::Plain::pair))]
fn read_pair(column: &[u8]) -> Option<u8>
    ensures { Finds (λ byte. byte ∷ []) result (pair column.now) }
{
    let [byte] = <[u8; 1]>::from_hex(column).ok()?;
    Some(byte)
}

/// Reads exactly so many columns, each as a byte, into `bytes`.
fn read_bytes(
    len: u64,
    more: Option<&[u8]>,
    bytes: &mut ArrayVec<u8, LONGEST_MESSAGE>,
) -> Option<()>
    requires few { len ≤ longest_message }
    requires empty { bytes.old.items ≡ [] }
    ensures value { Finds (λ done. bytes.new.items) result (bytes_of len (columns_left more.entry)) }
    ensures len { IfSome result (λ done. length bytes.new.items ≡ len) }
{
    let mut left = more;
    for _ in 0..len {
        let (column, rest) = first_column(left?);
        let byte = read_pair(column)?;
        bytes.push(byte);
        left = rest;
    }
    match left {
        Some(_) => None,
        None => Some(()),
    }
}

/// Whether a plain line with so many bytes is a frame.
fn is_frame(packing: Packing, len: usize) -> bool
    ensures { result ≡ is_frame packing len }
{
    match packing {
        Packing::Frames => len <= FRAME_PAYLOAD,
        Packing::Whole => false,
    }
}

/// The stamp and the identifier of a plain line's packet, with its data in `bytes`, or the first of its causes.
#[tactic(auto, unfolding(crate::specs::Plain::packet_of))]
fn read_packet<'a>(
    line: &'a [u8],
    bytes: &mut ArrayVec<u8, LONGEST_MESSAGE>,
) -> Result<(&'a [u8], Id), BadCause>
    requires empty { bytes.old.items ≡ [] }
    ensures packet { Gives (λ r. record { stamp = r.0.now; id = r.1; payload = bytes.new.items }) result
        (plain_packet line.now) }
    ensures valid { IfOk result (λ r. IsPacket r.0.now r.1 bytes.new.items) }
{
    let (stamp, more) = first_column(line);
    if !is_stamp(stamp) {
        return Err(BadCause::Stamp);
    }
    let header = read_header(more).ok_or(BadCause::Form)?;
    let id = read_id(&header)?;
    let len = number_to(LONGEST_MESSAGE as u64, header.len).ok_or(BadCause::Number)?;
    read_bytes(len, header.more, bytes).ok_or(BadCause::Data)?;
    Ok((stamp, id))
}

/// Turns an entry into that of a plain line with these parts, in place if it already is of the same kind.
pub(crate) fn set_packed(out: &mut Entry, packing: Packing, stamp: &[u8], id: Id, data: &[u8])
    requires { IsPacket stamp.now id «data».now }
    ensures value { out.new ≡ packed packing (record { stamp = stamp.now; id = id; payload = «data».now }) }
    ensures valid { IsEntry out.new }
{
    if is_frame(packing, data.len()) {
        set_frame(out, stamp, id, data);
    } else {
        set_whole(out, stamp, id, data);
    }
}

/// The entry of a plain line, written over the entry of an earlier line.
pub(crate) fn read_plain(line: &[u8], packing: Packing, out: &mut Entry)
    ensures entry { out.new ≡ settled (plain packing line.now) }
    ensures valid { IsEntry out.new }
{
    let mut data = ArrayVec::new();
    match read_packet(line, &mut data) {
        Ok((stamp, id)) => set_packed(out, packing, stamp, id, data.as_slice()),
        Err(cause) => *out = Entry::Bad(cause),
    }
}
