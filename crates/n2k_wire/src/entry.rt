//! The entry of a line of a log.
ghost use Rattle.std.specs.Prelude.{◌≡◌, ◌≤◌, length, IfSome};
ghost use Rattle.n2k_wire.specs.Candump.{frame_payload};
ghost use Rattle.n2k_wire.specs.Entry.{entry, IsEntry, IsShort};
ghost use Rattle.n2k_wire.specs.Packet.{IsPacket};
ghost use Rattle.n2k_wire.specs.declared.entry.Entry.TheVariants as entries;

use crate::candump::{FRAME_PAYLOAD, read_candump};
use crate::candump_fast::{SecondCache, read_candump_fast};
use crate::identifier::Id;
use crate::packet::Packet;
use crate::plain::read_plain;
use crate::plain_fast::read_plain_fast;

/// The most bytes of a line, without its LF and CR. Comments count too.
pub const LONGEST_LINE: usize = 2048;

/// Why a line gives no frame. Reports print the number of the cause.
#[derive(Clone, Copy, Debug, PartialEq, Eq)]
pub enum BadCause {
    /// 1: over 2,048 bytes.
    Long,
    /// 2: the stamp.
    Stamp,
    /// 3: parts are missing.
    Form,
    /// 4: a CAN identifier of another form than 3 or 8 hexadecimal digits, or of 40000000 and more. From 20000000 on it
    /// is an error frame's, which is skipped.
    Identifier,
    /// 5: a number of a plain line.
    Number,
    /// 6: the data bytes.
    Data,
    /// 7: a fast-packet frame with invalid data.
    Fast,
    /// 8: a PGN that isn't in the table, when frames are written.
    Unknown,
    /// 9: more data than one frame of a single PGN holds.
    Size,
    /// 10: a frame instead of a message.
    Frame,
    /// 11: a stamp that candump can't write.
    Time,
    /// 12: an identifier that the bus can't carry.
    Address,
}

/// How the data of a log's lines are packed.
#[derive(Clone, Copy, Debug, PartialEq, Eq)]
pub enum Packing {
    /// A line of at most 8 bytes is a frame, and a plain line of 9 to 223 bytes a whole message.
    Frames,
    /// Each plain line is a whole message.
    Whole,
}

/// The result of reading a line of a log.
#[derive(Drop)]
pub enum Entry {
    /// A line to skip: empty, a comment, or a frame of another kind.
    Skip,
    /// A line that can't be read, for this cause.
    Bad(BadCause),
    /// A frame, of at most 8 bytes.
    Frame(Packet),
    /// A whole message, from a plain line.
    Whole(Packet),
}

/// The entry of a line, given without its LF and CR. It needs no memory. For lines in a row a `LineReader` is faster.
///
/// ```rust
/// let frame = read_line("(1.0) can0 18EAFF01#14F001".as_bytes(), Packing::Frames);
/// assert!(rt; matches!(frame, Entry::Frame(packet) if packet.id().pgn == 59904));
/// let note = read_line("# note".as_bytes(), Packing::Frames);
/// assert!(rt; matches!(note, Entry::Skip));
/// let piece = read_line("hello".as_bytes(), Packing::Frames);
/// assert!(rt; matches!(piece, Entry::Bad(BadCause::Form)));
/// ```
pub fn read_line(line: &[u8], packing: Packing) -> Entry
    ensures entry { result ≡ entry line.now packing }
    ensures valid { IsEntry result }
    ensures short { IsShort result }
{
    let mut entry = Entry::Skip;
    read_line_into(line, packing, &mut entry);
    entry
}

/// The entry of a line, written over the entry of an earlier line, so that no entry is moved.
#[tactic(auto, unfolding(crate::specs::Entry::entry))]
fn read_line_into(line: &[u8], packing: Packing, out: &mut Entry)
    ensures entry { out.new ≡ entry line.now packing }
    ensures valid { IsEntry out.new }
    ensures short { IsShort out.new }
{
    if line.len() > LONGEST_LINE {
        *out = Entry::Bad(BadCause::Long);
        return;
    }
    match line {
        [] | [b'#', ..] => *out = Entry::Skip,
        [b'(', ..] => read_candump(line, out),
        _ => read_plain(line, packing, out),
    }
}

/// Reads lines in order, each in the place of the one before. Lines of one second mostly follow each other, and the
/// text of the last second is kept, so that its date is computed once.
#[derive(Drop)]
pub struct LineReader {
    cache: SecondCache,
    entry: Entry,
}

impl LineReader {
    /// A reader before the first line.
    ///
    /// ```rust
    /// let mut reader = LineReader::new();
    /// let entry = reader.read("(1.0) can0 18EAFF01#14F001".as_bytes(), Packing::Frames);
    /// assert!(rt; matches!(entry, Entry::Frame(packet) if packet.id().pgn == 59904));
    /// ```
    pub fn new() -> LineReader {
        LineReader {
            cache: SecondCache::new(),
            entry: Entry::Skip,
        }
    }

    /// The entry of a line, as `read_line` returns it. It needs no memory.
    ///
    /// ```rust
    /// let mut reader = LineReader::new();
    /// let entry = reader.read("(1.0) can0 18EAFF01#14F001".as_bytes(), Packing::Frames);
    /// assert!(rt; matches!(entry, Entry::Frame(packet) if packet.id().pgn == 59904));
    /// let entry = reader.read("(10) can0 1DFF0405#00".as_bytes(), Packing::Frames);
    /// assert!(rt; matches!(entry, Entry::Bad(BadCause::Stamp)));
    /// ```
    pub fn read(&mut self, line: &[u8], packing: Packing) -> &Entry
        ensures entry { result.now ≡ entry line.now packing }
        ensures valid { IsEntry result.now }
        ensures short { IsShort result.now }
    {
        self.read_mut(line, packing)
    }

    /// The entry of a line, as `read` returns it; the caller may change it.
    ///
    /// ```rust
    /// let mut reader = LineReader::new();
    /// let line = "(1.0) can0 18EAFF01#14F001".as_bytes();
    /// let entry = reader.read_mut(line, Packing::Frames);
    /// *entry = Entry::Skip;
    /// assert!(rt; matches!(entry, Entry::Skip));
    /// ```
    pub fn read_mut(&mut self, line: &[u8], packing: Packing) -> &mut Entry
        ensures entry { result.now ≡ entry line.now packing }
        ensures valid { IsEntry result.now }
        ensures short { IsShort result.now }
    {
        read_next(&mut self.cache, line, packing, &mut self.entry);
        &mut self.entry
    }
}

/// The entry of the next line, by the cache of the lines before.
#[inline]
fn read_next(cache: &mut SecondCache, line: &[u8], packing: Packing, out: &mut Entry)
    ensures entry { out.new ≡ entry line.now packing }
    ensures valid { IsEntry out.new }
    ensures short { IsShort out.new }
{
    if read_fast(cache, line, packing, out).is_none() {
        read_line_into(line, packing, out);
    }
}

/// The entry of a candump line or a plain line of the common form. None for other lines.
#[inline]
fn read_fast(cache: &mut SecondCache, line: &[u8], packing: Packing, out: &mut Entry) -> Option<()>
    ensures entry { IfSome result (λ done. out.new ≡ entry line.now packing) }
    ensures valid { IfSome result (λ done. IsEntry out.new) }
    ensures short { IfSome result (λ done. IsShort out.new) }
{
    match line {
        [b'(', ..] => read_candump_fast(cache, line, out),
        _ => read_plain_fast(line, packing, out),
    }
}

/// Turns an entry into the frame of these parts, in place if it already is a frame.
pub(crate) fn set_frame(out: &mut Entry, stamp: &[u8], id: Id, data: &[u8])
    requires parts { IsPacket stamp.now id «data».now }
    requires short { length «data».now ≤ frame_payload }
    ensures value { out.new ≡ entries.Frame (record { stamp = stamp.now; id = id; payload = «data».now }) }
    ensures valid { IsEntry out.new }
{
    match out {
        Entry::Frame(packet) => packet.set_parts(stamp, id, data),
        _ => *out = Entry::Frame(Packet::from_parts(stamp, id, data)),
    }
}

/// `set_frame` for a stamp and data of known lengths, so that they are moved instead of copied byte by byte. It is
/// inlined, with `set_parts`: only then are the lengths known there.
#[inline(always)]
pub(crate) fn set_frame_fast<const N: usize>(
    out: &mut Entry,
    stamp: &[u8; N],
    id: Id,
    data: &[u8; FRAME_PAYLOAD],
)
    requires { IsPacket stamp.now id «data».now }
    ensures value { out.new ≡ entries.Frame (record { stamp = stamp.now; id = id; payload = «data».now }) }
    ensures valid { IsEntry out.new }
{
    match out {
        Entry::Frame(packet) => packet.set_parts(stamp, id, data),
        _ => set_frame(out, stamp, id, data),
    }
}

/// Turns an entry into the whole message of these parts, in place if it already is a whole message.
pub(crate) fn set_whole(out: &mut Entry, stamp: &[u8], id: Id, data: &[u8])
    requires { IsPacket stamp.now id «data».now }
    ensures value { out.new ≡ entries.Whole (record { stamp = stamp.now; id = id; payload = «data».now }) }
    ensures valid { IsEntry out.new }
{
    match out {
        Entry::Whole(packet) => packet.set_parts(stamp, id, data),
        _ => *out = Entry::Whole(Packet::from_parts(stamp, id, data)),
    }
}
