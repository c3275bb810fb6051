//! The buffer in which lines are built, one after the other, and kept until they are written. A run keeps it,
//! since new room is zeroed each time.
#![tactic(auto, using(crate::proofs::Begins::begins_steps))]

ghost use Rattle.std.specs.Prelude.{◌≡◌, ◌∷◌, [], ◌++◌, ◌+◌, ◌≤◌, take, length, OnOk, OnErr};
ghost use Rattle.n2k_wire.specs.Heads.{line_after};
ghost use Rattle.n2k_wire.specs.Packet.{longest_message};
ghost use Rattle.n2k_wire.specs.Texts.{plain_text};
ghost use Rattle.n2k_table.specs.Inner.LineBuffer.{AddsText};

use n2k_wire::{LINE_ROOM, LineHead, Packet, write_line};
use std::alloc::{AllocError, Global};
use std::marker::Model;

/// The room of a run, for mostly all lines of a block of a log.
const RUN_ROOM: usize = 32768;

/// The least room, which is that of a line that is written alone.
pub(crate) const LINE_ALONE: usize = 1024;

/// Room for a value: for a number of 64 bits and its sign, or for the beginning of a name.
pub(crate) const VALUE_ROOM: usize = 64;

/// The lines of a run, one after the other: 32 KiB of room lie in the value itself.
pub type LineBuffer = TextBuffer<RUN_ROOM>;

/// Lines, one after the other. What is called `write` needs room; the other calls ask for it. Lines are appended to in
/// parts, which are put together in an array: copying a few bytes at a constant length into one costs a third of
/// appending them to a vector.
#[derive(Drop)]
pub struct TextBuffer<const SIZE: usize> {
    /// The first bytes of lines that are longer than the room. Mostly there are none.
    prefix: Vec<u8>,
    room: [u8; SIZE],
    /// How many bytes of the room are used. They follow the front.
    at: usize,
}

impl<const SIZE: usize> Model for TextBuffer<SIZE> {
    ghost use Rattle.std.specs.Prelude.{◌≤◌, ◌++◌, take};
    ghost use Rattle.n2k_table.specs.Inner.LineBuffer.{LineBufferParts};

    ghost Value = { LineBufferParts };

    ghost view = { λ l. record { items = l.prefix.items ++ take l.at l.room; held = l.at } };

    ghost invariant = { λ l. (l.at ≤ SIZE) × (1024 ≤ SIZE) };
}

/// Appends bytes to the front. It is not inlined: few lines need it.
#[inline(never)]
fn append(prefix: &mut Vec<u8>, bytes: &[u8]) -> Result<(), AllocError>
    ensures ok { OnOk result (prefix.new.items ≡ prefix.old.items ++ bytes.now) }
    ensures unchanged { OnErr result (prefix.new.items ≡ prefix.old.items) }
{
    prefix.extend_from_slice(bytes)
}

/// Writes bytes to a place of the room. They are given by value: of two references the copy would test whether they
/// overlap.
#[inline(always)]
fn write_at<const N: usize>(room: &mut [u8], at: usize, bytes: [u8; N])
    requires { at + N ≤ length room.old }
    ensures bytes { take (at + N) room.new ≡ take at room.old ++ bytes.entry }
    ensures size { length room.new ≡ length room.old }
{
    room[at..at + N].copy_from_slice(&bytes);
}

impl<const SIZE: usize> TextBuffer<SIZE> {
    /// No lines. A line that is longer than the room takes memory; the least room is 1,024 bytes.
    ///
    /// ```rust
    /// let table = sample_table(alloc)?;
    /// let packet = frame_in("(1.0) can0 09F8027F#0500")?;
    /// let mut short: TextBuffer<4096> = TextBuffer::new(alloc);
    /// let mut text = Vec::new(alloc);
    /// json_line_in(alloc, &table, &packet, false, &mut short, &mut text)?;
    /// ```
    pub fn new(alloc: Global) -> TextBuffer<SIZE>
        requires { 1024 ≤ SIZE }
        ensures { result.items ≡ [] }
    {
        TextBuffer {
            prefix: Vec::new(alloc),
            room: [0; SIZE],
            at: 0,
        }
    }

    /// Lets go of the lines. Their room is kept.
    ///
    /// ```rust
    /// let mut lines = LineBuffer::new(alloc);
    /// lines.push_plain(&frame_in("(1.0) can0 18EAFF01#14F001")?)?;
    /// lines.clear();
    /// assert!(rt; lines.parts().1.is_empty());
    /// ```
    pub fn clear(&mut self)
        ensures { self.new.items ≡ [] }
    {
        self.prefix.clear();
        self.at = 0;
    }

    /// The lines in two parts, the second after the first.
    ///
    /// ```rust
    /// let mut lines = LineBuffer::new(alloc);
    /// lines.push_plain(&frame_in("(1.0) can0 18EAFF01#14F001")?)?;
    /// let (prefix, rest) = lines.parts();
    /// assert_eq!(rt; (prefix.len(), rest.len()), (0, 50));
    /// ```
    pub fn parts(&self) -> (&[u8], &[u8])
        ensures { result.0.now ++ result.1.now ≡ self.now.items }
    {
        let room = &self.room[..];
        (self.prefix.as_slice(), &room[..self.at])
    }

    /// How many bytes the lines have.
    #[inline(always)]
    pub(crate) fn len(&self) -> usize
        ensures { result ≡ length self.now.items }
    {
        self.prefix.len() + self.at
    }

    /// Drops what comes after so many bytes.
    #[cold]
    #[inline(never)]
    pub(crate) fn truncate(&mut self, count: usize)
        requires { count ≤ length self.old.items }
        ensures { self.new.items ≡ take count self.old.items }
    {
        self.prefix.truncate(count);
        self.at = count - self.prefix.len();
    }

    /// Moves all lines to the front.
    #[inline(always)]
    fn settle(&mut self) -> Result<(), AllocError>
        ensures ok { OnOk result (self.new ≡ record { items = self.old.items; held = 0 }) }
        ensures unchanged { OnErr result (self.new.items ≡ self.old.items) }
    {
        if self.at > 0 {
            let room = &self.room[..];
            append(&mut self.prefix, &room[..self.at])?;
            self.at = 0;
        }
        Ok(())
    }

    /// Appends the lines to a vector. If memory is refused, the vector is unchanged.
    pub(crate) fn append_to(&mut self, out: &mut Vec<u8>) -> Result<(), AllocError>
        ensures ok { OnOk result (out.new.items ≡ out.old.items ++ self.old.items) }
        ensures err { OnErr result (out.new.items ≡ out.old.items) }
    {
        self.settle()?;
        out.extend_from_slice(&self.prefix)
    }

    /// Makes room for so many bytes. What is appended part by part has one such test.
    #[inline(always)]
    pub(crate) fn reserve(&mut self, count: usize) -> Result<(), AllocError>
        requires { count ≤ 1024 }
        ensures items { OnOk result (self.new.items ≡ self.old.items) }
        ensures room { OnOk result (self.new.held + count ≤ SIZE) }
        ensures unchanged { OnErr result (self.new.items ≡ self.old.items) }
    {
        if self.at > SIZE - count {
            self.settle()?;
        }
        Ok(())
    }

    /// Appends the first bytes of an array. There is room for the whole array: copying it whole costs less.
    #[inline(always)]
    pub(crate) fn write<const N: usize>(&mut self, bytes: &[u8; N], count: usize)
        requires few { count ≤ N }
        requires room { self.old.held + N ≤ SIZE }
        ensures items { self.new.items ≡ self.old.items ++ take count bytes.now }
        ensures held { self.new.held ≡ self.old.held + count }
    {
        // Read once: after the bytes it would be loaded again.
        let at = self.at;
        write_at(&mut self.room, at, *bytes);
        self.at = at + count;
    }

    /// Appends the first bytes of some.
    #[inline(always)]
    pub(crate) fn put<const N: usize>(
        &mut self,
        bytes: &[u8; N],
        count: usize,
    ) -> Result<(), AllocError>
        requires few { count ≤ N }
        requires room { N ≤ 1024 }
        ensures { AddsText result self.old.items self.new.items (take count bytes.now) }
    {
        self.reserve(N)?;
        self.write(bytes, count);
        Ok(())
    }

    /// Appends a byte.
    #[inline(always)]
    pub(crate) fn push(&mut self, byte: u8) -> Result<(), AllocError>
        ensures { AddsText result self.old.items self.new.items (byte ∷ []) }
    {
        self.put(&[byte], 1)
    }

    /// Appends bytes.
    #[inline(always)]
    pub(crate) fn extend_from_slice(&mut self, bytes: &[u8]) -> Result<(), AllocError>
        ensures { AddsText result self.old.items self.new.items bytes.now }
    {
        if bytes.len() <= SIZE - self.at {
            let end = self.at + bytes.len();
            let room = &mut self.room[..];
            room[self.at..end].copy_from_slice(bytes);
            self.at = end;
            return Ok(());
        }
        self.extend_past(bytes)
    }

    /// Appends bytes that the room has no place for.
    #[inline(never)]
    fn extend_past(&mut self, bytes: &[u8]) -> Result<(), AllocError>
        ensures { AddsText result self.old.items self.new.items bytes.now }
    {
        self.settle()?;
        append(&mut self.prefix, bytes)
    }

    /// Appends the plain line of a packet. A refused growth leaves the lines as they were.
    ///
    /// ```rust
    /// let mut lines = LineBuffer::new(alloc);
    /// lines.push_plain(&frame_in("(1.0) can0 18EAFF01#14F001")?)?;
    /// let wanted = "1970-01-01T00:00:01.000Z,6,59904,1,255,3,14,f0,01\n";
    /// assert_eq!(rt; lines.parts().1, wanted.as_bytes());
    /// ```
    #[inline(always)]
    pub fn push_plain(&mut self, packet: &Packet) -> Result<(), AllocError>
        ensures adds { OnOk result (self.new.items ≡ self.old.items ++ plain_text packet.now) }
        ensures unchanged { OnErr result (self.new.items ≡ self.old.items) }
    {
        self.reserve(LINE_ROOM)?;
        self.write_plain(packet);
        Ok(())
    }

    /// Appends the plain line of a packet. There is room for any.
    #[inline(always)]
    fn write_plain(&mut self, packet: &Packet)
        requires { self.old.held + 736 ≤ SIZE }
        ensures { self.new.items ≡ self.old.items ++ plain_text packet.now }
    {
        let _data = packet.data();
        self.at = write_line(&mut self.room, self.at, packet);
    }

    /// Appends the line that begins so, with these data, at most 223 bytes. A refused growth leaves the lines as they
    /// were.
    ///
    /// ```rust
    /// let mut head = LineHead::EMPTY;
    /// head.set_plain(&frame_in("(1.0) can0 18EAFF01#14F001")?);
    /// let mut lines = LineBuffer::new(alloc);
    /// lines.push_line(&head, &[0x14, 0xf0])?;
    /// let wanted = "1970-01-01T00:00:01.000Z,6,59904,1,255,2,14,f0\n";
    /// assert_eq!(rt; lines.parts().1, wanted.as_bytes());
    /// ```
    #[inline(always)]
    pub fn push_line(&mut self, head: &LineHead, data: &[u8]) -> Result<(), AllocError>
        requires { length «data».now ≤ longest_message }
        ensures adds { OnOk result (self.new.items ≡ self.old.items ++ line_after head.now «data».now) }
        ensures unchanged { OnErr result (self.new.items ≡ self.old.items) }
    {
        self.reserve(LINE_ALONE)?;
        self.at = head.write_line(&mut self.room, self.at, data);
        Ok(())
    }
}
