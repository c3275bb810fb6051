//! How a line begins: the lines of all frames of a message begin with the same text.
ghost use Rattle.std.specs.Prelude.{◌≡◌, ◌+◌, ◌*◌, ◌≤◌, ◌++◌, List, ℕ, length, take, OnOk, OnErr};
ghost use Rattle.n2k_wire.specs.Heads.{begins_candump, line_after};
ghost use Rattle.n2k_wire.specs.Packet.{longest_message};
ghost use Rattle.n2k_wire.specs.Texts.{plain_text};

use crate::candump_writer::put_data;
use crate::packet::Packet;
use crate::plain_writer::{append_room, put, put_end, put_head};
use std::alloc::AllocError;
use std::marker::Model;

/// How a line begins, up to the length of the data in a plain line, and up to the data in a candump line. Its unused room
/// is copied with it, since a copy of known length costs less.
#[derive(Drop)]
pub struct LineHead {
    pub(crate) bytes: [u8; 64],
    pub(crate) len: usize,
}

impl Model for LineHead {
    ghost use Rattle.std.specs.Prelude.{◌≤◌, List, ℕ, take};

    ghost Value = { List ℕ };

    ghost view = { λ h. take h.len h.bytes };

    ghost invariant = { λ h. h.len ≤ 53 };
}

impl LineHead {
    /// Before the first byte.
    pub const EMPTY: LineHead = LineHead {
        bytes: [0; 64],
        len: 0,
    };

    /// Adds a text.
    pub(crate) fn push(&mut self, text: &[u8])
        requires { length self.old + length text.now ≤ 53 }
        ensures { self.new ≡ self.old ++ text.now }
    {
        let end = self.len + text.len();
        self.bytes[self.len..end].copy_from_slice(text);
        self.len = end;
    }

    /// Writes a short text at a place of another, and returns the place after it.
    #[inline(always)]
    pub(crate) fn put(&self, text: &mut [u8], at: usize) -> usize
        requires short { length self.now ≤ 32 }
        requires room { at + 32 ≤ length text.old }
        ensures bytes { take result text.new ≡ take at text.old ++ self.now }
        ensures end { result ≡ at + length self.now }
        ensures len { length text.new ≡ length text.old }
    {
        let Some(first) = self.bytes.first_chunk::<32>() else {
            unreachable!()
        };
        put(text, at, first, self.len)
    }

    fn is_candump(&self) -> bool
        ensures { result ≡ begins_candump self.now }
    {
        self.len > 0 && self.bytes[0] == b'('
    }

    /// Becomes how a packet's plain line begins.
    ///
    /// ```rust
    /// let mut head = LineHead::EMPTY;
    /// head.set_plain(&frame_in("(1.0) can0 18EAFF01#14F001")?);
    /// let mut text = [0; LINE_ROOM];
    /// let end = head.write_line(&mut text, 0, &[0x14, 0xf0]);
    /// let wanted = "1970-01-01T00:00:01.000Z,6,59904,1,255,2,14,f0\n";
    /// assert_eq!(rt; &text[..end], wanted.as_bytes());
    /// ```
    pub fn set_plain(&mut self, packet: &Packet)
        ensures { (payload : List ℕ) → line_after self.new payload ≡ plain_text (record packet.now { payload = payload }) }
    {
        self.len = put_head(&mut self.bytes, 0, packet);
    }

    /// Writes the line that begins so, with these data, at most 223 bytes, at a place of a text, and returns the place
    /// after it: a candump line if it begins with `(`, else a plain line. `LINE_ROOM` bytes are enough for any line.
    ///
    /// ```rust
    /// let mut head = LineHead::EMPTY;
    /// head.set_plain(&frame_in("(1.0) can0 18EAFF01#14F001")?);
    /// let mut text = [0; LINE_ROOM];
    /// let end = head.write_line(&mut text, 0, &[0x14, 0xf0]);
    /// let wanted = "1970-01-01T00:00:01.000Z,6,59904,1,255,2,14,f0\n";
    /// assert_eq!(rt; &text[..end], wanted.as_bytes());
    /// ```
    #[inline(always)]
    pub fn write_line(&self, text: &mut [u8], at: usize, data: &[u8]) -> usize
        requires short { length «data».now ≤ longest_message }
        requires room { at + 85 ≤ length text.old }
        requires bytes { at + 58 + 3 * length «data».now ≤ length text.old }
        ensures bytes { take result text.new ≡ take at text.old ++ line_after self.now «data».now }
        ensures end { result ≤ length text.old }
    {
        let at = put(text, at, &self.bytes, self.len);
        if self.is_candump() {
            put_data(text, at, data)
        } else {
            put_end(text, at, data)
        }
    }

    /// Appends the line that begins so, with these data. If memory is refused, `out` is unchanged.
    pub(crate) fn append(&self, data: &[u8], out: &mut Vec<u8>) -> Result<(), AllocError>
        requires { length «data».now ≤ longest_message }
        ensures ok { OnOk result (out.new.items ≡ out.old.items ++ line_after self.now «data».now) }
        ensures unchanged { OnErr result (out.new.items ≡ out.old.items) }
    {
        let start = out.len();
        append_room(data.len(), out)?;
        let end = self.write_line(out.as_mut_slice(), start, data);
        out.truncate(end);
        Ok(())
    }
}
