//! Packets as candump lines, `(0000000010.300000) can0 1DFF0405#000BA39901414243`, written in place as plain lines are.
//! Kept of the packet before: the start of its stamp and of its line.
ghost use Rattle.std.specs.Prelude.{◌≡◌, ◌+◌, ◌-◌, ◌*◌, ◌<◌, ◌≤◌, ◌++◌, [], codes, length, take, List, ℕ, IfSome, IfNone, IfErr, None, Ok, Err, IsTrue, OnOk, OnErr};
ghost use Rattle.std.specs.Int.{w32, to_be_bytes};
ghost use Rattle.hex.specs.Hex.{encode_upper};
ghost use Rattle.n2k_wire.specs.Candump.{frame_payload, is_interface, longest_interface};
ghost use Rattle.n2k_wire.specs.Heads.{candump_end, line_after};
ghost use Rattle.n2k_wire.specs.Inner.Stamp.{IsSecond, IsStampText, are_millis, after_millis, second_prefix};
ghost use Rattle.n2k_wire.specs.Stamp.{last_second, utc_moment};
ghost use Rattle.n2k_wire.specs.Texts.{Appends, candump_text};

use crate::candump::FRAME_PAYLOAD;
use crate::fault::WireFault;
use crate::identifier::join_id;
use crate::line_head::LineHead;
use crate::packet::Packet;
use crate::plain_writer::{eight_digits, put};
use crate::stamp::read_utc;
use std::alloc::Global;
use std::marker::Model;

/// The bytes of a stamp before its milliseconds, `1970-01-01T00:00:10.`.
const SECOND_LEN: usize = 20;

/// The bytes of the milliseconds and the `Z`, `300Z`.
const MILLIS_LEN: usize = 4;

/// The start of the lines of a second, `(0000000010.`.
#[tactic(auto, using(crate::proofs::CandumpLemmas::seconds_short, std::proofs::Common::append_assoc))]
fn second_prefix(seconds: u64) -> LineHead
    requires { seconds ≤ last_second }
    ensures { result ≡ second_prefix seconds }
{
    let mut buffer = itoa::Buffer::new();
    let digits = buffer.format(seconds).as_bytes();
    let mut prefix = LineHead::EMPTY;
    prefix.push(b"(");
    prefix.push(&b"0000000000"[digits.len().min(10)..]);
    prefix.push(digits);
    prefix.push(b".");
    prefix
}

/// The text between the milliseconds and the identifier, `000) can0 `.
#[tactic(auto, using(std::proofs::Common::append_assoc))]
fn after_millis(interface: &[u8]) -> LineHead
    requires { length interface.now ≤ longest_interface }
    ensures { result ≡ after_millis interface.now }
{
    let mut after = LineHead::EMPTY;
    after.push(b"000) ");
    after.push(interface);
    after.push(b" ");
    after
}

/// Whether the rest of a stamp after the second is milliseconds and the end.
#[inline]
fn are_millis(after: &[u8; MILLIS_LEN]) -> bool
    ensures { result ≡ are_millis after.now }
{
    let [a, b, c, end] = *after;
    a.is_ascii_digit() && b.is_ascii_digit() && c.is_ascii_digit() && end == b'Z'
}

/// The second of the packet before.
#[derive(Drop)]
struct WrittenSecond {
    /// The first bytes of its stamps.
    stamp: [u8; SECOND_LEN],
    /// The first bytes of its candump lines.
    line: LineHead,
}

impl WrittenSecond {
    /// The first second that a candump line can name.
    #[tactic(auto, using(crate::proofs::SharedSeconds::first_second))]
    fn new() -> WrittenSecond
        ensures { IsSecond result.stamp result.line }
    {
        WrittenSecond {
            stamp: *b"1970-01-01T00:00:00.",
            line: second_prefix(0),
        }
    }

    /// Sets the second to a stamp's, and returns the rest of the stamp. Mostly it is the second of the packet before.
    fn advance_to<'s>(&mut self, stamp: &'s [u8]) -> Option<&'s [u8; MILLIS_LEN]>
        requires { IsSecond self.old.stamp self.old.line }
        ensures second { IsSecond self.new.stamp self.new.line }
        ensures some { IfSome result (λ after. IsStampText (utc_moment stamp.now) (self.new.line ++ take 3 after.now)) }
        ensures none { IfNone result (utc_moment stamp.now ≡ None) }
    {
        let (prefix, after) = stamp.split_first_chunk::<SECOND_LEN>()?;
        let after = after.as_array::<MILLIS_LEN>()?;
        if *prefix == self.stamp && are_millis(after) {
            return Some(after);
        }
        let seen = read_utc(stamp)?;
        self.stamp = *prefix;
        self.line = second_prefix(seen.seconds);
        Some(after)
    }
}

/// Begins the lines that `candump -L` writes of frames that came in at one interface, as `candump_text` does, but faster
/// if a packet has the second of the one before.
#[derive(Drop)]
pub struct CandumpLines<'a> {
    interface: &'a str,
    /// The text after the milliseconds.
    after: LineHead,
    second: WrittenSecond,
}

impl<'a> Model for CandumpLines<'a> {
    ghost use Rattle.std.specs.Prelude.{◌≡◌, List, ℕ, IsTrue};
    ghost use Rattle.n2k_wire.specs.Candump.{is_interface};
    ghost use Rattle.n2k_wire.specs.Inner.Stamp.{IsSecond, after_millis};

    ghost Value = { List ℕ };

    ghost view = { λ l. l.interface.now };

    ghost invariant = { λ l. IsTrue (is_interface l.interface.now) × (l.after ≡ after_millis l.interface.now)
        × IsSecond l.second.stamp l.second.line };
}

/// Writes bytes as digits in upper case at a place of a text, and returns the place after them. Without memory, `hex`
/// writes only lower case.
#[tactic(auto, using(crate::proofs::CandumpLemmas::upper_of_lower, crate::proofs::CandumpLemmas::upper_len))]
#[inline(always)]
fn put_upper(text: &mut [u8], at: usize, bytes: &[u8]) -> usize
    requires room { at + 2 * length bytes.now ≤ length text.old }
    ensures bytes { take result text.new ≡ take at text.old ++ encode_upper bytes.now }
    ensures end { result ≡ at + 2 * length bytes.now }
    ensures len { length text.new ≡ length text.old }
{
    let end = at + 2 * bytes.len();
    let digits = &mut text[at..end];
    let _ = hex::encode_to_slice(bytes, digits);
    digits.make_ascii_uppercase();
    end
}

/// Writes the data and the LF at a place of the text, and returns the place after them. Most frames have eight bytes; a
/// known length costs less.
#[inline(always)]
pub(crate) fn put_data(text: &mut [u8], at: usize, payload: &[u8]) -> usize
    requires room { at + 2 * length payload.now < length text.old }
    ensures bytes { take result text.new ≡ take at text.old ++ candump_end payload.now }
    ensures end { result ≤ length text.old }
{
    let end = match payload.as_array::<FRAME_PAYLOAD>() {
        Some(eight) => put(text, at, &eight_digits(eight, b'A').to_array(), 16),
        None => put_upper(text, at, payload),
    };
    put(text, end, b"\n", 1)
}

impl<'a> CandumpLines<'a> {
    /// Lines at an interface of 1 to 15 bytes from `!` to `~`; `is_interface` is the test.
    ///
    /// ```rust
    /// assert!(rt; is_interface(b"can0"));
    /// let (mut lines, mut head) = (CandumpLines::new("can0"), LineHead::EMPTY);
    /// lines.set_head(&frame_in("(1.0) can0 18EAFF01#14F001")?, &mut head)?;
    /// ```
    #[tactic(auto, using(crate::proofs::CandumpLemmas::interface_short))]
    pub fn new(interface: &'a str) -> CandumpLines<'a>
        requires { IsTrue (is_interface interface.now) }
        ensures { result ≡ interface.now }
    {
        CandumpLines {
            interface,
            after: after_millis(interface.as_bytes()),
            second: WrittenSecond::new(),
        }
    }

    /// Turns a head into how a packet's line begins. The faults are `NoStamp` and `NoId`, as of `candump_text`.
    ///
    /// ```rust
    /// assert!(rt; is_interface(b"can0"));
    /// let (mut lines, mut head) = (CandumpLines::new("can0"), LineHead::EMPTY);
    /// lines.set_head(&frame_in("(1.0) can0 18EAFF01#14F001")?, &mut head)?;
    /// let mut text = [0; LINE_ROOM];
    /// let end = head.write_line(&mut text, 0, &[0x14, 0xf0]);
    /// let wanted = "(0000000001.000000) can0 18EAFF01#14F0\n";
    /// assert_eq!(rt; &text[..end], wanted.as_bytes());
    /// ```
    #[tactic(auto, using(crate::proofs::CandumpLemmas::after_short, crate::proofs::CandumpLemmas::no_stamp, crate::proofs::CandumpLemmas::no_id))]
    pub fn set_head(&mut self, packet: &Packet, head: &mut LineHead) -> Result<(), WireFault>
        ensures ok { OnOk result ((payload : List ℕ)
            → candump_text self.old (record packet.now { payload = payload }) ≡ Ok (line_after head.new payload)) }
        ensures fault { IfErr result (λ fault. (payload : List ℕ)
            → candump_text self.old (record packet.now { payload = payload }) ≡ Err fault) }
        ensures interface { self.new ≡ self.old }
    {
        let Some(millis) = self.second.advance_to(packet.stamp()) else {
            return Err(WireFault::NoStamp);
        };
        let Some(identifier) = join_id(&packet.id()) else {
            return Err(WireFault::NoId);
        };
        let text = &mut head.bytes[..];
        let at = self.second.line.put(text, 0);
        let at = put(text, at, millis, 3);
        let at = self.after.put(text, at);
        let at = put_upper(text, at, &identifier.to_be_bytes());
        head.len = put(text, at, b"#", 1);
        Ok(())
    }
}

/// Appends a packet of at most 8 bytes as `candump -L` writes a frame that came in at an interface of 1 to 15 bytes
/// from `!` to `~`: `(0000000010.300000) can0 1DFF0405#000BA39901414243` with its LF, digits in upper case. `NoStamp`
/// if its stamp isn't `YYYY-MM-DDTHH:MM:SS.mmmZ` of a day of the calendar from 1970 on, else `NoId` if `join_id` has no
/// identifier for it. After a fault `out` is unchanged.
///
/// ```rust
/// let id = split_id(0x18EA_FF01);
/// let stamp = "1970-01-01T00:00:10.300Z".as_bytes();
/// let packet = Packet::new(stamp, id, &[0x14, 0xf0, 0x01]).ok_or("a packet")?;
/// assert!(rt; is_interface(b"can0"));
/// let mut text = Vec::new(alloc);
/// candump_text(alloc, &packet, "can0", &mut text)?;
/// let wanted = "(0000000010.300000) can0 18EAFF01#14F001\n";
/// assert_eq!(rt; text.as_slice(), wanted.as_bytes());
/// ```
pub fn candump_text(
    alloc: Global,
    packet: &Packet,
    interface: &str,
    out: &mut Vec<u8>,
) -> Result<(), WireFault>
    requires short { length packet.now.payload ≤ frame_payload }
    requires interface { IsTrue (is_interface interface.now) }
    ensures text { Appends (candump_text interface.now packet.now) result out.old.items out.new.items }
    ensures unchanged { OnErr result (out.new.items ≡ out.old.items) }
{
    let mut head = LineHead::EMPTY;
    CandumpLines::new(interface).set_head(packet, &mut head)?;
    head.append(packet.data(), out)
        .map_err(|_| WireFault::Memory)
}
