//! A packet: a frame or a whole message, with its stamp.
ghost use Rattle.std.specs.Prelude.{◌≡◌, ◌≤◌, length, take};
ghost use Rattle.std.specs.List.{list_all};
ghost use Rattle.std.specs.Option.{SomeIff};
ghost use Rattle.n2k_wire.specs.Packet.{IsPacket, IsPacketParts, is_stamp, is_stamp_byte, is_stamp_start, longest_message, longest_stamp};

use crate::candump::FRAME_PAYLOAD;
use crate::identifier::Id;
use std::marker::Model;

/// The most bytes of a stamp.
pub(crate) const LONGEST_STAMP: usize = 32;

/// The most bytes of a message.
pub(crate) const LONGEST_MESSAGE: usize = 223;

/// The greatest PGN of a packet, of a table and of a saved state.
pub const GREATEST_PGN: u32 = 16_777_215;

/// The greatest priority.
pub(crate) const GREATEST_PRIORITY: u8 = 7;

/// A frame or a whole message: when it was seen, its identifier, and its data of at most 223 bytes.
#[derive(Drop)]
pub struct Packet {
    stamp: [u8; LONGEST_STAMP],
    stamp_len: usize,
    id: Id,
    data: [u8; LONGEST_MESSAGE],
    data_len: usize,
}

impl Model for Packet {
    ghost use Rattle.std.specs.Prelude.{◌≤◌, take};
    ghost use Rattle.n2k_wire.specs.Packet.{PacketParts, IsPacket};

    ghost Value = { PacketParts };

    ghost view = { λ p. record { stamp = take p.stamp_len p.stamp; id = p.id; payload = take p.data_len p.«data» } };

    ghost invariant = { λ p. IsPacket (take p.stamp_len p.stamp) p.id (take p.data_len p.«data») × (p.stamp_len ≤ 32)
        × (p.data_len ≤ 223) };
}

/// Whether a stamp may contain the byte.
fn is_stamp_byte(byte: u8) -> bool
    ensures { result ≡ is_stamp_byte byte }
{
    (byte >= b' ') & (byte <= b'~') & (byte != b',')
}

/// Whether all bytes may be in a stamp, tested without a branch.
#[inline]
fn are_stamp_bytes(text: &[u8]) -> bool
    ensures { result ≡ list_all is_stamp_byte text.now }
{
    let mut all = true;
    for byte in text {
        all &= is_stamp_byte(*byte);
    }
    all
}

/// Whether a stamp may begin with the byte.
fn is_stamp_start(byte: u8) -> bool
    ensures { result ≡ is_stamp_start byte }
{
    byte != b'(' && byte != b'#'
}

/// Whether a text is a stamp: 1 to 32 printable ASCII bytes without a comma, not beginning with `(` or `#`.
#[inline]
pub(crate) fn is_stamp(text: &[u8]) -> bool
    ensures { result ≡ is_stamp text.now }
{
    match text {
        [] => false,
        [first, ..] => {
            is_stamp_start(*first) && text.len() <= LONGEST_STAMP && are_stamp_bytes(text)
        }
    }
}

impl Packet {
    /// The packet of these parts. `None` if the stamp is invalid, the priority is over 7, the PGN over 16777215, or the
    /// data are over 223 bytes.
    ///
    /// ```rust
    /// let id = split_id(0x18EA_FF01);
    /// let packet = Packet::new(b"12:00:01", id, &[0x14, 0xf0, 0x01]).ok_or("a packet")?;
    /// assert_eq!(rt; packet.stamp(), b"12:00:01".as_slice());
    /// assert!(rt; Packet::new(b"12,00,01", id, &[]).is_none());
    /// ```
    pub fn new(stamp: &[u8], id: Id, data: &[u8]) -> Option<Packet>
        ensures { SomeIff result (IsPacket stamp.now id «data».now)
            (record { stamp = stamp.now; id = id; payload = «data».now }) }
    {
        if !is_stamp(stamp) || id.prio > GREATEST_PRIORITY || id.pgn > GREATEST_PGN {
            return None;
        }
        if data.len() > LONGEST_MESSAGE {
            return None;
        }
        Some(Packet::from_parts(stamp, id, data))
    }

    /// The packet of valid parts.
    #[inline]
    pub(crate) fn from_parts(stamp: &[u8], id: Id, data: &[u8]) -> Packet
        requires { IsPacket stamp.now id «data».now }
        ensures value { result ≡ record { stamp = stamp.now; id = id; payload = «data».now } }
        ensures valid { IsPacketParts result }
    {
        let mut kept_stamp = [0; LONGEST_STAMP];
        let mut kept_data = [0; LONGEST_MESSAGE];
        kept_stamp[..stamp.len()].copy_from_slice(stamp);
        kept_data[..data.len()].copy_from_slice(data);
        Packet {
            stamp: kept_stamp,
            stamp_len: stamp.len(),
            id,
            data: kept_data,
            data_len: data.len(),
        }
    }

    /// The packet with this stamp and identifier and these data, of at most 223 bytes.
    ///
    /// ```rust
    /// let packet = frame_in("(1.0) can0 18EAFF01#14F001")?;
    /// let longer = packet.with_data(&[0x20; 9]);
    /// assert_eq!(rt; longer.stamp(), packet.stamp());
    /// assert_eq!(rt; longer.data(), [0x20; 9].as_slice());
    /// ```
    #[inline]
    pub fn with_data(&self, data: &[u8]) -> Packet
        requires { length «data».now ≤ longest_message }
        ensures { result ≡ record { stamp = self.now.stamp; id = self.now.id; payload = «data».now } }
    {
        let mut kept = [0; LONGEST_MESSAGE];
        kept[..data.len()].copy_from_slice(data);
        Packet {
            stamp: self.stamp,
            stamp_len: self.stamp_len,
            id: self.id,
            data: kept,
            data_len: data.len(),
        }
    }

    /// Replaces the packet's data, at most 223 bytes, in place.
    ///
    /// ```rust
    /// let mut packet = frame_in("(1.0) can0 18EAFF01#14F001")?;
    /// packet.set_data(&[0x20; 9]);
    /// assert_eq!(rt; packet.id().pgn, 59904);
    /// assert_eq!(rt; packet.data(), [0x20; 9].as_slice());
    /// ```
    #[inline]
    pub fn set_data(&mut self, data: &[u8])
        requires { length «data».now ≤ longest_message }
        ensures { self.new ≡ record { stamp = self.old.stamp; id = self.old.id; payload = «data».now } }
    {
        self.data[..data.len()].copy_from_slice(data);
        self.data_len = data.len();
    }

    /// Turns the packet into that of these parts, in place. It is inlined, since most callers know the lengths.
    #[inline(always)]
    pub(crate) fn set_parts(&mut self, stamp: &[u8], id: Id, data: &[u8])
        requires { IsPacket stamp.now id «data».now }
        ensures value { self.new ≡ record { stamp = stamp.now; id = id; payload = «data».now } }
        ensures valid { IsPacketParts self.new }
    {
        self.stamp[..stamp.len()].copy_from_slice(stamp);
        self.stamp_len = stamp.len();
        self.id = id;
        self.data[..data.len()].copy_from_slice(data);
        self.data_len = data.len();
    }

    /// The stamp, as text.
    ///
    /// ```rust
    /// let packet = frame_in("(1.0) can0 18EAFF01#14F001")?;
    /// assert_eq!(rt; packet.stamp(), "1970-01-01T00:00:01.000Z".as_bytes());
    /// ```
    pub fn stamp(&self) -> &[u8]
        ensures value { result.now ≡ self.now.stamp }
        ensures valid { IsPacket self.now.stamp self.now.id self.now.payload }
    {
        &self.stamp[..self.stamp_len]
    }

    /// The stamp with its unused room, and its length.
    #[inline]
    pub(crate) fn stamp_buffer(&self) -> (&[u8; LONGEST_STAMP], usize)
        ensures value { take result.1 result.0.now ≡ self.now.stamp }
        ensures len { result.1 ≤ longest_stamp }
    {
        (&self.stamp, self.stamp_len)
    }

    /// The identifier.
    ///
    /// ```rust
    /// let packet = frame_in("(1.0) can0 18EAFF01#14F001")?;
    /// assert_eq!(rt; (packet.id().pgn, packet.id().src), (59904, 1));
    /// ```
    pub fn id(&self) -> Id
        ensures value { result ≡ self.now.id }
        ensures valid { IsPacket self.now.stamp self.now.id self.now.payload }
    {
        self.id
    }

    /// The data, in the order of the bus.
    ///
    /// ```rust
    /// let packet = frame_in("(1.0) can0 18EAFF01#14F001")?;
    /// assert_eq!(rt; packet.data(), [0x14, 0xf0, 0x01].as_slice());
    /// ```
    pub fn data(&self) -> &[u8]
        ensures value { result.now ≡ self.now.payload }
        ensures valid { IsPacket self.now.stamp self.now.id self.now.payload }
    {
        &self.data[..self.data_len]
    }
}
