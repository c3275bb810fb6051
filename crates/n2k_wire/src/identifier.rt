//! CAN identifiers of 29 bits, as NMEA 2000 takes them over from ISO 11783-3.
ghost use Rattle.std.specs.Prelude.{◌≡◌, ◌^◌, ◌<◌, ◌≤◌, IfSome};
ghost use Rattle.n2k_wire.specs.Identifier.{split, join, is_addressed, is_joinable, specific_of};

use crate::packet::GREATEST_PRIORITY;

/// The parts of a frame's identifier: priority, PGN, source and destination.
#[derive(Clone, Copy, Debug, PartialEq, Eq)]
pub struct Id {
    /// The priority, 0 (first) to 7.
    pub prio: u8,
    /// The parameter group number, which defines the meaning of the data.
    pub pgn: u32,
    /// The sender's address.
    pub src: u8,
    /// The receiver's address, 255 for all.
    pub dst: u8,
}

/// From this PDU format on a frame is for all (PDU2), and below it for one address (PDU1).
const FIRST_BROADCAST_FORMAT: u32 = 240;

/// The address of all devices.
const EVERYONE: u8 = 255;

/// The greatest PGN of the bus, of 18 bits.
const GREATEST_BUS_PGN: u32 = 0x3_ffff;

/// The parts of the 29 bits of an identifier (ISO 11783-3).
///
/// ```rust
/// let id = split_id(0x09F8_027F);
/// assert_eq!(rt; (id.prio, id.pgn, id.src, id.dst), (2, 129026, 127, 255));
/// ```
#[tactic(auto, unfolding(crate::specs::Identifier::split))]
pub fn split_id(identifier: u32) -> Id
    requires { identifier < 2 ^ 29 }
    ensures value { result ≡ split identifier }
    ensures prio { result.prio ≤ 7 }
    ensures pgn { result.pgn < 2 ^ 18 }
{
    let specific = identifier / 0x100 % 0x100;
    let format = identifier / 0x1_0000 % 0x100;
    let is_broadcast = format >= FIRST_BROADCAST_FORMAT;
    let group = identifier / 0x100 % 0x4_0000;
    Id {
        prio: (identifier / 0x400_0000 % 8) as u8,
        pgn: if is_broadcast {
            group
        } else {
            group - specific
        },
        src: (identifier % 0x100) as u8,
        dst: if is_broadcast {
            EVERYONE
        } else {
            specific as u8
        },
    }
}

/// Whether a PGN is one of frames for one address (PDU1).
fn is_addressed(pgn: u32) -> bool
    ensures { result ≡ is_addressed pgn }
{
    pgn / 0x100 % 0x100 < FIRST_BROADCAST_FORMAT
}

#[tactic(auto, unfolding(crate::specs::Identifier::is_joinable))]
fn is_joinable(id: &Id) -> bool
    ensures { result ≡ is_joinable id.now }
{
    let specific_fits = if is_addressed(id.pgn) {
        id.pgn % 0x100 == 0
    } else {
        id.dst == EVERYONE
    };
    id.prio <= GREATEST_PRIORITY && id.pgn <= GREATEST_BUS_PGN && specific_fits
}

/// The PDU specific byte.
fn specific_of(id: &Id) -> u8
    ensures { result ≡ specific_of id.now }
{
    if is_addressed(id.pgn) {
        id.dst
    } else {
        (id.pgn % 0x100) as u8
    }
}

/// The 29 bits of the identifier with these parts (ISO 11783-3). `None` if there is none: the priority is over 7, the
/// PGN has more than 18 bits, a PGN for one address (PDU1) has a low byte, or a PGN for all (PDU2) has another
/// destination than 255.
///
/// ```rust
/// let id = split_id(0x09F8_027F);
/// assert_eq!(rt; join_id(&id), Some(0x09F8_027F));
/// assert_eq!(rt; join_id(&Id { dst: 9, ..id }), None);
/// ```
#[tactic(auto, unfolding(crate::specs::Identifier::join, crate::specs::Identifier::is_joinable))]
pub fn join_id(id: &Id) -> Option<u32>
    ensures value { result ≡ join id.now }
    ensures bits { IfSome result (λ n. n < 2 ^ 29) }
{
    if !is_joinable(id) {
        return None;
    }
    let format_and_page = id.pgn / 0x100;
    let specific = u32::from(specific_of(id));
    Some(
        u32::from(id.prio) * 0x400_0000
            + format_and_page * 0x1_0000
            + specific * 0x100
            + u32::from(id.src),
    )
}
