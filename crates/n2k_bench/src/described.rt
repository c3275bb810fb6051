//! Messages that a definition of a table describes.

use crate::replay::next_random;
use n2k_wire::{Id, Packet};

/// The most bytes of a message.
const LONGEST: usize = 223;

/// The number after a key in a text, such as `at = 8`.
fn number_after(text: &str, key: &str) -> Option<u64> {
    let (_, after) = text.split_once(key)?;
    let mut number = 0u64;
    for byte in after.bytes() {
        if !byte.is_ascii_digit() {
            break;
        }
        number = number.wrapping_mul(10).wrapping_add(u64::from(byte - b'0'));
    }
    Some(number)
}

/// Writes the lowest bits of a number into the data at a bit position.
fn put_bits(data: &mut [u8; LONGEST], at: u64, bits: u64, number: u64) {
    for bit in 0..bits.min(64) {
        let place = at.saturating_add(bit);
        if let Some(byte) = data.get_mut((place / 8) as usize) {
            let mask = 1u8 << (place % 8) as u32;
            *byte &= !mask;
            if number >> bit as u32 & 1 == 1 {
                *byte |= mask;
            }
        }
    }
}

/// A message of a definition that has one field a line: a `match` field gets its value, all other fields are random.
pub(crate) fn described(definition: &str, mut random: u64) -> Option<Packet> {
    let pgn = u32::try_from(number_after(definition, "number = ")?).ok()?;
    let mut data = [0; LONGEST];
    for byte in data.iter_mut() {
        random = next_random(random);
        *byte = (random / 256 % 256) as u8;
    }
    for field in definition.lines() {
        if let Some(wanted) = number_after(field, "match = ") {
            let at = number_after(field, "at = ")?;
            let bits = number_after(field, "bits = ")?;
            put_bits(&mut data, at, bits, wanted);
        }
    }
    let id = Id {
        prio: 6,
        pgn,
        src: 35,
        dst: 255,
    };
    Packet::new(b"2025-07-04T06:00:00.000Z", id, &data)
}
