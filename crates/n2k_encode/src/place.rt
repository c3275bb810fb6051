//! The places of the bits and bytes of fields.
ghost use Rattle.std.specs.Prelude.{◌≡◌, ◌≤◌, ◌+◌, ◌%◌, length, IfSome};
ghost use Rattle.n2k_table.specs.Bits.{has_bit};
ghost use Rattle.n2k_encode.specs.Place.{end_of, put_bits, put_bytes, put_code, start, with_bits};
ghost use Rattle.n2k_encode.specs.Views.{code_parts};

use crate::value::Code;
use n2k_table::Field;

/// The greatest number of bytes in a message.
pub(crate) const MOST_DATA: usize = 223;

/// Whether a bit of a raw value is 1.
pub(crate) fn has_bit(raw: u64, bit: u32) -> bool
    requires { bit ≤ 63 }
    ensures { result ≡ has_bit raw bit }
{
    (raw >> bit) % 2 == 1
}

/// A byte whose `count` bits from bit `from` on are the lowest bits of a raw value.
#[tactic(auto, using(crate::proofs::Bytes::byte_set))]
fn with_bits(byte: u8, from: u32, count: u32, raw: u64) -> u8
    requires some { 1 ≤ count }
    requires inside { from + count ≤ 8 }
    ensures { result ≡ with_bits byte from count raw }
{
    let mask = 0xffu8 >> (8 - count) << from;
    let low = (raw % 256) as u8;
    byte & !mask | (low << from) & mask
}

/// Sets the `count` bits of one byte that begin at bit `at` to the lowest bits of a raw value.
#[tactic(auto, using(crate::proofs::Bytes::byte_rules))]
fn put_in_byte(data: &mut [u8], at: usize, count: u32, raw: u64)
    requires some { 1 ≤ count }
    requires inside { at % 8 + count ≤ 8 }
    ensures { «data».new ≡ put_bits «data».old at count raw }
{
    if at / 8 < data.len() {
        data[at / 8] = with_bits(data[at / 8], (at % 8) as u32, count, raw);
    }
}

/// Sets the `bits` bits that begin at bit `at` to a raw value, byte by byte.
#[tactic(auto, using(crate::proofs::Bytes::put_more))]
fn put_bits(data: &mut [u8], at: usize, bits: u32, raw: u64)
    requires room { bits ≤ 64 }
    requires place { at ≤ 100000 }
    ensures { «data».new ≡ put_bits «data».old at bits raw }
{
    let mut done = 0;
    while done < bits {
        let place = at + done as usize;
        let count = (8 - (place % 8) as u32).min(bits - done);
        put_in_byte(data, place, count, raw >> done);
        done += count;
    }
}

/// Sets the bytes that begin at byte `at`, as far as they lie inside the data.
#[tactic(auto, using(crate::proofs::Places::past_end))]
pub(crate) fn put_bytes(data: &mut [u8], at: usize, bytes: &[u8])
    ensures { «data».new ≡ put_bytes «data».old at bytes.now }
{
    let mut place = at;
    for byte in bytes {
        if place >= data.len() {
            return;
        }
        data[place] = *byte;
        place += 1;
    }
}

/// The byte from which the place of a field counts, unless a string before it has no end.
fn start(field: &Field, data: &[u8]) -> Option<usize>
    ensures value { result ≡ start field.now «data».now }
    ensures inside { IfSome result (λ start. start ≤ length «data».now) }
{
    let rest = field.rest(data)?;
    Some(data.len().saturating_sub(rest.len()))
}

/// Sets a field to a code, if the place of the field is known.
pub(crate) fn put_code(field: &Field, code: &Code, data: &mut [u8])
    requires { length «data».old ≤ 223 }
    ensures { «data».new ≡ put_code field.now (code_parts code.now) «data».old }
{
    let Some(start) = start(field, data) else {
        return;
    };
    let at = field.at() as usize;
    match code {
        Code::Bits(raw) => put_bits(data, 8 * start + at, field.bits().min(64), *raw),
        Code::Bytes(bytes) => put_bytes(data, start + at / 8, bytes.as_slice()),
    }
}

/// The end of a field with this code, in bytes, if the place of the field is known.
pub(crate) fn end_of(field: &Field, code: &Code, data: &[u8]) -> Option<usize>
    requires { length «data».now ≤ 223 }
    ensures { result ≡ end_of field.now (code_parts code.now) «data».now }
{
    let start = start(field, data)?;
    let at = field.at() as usize;
    match code {
        Code::Bits(_) => Some(start + (at + field.bits() as usize + 7) / 8),
        Code::Bytes(bytes) => Some(start + at / 8 + bytes.len()),
    }
}
