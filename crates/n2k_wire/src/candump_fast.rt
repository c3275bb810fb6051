//! A fast path; read `candump.rt` first. It reads a candump line of eight bytes as `candump -L` writes it,
//! `(1751608800.114221) can0 09F80103#FF..`, by position, and keeps the text of its second for the next lines. Only a
//! result that is returned is promised: without one, the line is read by `candump.rt`, which reads every candump line.
ghost use Rattle.std.specs.Prelude.{◌≡◌, ◌≤◌, ◌<◌, ◌^◌, ◌++◌, ℕ, map, not, position, true, false, Some, Ok, IfSome, IsTrue};
ghost use Rattle.std.specs.Char.{is_ascii_hexdigit};
ghost use Rattle.std.specs.Int.{w32, w64, to_le_bytes};
ghost use Rattle.std.specs.List.{list_all};
ghost use Rattle.std.specs.Simd.Lanes.{mask_l};
ghost use Rattle.n2k_wire.specs.Candump.{is_interface_byte, identifier, is_other_frame, payload};
ghost use Rattle.n2k_wire.specs.Entry.{entry, IsEntry, IsShort};
ghost use Rattle.n2k_wire.specs.declared.entry.Packing.{Packing};
ghost use Rattle.n2k_wire.specs.Packet.{is_stamp};
ghost use Rattle.n2k_wire.specs.Inner.Candump.{IsFramed, IsSecondPrefix, stamp_after};
ghost use Rattle.n2k_wire.specs.Stamp.{last_second, millis_digits, three_digits, utc_text};

use crate::candump::{FIRST_ERROR_FRAME, LONGEST_INTERFACE};
use crate::cuts::after_byte;
use crate::digits::{begins_with_digits, decimal_number, eight_bytes};
use crate::entry::{Entry, set_frame_fast};
use crate::identifier::split_id;
use crate::stamp::{Moment, UTC_LEN, utc_text};
use std::simd::prelude::*;

/// The bytes of `(1751608800.`.
const PREFIX: usize = 12;

/// The digits of the seconds.
const SECONDS: usize = 10;

/// The digits of the fraction.
const FRACTION: usize = 6;

/// The digits of an extended identifier.
const WORD_DIGITS: usize = 8;

/// The least bytes of a line of the fast path, and the most.
const SHORTEST: usize = 47;

const LONGEST: usize = 61;

/// The bytes in which the end of an interface's name is looked for.
const LANES: usize = 16;

/// The second of the line that was read last.
#[derive(Drop)]
pub(crate) struct SecondCache {
    /// The first bytes of a line of that second.
    prefix: [u8; PREFIX],
    seconds: u64,
    /// The UTC text of the second's begin.
    text: [u8; UTC_LEN],
    ghost is_prefix: { IsSecondPrefix prefix seconds },
    ghost seconds_fit: { seconds ≤ last_second },
    ghost is_text: { text ≡ utc_text (record { seconds = seconds; millis = 0 }) },
}

impl SecondCache {
    pub(crate) fn new() -> SecondCache {
        SecondCache {
            prefix: *b"(0000000000.",
            seconds: 0,
            text: utc_text(Moment {
                seconds: 0,
                millis: 0,
            }),
        }
    }

    /// Sets the second to that of lines with these first bytes. None if no line has them.
    #[inline(never)]
    fn recompute(&mut self, prefix: &[u8; PREFIX]) -> Option<()>
        ensures { IfSome result (λ done. self.new.prefix ≡ prefix.now) }
    {
        let inner = after_byte(b'(', prefix)?;
        let (digits, point) = inner.split_at(SECONDS);
        after_byte(b'.', point)?;
        let seconds = decimal_number(12, digits)?;
        self.prefix = *prefix;
        self.seconds = seconds;
        self.text = utc_text(Moment { seconds, millis: 0 });
        Some(())
    }

    /// Sets the second of the next line. Mostly it is the second of the line before.
    #[inline]
    fn advance_to(&mut self, prefix: &[u8; PREFIX]) -> Option<()>
        ensures { IfSome result (λ done. self.new.prefix ≡ prefix.now) }
    {
        if are_same(prefix, &self.prefix) {
            Some(())
        } else {
            self.recompute(prefix)
        }
    }

    /// The UTC text of a line's stamp, and the text after the stamp.
    #[inline]
    fn stamp_after<'a>(&mut self, line: &'a [u8]) -> Option<([u8; UTC_LEN], &'a [u8])>
        ensures value { IfSome result (λ x. stamp_after line.now ≡ Some (x.0, x.1.now)) }
        ensures stamp { IfSome result (λ x. IsTrue (is_stamp x.0)) }
    {
        let (prefix, after) = line.split_first_chunk::<PREFIX>()?;
        let eight = after.first_chunk::<8>()?;
        if !begins_with_digits(u8x8::from_array(*eight)) {
            return None;
        }
        let (fraction, after) = after.split_first_chunk::<FRACTION>()?;
        let text = after_byte(b')', after)?;
        self.advance_to(prefix)?;
        Some((with_millis(&self.text, fraction), text))
    }
}

/// The first bytes of a line as two words.
#[inline(always)]
fn prefix_words(prefix: &[u8; PREFIX]) -> (u64, u32)
    ensures { prefix.now ≡ to_le_bytes w64 result.0 ++ to_le_bytes w32 result.1 }
{
    let [a, b, c, d, e, f, g, h, i, j, k, l] = *prefix;
    (
        u64::from_le_bytes([a, b, c, d, e, f, g, h]),
        u32::from_le_bytes([i, j, k, l]),
    )
}

/// Whether two lines begin with the same bytes.
#[inline(always)]
fn are_same(prefix: &[u8; PREFIX], other: &[u8; PREFIX]) -> bool
    ensures { IsTrue result → prefix.now ≡ other.now }
{
    let (start, end) = prefix_words(prefix);
    let (other_start, other_end) = prefix_words(other);
    start == other_start && end == other_end
}

/// The text of a second with the milliseconds that a fraction begins with.
#[tactic(auto, using(crate::proofs::SecondCaches::millis_put))]
#[inline]
fn with_millis(text: &[u8; UTC_LEN], fraction: &[u8; FRACTION]) -> [u8; UTC_LEN]
    ensures { (seconds m : ℕ) → text.now ≡ utc_text (record { seconds = seconds; millis = 0 })
        → millis_digits m ≡ three_digits fraction.now
        → result ≡ utc_text (record { seconds = seconds; millis = m }) }
{
    let mut text = *text;
    text[20] = fraction[0];
    text[21] = fraction[1];
    text[22] = fraction[2];
    text
}

/// A bit for each byte that an interface's name can't have.
#[tactic(auto, using(crate::proofs::FastLanes::mask_is))]
#[inline(always)]
fn mask_of_others(lanes: u8x16) -> u64
    ensures { result ≡ mask_l (map (λ b. not (is_interface_byte b)) lanes) }
{
    let shifted = lanes - u8x16::splat(b'!');
    shifted.simd_gt(u8x16::splat(b'~' - b'!')).to_bitmask()
}

/// The place of the first byte that ends an interface, if it is among the first sixteen of a text. All sixteen are
/// compared at once.
#[inline(always)]
fn interface_end(text: &[u8]) -> Option<usize>
    ensures { IfSome result (λ at. position (λ b. not (is_interface_byte b)) text.now ≡ Some at) }
{
    if text.len() < LANES {
        return None;
    }
    let mask = mask_of_others(u8x16::from_slice(text));
    let at = mask.trailing_zeros() as usize;
    if at < LANES { Some(at) } else { None }
}

/// The 29 bits of an identifier of eight digits.
#[inline(always)]
fn fast_identifier(digits: &[u8; WORD_DIGITS]) -> Option<u32>
    ensures hexadecimal { IfSome result (λ n. list_all is_ascii_hexdigit digits.now ≡ true) }
    ensures value { IfSome result (λ n. identifier digits.now ≡ Ok (Some n)) }
    ensures bits { IfSome result (λ n. n < 2 ^ 29) }
{
    let twice: u8x16 = u8x8::from_array(*digits).swizzle([
        0, 1, 2, 3, 4, 5, 6, 7, 0, 1, 2, 3, 4, 5, 6, 7,
    ]);
    let [a, b, c, d, ..] = eight_bytes(twice)?;
    let number = u32::from_be_bytes([a, b, c, d]);
    if number < FIRST_ERROR_FRAME {
        Some(number)
    } else {
        None
    }
}

/// The identifier and the text after the `#`, if one space is on each side of the interface, and eight digits are
/// before the `#`.
#[inline]
fn fast_framed(text: &[u8]) -> Option<(u32, &[u8])>
    ensures value { IfSome result (λ x. IsFramed text.now x.0 x.1.now) }
    ensures bits { IfSome result (λ x. x.0 < 2 ^ 29) }
{
    let named = after_byte(b' ', text)?;
    let at = interface_end(named)?;
    if at == 0 || at > LONGEST_INTERFACE {
        return None;
    }
    let (_, rest) = named.split_at(at);
    let inner = after_byte(b' ', rest)?;
    let (digits, after) = inner.split_first_chunk::<WORD_DIGITS>()?;
    let identifier = fast_identifier(digits)?;
    let data = after_byte(b'#', after)?;
    Some((identifier, data))
}

/// The eight bytes of a frame's data.
#[tactic(auto, using(crate::proofs::CandumpBack::no_other_frame, crate::proofs::FastFrames::payload_of))]
#[inline]
fn fast_payload(text: &[u8]) -> Option<[u8; 8]>
    ensures frame { IfSome result (λ bytes. is_other_frame text.now ≡ false) }
    ensures value { IfSome result (λ bytes. payload text.now ≡ Some bytes) }
{
    let digits = text.as_array::<16>()?;
    eight_bytes(u8x16::from_array(*digits))
}

/// Writes the entry of a line of eight bytes over the entry of an earlier line. None for a line in another form.
pub(crate) fn read_candump_fast(cache: &mut SecondCache, line: &[u8], out: &mut Entry) -> Option<()>
    ensures entry { IfSome result (λ done. (packing : Packing) → out.new ≡ entry line.now packing) }
    ensures valid { IfSome result (λ done. IsEntry out.new) }
    ensures short { IfSome result (λ done. IsShort out.new) }
{
    if line.len() < SHORTEST || line.len() > LONGEST {
        return None;
    }
    let (stamp, text) = cache.stamp_after(line)?;
    let (identifier, text) = fast_framed(text)?;
    let data = fast_payload(text)?;
    set_frame_fast(out, &stamp, split_id(identifier), &data);
    Some(())
}
