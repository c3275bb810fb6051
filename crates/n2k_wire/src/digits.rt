//! Numbers as digits.
ghost use Rattle.std.specs.Prelude.{◌≡◌, ◌<◌, ◌≤◌, ◌^◌, Some, true, length, take, IfSome};
ghost use Rattle.std.specs.Char.{is_ascii_digit, is_ascii_hexdigit};
ghost use Rattle.std.specs.List.{list_all};
ghost use Rattle.std.specs.Result.{result_ok};
ghost use Rattle.hex.specs.Hex.{decode_of};
ghost use Rattle.n2k_wire.specs.Digits.{decimal_after, decimal_digit, decimal_number};

use std::simd::prelude::*;

/// The number that 1 to `most` decimal digits make.
#[tactic(auto, unfolding(crate::specs::Digits::decimal_number))]
#[inline]
pub(crate) fn decimal_number(most: usize, digits: &[u8]) -> Option<u64>
    requires { most ≤ 18 }
    ensures value { result ≡ decimal_number most digits.now }
    ensures bound { IfSome result (λ n. n < 10 ^ length digits.now) }
{
    if digits.is_empty() || digits.len() > most {
        return None;
    }
    decimal_digits(digits)
}

#[inline]
fn decimal_digits(digits: &[u8]) -> Option<u64>
    requires { length digits.now ≤ 18 }
    ensures value { result ≡ decimal_after 0 digits.now }
    ensures bound { IfSome result (λ n. n < 10 ^ length digits.now) }
{
    let mut number = 0u64;
    for byte in digits {
        let digit = decimal_digit(*byte)?;
        number = 10 * number + digit;
    }
    Some(number)
}

#[tactic(auto, unfolding(crate::specs::Digits::decimal_digit))]
fn decimal_digit(byte: u8) -> Option<u64>
    ensures value { result ≡ decimal_digit byte }
    ensures small { IfSome result (λ digit. digit ≤ 9) }
{
    if byte.is_ascii_digit() {
        Some(u64::from(byte - b'0'))
    } else {
        None
    }
}

/// If true, the first six of eight bytes are decimal digits. All are compared at once.
#[inline(always)]
pub(crate) fn begins_with_digits(bytes: u8x8) -> bool
    ensures { result ≡ true → list_all is_ascii_digit (take 6 bytes) ≡ true }
{
    let figures = bytes - u8x8::splat(b'0');
    let greatest = u8x8::from_array([9, 9, 9, 9, 9, 9, u8::MAX, u8::MAX]);
    figures.simd_gt(greatest).to_bitmask() == 0
}

/// The eight bytes that sixteen hexadecimal digits spell, if all are digits. No branch depends on the kind of a digit:
/// it would often be mispredicted, since the bytes of a bus are practically random.
#[inline(always)]
pub(crate) fn eight_bytes(digits: u8x16) -> Option<[u8; 8]>
    ensures hexadecimal { IfSome result (λ bytes. list_all is_ascii_hexdigit digits ≡ true) }
    ensures value { IfSome result (λ bytes. result_ok (decode_of digits) ≡ Some bytes) }
{
    let figures = digits - u8x16::splat(b'0');
    let letters = (digits | u8x16::splat(0x20)) - u8x16::splat(b'a');
    let no_figures = figures.simd_gt(u8x16::splat(9));
    let others = no_figures & letters.simd_gt(u8x16::splat(5));
    if others.to_bitmask() != 0 {
        return None;
    }
    let values = no_figures.select(letters + u8x16::splat(10), figures);
    let high: u8x8 = values.swizzle([0, 2, 4, 6, 8, 10, 12, 14]);
    let low: u8x8 = values.swizzle([1, 3, 5, 7, 9, 11, 13, 15]);
    Some((high * u8x8::splat(16) + low).to_array())
}
