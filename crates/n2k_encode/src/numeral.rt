//! The exact value of a JSON number, which may have any number of digits and any exponent.
ghost use Rattle.std.specs.Prelude.{◌≡◌, ◌≤◌, ◌⊎◌, ◌+◌, ◌-◌, ◌*◌, ◌^◌, ◌++◌, length, take, min};
ghost use Rattle.std.specs.Str.Parse.{AllDigits, digits_value};
ghost use Rattle.fast_float.specs.Text.{scan};
ghost use Rattle.n2k_encode.specs.Numeral.{is_negative, digits_of, point, scaled, is_multiple, rounds_up, multiples};

use core::dec2flt::{Numeral, digit_at, skip_zeros};

/// Above each size that a field can show.
const LIMIT: u128 = 1 << 100;

/// A size times a power of ten: its whole part, and whether a fraction follows.
#[derive(Clone, Copy)]
pub(crate) struct Magnitude {
    pub(crate) size: u128,
    pub(crate) more: bool,
}

/// Whether a JSON number has a minus sign.
pub(crate) fn is_negative(text: &[u8]) -> bool
    ensures { result ≡ is_negative text.now }
{
    matches!(text.first(), Some(b'-'))
}

/// A JSON number without its sign.
fn without_sign(text: &[u8]) -> &[u8]
    ensures { result.now ≡ digits_of text.now }
{
    match text.split_first() {
        Some((b'-', digits)) => digits,
        _ => text,
    }
}

/// The number that the first digits make, or `LIMIT` if it is greater.
fn prefix_value(whole: &[u8], fraction: &[u8], count: usize) -> u128
    requires digits { AllDigits 10 (whole.now ++ fraction.now) }
    requires within { count ≤ length whole.now + length fraction.now }
    ensures { result ≡ min (digits_value 10 (take count (whole.now ++ fraction.now))) (2 ^ 100) }
{
    let mut value = 0u128;
    for at in 0..count {
        value = (value * 10 + u128::from(digit_at(whole, fraction, at))).min(LIMIT);
    }
    value
}

/// The number that the first digits of a numeral make, or `LIMIT` if it is greater. `Numeral` has the number of all digits.
fn kept_value(numeral: &Numeral<'_>, count: usize) -> u128
    requires { count ≤ length numeral.now.whole + length numeral.now.fraction }
    ensures { result ≡ min (digits_value 10 (take count (numeral.now.whole ++ numeral.now.fraction))) (2 ^ 100) }
{
    let (whole, fraction) = (numeral.whole(), numeral.fraction());
    if count == whole.len() + fraction.len() && count <= 19 {
        return u128::from(numeral.wrapped_digits());
    }
    prefix_value(whole, fraction, count)
}

/// A number with some zeros more, or `LIMIT` if it is greater.
fn with_zeros(number: u128, zeros: u64) -> u128
    requires { number ≤ 2 ^ 100 }
    ensures { result ≡ min (number * 10 ^ zeros) (2 ^ 100) }
{
    let mut value = number;
    for done in 0..zeros {
        let _ = done;
        value = (value * 10).min(LIMIT);
    }
    value
}

/// The place of the point of a numeral times `10^shift`.
fn point(numeral: &Numeral<'_>, shift: u16) -> u128
    ensures { let far = length numeral.now.whole + (2 ^ 64 - 1) in
        (result ≡ point shift numeral.now) ⊎ ((far ≤ result) × (far ≤ point shift numeral.now)) }
{
    let unmoved = numeral.whole().len() as u128 + u128::from(shift);
    let power = u128::from(numeral.saturated_exponent());
    if numeral.is_exponent_negative() {
        unmoved.saturating_sub(power)
    } else {
        unmoved + power
    }
}

/// A numeral times `10^shift`, if its whole part is below `LIMIT`.
fn scaled_parts(numeral: &Numeral<'_>, shift: u16) -> Option<Magnitude>
    ensures { result ≡ scaled shift numeral.now }
{
    let (whole, fraction) = (numeral.whole(), numeral.fraction());
    let count = whole.len() + fraction.len();
    let point = point(numeral, shift);
    let kept = point.min(count as u128) as usize;
    let zeros = point.saturating_sub(count as u128).min(31) as u64;
    let size = with_zeros(kept_value(numeral, kept), zeros);
    if size >= LIMIT {
        return None;
    }
    Some(Magnitude {
        size,
        more: skip_zeros(whole, fraction, kept) < count,
    })
}

/// The size of a JSON number times `10^shift`, if its whole part has 100 bits at most.
pub(crate) fn scaled(text: &[u8], shift: u16) -> Option<Magnitude>
    ensures { result ≡ scaled shift (scan (digits_of text.now)) }
{
    scaled_parts(&Numeral::scan(without_sign(text)), shift)
}

/// Whether a size is a multiple of a unit.
fn is_multiple(unit: u128, size: Magnitude) -> bool
    requires { 1 ≤ unit }
    ensures { result ≡ is_multiple unit size }
{
    size.size % unit == 0 && !size.more
}

/// Whether the next multiple of a unit is nearer than the one before, or as near and the one before makes an odd sum with
/// `parity`.
fn rounds_up(parity: u64, unit: u128, size: Magnitude) -> bool
    requires some { 1 ≤ unit }
    requires few { unit ≤ 2 ^ 100 }
    ensures { result ≡ rounds_up parity unit size }
{
    let twice = 2 * (size.size % unit);
    let is_odd = (size.size / unit % 2 + u128::from(parity)) % 2 == 1;
    twice > unit || twice == unit && (size.more || is_odd)
}

/// How many units of ten times the mantissa a size is: exactly, or, if `nearest` says so, the nearest number of them. Of
/// two that are as near, the one is taken whose sum with `parity` is even.
#[tactic(auto, unfolding(crate::specs::Numeral::multiples))]
pub(crate) fn multiples(nearest: bool, parity: u64, mantissa: u32, size: Magnitude) -> Option<u128>
    ensures { result ≡ multiples nearest parity (10 * mantissa) size }
{
    let unit = 10 * u128::from(mantissa);
    if unit == 0 {
        return None;
    }
    let count = size.size / unit;
    if is_multiple(unit, size) {
        return Some(count);
    }
    if !nearest {
        return None;
    }
    if rounds_up(parity, unit, size) {
        Some(count + 1)
    } else {
        Some(count)
    }
}
