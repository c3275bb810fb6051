//! The decimal text of a whole number over a power of ten.
#![tactic(auto, using(crate::proofs::Begins::begins_steps))]

ghost use Rattle.std.specs.Prelude.{◌≡◌, ◌∷◌, [], ◌++◌, ◌+◌, ◌≤◌, ◌&&◌, nat_lt, ℕ, List, if◌then◌else◌, length, OnOk, OnErr};
ghost use Rattle.n2k_table.specs.Decimal.{IsDecimal, dec, dotted, minus, padded_digits};
ghost use Rattle.n2k_table.specs.Inner.Digits.{zero_filled};
ghost use Rattle.n2k_table.specs.Inner.Number.{value_of};
ghost use Rattle.n2k_table.specs.Inner.LineBuffer.{AddsText};

use crate::decimal_fast::{MOST_DECIMALS, write_short};
use crate::line_buffer::{LINE_ALONE, TextBuffer, VALUE_ROOM};
use crate::number::Number;
use itoa::Buffer;
use std::alloc::{AllocError, Global};

/// Appends digits with the dot before the last `decimals` of them.
fn push_dotted<const SIZE: usize>(
    digits: &[u8],
    decimals: usize,
    line: &mut TextBuffer<SIZE>,
) -> Result<(), AllocError>
    requires { decimals ≤ length digits.now }
    ensures { AddsText result line.old.items line.new.items (dotted decimals digits.now) }
{
    let (whole, fraction) = digits.split_at(digits.len() - decimals);
    line.extend_from_slice(whole)?;
    if !fraction.is_empty() {
        line.push(b'.')?;
        line.extend_from_slice(fraction)?;
    }
    Ok(())
}

/// Appends `0.`, zeros to fill the decimals, and the digits.
fn push_filled<const SIZE: usize>(
    digits: &[u8],
    decimals: usize,
    line: &mut TextBuffer<SIZE>,
) -> Result<(), AllocError>
    requires { length digits.now ≤ decimals }
    ensures { AddsText result line.old.items line.new.items (zero_filled decimals digits.now) }
{
    line.extend_from_slice(b"0.")?;
    for _ in 0..decimals - digits.len() {
        line.push(b'0')?;
    }
    line.extend_from_slice(digits)?;
    Ok(())
}

/// Appends the sign of a number of that size, or nothing. There is room for a byte. Zero has no sign.
#[inline(always)]
fn write_sign<const SIZE: usize>(negative: bool, size: u128, line: &mut TextBuffer<SIZE>)
    requires { line.old.held + 1 ≤ SIZE }
    ensures items { line.new.items ≡ line.old.items ++ (if negative && nat_lt 0 size then minus ∷ [] else []) }
    ensures held { line.new.held ≤ line.old.held + 1 }
{
    if negative && size > 0 {
        line.write(b"-", 1);
    }
}

/// Appends the decimal text of `size / 10^decimals`, of any number of digits. It is not inlined: few have so many.
#[cold]
#[inline(never)]
fn push_long<const SIZE: usize>(
    size: u128,
    decimals: usize,
    line: &mut TextBuffer<SIZE>,
) -> Result<(), AllocError>
    ensures { AddsText result line.old.items line.new.items (dotted decimals (padded_digits size decimals)) }
{
    let mut buffer = Buffer::new();
    let digits = buffer.format(size).as_bytes();
    if decimals < digits.len() {
        push_dotted(digits, decimals, line)
    } else {
        push_filled(digits, decimals, line)
    }
}

/// Appends the decimal text of `size / 10^decimals`. There is room for 48 bytes.
#[inline(always)]
fn push_size<const SIZE: usize>(
    size: u128,
    decimals: usize,
    line: &mut TextBuffer<SIZE>,
) -> Result<(), AllocError>
    requires { line.old.held + 48 ≤ SIZE }
    ensures { AddsText result line.old.items line.new.items (dotted decimals (padded_digits size decimals)) }
{
    match u64::try_from(size) {
        Ok(short) if decimals <= MOST_DECIMALS => {
            write_short(short, decimals, line);
            Ok(())
        }
        _ => push_long(size, decimals, line),
    }
}

/// Appends the decimal text of a number. There is room for 64 bytes.
#[inline(always)]
pub(crate) fn push_number<const SIZE: usize>(
    number: Number,
    line: &mut TextBuffer<SIZE>,
) -> Result<(), AllocError>
    requires { line.old.held + 64 ≤ SIZE }
    ensures { AddsText result line.old.items line.new.items (dec (value_of number) number.resolution.decimals) }
{
    let size = u128::from(number.size) * u128::from(number.resolution.mantissa);
    write_sign(number.negative, size, line);
    push_size(size, usize::from(number.resolution.decimals), line)
}

/// Appends the decimal text of `value / 10^decimals`.
pub(crate) fn push_decimal<const SIZE: usize>(
    value: i128,
    decimals: u8,
    line: &mut TextBuffer<SIZE>,
) -> Result<(), AllocError>
    ensures { AddsText result line.old.items line.new.items (dec value decimals) }
{
    let size = value.unsigned_abs();
    line.reserve(VALUE_ROOM)?;
    write_sign(value < 0, size, line);
    push_size(size, usize::from(decimals), line)
}

/// Appends the decimal text of `value / 10^decimals`, with exactly that many digits after the dot: a minus
/// sign if the value is below zero, at least one digit before the dot and no leading zero beside
/// another, and no dot without decimals. Nothing is rounded, and zero has no sign. A refused growth leaves
/// `out` as it was.
///
/// So -1 with 2 decimals is `-0.01`, 0 with 2 is `0.00`, and 5 with 0 is `5`.
///
/// ```rust
/// let mut text = Vec::new(alloc);
/// decimal_text(alloc, -123456, 3, &mut text)?;
/// assert_eq!(rt; text.as_slice(), b"-123.456".as_slice());
/// ```
pub fn decimal_text(
    alloc: Global,
    value: i128,
    decimals: u8,
    out: &mut Vec<u8>,
) -> Result<(), AllocError>
    ensures appends { OnOk result (out.new.items ≡ out.old.items ++ dec value decimals) }
    ensures unchanged { OnErr result (out.new.items ≡ out.old.items) }

    // What is appended is such a text, and no other text is.
    ensures decimal { IsDecimal value decimals (dec value decimals) }
    ensures only { (text : List ℕ) → IsDecimal value decimals text → text ≡ dec value decimals }
{
    let mut line = TextBuffer::<LINE_ALONE>::new(alloc);
    push_decimal(value, decimals, &mut line)?;
    line.append_to(out)
}
