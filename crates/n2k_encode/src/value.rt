//! The bits or bytes that show a value.
ghost use Rattle.std.specs.Prelude.{◌≡◌, ◌≤◌, ◌≤ℤ◌, ◌-◌, ◌^◌, pos, neg_ℤ, true, option_map, IfOk};
ghost use Rattle.json.specs.Find.{as_number, as_str};
ghost use Rattle.json.specs.Value.{value_view, items_view};
ghost use Rattle.n2k_table.specs.Bits.{greatest};
ghost use Rattle.std.specs.Option.{option_and_then};
ghost use Rattle.n2k_encode.specs.Value.{bytes as byte_code, all_ones, bits_for, byte_code_for, bytes_for, code_for, digit_bytes, empty_string};
ghost use Rattle.n2k_encode.specs.Value.{first_string, flags_from, flags_raw, if_there, is_there, lookup_raw, named_value, names_asked, not_available, number_raw};
ghost use Rattle.n2k_encode.specs.Value.{plain_bytes, raw_number, reserved, shifted_raw, shorter_of, shortest_string, string_bytes};
ghost use Rattle.n2k_encode.specs.Value.{text_bytes, units_of, unnamed, whole_raw, wide_string, with_flag, with_sign};
ghost use Rattle.n2k_encode.specs.Views.{code_parts};

use crate::numeral::{is_negative, multiples, scaled};
use crate::place::has_bit;
use crate::request::whole_number;
use crate::texts::{
    FieldBytes, digit_pairs, ends_full, filled, hex_bytes, latin1, latin1_string, narrow_string,
    ones, utf16_string,
};
use json::Value;
use n2k_table::{Coding, Field, Form, Lookup, Resolution};
use std::alloc::{AllocError, Global};

/// How values are encoded.
#[derive(Clone, Copy)]
pub(crate) struct Style {
    /// Whether a number is rounded to the nearest number that its field can show.
    pub(crate) nearest: bool,
    /// Whether a string is written in its shortest encoding.
    pub(crate) shortest: bool,
}

/// The code of a field.
#[derive(Drop)]
pub(crate) enum Code {
    /// The raw value of its bits.
    Bits(u64),
    /// Its bytes.
    Bytes(Vec<u8>),
}

/// How many of the greatest values of `bits` bits mean "not available".
fn reserved(bits: u32) -> u64
    ensures value { result ≡ reserved bits }
    ensures few { result ≤ 2 }
{
    match bits {
        0..=1 => 0,
        2..=3 => 1,
        _ => 2,
    }
}

/// Half the number of values of `bits` bits.
fn half(bits: u32) -> u64
    requires some { 1 ≤ bits }
    requires room { bits ≤ 64 }
    ensures { result ≡ 2 ^ (bits - 1) }
{
    1 << (bits - 1)
}

/// The greatest value of `bits` bits.
fn greatest(signed: bool, bits: u32) -> u64
    requires some { 1 ≤ bits }
    requires room { bits ≤ 64 }
    ensures { result ≡ greatest signed bits }
{
    let half = half(bits);
    if signed { half - 1 } else { half - 1 + half }
}

/// The raw value of a negative number in two's complement, if `bits` bits can hold it.
#[tactic(auto, unfolding(crate::specs::Value::raw_number))]
fn raw_below(bits: u32, size: u128) -> Option<u64>
    requires some { 1 ≤ bits }
    requires room { bits ≤ 64 }
    requires below { 1 ≤ size }
    ensures { result ≡ raw_number true bits true size }
{
    let half = half(bits);
    if size > u128::from(half) {
        return None;
    }
    Some(half - size as u64 + half)
}

/// The raw value of a number, if `bits` bits can show it.
#[tactic(auto, unfolding(crate::specs::Value::raw_number))]
fn raw_number(signed: bool, bits: u32, negative: bool, size: u128) -> Option<u64>
    requires some { 1 ≤ bits }
    requires room { bits ≤ 64 }
    ensures { result ≡ raw_number signed bits negative size }
{
    if negative && size > 0 {
        return if signed { raw_below(bits, size) } else { None };
    }
    let most = greatest(signed, bits);
    let reserved = reserved(bits);
    if size > u128::from(most) || most - (size as u64) < reserved {
        return None;
    }
    Some(size as u64)
}

/// The number of units of a resolution that a JSON number is.
#[tactic(auto, unfolding(crate::specs::Value::units_of))]
fn units_of(nearest: bool, parity: u64, resolution: Resolution, text: &[u8]) -> Option<u128>
    ensures { result ≡ units_of nearest parity resolution text.now }
{
    let size = scaled(text, u16::from(resolution.decimals) + 1)?;
    multiples(nearest, parity, resolution.mantissa, size)
}

/// The raw value of a number.
#[tactic(auto, unfolding(crate::specs::Value::number_raw))]
fn number_raw(
    nearest: bool,
    signed: bool,
    bits: u32,
    resolution: Resolution,
    value: &Value<'_>,
) -> Option<u64>
    requires some { 1 ≤ bits }
    requires room { bits ≤ 64 }
    ensures { result ≡ option_and_then (number_raw nearest signed bits resolution) (as_number (value_view value.now)) }
{
    let text = value.as_number()?.as_bytes();
    let units = units_of(nearest, 0, resolution, text)?;
    raw_number(signed, bits, is_negative(text), units)
}

/// A number of units, with its sign.
fn with_sign(negative: bool, units: u128) -> i128
    requires { units ≤ 2 ^ 100 }
    ensures value { result ≡ with_sign negative units }
    ensures low { neg_ℤ (pos (2 ^ 100)) ≤ℤ result }
    ensures high { result ≤ℤ pos (2 ^ 100) }
{
    let size = units as i128;
    if negative { -size } else { size }
}

/// The raw value of a whole number, without a sign bit.
fn whole_raw(bits: u32, whole: i128) -> Option<u64>
    requires some { 1 ≤ bits }
    requires room { bits ≤ 64 }
    ensures { result ≡ whole_raw bits whole }
{
    if whole < 0 {
        return None;
    }
    raw_number(false, bits, false, whole as u128)
}

/// The raw value of a number to which an offset is added.
#[tactic(auto, using(crate::proofs::Units::units_bounded), unfolding(crate::specs::Value::shifted_raw))]
fn shifted_raw(
    nearest: bool,
    bits: u32,
    offset: i64,
    resolution: Resolution,
    value: &Value<'_>,
) -> Option<u64>
    requires some { 1 ≤ bits }
    requires room { bits ≤ 64 }
    ensures { result ≡ option_and_then (shifted_raw nearest bits offset resolution) (as_number (value_view value.now)) }
{
    let text = value.as_number()?.as_bytes();
    let units = units_of(nearest, offset.unsigned_abs(), resolution, text)?;
    let number = with_sign(is_negative(text), units);
    whole_raw(bits, number - i128::from(offset))
}

/// A whole number below 2^64 without a name.
#[tactic(auto, unfolding(crate::specs::Value::unnamed))]
fn unnamed(lookup: &Lookup, text: &[u8]) -> Option<u64>
    ensures { result ≡ unnamed lookup.now.entries text.now }
{
    let number = u64::try_from(whole_number(text)?).ok()?;
    if lookup.text_of(number).is_some() {
        return None;
    }
    Some(number)
}

/// Whether a value of a lookup is available. The greatest value means "not available", unless it has a name.
fn is_there(lookup: &Lookup, bits: u32, raw: u64) -> bool
    requires some { 1 ≤ bits }
    requires room { bits ≤ 64 }
    ensures { result ≡ is_there lookup.now.entries bits raw }
{
    let greatest = greatest(false, bits);
    raw <= greatest && !(raw == greatest && bits >= 2 && lookup.text_of(raw).is_none())
}

/// A value of a lookup, if it is available.
fn if_there(lookup: &Lookup, bits: u32, found: Option<u64>) -> Option<u64>
    requires some { 1 ≤ bits }
    requires room { bits ≤ 64 }
    ensures { result ≡ if_there lookup.now.entries bits found }
{
    let raw = found?;
    if is_there(lookup, bits, raw) {
        Some(raw)
    } else {
        None
    }
}

/// The first value of a lookup, at most `most`, that has the given name, or the given number if it has no name.
fn named_value(lookup: &Lookup, most: u64, value: &Value<'_>) -> Option<u64>
    ensures { result ≡ named_value lookup.now.entries most (value_view value.now) }
{
    match value {
        Value::String(name) => lookup.value_of(name, most),
        Value::Number(text) => unnamed(lookup, text.as_bytes()),
        _ => None,
    }
}

/// Whether the given text is the name of a `match` value.
fn names_asked(lookup: &Lookup, asked: Option<u64>, value: &Value<'_>) -> bool
    ensures { result ≡ names_asked lookup.now.entries asked (value_view value.now) }
{
    let (Some(asked), Some(text)) = (asked, value.as_str()) else {
        return false;
    };
    match lookup.text_of(asked) {
        Some(name) => name == text,
        None => false,
    }
}

/// The raw value of a lookup. Two values may have the same name: the `match` value is taken if it has the given name,
/// otherwise the first that the field can hold.
fn lookup_raw(field: &Field, lookup: &Lookup, bits: u32, value: &Value<'_>) -> Option<u64>
    requires some { 1 ≤ bits }
    requires room { bits ≤ 64 }
    ensures { result ≡ lookup_raw lookup.now.entries bits field.now.match_value (value_view value.now) }
{
    let asked = field.match_value();
    if names_asked(lookup, asked, value) {
        return asked;
    }
    let most = greatest(false, bits);
    if_there(lookup, bits, named_value(lookup, most, value))
}

/// The raw value with one more bit, if the bit is below `bits` and not set yet.
fn with_flag(raw: u64, bits: u32, bit: u64) -> Option<u64>
    requires { bits ≤ 64 }
    ensures { result ≡ with_flag raw bits bit }
{
    if bit >= u64::from(bits) || has_bit(raw, bit as u32) {
        return None;
    }
    Some(raw | (1 << bit as u32))
}

/// The raw value with all named bits. Each bit may be named once.
fn flags_from(lookup: &Lookup, bits: u32, values: &[Value<'_>]) -> Option<u64>
    requires some { 1 ≤ bits }
    requires room { bits ≤ 64 }
    ensures { result ≡ flags_from lookup.now.entries bits 0 (items_view values.now) }
{
    let last = u64::from(bits - 1);
    let mut raw = 0;
    for value in values {
        raw = with_flag(raw, bits, named_value(lookup, last, value)?)?;
    }
    Some(raw)
}

/// The raw value of the flags in an array.
fn flags_raw(lookup: &Lookup, bits: u32, value: &Value<'_>) -> Option<u64>
    requires some { 1 ≤ bits }
    requires room { bits ≤ 64 }
    ensures { result ≡ flags_raw lookup.now.entries bits (value_view value.now) }
{
    let Value::Array(values) = value else {
        return None;
    };
    let raw = flags_from(lookup, bits, values)?;
    if bits >= 8 && raw >= greatest(false, bits).saturating_sub(1) {
        return None;
    }
    Some(raw)
}

/// The bytes of a text, padded to the width.
#[tactic(auto, unfolding(crate::specs::Value::text_bytes))]
fn text_bytes(width: usize, value: &Value<'_>) -> Option<FieldBytes>
    requires { width ≤ 255 }
    ensures { option_map (λ bytes. bytes.items) result ≡ option_and_then (text_bytes width) (as_str (value_view value.now)) }
{
    let text = value.as_str()?;
    let bytes = latin1(text.as_bytes())?;
    if !ends_full(bytes.as_slice()) {
        return None;
    }
    filled(bytes.as_slice(), width)
}

/// The bytes of a field of bytes. A short field may have fewer than its width.
#[tactic(auto, unfolding(crate::specs::Value::plain_bytes))]
fn plain_bytes(width: usize, short: bool, value: &Value<'_>) -> Option<FieldBytes>
    ensures { option_map (λ bytes. bytes.items) result ≡ option_and_then (plain_bytes width short) (as_str (value_view value.now)) }
{
    let text = value.as_str()?;
    let bytes = hex_bytes(text.as_bytes())?;
    if bytes.len() == width || short && bytes.len() < width {
        Some(bytes)
    } else {
        None
    }
}

/// The bytes of digits, padded to the width.
#[tactic(auto, unfolding(crate::specs::Value::digit_bytes))]
fn digit_bytes(width: usize, value: &Value<'_>) -> Option<FieldBytes>
    requires { width ≤ 255 }
    ensures { option_map (λ bytes. bytes.items) result ≡ option_and_then (digit_bytes width) (as_str (value_view value.now)) }
{
    let text = value.as_str()?;
    let bytes = digit_pairs(text.as_bytes())?;
    if bytes.is_empty() {
        return None;
    }
    filled(bytes.as_slice(), width)
}

/// A string in UTF-16, in the form `lau` only.
fn wide_string(form: Form, text: &str) -> Option<FieldBytes>
    ensures { option_map (λ bytes. bytes.items) result ≡ wide_string form text.now }
{
    match form {
        Form::Lau => utf16_string(text),
        Form::Lz => None,
    }
}

/// The shorter of two strings; the first if both are equally long.
fn shorter_of(utf8: Option<FieldBytes>, wide: Option<FieldBytes>) -> Option<FieldBytes>
    ensures { option_map (λ bytes. bytes.items) result
        ≡ shorter_of (option_map (λ bytes. bytes.items) utf8) (option_map (λ bytes. bytes.items) wide) }
{
    match (utf8, wide) {
        (None, other) => other,
        (Some(first), None) => Some(first),
        (Some(first), Some(second)) => {
            if second.len() < first.len() {
                Some(second)
            } else {
                Some(first)
            }
        }
    }
}

/// A string in the first encoding that shows the text.
fn first_string(form: Form, text: &str) -> Option<FieldBytes>
    ensures { option_map (λ bytes. bytes.items) result ≡ first_string form text.now }
{
    if let Some(bytes) = narrow_string(form, text.as_bytes()) {
        return Some(bytes);
    }
    if let Some(bytes) = latin1_string(form, text) {
        return Some(bytes);
    }
    wide_string(form, text)
}

/// A string in the shortest encoding that shows the text.
fn shortest_string(form: Form, text: &str) -> Option<FieldBytes>
    ensures { option_map (λ bytes. bytes.items) result ≡ shortest_string form text.now }
{
    if let Some(bytes) = latin1_string(form, text) {
        return Some(bytes);
    }
    shorter_of(
        narrow_string(form, text.as_bytes()),
        wide_string(form, text),
    )
}

/// The bytes of a string, if the value is a text.
fn string_bytes(shortest: bool, form: Form, value: &Value<'_>) -> Option<FieldBytes>
    ensures { option_map (λ bytes. bytes.items) result ≡ option_and_then (string_bytes shortest form) (as_str (value_view value.now)) }
{
    let text = value.as_str()?;
    if shortest {
        shortest_string(form, text)
    } else {
        first_string(form, text)
    }
}

/// The code of a raw value. A field with `match` must have this value.
fn bits_for(field: &Field, raw: Option<u64>) -> Option<Code>
    ensures { option_map code_parts result ≡ bits_for field.now raw }
{
    let raw = raw?;
    match field.match_value() {
        Some(asked) if asked != raw => None,
        _ => Some(Code::Bits(raw)),
    }
}

/// The code of bytes.
fn byte_code(alloc: Global, bytes: &[u8]) -> Result<Code, AllocError>
    ensures { IfOk result (λ code. code_parts code ≡ byte_code bytes.now) }
{
    Ok(Code::Bytes(Vec::from_slice(alloc, bytes)?))
}

/// The code of found bytes.
fn bytes_for(alloc: Global, found: Option<FieldBytes>) -> Result<Option<Code>, AllocError>
    ensures { IfOk result (λ code. option_map code_parts code ≡ bytes_for (option_map (λ bytes. bytes.items) found)) }
{
    match found {
        Some(bytes) => Ok(Some(byte_code(alloc, bytes.as_slice())?)),
        None => Ok(None),
    }
}

/// The code by which a field of bytes shows a value, if it can show the value. A function of its own, because its buffers
/// are cleared.
#[inline(never)]
fn byte_code_of(
    alloc: Global,
    style: Style,
    field: &Field,
    value: &Value<'_>,
) -> Result<Option<Code>, AllocError>
    ensures { IfOk result (λ code. option_map code_parts code
        ≡ byte_code_for style field.now (value_view value.now) field.now.meaning) }
{
    let width = field.bits() as usize / 8;
    match field.coding() {
        Coding::Text => bytes_for(alloc, text_bytes(width, value)),
        Coding::Bytes => bytes_for(alloc, plain_bytes(width, field.is_short(), value)),
        Coding::Digits => bytes_for(alloc, digit_bytes(width, value)),
        Coding::String(form) => bytes_for(alloc, string_bytes(style.shortest, form, value)),
        _ => Ok(None),
    }
}

/// The code by which a field shows a value, if it can show the value.
pub(crate) fn code_of(
    alloc: Global,
    style: Style,
    field: &Field,
    value: &Value<'_>,
) -> Result<Option<Code>, AllocError>
    ensures { IfOk result (λ code. option_map code_parts code
        ≡ code_for style field.now (value_view value.now) field.now.meaning) }
{
    let bits = field.bits();
    match field.coding() {
        Coding::Number(signed, resolution) => {
            Ok(bits_for(
                field,
                number_raw(style.nearest, signed, bits, resolution, value),
            ))
        }
        Coding::Shifted(offset, resolution) => {
            Ok(bits_for(
                field,
                shifted_raw(style.nearest, bits, offset, resolution, value),
            ))
        }
        Coding::Lookup(lookup) => Ok(bits_for(field, lookup_raw(field, lookup, bits, value))),
        Coding::Flags(lookup) => Ok(bits_for(field, flags_raw(lookup, bits, value))),
        _ => byte_code_of(alloc, style, field, value),
    }
}

/// A code of `count` bytes FF. A function of its own, because its buffer is cleared.
#[inline(never)]
fn all_ones(alloc: Global, count: u32) -> Result<Code, AllocError>
    requires { count ≤ 255 }
    ensures { IfOk result (λ code. code_parts code ≡ all_ones count) }
{
    byte_code(alloc, ones(count as usize).as_slice())
}

/// The empty string.
fn empty_string(form: Form) -> &'static [u8]
    ensures { result.now ≡ empty_string form }
{
    match form {
        Form::Lau => &[2, 1],
        Form::Lz => &[0],
    }
}

/// The code that means "not available".
pub(crate) fn not_available(alloc: Global, field: &Field) -> Result<Code, AllocError>
    ensures { IfOk result (λ code. code_parts code ≡ not_available field.now.bits field.now.meaning) }
{
    let bits = field.bits();
    match field.coding() {
        Coding::Number(signed, _) => Ok(Code::Bits(greatest(signed, bits))),
        Coding::Shifted(_, _) | Coding::Lookup(_) | Coding::Flags(_) => {
            Ok(Code::Bits(greatest(false, bits)))
        }
        Coding::Text | Coding::Bytes | Coding::Digits => all_ones(alloc, bits / 8),
        Coding::String(form) => byte_code(alloc, empty_string(form)),
    }
}
