//! What a string shows.
ghost use Rattle.std.specs.Prelude.{◌≡◌, ◌+◌, ◌*◌, option_map};
ghost use Rattle.n2k_table.specs.Shown.{shown_parts, trimmed, trimmed_units};
ghost use Rattle.n2k_table.specs.Shown.{shown_characters, shown_wide, shown_encoded, shown_string};
ghost use Rattle.n2k_table.specs.Strings.{first_bytes, content, is_filling_unit};

use crate::field_value::trimmed;
use crate::shown::Shown;
use crate::string_place::Form;
use std::str::from_utf8;

/// So many bytes of those that are there; of a short string what is there of them.
fn first_bytes(bytes: &[u8], length: usize, short: bool) -> Option<&[u8]>
    ensures { option_map (λ found. found.now) result ≡ first_bytes short length bytes.now }
{
    bytes.get(..length).or(short.then_some(bytes))
}

/// The bytes of a string after its length.
fn content(form: Form, short: bool, length: u8, bytes: &[u8]) -> Option<&[u8]>
    ensures { option_map (λ found. found.now) result ≡ content form short length bytes.now }
{
    match form {
        Form::Lau if length < 2 => None,
        Form::Lau => first_bytes(bytes, usize::from(length) - 1, short),
        Form::Lz => first_bytes(bytes, usize::from(length), short),
    }
}

/// What characters of a byte each, or of UTF-8, show: nothing if all of them are filler.
fn characters_value(text: &[u8]) -> Shown<'_>
    ensures { shown_parts result ≡ shown_characters (trimmed text.now) }
{
    let kept = trimmed(text);
    if kept.is_empty() {
        return Shown::Absent;
    }
    match from_utf8(kept) {
        Ok(text) => Shown::Utf8(text),
        Err(_) => Shown::Text(kept),
    }
}

/// A unit that fills a text up.
fn is_filling_unit(low: u8, high: u8) -> bool
    ensures { result ≡ is_filling_unit (low + 256 * high) }
{
    match high {
        0x00 => low == 0x00 || low == b'@' || low == b' ',
        0xff => low == 0xff,
        _ => false,
    }
}

/// The bytes of UTF-16 up to the last unit that does not fill it up.
fn trimmed_units(bytes: &[u8]) -> &[u8]
    ensures { result.now ≡ trimmed_units bytes.now }
{
    let mut end = bytes.len() / 2 * 2;
    while end >= 2 && is_filling_unit(bytes[end - 2], bytes[end - 1]) {
        end -= 2;
    }
    &bytes[..end]
}

/// What characters of UTF-16 show: nothing if all of them are filler.
fn wide_value(bytes: &[u8]) -> Shown<'_>
    ensures { shown_parts result ≡ shown_wide (trimmed_units bytes.now) }
{
    let kept = trimmed_units(bytes);
    if kept.is_empty() {
        return Shown::Absent;
    }
    Shown::Wide(kept)
}

/// What characters show that follow a byte for their encoding.
fn encoded_value(bytes: &[u8]) -> Shown<'_>
    ensures { shown_parts result ≡ shown_encoded bytes.now }
{
    match bytes.split_first() {
        Some((0, characters)) => wide_value(characters),
        Some((1, characters)) => characters_value(characters),
        _ => Shown::Absent,
    }
}

/// What a string shows of the bytes from its length on.
#[inline(never)]
pub(crate) fn string_value(form: Form, short: bool, bytes: &[u8]) -> Shown<'_>
    ensures { shown_parts result ≡ shown_string form short bytes.now }
{
    let Some((length, rest)) = bytes.split_first() else {
        return Shown::Absent;
    };
    let Some(content) = content(form, short, *length, rest) else {
        return Shown::Absent;
    };
    match form {
        Form::Lau => encoded_value(content),
        Form::Lz => characters_value(content),
    }
}
