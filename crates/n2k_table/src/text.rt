//! Texts in JSON.
#![tactic(auto, using(crate::proofs::Begins::begins_steps))]

ghost use Rattle.std.specs.Char.{digit_char};
ghost use Rattle.std.specs.Prelude.{◌≡◌, ◌++◌, ◌<◌, ◌%◌, IfOk, OnOk, unwrap_or};
ghost use Rattle.std.specs.List.{list_all, flat_map};
ghost use Rattle.std.specs.Option.{IfSome};
ghost use Rattle.json.specs.Print.{escape_letter, escape_byte};
ghost use Rattle.n2k_table.specs.Text.{text_json, hex_pair, hex_pairs, two_digits, character};
ghost use Rattle.n2k_table.specs.Inner.Line.{is_plain, is_plain_character};
ghost use Rattle.n2k_table.specs.Inner.LineBuffer.{AddsText};

use crate::line_buffer::TextBuffer;
use serde_json::Value;
use std::alloc::{AllocError, Global};

/// The room in which the JSON of names is put together, from the first on: nearly all of a table have less.
pub(crate) const NAME_ROOM: usize = 64;

/// The hexadecimal digits, in upper case.
const DIGITS: [u8; 16] = *b"0123456789ABCDEF";

/// A byte that JSON writes as it is.
fn is_plain(byte: u8) -> bool
    ensures { result ≡ is_plain byte }
{
    (byte >= b' ') & (byte != b'"') & (byte != b'\\')
}

/// Whether JSON writes each byte as it is. It looks at each, so that several are compared at once.
fn are_plain(text: &[u8]) -> bool
    ensures { result ≡ list_all is_plain text.now }
{
    let mut all = true;
    for byte in text {
        all &= is_plain(*byte);
    }
    all
}

/// A text as JSON, as `serde_json` writes it.
#[tactic(auto, unfolding(crate::specs::Text::text_json))]
fn text_json(alloc: Global, text: &str) -> Result<Vec<u8>, AllocError>
    ensures { IfOk result (λ bytes. bytes.items ≡ text_json text.now) }
{
    Value::String(String::from_str(alloc, text)?).to_vec(alloc)
}

/// Appends a text as JSON. If no byte needs an escape, as in nearly all names, the text is put between quotes
/// in place, without a text of its own.
pub(crate) fn push_json(alloc: Global, text: &str, out: &mut Vec<u8>) -> Result<(), AllocError>
    ensures { OnOk result (out.new.items ≡ out.old.items ++ text_json text.now) }
{
    if are_plain(text.as_bytes()) {
        out.push(b'"')?;
        out.extend_from_slice(text.as_bytes())?;
        out.push(b'"')?;
    } else {
        out.extend_from_slice(&text_json(alloc, text)?)?;
    }
    Ok(())
}

/// The letter that follows the backslash in the escape of a byte, if it has such an escape.
fn escape_letter(byte: u8) -> Option<u8>
    ensures value { unwrap_or result 0 ≡ escape_letter byte }
    ensures some { IfSome result (λ letter. 0 < letter) }
{
    match byte {
        b'"' | b'\\' => Some(byte),
        0x08 => Some(b'b'),
        0x0c => Some(b'f'),
        b'\n' => Some(b'n'),
        b'\r' => Some(b'r'),
        b'\t' => Some(b't'),
        _ => None,
    }
}

/// The last digit of an escape, for a byte below the space.
fn escape_digit(byte: u8) -> u8
    requires { byte < 32 }
    ensures { result ≡ digit_char (byte % 16) }
{
    let digit = byte % 16;
    if digit < 10 {
        b'0' + digit
    } else {
        b'a' + digit - 10
    }
}

/// Appends a byte of a text, escaped if necessary.
#[tactic(auto, unfolding(json::specs::Print::escape_byte))]
fn push_escaped<const SIZE: usize>(byte: u8, line: &mut TextBuffer<SIZE>) -> Result<(), AllocError>
    ensures { AddsText result line.old.items line.new.items (escape_byte byte) }
{
    match escape_letter(byte) {
        Some(letter) => line.extend_from_slice(&[b'\\', letter]),
        None if byte < b' ' => {
            let high = b'0' + byte / 16;
            line.extend_from_slice(&[b'\\', b'u', b'0', b'0', high, escape_digit(byte)])
        }
        None => line.push(byte),
    }
}

pub(crate) fn push_each<const SIZE: usize>(
    text: &[u8],
    line: &mut TextBuffer<SIZE>,
) -> Result<(), AllocError>
    ensures { AddsText result line.old.items line.new.items (flat_map escape_byte text.now) }
{
    for byte in text {
        push_escaped(*byte, line)?;
    }
    Ok(())
}

/// Appends a text as between its quotes.
fn push_inner<const SIZE: usize>(text: &[u8], line: &mut TextBuffer<SIZE>) -> Result<(), AllocError>
    ensures { AddsText result line.old.items line.new.items (flat_map escape_byte text.now) }
{
    if are_plain(text) {
        line.extend_from_slice(text)
    } else {
        push_each(text, line)
    }
}

/// Appends a text.
#[tactic(auto, using(std::proofs::Common::append_assoc, crate::proofs::Begins::begins_steps), unfolding(crate::specs::Text::text_json))]
pub(crate) fn push_text<const SIZE: usize>(
    text: &[u8],
    line: &mut TextBuffer<SIZE>,
) -> Result<(), AllocError>
    ensures { AddsText result line.old.items line.new.items (text_json text.now) }
{
    line.push(b'"')?;
    push_inner(text, line)?;
    line.push(b'"')
}

/// Appends the character with this number, escaped if necessary.
fn push_character<const SIZE: usize>(
    byte: u8,
    line: &mut TextBuffer<SIZE>,
) -> Result<(), AllocError>
    ensures { AddsText result line.old.items line.new.items (flat_map escape_byte (character byte)) }
{
    if byte < 0x80 {
        push_escaped(byte, line)
    } else {
        line.extend_from_slice(&[0xc0 + byte / 64, 0x80 + byte % 64])
    }
}

/// A byte that is a character of its own, and needs no escape.
fn is_plain_character(byte: u8) -> bool
    ensures { result ≡ is_plain_character byte }
{
    is_plain(byte) & (byte < 0x80)
}

/// Whether each byte is one. It looks at each, so that several are compared at once.
fn are_plain_characters(numbers: &[u8]) -> bool
    ensures { result ≡ list_all is_plain_character numbers.now }
{
    let mut all = true;
    for number in numbers {
        all &= is_plain_character(*number);
    }
    all
}

fn push_each_character<const SIZE: usize>(
    numbers: &[u8],
    line: &mut TextBuffer<SIZE>,
) -> Result<(), AllocError>
    ensures { AddsText result line.old.items line.new.items (flat_map escape_byte (flat_map character numbers.now)) }
{
    for number in numbers {
        push_character(*number, line)?;
    }
    Ok(())
}

/// Appends a text of characters as between its quotes. Most need no escape, and are copied at
/// once.
fn push_inner_characters<const SIZE: usize>(
    numbers: &[u8],
    line: &mut TextBuffer<SIZE>,
) -> Result<(), AllocError>
    ensures { AddsText result line.old.items line.new.items (flat_map escape_byte (flat_map character numbers.now)) }
{
    if are_plain_characters(numbers) {
        line.extend_from_slice(numbers)
    } else {
        push_each_character(numbers, line)
    }
}

/// Appends the text of the characters that have these numbers.
#[tactic(auto, using(std::proofs::Common::append_assoc, crate::proofs::Begins::begins_steps), unfolding(crate::specs::Text::text_json))]
pub(crate) fn push_characters<const SIZE: usize>(
    numbers: &[u8],
    line: &mut TextBuffer<SIZE>,
) -> Result<(), AllocError>
    ensures { AddsText result line.old.items line.new.items (text_json (flat_map character numbers.now)) }
{
    line.push(b'"')?;
    push_inner_characters(numbers, line)?;
    line.push(b'"')
}

/// A byte as two digits.
#[inline(always)]
fn pair(byte: u8) -> [u8; 2]
    ensures { result ≡ hex_pair byte }
{
    let high = DIGITS[usize::from(byte / 16)];
    let low = DIGITS[usize::from(byte % 16)];
    [high, low]
}

fn push_inner_pairs<const SIZE: usize>(
    bytes: &[u8],
    line: &mut TextBuffer<SIZE>,
) -> Result<(), AllocError>
    ensures { AddsText result line.old.items line.new.items (hex_pairs bytes.now) }
{
    let Some((first, rest)) = bytes.split_first() else {
        return Ok(());
    };
    line.put(&pair(*first), 2)?;
    for byte in rest {
        let [high, low] = pair(*byte);
        line.put(&[b' ', high, low], 3)?;
    }
    Ok(())
}

/// Appends the text of bytes: two digits each, and a space between.
#[tactic(auto, using(std::proofs::Common::append_assoc, crate::proofs::Begins::begins_steps))]
pub(crate) fn push_pairs<const SIZE: usize>(
    bytes: &[u8],
    line: &mut TextBuffer<SIZE>,
) -> Result<(), AllocError>
    ensures { AddsText result line.old.items line.new.items (text_json (hex_pairs bytes.now)) }
{
    line.push(b'"')?;
    push_inner_pairs(bytes, line)?;
    line.push(b'"')
}

fn push_inner_digits<const SIZE: usize>(
    bytes: &[u8],
    line: &mut TextBuffer<SIZE>,
) -> Result<(), AllocError>
    ensures { AddsText result line.old.items line.new.items (flat_map two_digits bytes.now) }
{
    for byte in bytes {
        line.extend_from_slice(&[b'0' + *byte / 10, b'0' + *byte % 10])?;
    }
    Ok(())
}

/// Appends the text of bytes that are two decimal digits each.
#[tactic(auto, using(std::proofs::Common::append_assoc, crate::proofs::Begins::begins_steps))]
pub(crate) fn push_digits<const SIZE: usize>(
    bytes: &[u8],
    line: &mut TextBuffer<SIZE>,
) -> Result<(), AllocError>
    ensures { AddsText result line.old.items line.new.items (text_json (flat_map two_digits bytes.now)) }
{
    line.push(b'"')?;
    push_inner_digits(bytes, line)?;
    line.push(b'"')
}
