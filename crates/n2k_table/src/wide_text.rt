//! Texts of UTF-16 in JSON.
#![tactic(auto, using(crate::proofs::Begins::begins_steps))]

ghost use Rattle.std.specs.Prelude.{◌≡◌, ◌<◌, ◌+◌, ◌++◌, ◌∷◌, [], ◌&&◌, true, false, length, flat_map, unwrap_or, MatchOption, OnOk};
ghost use Rattle.std.specs.Char.Utf16.{is_high_surrogate, is_low_surrogate, surrogate_pair_char, lone_unit_char, utf16_lossy_chars};
ghost use Rattle.json.specs.Print.{escape_byte};
ghost use Rattle.n2k_table.specs.Strings.{units, wide_text};
ghost use Rattle.n2k_table.specs.Text.{text_json, character};
ghost use Rattle.n2k_table.specs.Inner.LineBuffer.{AddsText};

use crate::line_buffer::TextBuffer;
use crate::text::push_each;
use std::alloc::AllocError;

/// The first unit, and the bytes after it.
fn split_unit(bytes: &[u8]) -> Option<(u16, &[u8])>
    ensures { MatchOption result (units bytes.now ≡ [])
        (λ p. (units bytes.now ≡ p.0 ∷ units p.1.now) × (length p.1.now + 2 ≡ length bytes.now)) }
{
    let (low, after) = bytes.split_first()?;
    let (high, rest) = after.split_first()?;
    Some((u16::from(*low) + 256 * u16::from(*high), rest))
}

/// The character of two units, if they are a pair of surrogates.
fn pair_character(first: u16, second: u16) -> Option<char>
    ensures { MatchOption result (is_high_surrogate first && is_low_surrogate second ≡ false)
        (λ c. (is_high_surrogate first && is_low_surrogate second ≡ true) × (c ≡ surrogate_pair_char first second)) }
{
    if !(0xd800..0xdc00).contains(&first) || !(0xdc00..0xe000).contains(&second) {
        return None;
    }
    char::from_u32(0x10000 + (u32::from(first) - 0xd800) * 0x400 + (u32::from(second) - 0xdc00))
}

/// The character of a unit that is in no pair.
fn lone_character(unit: u16) -> char
    ensures { result ≡ unwrap_or (lone_unit_char unit) 0xfffd }
{
    char::from_u32(u32::from(unit)).unwrap_or(char::REPLACEMENT_CHARACTER)
}

/// The first character of a text of UTF-16, low byte first, and the bytes after it. A lone surrogate is U+FFFD. It takes no
/// memory.
///
/// ```rust
/// let (letter, rest) = split_character(&[0x3d, 0xd8, 0x00, 0xde, 0x41]).ok_or("a character")?;
/// assert_eq!(rt; (letter, rest), ('\u{1f600}', [0x41].as_slice()));
/// assert!(rt; split_character(rest).is_none());
/// ```
pub fn split_character(bytes: &[u8]) -> Option<(char, &[u8])>
    ensures { MatchOption result (units bytes.now ≡ [])
        (λ p. (utf16_lossy_chars (units bytes.now) ≡ p.0 ∷ utf16_lossy_chars (units p.1.now))
        × (length p.1.now < length bytes.now)) }
{
    let (unit, after) = split_unit(bytes)?;
    if let Some((next, rest)) = split_unit(after) {
        if let Some(letter) = pair_character(unit, next) {
            return Some((letter, rest));
        }
    }
    Some((lone_character(unit), after))
}

/// Appends a character, escaped if necessary.
fn push_char<const SIZE: usize>(letter: char, line: &mut TextBuffer<SIZE>) -> Result<(), AllocError>
    ensures { AddsText result line.old.items line.new.items (flat_map escape_byte (character letter)) }
{
    let mut room = [0; 4];
    push_each(letter.encode_utf8(&mut room).as_bytes(), line)
}

/// Appends a text as between its quotes.
fn push_inner_wide<const SIZE: usize>(
    bytes: &[u8],
    line: &mut TextBuffer<SIZE>,
) -> Result<(), AllocError>
    ensures { AddsText result line.old.items line.new.items (flat_map escape_byte (wide_text bytes.now)) }
{
    let mut rest = bytes;
    while let Some((letter, after)) = split_character(rest) {
        push_char(letter, line)?;
        rest = after;
    }
    Ok(())
}

/// Appends the text of UTF-16, low byte first.
#[tactic(auto, using(std::proofs::Common::append_assoc, crate::proofs::Begins::begins_steps), unfolding(crate::specs::Text::text_json))]
pub(crate) fn push_wide<const SIZE: usize>(
    bytes: &[u8],
    line: &mut TextBuffer<SIZE>,
) -> Result<(), AllocError>
    ensures { AddsText result line.old.items line.new.items (text_json (wide_text bytes.now)) }
{
    line.push(b'"')?;
    push_inner_wide(bytes, line)?;
    line.push(b'"')
}
