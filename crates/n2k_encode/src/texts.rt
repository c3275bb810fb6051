//! The bytes of texts.
ghost use Rattle.std.specs.Prelude.{◌≡◌, ◌<◌, ◌≤◌, ◌++◌, [], ◌∷◌, Some, None, replicate, flat_map, option_map, is_some, length, IfSome};
ghost use Rattle.std.specs.Str.{chars, is_utf8};
ghost use Rattle.n2k_encode.specs.Texts.{digit, digits_byte, digit_pairs, ends_full, ends_with_letter, filled, hex_byte, hex_bytes, hex_digit};
ghost use Rattle.n2k_encode.specs.Texts.{last_letter, latin1, latin1_string, most_bytes, narrow_string, some_pairs, utf16_string, wide_character, within};

use arrayvec::ArrayVec;
use n2k_table::Form;

/// The greatest number of bytes in a field: a string with its length.
pub(crate) const MOST_BYTES: usize = 255;

/// The bytes of a field.
pub(crate) type FieldBytes = ArrayVec<u8, MOST_BYTES>;

/// Appends a byte, if there is room for it.
fn push(byte: u8, bytes: &mut FieldBytes) -> Option<()>
    ensures pushed { IfSome result (λ _. bytes.new.items ≡ bytes.old.items ++ byte ∷ []) }
    ensures full { result ≡ None → length bytes.old.items ≡ most_bytes }
{
    if bytes.is_full() {
        return None;
    }
    bytes.push(byte);
    Some(())
}

/// One byte for each character of a text in UTF-8, if each character is at most U+00FF.
#[tactic(auto, using(crate::proofs::Prefixes::prefix_rules))]
pub(crate) fn latin1(text: &[u8]) -> Option<FieldBytes>
    ensures { option_map (λ bytes. bytes.items) result ≡ within (latin1 text.now) }
{
    let mut bytes = FieldBytes::new();
    let mut rest = text;
    while let [byte, following @ ..] = rest {
        rest = following;
        if *byte < 128 {
            push(*byte, &mut bytes)?;
            continue;
        }
        let [second, more @ ..] = rest else {
            return None;
        };
        if *byte < 194 || *byte > 195 || *second >= 192 {
            return None;
        }
        push(*second + 64 * (*byte - 194), &mut bytes)?;
        rest = more;
    }
    let _count = bytes.len();
    Some(bytes)
}

/// The value of an uppercase hexadecimal digit.
fn hex_digit(byte: u8) -> Option<u8>
    ensures value { result ≡ hex_digit byte }
    ensures bound { IfSome result (λ digit. digit < 16) }
{
    match byte {
        b'0'..=b'9' => Some(byte - b'0'),
        b'A'..=b'F' => Some(byte - 55),
        _ => None,
    }
}

/// The byte of two uppercase hexadecimal digits.
fn hex_byte(high: u8, low: u8) -> Option<u8>
    ensures { result ≡ hex_byte high low }
{
    Some(16 * hex_digit(high)? + hex_digit(low)?)
}

/// The bytes of one or more pairs of uppercase hexadecimal digits, separated by single spaces.
#[tactic(auto, using(crate::proofs::Prefixes::prefix_rules))]
fn some_pairs(text: &[u8]) -> Option<FieldBytes>
    ensures { option_map (λ bytes. bytes.items) result ≡ within (some_pairs text.now) }
{
    let mut bytes = FieldBytes::new();
    let mut rest = text;
    while let [high, following @ ..] = rest {
        let [low, more @ ..] = following else {
            return None;
        };
        push(hex_byte(*high, *low)?, &mut bytes)?;
        let [between, next @ ..] = more else {
            let _count = bytes.len();
            return Some(bytes);
        };
        if *between != b' ' {
            return None;
        }
        rest = next;
    }
    None
}

/// The bytes of pairs of uppercase hexadecimal digits, separated by single spaces.
pub(crate) fn hex_bytes(text: &[u8]) -> Option<FieldBytes>
    ensures { option_map (λ bytes. bytes.items) result ≡ within (hex_bytes text.now) }
{
    if text.is_empty() {
        return Some(FieldBytes::new());
    }
    some_pairs(text)
}

/// Whether a text consists of pairs of uppercase hexadecimal digits, separated by single spaces. Their number is not
/// limited.
#[tactic(auto, using(crate::proofs::Prefixes::prefix_rules))]
pub(crate) fn are_pairs(text: &[u8]) -> bool
    ensures { result ≡ is_some (hex_bytes text.now) }
{
    if text.is_empty() {
        return true;
    }
    let mut rest = text;
    while let [high, following @ ..] = rest {
        let [low, more @ ..] = following else {
            return false;
        };
        if hex_byte(*high, *low).is_none() {
            return false;
        }
        let [between, next @ ..] = more else {
            return true;
        };
        if *between != b' ' {
            return false;
        }
        rest = next;
    }
    false
}

/// The value of a decimal digit.
fn digit(byte: u8) -> Option<u8>
    ensures value { result ≡ digit byte }
    ensures bound { IfSome result (λ digit. digit < 10) }
{
    match byte {
        b'0'..=b'9' => Some(byte - b'0'),
        _ => None,
    }
}

/// The byte of two decimal digits.
fn digits_byte(high: u8, low: u8) -> Option<u8>
    ensures { result ≡ digits_byte high low }
{
    Some(10 * digit(high)? + digit(low)?)
}

/// The bytes of pairs of decimal digits.
#[tactic(auto, using(crate::proofs::Prefixes::prefix_rules))]
pub(crate) fn digit_pairs(text: &[u8]) -> Option<FieldBytes>
    ensures { option_map (λ bytes. bytes.items) result ≡ within (digit_pairs text.now) }
{
    let mut bytes = FieldBytes::new();
    let mut rest = text;
    while let [high, following @ ..] = rest {
        let [low, more @ ..] = following else {
            return None;
        };
        push(digits_byte(*high, *low)?, &mut bytes)?;
        rest = more;
    }
    let _count = bytes.len();
    Some(bytes)
}

/// Two slices joined, if a field has room for them.
fn joined(prefix: &[u8], rest: &[u8]) -> Option<FieldBytes>
    ensures { option_map (λ bytes. bytes.items) result ≡ within (Some (prefix.now ++ rest.now)) }
{
    let mut bytes = FieldBytes::new();
    bytes.try_extend_from_slice(prefix).ok()?;
    bytes.try_extend_from_slice(rest).ok()?;
    Some(bytes)
}

/// `count` bytes FF.
#[tactic(auto, using(crate::proofs::Prefixes::fill_rules))]
pub(crate) fn ones(count: usize) -> FieldBytes
    requires { count ≤ most_bytes }
    ensures { result.items ≡ replicate count 255 }
{
    let mut bytes = FieldBytes::new();
    for done in 0..count {
        let _ = done;
        bytes.push(0xff);
    }
    bytes
}

/// Bytes padded with FF to a length; none if they are longer.
#[tactic(auto, using(crate::proofs::Prefixes::fill_rules))]
pub(crate) fn filled(bytes: &[u8], length: usize) -> Option<FieldBytes>
    requires { length ≤ most_bytes }
    ensures { option_map (λ bytes. bytes.items) result ≡ filled length bytes.now }
{
    let count = length.checked_sub(bytes.len())?;
    joined(bytes, ones(count).as_slice())
}

/// Whether the last byte is not filler.
pub(crate) fn ends_full(bytes: &[u8]) -> bool
    ensures { result ≡ ends_full bytes.now }
{
    match bytes.last() {
        None => false,
        Some(last) => *last != 0 && *last != 0xff && *last != b'@' && *last != b' ',
    }
}

/// A string with these bytes, after its length.
pub(crate) fn narrow_string(form: Form, characters: &[u8]) -> Option<FieldBytes>
    ensures { option_map (λ bytes. bytes.items) result ≡ narrow_string form characters.now }
{
    match form {
        Form::Lau => {
            if !ends_full(characters) || characters.len() > 253 {
                return None;
            }
            joined(&[characters.len() as u8 + 2, 1], characters)
        }
        Form::Lz => {
            if !ends_full(characters) || characters.len() > 254 {
                return None;
            }
            joined(&[characters.len() as u8], characters)
        }
    }
}

/// Whether bytes are valid UTF-8.
#[tactic(auto, using(crate::proofs::Prefixes::utf8_rules))]
fn is_utf8(bytes: &[u8]) -> bool
    ensures { result ≡ is_utf8 bytes.now }
{
    match std::str::from_utf8(bytes) {
        Ok(_) => true,
        Err(_) => false,
    }
}

/// A string with one byte for each character, unless these bytes are also valid UTF-8.
pub(crate) fn latin1_string(form: Form, text: &str) -> Option<FieldBytes>
    ensures { option_map (λ bytes. bytes.items) result ≡ latin1_string form text.now }
{
    let bytes = latin1(text.as_bytes())?;
    if is_utf8(bytes.as_slice()) {
        return None;
    }
    narrow_string(form, bytes.as_slice())
}

/// Appends a character in UTF-16, low byte first.
fn push_wide(letter: char, bytes: &mut FieldBytes) -> Option<()>
    ensures { option_map (λ _. bytes.new.items) result ≡ within (Some (bytes.old.items ++ wide_character letter)) }
{
    let code = u32::from(letter);
    if code < 0x1_0000 {
        let unit = [(code % 256) as u8, (code / 256) as u8];
        return bytes.try_extend_from_slice(&unit).ok();
    }
    let high = 0xd800 + (code - 0x1_0000) / 0x400;
    let low = 0xdc00 + (code - 0x1_0000) % 0x400;
    let units = [
        (high % 256) as u8,
        (high / 256) as u8,
        (low % 256) as u8,
        (low / 256) as u8,
    ];
    bytes.try_extend_from_slice(&units).ok()
}

/// The bytes of a text in UTF-16, low byte first.
fn wide_characters(text: &str) -> Option<FieldBytes>
    ensures { option_map (λ bytes. bytes.items) result ≡ within (Some (flat_map wide_character (chars text.now))) }
{
    let mut bytes = FieldBytes::new();
    for letter in text.chars() {
        push_wide(letter, &mut bytes)?;
    }
    let _count = bytes.len();
    Some(bytes)
}

/// The last character of a text.
fn last_letter(text: &str) -> Option<char>
    ensures { result ≡ last_letter (chars text.now) }
{
    let mut last = None;
    for letter in text.chars() {
        last = Some(letter);
    }
    last
}

/// Whether the last character is not filler.
fn ends_with_letter(text: &str) -> bool
    ensures { result ≡ ends_with_letter (chars text.now) }
{
    match last_letter(text) {
        None => false,
        Some(last) => last != '\0' && last != '\u{ffff}' && last != '@' && last != ' ',
    }
}

/// A string in UTF-16, after its length and its encoding.
#[tactic(auto, unfolding(crate::specs::Texts::utf16_string))]
pub(crate) fn utf16_string(text: &str) -> Option<FieldBytes>
    ensures { option_map (λ bytes. bytes.items) result ≡ utf16_string text.now }
{
    if !ends_with_letter(text) {
        return None;
    }
    let letters = wide_characters(text)?;
    if letters.len() > 253 {
        return None;
    }
    joined(&[letters.len() as u8 + 2, 0], letters.as_slice())
}
