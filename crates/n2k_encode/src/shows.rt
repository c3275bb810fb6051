//! Whether what a field shows is what a line gives for it.
ghost use Rattle.std.specs.Prelude.{◌≡◌, ◌<◌, ◌^◌, pos, option_map};
ghost use Rattle.std.specs.Str.{bytes_eq};
ghost use Rattle.json.specs.Find.{as_array, as_number, as_str};
ghost use Rattle.n2k_encode.specs.Steps.{is_some_with};
ghost use Rattle.std.specs.Char.Utf16.{utf16_lossy_chars};
ghost use Rattle.json.specs.Value.{value_view, items_view};
ghost use Rattle.n2k_table.specs.Shown.{flag_parts, flags_left, shown_parts};
ghost use Rattle.n2k_table.specs.Strings.{units};
ghost use Rattle.n2k_table.specs.Text.{character, hex_pair, two_digits};
ghost use Rattle.n2k_encode.specs.Numeral.{is_negative};
ghost use Rattle.n2k_encode.specs.Says.{after, any_item, are_among, count_items, has_pairs, has_pieces, has_sign, is_empty};
ghost use Rattle.n2k_encode.specs.Says.{is_flag, is_near, later_pair, number_is, says, slack};

use crate::numeral::{Magnitude, is_negative, scaled};
use json::Value;
use n2k_table::{Coding, Field, Flag, Flags, Shown, split_character};

/// Whether a given size is at most this slack away from the shown one.
fn is_near(slack: u128, shown: u128, given: Magnitude) -> bool
    ensures { result ≡ is_near slack shown given }
{
    if given.size < shown {
        return shown - given.size <= slack;
    }
    let above = given.size - shown;
    above < slack || above == slack && !given.more
}

/// Whether a number is 0, or has this sign.
fn has_sign(negative: bool, value: i128) -> bool
    ensures { result ≡ has_sign negative value }
{
    value == 0 || negative == (value < 0)
}

/// Whether a shown number is the given one: exactly, or at most so many tenths of its last decimal away from it.
#[tactic(auto, unfolding(crate::specs::Says::number_is))]
fn number_is(slack: u128, value: i128, decimals: u8, text: &[u8]) -> bool
    requires { slack < 2 ^ 64 }
    ensures { result ≡ number_is slack value decimals text.now }
{
    if !has_sign(is_negative(text), value) {
        return false;
    }
    let Some(given) = scaled(text, u16::from(decimals) + 1) else {
        return false;
    };
    match value.unsigned_abs().checked_mul(10) {
        Some(shown) => is_near(slack, shown, given),
        None => false,
    }
}

/// How far the number of a field may be from the given one, in tenths of its last decimal.
fn slack(nearest: bool, field: &Field) -> u128
    ensures value { result ≡ slack nearest field.now.meaning }
    ensures small { result < 2 ^ 64 }
{
    if !nearest {
        return 0;
    }
    match field.coding() {
        Coding::Number(_, resolution) => 5 * u128::from(resolution.mantissa),
        Coding::Shifted(_, resolution) => 5 * u128::from(resolution.mantissa),
        _ => 0,
    }
}

/// What is left of a text that begins with these bytes.
fn after<'a>(prefix: &[u8], text: &'a [u8]) -> Option<&'a [u8]>
    ensures { option_map (λ rest. rest.now) result ≡ after prefix.now text.now }
{
    text.strip_prefix(prefix)
}

/// What is left of a text that begins with this character.
fn after_character(letter: char, text: &[u8]) -> Option<&[u8]>
    ensures { option_map (λ rest. rest.now) result ≡ after (character letter) text.now }
{
    let mut room = [0; 4];
    after(letter.encode_utf8(&mut room).as_bytes(), text)
}

fn is_empty(text: &[u8]) -> bool
    ensures { result ≡ is_empty text.now }
{
    text.is_empty()
}

/// Whether a text has a character for each of these bytes.
fn has_latin1(bytes: &[u8], text: &[u8]) -> bool
    ensures { result ≡ has_pieces character bytes.now text.now }
{
    let mut rest = text;
    for byte in bytes {
        let Some(more) = after_character(char::from(*byte), rest) else {
            return false;
        };
        rest = more;
    }
    is_empty(rest)
}

/// Whether a text has the characters of UTF-16, low byte first, that these bytes are.
fn has_wide(bytes: &[u8], text: &[u8]) -> bool
    ensures { result ≡ has_pieces character (utf16_lossy_chars (units bytes.now)) text.now }
{
    let mut rest = text;
    let mut left = bytes;
    while let Some((letter, following)) = split_character(left) {
        let Some(more) = after_character(letter, rest) else {
            return false;
        };
        rest = more;
        left = following;
    }
    is_empty(rest)
}

/// The hexadecimal digits, in upper case.
const DIGITS: [u8; 16] = *b"0123456789ABCDEF";

/// What is left of a text that begins with a byte as a pair of hexadecimal digits.
fn after_pair(byte: u8, text: &[u8]) -> Option<&[u8]>
    ensures { option_map (λ rest. rest.now) result ≡ after (hex_pair byte) text.now }
{
    let high = DIGITS[usize::from(byte / 16)];
    let low = DIGITS[usize::from(byte % 16)];
    after(&[high, low], text)
}

/// The same after a space.
fn after_later_pair(byte: u8, text: &[u8]) -> Option<&[u8]>
    ensures { option_map (λ rest. rest.now) result ≡ after (later_pair byte) text.now }
{
    let high = DIGITS[usize::from(byte / 16)];
    let low = DIGITS[usize::from(byte % 16)];
    after(&[b' ', high, low], text)
}

/// Whether a text has a space and a pair of digits for each of these bytes.
fn has_later_pairs(bytes: &[u8], text: &[u8]) -> bool
    ensures { result ≡ has_pieces later_pair bytes.now text.now }
{
    let mut rest = text;
    for byte in bytes {
        let Some(more) = after_later_pair(*byte, rest) else {
            return false;
        };
        rest = more;
    }
    is_empty(rest)
}

/// Whether a text is these bytes as pairs of hexadecimal digits, with a space between them.
fn has_pairs(bytes: &[u8], text: &[u8]) -> bool
    ensures { result ≡ has_pairs bytes.now text.now }
{
    let Some((first, later)) = bytes.split_first() else {
        return is_empty(text);
    };
    match after_pair(*first, text) {
        Some(rest) => has_later_pairs(later, rest),
        None => false,
    }
}

/// What is left of a text that begins with the two decimal digits of a byte.
fn after_two_digits(byte: u8, text: &[u8]) -> Option<&[u8]>
    ensures { option_map (λ rest. rest.now) result ≡ after (two_digits byte) text.now }
{
    after(&[b'0' + byte / 10, b'0' + byte % 10], text)
}

/// Whether a text is two decimal digits for each of these bytes.
fn has_digits(bytes: &[u8], text: &[u8]) -> bool
    ensures { result ≡ has_pieces two_digits bytes.now text.now }
{
    let mut rest = text;
    for byte in bytes {
        let Some(more) = after_two_digits(*byte, rest) else {
            return false;
        };
        rest = more;
    }
    is_empty(rest)
}

/// Whether a value is a text with these bytes.
fn is_text(text: &str, value: &Value<'_>) -> bool
    ensures { result ≡ is_some_with (λ given. bytes_eq given text.now) (as_str (value_view value.now)) }
{
    match value.as_str() {
        Some(given) => given == text,
        None => false,
    }
}

/// Whether a value is the number of a bit.
fn is_bit(bit: u8, value: &Value<'_>) -> bool
    ensures { result ≡ is_some_with (number_is 0 (pos bit) 0) (as_number (value_view value.now)) }
{
    is_number(0, i128::from(bit), 0, value)
}

/// Whether a value is a bit, by its name or its number.
fn is_flag(flag: Flag<'_>, value: &Value<'_>) -> bool
    ensures { result ≡ is_flag (flag_parts flag.entry) (value_view value.now) }
{
    match flag {
        Flag::Name(name) => is_text(name, value),
        Flag::Bit(bit) => is_bit(bit, value),
    }
}

/// Whether one of these values is a bit.
fn any_is_flag(flag: Flag<'_>, values: &[Value<'_>]) -> bool
    ensures { result ≡ any_item (is_flag (flag_parts flag.entry)) (items_view values.now) }
{
    for value in values {
        if is_flag(flag, value) {
            return true;
        }
    }
    false
}

/// How many values there are.
fn count(values: &[Value<'_>]) -> usize
    ensures { result ≡ count_items (items_view values.now) }
{
    values.len()
}

/// Whether each of these bits is among the values, and there are as many bits as values.
fn are_among(flags: Flags<'_>, values: &[Value<'_>]) -> bool
    ensures { result ≡ are_among (flags_left flags.entry) (count_items (items_view values.now)) (items_view values.now) }
{
    let mut flags = flags;
    let mut left = count(values);
    while let Some(flag) = flags.next() {
        if left == 0 || !any_is_flag(flag, values) {
            return false;
        }
        left -= 1;
    }
    left == 0
}

/// Whether a value is an array of exactly these bits.
fn are_flags(flags: Flags<'_>, value: &Value<'_>) -> bool
    ensures { result ≡ is_some_with (λ js. are_among (flags_left flags.entry) (count_items js) js) (as_array (value_view value.now)) }
{
    match value {
        Value::Array(values) => are_among(flags, values),
        _ => false,
    }
}

/// Whether a value is a number, with this slack.
fn is_number(slack: u128, number: i128, decimals: u8, value: &Value<'_>) -> bool
    requires { slack < 2 ^ 64 }
    ensures { result ≡ is_some_with (number_is slack number decimals) (as_number (value_view value.now)) }
{
    match value.as_number() {
        Some(text) => number_is(slack, number, decimals, text.as_bytes()),
        None => false,
    }
}

/// Whether a value is a text with a character for each of these bytes.
fn is_latin1(bytes: &[u8], value: &Value<'_>) -> bool
    ensures { result ≡ is_some_with (has_pieces character bytes.now) (as_str (value_view value.now)) }
{
    match value.as_str() {
        Some(text) => has_latin1(bytes, text.as_bytes()),
        None => false,
    }
}

/// Whether a value is a text of UTF-16.
fn is_wide(bytes: &[u8], value: &Value<'_>) -> bool
    ensures { result ≡ is_some_with (has_pieces character (utf16_lossy_chars (units bytes.now))) (as_str (value_view value.now)) }
{
    match value.as_str() {
        Some(text) => has_wide(bytes, text.as_bytes()),
        None => false,
    }
}

/// Whether a value is a text of pairs of hexadecimal digits.
fn is_hex(bytes: &[u8], value: &Value<'_>) -> bool
    ensures { result ≡ is_some_with (has_pairs bytes.now) (as_str (value_view value.now)) }
{
    match value.as_str() {
        Some(text) => has_pairs(bytes, text.as_bytes()),
        None => false,
    }
}

/// Whether a value is a text of pairs of decimal digits.
fn is_digits(bytes: &[u8], value: &Value<'_>) -> bool
    ensures { result ≡ is_some_with (has_pieces two_digits bytes.now) (as_str (value_view value.now)) }
{
    match value.as_str() {
        Some(text) => has_digits(bytes, text.as_bytes()),
        None => false,
    }
}

/// Whether what a field shows is this value, a number with this slack.
#[tactic(auto, unfolding(crate::specs::Says::says))]
fn says(slack: u128, shown: Shown<'_>, value: &Value<'_>) -> bool
    requires { slack < 2 ^ 64 }
    ensures { result ≡ says slack (shown_parts shown.entry) (value_view value.now) }
{
    match shown {
        Shown::Absent => false,
        Shown::Number {
            value: number,
            decimals,
        } => is_number(slack, number, decimals, value),
        Shown::Name(name) => is_text(name, value),
        Shown::Text(bytes) => is_latin1(bytes, value),
        Shown::Utf8(characters) => is_text(characters, value),
        Shown::Wide(bytes) => is_wide(bytes, value),
        Shown::Bytes(bytes) => is_hex(bytes, value),
        Shown::Digits(bytes) => is_digits(bytes, value),
        Shown::Flags(flags) => are_flags(flags, value),
    }
}

/// Whether what a field shows is this value, or, for a number, as near to it as the field can show.
pub(crate) fn shows(nearest: bool, field: &Field, shown: Shown<'_>, value: &Value<'_>) -> bool
    ensures { result ≡ says (slack nearest field.now.meaning) (shown_parts shown.entry) (value_view value.now) }
{
    says(slack(nearest, field), shown, value)
}
