//! What a field shows, as it is printed.
ghost use Rattle.std.specs.Prelude.{◌≡◌, ◌≤◌, option_map, Some, IfSome};
ghost use Rattle.n2k_table.specs.Inner.FieldValue.{value_parts};
ghost use Rattle.std.specs.List.{list_all};
ghost use Rattle.n2k_table.specs.Shown.{shown_parts, shown_name, shown_text, is_filling, trimmed};
ghost use Rattle.n2k_table.specs.Shown.{trimmed_of, is_no_digit, is_two_digits, shown_digits};

use crate::bits::greatest;
use crate::lookup::Name;
use crate::number::Number;
use crate::resolution::ONE;
use crate::shown::Shown;

/// What a field shows. It is `Shown` with what a line needs: a name comes with its JSON, and a number in parts.
#[derive(Clone, Copy)]
pub(crate) enum FieldValue<'a> {
    /// Nothing.
    Absent,
    /// A number.
    Number(Number),
    /// The name of a value.
    Name(&'a Name),
    /// A text, without the bytes that fill it up.
    Text(&'a [u8]),
    /// Bytes as they are.
    Bytes(&'a [u8]),
    /// What few fields show: `Field::shown` says it.
    Seldom,
}

impl<'a> FieldValue<'a> {
    /// The value for a caller of this crate, if this crate shows it.
    pub(crate) fn shown(self) -> Shown<'a>
        ensures { IfSome (value_parts self.entry) (λ parts. shown_parts result ≡ parts) }
    {
        match self {
            FieldValue::Absent => Shown::Absent,
            FieldValue::Number(number) => Shown::Number {
                value: number.value(),
                decimals: number.resolution.decimals,
            },
            FieldValue::Name(name) => Shown::Name(name.text()),
            FieldValue::Text(text) => Shown::Text(text),
            FieldValue::Bytes(bytes) => Shown::Bytes(bytes),
            FieldValue::Seldom => Shown::Absent,
        }
    }
}

/// What bits of that raw value show by the name of the value, if it has one. Where it has none, the greatest, from two
/// bits on, says that none is there.
#[inline(always)]
pub(crate) fn name_value<'a>(name: Option<&'a Name>, bits: u32, raw: u64) -> FieldValue<'a>
    requires some { 1 ≤ bits }
    requires room { bits ≤ 64 }
    ensures { value_parts result ≡ Some (shown_name (option_map (λ n. n.now) name.entry) bits raw) }
{
    if let Some(name) = name {
        return FieldValue::Name(name);
    }
    if bits >= 2 && raw == greatest(false, bits) {
        return FieldValue::Absent;
    }
    FieldValue::Number(Number {
        negative: false,
        size: raw,
        resolution: ONE,
    })
}

/// A byte that fills a text up.
fn is_filling(byte: u8) -> bool
    ensures { result ≡ is_filling byte }
{
    byte == 0x00 || byte == 0xff || byte == b'@' || byte == b' '
}

/// A text up to its last byte that does not fill it up.
#[inline(never)]
pub(crate) fn trimmed(text: &[u8]) -> &[u8]
    ensures { result.now ≡ trimmed text.now }
{
    let mut kept = text;
    while let Some((last, prefix)) = kept.split_last() {
        if !is_filling(*last) {
            break;
        }
        kept = prefix;
    }
    kept
}

/// What the bytes of a text show: nothing if all of them are filler.
#[inline(always)]
pub(crate) fn text_value(text: &[u8]) -> FieldValue<'_>
    ensures { value_parts result ≡ Some (shown_text (trimmed text.now)) }
{
    let kept = trimmed(text);
    if kept.is_empty() {
        return FieldValue::Absent;
    }
    FieldValue::Text(kept)
}

fn is_no_digit(byte: u8) -> bool
    ensures { result ≡ is_no_digit byte }
{
    byte == 0xff
}

/// Bytes without those FF that stand at their end.
#[inline(never)]
fn without_ff(bytes: &[u8]) -> &[u8]
    ensures { result.now ≡ trimmed_of is_no_digit bytes.now }
{
    let mut kept = bytes;
    while let Some((last, prefix)) = kept.split_last() {
        if !is_no_digit(*last) {
            break;
        }
        kept = prefix;
    }
    kept
}

/// Whether each byte is two digits.
#[inline(never)]
fn are_digits(bytes: &[u8]) -> bool
    ensures { result ≡ list_all is_two_digits bytes.now }
{
    bytes.iter().all(|byte| *byte <= 99)
}

/// What bytes of two digits show: nothing if a digit is above 9, or no byte is left.
pub(crate) fn digits_value(bytes: &[u8]) -> Shown<'_>
    ensures { shown_parts result ≡ shown_digits (trimmed_of is_no_digit bytes.now) }
{
    let kept = without_ff(bytes);
    if kept.is_empty() || !are_digits(kept) {
        return Shown::Absent;
    }
    Shown::Digits(kept)
}
