//! A field, and what it shows.
ghost use Rattle.std.specs.Prelude.{◌≡◌, ◌≤◌, ◌<◌, ◌+◌, ◌*◌, ◌/◌, ◌^◌, drop, length, IfSome};
ghost use Rattle.n2k_table.specs.Inner.LineBuffer.{AddsText};
ghost use Rattle.n2k_table.specs.Inner.FirstWord.{HasFirstBits};
ghost use Rattle.n2k_table.specs.Bits.{raw};

use crate::bits::raw;
use crate::coding::Coding;
use crate::field_value::{FieldValue, digits_value, name_value, text_value};
use crate::flags::flags_value;
use crate::line_buffer::{TextBuffer, VALUE_ROOM};
use crate::lookup::Lookup;
use crate::number::{Scale, Shift};
use crate::padded_text::{PREFIX_ROOM, PaddedText};
use crate::shown::Shown;
use crate::string_place::{Form, Step, data_after, taken_at};
use crate::string_value::string_value;
use std::alloc::AllocError;
use std::marker::Model;
use std::sync::Arc;

/// What the bits of a field mean.
#[derive(Drop)]
pub(crate) enum Meaning {
    /// A number, in two's complement if it is signed, times its resolution.
    Number(Scale),
    /// A number to which an offset is added, times its resolution.
    Shifted(Shift),
    /// A value that a lookup gives names for. The fields of a table share its lookups.
    Lookup(Arc<Lookup>),
    /// A text, each byte the character of its number.
    Text,
    /// Bytes as they are.
    Bytes,
    /// Bits that a lookup gives names for.
    Flags(Arc<Lookup>),
    /// Bytes of two decimal digits.
    Digits,
    /// A string, which says itself how long it is.
    String(Form),
}

/// A field: its name, its first bit in the message or in its set, how many bits it has, whether it may be short, the
/// strings before it, what its bits mean, and the raw value that it asks for, if it asks for one.
#[derive(Drop)]
pub struct Field {
    pub(crate) name: String,
    /// The text before the value in a line, with a comma, kept since each line needs it.
    pub(crate) key: PaddedText,
    pub(crate) at: u32,
    pub(crate) bits: u32,
    /// How many bytes the data must have for it to lie inside them. If a string precedes it, more than any data have.
    pub(crate) end: usize,
    /// The mask of its bits, if it lies in the first eight bytes.
    pub(crate) mask: Option<u64>,
    /// Whether it shows the part that is there if the data end before it does.
    pub(crate) short: bool,
    /// The strings before it, from the first on. Its first bit counts from the end of the last.
    pub(crate) after: Vec<Step>,
    pub(crate) meaning: Meaning,
    pub(crate) match_value: Option<u64>,
}

impl Model for Field {
    ghost use Rattle.std.specs.Prelude.{string_bytes};
    ghost use Rattle.n2k_table.specs.Field.{FieldParts};
    ghost use Rattle.n2k_table.specs.Inner.Kept.{meaning as seen_meaning, IsKept};

    ghost Value = { FieldParts };

    ghost view = { λ f. record {
      name = string_bytes f.name;
      at = f.at;
      bits = f.bits;
      short = f.short;
      after = f.after.items;
      meaning = seen_meaning f.meaning;
      match_value = f.match_value;
    } };

    ghost invariant = { λ f. IsKept (string_bytes f.name) f.key f.at f.bits f.end f.mask f.after.items f.meaning f.match_value };
}

impl Field {
    ghost use Rattle.std.specs.Prelude.{◌++◌, is_some, option_map, OnOk};
    ghost use Rattle.n2k_table.specs.Coding.{coded_meaning, HasWidth};
    ghost use Rattle.n2k_table.specs.Tree.{message_bits};
    ghost use Rattle.n2k_table.specs.Inner.Line.{key_json};
    ghost use Rattle.n2k_table.specs.Inner.FieldValue.{value_parts, stands_inside};
    ghost use Rattle.n2k_table.specs.Shown.{lies_inside, field_bytes, begins_inside, shown_part, shown_from, shown, shown_parts};
    ghost use Rattle.n2k_table.specs.Strings.{data_after};
    ghost use Rattle.n2k_table.specs.Field.{is_string};
    ghost use Rattle.n2k_table.specs.Repeat.{own_bytes};
    ghost use Rattle.n2k_table.specs.Table.{field_matches};

    /// The name. It takes no memory.
    ///
    /// ```rust
    /// let table = sample_table(alloc)?;
    /// let definition = table.choose(127251, &[]).ok_or("Rate of Turn")?;
    /// let [sid, rate] = definition.own_fields() else {
    ///     return Err("two fields".into());
    /// };
    /// assert_eq!(rt; (sid.name(), rate.name()), ("SID", "Rate"));
    /// ```
    pub fn name(&self) -> &str
        ensures { result.now ≡ self.now.name }
    {
        self.name.as_str()
    }

    /// Appends the text before the value in a line, with a comma if a member precedes. After it there is room
    /// for `VALUE_ROOM` bytes.
    #[inline(always)]
    #[tactic(auto, using(crate::proofs::Begins::begins_steps))]
    pub(crate) fn push_key<const SIZE: usize>(
        &self,
        later: bool,
        line: &mut TextBuffer<SIZE>,
    ) -> Result<(), AllocError>
        ensures items { AddsText result line.old.items line.new.items (key_json later self.now.name) }
        ensures room { OnOk result (line.new.held + 64 ≤ SIZE) }
    {
        let from = if later { 0 } else { 1 };
        line.reserve(PREFIX_ROOM + VALUE_ROOM)?;
        self.key.push_from(from, VALUE_ROOM, line)
    }

    /// Whether it is a string.
    pub(crate) fn is_string(&self) -> bool
        ensures { result ≡ is_string self.now.meaning }
    {
        matches!(self.meaning, Meaning::String(_))
    }

    /// The bytes that the set that begins with the first of these has for the field beside its bits: those of a string, and
    /// nothing if it is not proper.
    pub(crate) fn own_bytes(&self, set: &[u8]) -> Option<usize>
        ensures { result ≡ own_bytes self.now.meaning self.now.at (data_after self.now.after set.now) }
    {
        match self.meaning {
            Meaning::String(form) => taken_at(form, data_after(&self.after, set)?, self.at),
            _ => Some(0),
        }
    }

    /// Its first bit in the message or in its set. If it is after strings, the bit counts from the end of the last. It takes
    /// no memory.
    ///
    /// ```rust
    /// let rate_at = rate.at();
    /// assert_eq!(rt; (sid.at(), rate_at), (0, 8));
    /// ```
    pub fn at(&self) -> u32
        ensures value { result ≡ self.now.at }
        ensures inside { result + self.now.bits ≤ message_bits }
    {
        self.at
    }

    /// How many bits it has, 0 for a string. It takes no memory.
    ///
    /// ```rust
    /// let rate_bits = rate.bits();
    /// assert_eq!(rt; (sid.bits(), rate_bits), (8, 32));
    /// ```
    pub fn bits(&self) -> u32
        ensures value { result ≡ self.now.bits }
        ensures inside { self.now.at + result ≤ message_bits }
    {
        self.bits
    }

    /// Whether it may end with the data. It takes no memory.
    ///
    /// ```rust
    /// assert!(rt; !rate.is_short());
    /// ```
    pub fn is_short(&self) -> bool
        ensures { result ≡ self.now.short }
    {
        self.short
    }

    /// The raw value that it asks for, if it asks for one. It takes no memory.
    ///
    /// ```rust
    /// assert_eq!(rt; rate.match_value(), None);
    /// ```
    pub fn match_value(&self) -> Option<u64>
        ensures { result ≡ self.now.match_value }
    {
        self.match_value
    }

    /// What its bits mean, for writing them. It takes no memory.
    ///
    /// ```rust
    /// assert!(rt; matches!(sid.coding(), Coding::Number(false, _)));
    /// assert!(rt; matches!(rate.coding(), Coding::Number(true, _)));
    /// ```
    pub fn coding(&self) -> Coding<'_>
        ensures meaning { coded_meaning result ≡ self.now.meaning }
        ensures width { HasWidth result self.now.bits }
    {
        match &self.meaning {
            Meaning::Number(scale) => Coding::Number(scale.signed, scale.resolution),
            Meaning::Shifted(shift) => Coding::Shifted(shift.offset, shift.resolution),
            Meaning::Lookup(lookup) => Coding::Lookup(lookup),
            Meaning::Flags(lookup) => Coding::Flags(lookup),
            Meaning::Text => Coding::Text,
            Meaning::Bytes => Coding::Bytes,
            Meaning::Digits => Coding::Digits,
            Meaning::String(form) => Coding::String(*form),
        }
    }

    /// The data from where its place counts, if each string before it has an end. It takes no memory.
    ///
    /// ```rust
    /// assert_eq!(rt; rate.rest(&[1, 2]), Some([1, 2].as_slice()));
    /// ```
    pub fn rest<'a>(&self, data: &'a [u8]) -> Option<&'a [u8]>
        ensures { option_map (λ rest. rest.now) result ≡ data_after self.now.after «data».now }
    {
        data_after(&self.after, data)
    }

    /// Whether it has a match value.
    pub(crate) fn has_match(&self) -> bool
        ensures { result ≡ is_some self.now.match_value }
    {
        self.match_value.is_some()
    }

    fn lies_inside(&self, data: &[u8]) -> bool
        ensures { result ≡ lies_inside self.now «data».now }
    {
        (self.at + self.bits + 7) as usize / 8 <= data.len()
    }

    /// Whether the data have the raw value that the field asks for, or it asks for none.
    pub(crate) fn matches(&self, data: &[u8]) -> bool
        ensures { result ≡ field_matches «data».now self.now }
    {
        match self.match_value {
            None => true,
            Some(value) => self.lies_inside(data) && raw(data, self.at, self.bits) == value,
        }
    }

    /// The bytes of a field that begins and ends with a byte.
    fn bytes<'a>(&self, data: &'a [u8]) -> &'a [u8]
        requires { self.now.at + self.now.bits ≤ 8 * length «data».now }
        ensures { result.now ≡ field_bytes self.now «data».now }
    {
        let from = self.at as usize / 8;
        let to = (self.at + self.bits) as usize / 8;
        &data[from..to]
    }

    fn begins_inside(&self, data: &[u8]) -> bool
        ensures { result ≡ begins_inside self.now «data».now }
    {
        (self.at as usize) < data.len().saturating_mul(8)
    }

    /// The bytes from that of the field's first bit on.
    fn prefix<'a>(&self, data: &'a [u8]) -> &'a [u8]
        requires { self.now.at ≤ 8 * length «data».now }
        ensures { result.now ≡ drop (self.now.at / 8) «data».now }
    {
        &data[self.at as usize / 8..]
    }

    /// What a field shows that ends after the data: a short field shows the part that is there.
    fn part<'a>(&self, data: &'a [u8]) -> Shown<'a>
        ensures { shown_parts result ≡ shown_part self.now «data».now }
    {
        if !self.short || !self.begins_inside(data) {
            return Shown::Absent;
        }
        match &self.meaning {
            Meaning::Text => text_value(self.prefix(data)).shown(),
            Meaning::Bytes => Shown::Bytes(self.prefix(data)),
            _ => Shown::Absent,
        }
    }

    /// Whether no string precedes it, and it lies wholly inside the data.
    #[inline(always)]
    fn stands_inside(&self, data: &[u8]) -> bool
        ensures { result ≡ stands_inside self.now «data».now }
    {
        self.end <= data.len()
    }

    /// The raw value. The word has the first eight bytes as one number; the value is read from it if it lies there.
    #[tactic(auto, using(crate::proofs::RawBits::raw_lt, crate::proofs::RawBits::bits_under_mask))]
    #[inline(always)]
    fn raw(&self, data: &[u8], word: u64) -> u64
        requires word { HasFirstBits word «data».now }
        requires within { self.now.at + self.now.bits ≤ 8 * length «data».now }
        requires some { 1 ≤ self.now.bits }
        requires room { self.now.bits ≤ 64 }
        ensures value { result ≡ raw «data».now self.now.at self.now.bits }
        ensures range { result < 2 ^ self.now.bits }
    {
        match self.mask {
            Some(mask) => (word >> self.at) & mask,
            None => raw(data, self.at, self.bits),
        }
    }

    /// What the field shows of the data of a message or of a set, if its kind is frequent; else `shown` says it. Each
    /// result is returned where it is made, so that none is built in memory.
    #[inline(always)]
    pub(crate) fn value<'a>(&'a self, data: &'a [u8], word: u64) -> FieldValue<'a>
        requires { HasFirstBits word «data».now }
        ensures { IfSome (value_parts result) (λ parts. parts ≡ shown self.now «data».now) }
    {
        if !self.stands_inside(data) {
            if self.short || !self.after.is_empty() {
                return FieldValue::Seldom;
            }
            return FieldValue::Absent;
        }
        match &self.meaning {
            Meaning::Number(scale) => {
                let raw = self.raw(data, word);
                return scale.number(raw);
            }
            Meaning::Lookup(lookup) => {
                let raw = self.raw(data, word);
                return name_value(lookup.name_of(raw), self.bits, raw);
            }
            Meaning::Text => return text_value(self.bytes(data)),
            Meaning::Bytes => return FieldValue::Bytes(self.bytes(data)),
            Meaning::Shifted(_) | Meaning::Flags(_) | Meaning::Digits | Meaning::String(_) => {
                return FieldValue::Seldom;
            }
        }
    }

    /// What the field shows of the data from where its place counts: where it does not lie wholly inside, nothing, or
    /// what is there of a short one.
    fn shown_from<'a>(&'a self, data: &'a [u8]) -> Shown<'a>
        ensures { shown_parts result ≡ shown_from self.now «data».now }
    {
        if !self.lies_inside(data) {
            return self.part(data);
        }
        match &self.meaning {
            Meaning::Number(scale) => {
                let raw = raw(data, self.at, self.bits);
                return scale.number(raw).shown();
            }
            Meaning::Lookup(lookup) => {
                let raw = raw(data, self.at, self.bits);
                return name_value(lookup.name_of(raw), self.bits, raw).shown();
            }
            Meaning::Shifted(shift) => {
                return shift.shown(raw(data, self.at, self.bits));
            }
            Meaning::Text => return text_value(self.bytes(data)).shown(),
            Meaning::Bytes => return Shown::Bytes(self.bytes(data)),
            Meaning::Digits => return digits_value(self.bytes(data)),
            Meaning::String(form) => return string_value(*form, self.short, self.prefix(data)),
            Meaning::Flags(lookup) => {
                let raw = raw(data, self.at, self.bits);
                return flags_value(lookup, self.bits, raw);
            }
        }
    }

    /// What the field shows of the data of a message or of a set: nothing if a string before it has no end. It takes no
    /// memory. It is not inlined: few kinds of fields need it.
    ///
    /// ```rust
    /// assert!(rt; matches!(sid.shown(&[5]), Shown::Number { value: 5, .. }));
    /// assert_eq!(rt; rate.shown(&[5]), Shown::Absent);
    /// ```
    #[inline(never)]
    pub fn shown<'a>(&'a self, data: &'a [u8]) -> Shown<'a>
        ensures { shown_parts result ≡ shown self.now «data».now }
    {
        match data_after(&self.after, data) {
            Some(rest) => self.shown_from(rest),
            None => Shown::Absent,
        }
    }
}
