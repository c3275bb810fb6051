//! One value of a TOML table: of which kind it is, and whether it lies in its range.
ghost use Rattle.std.specs.Prelude.{◌≡◌, ◌≤◌, map, option_map, IfOk};
ghost use Rattle.std.specs.List.{list_any};
ghost use Rattle.std.specs.Str.{bytes_eq};
ghost use Rattle.toml.specs.Data.{get_member};
ghost use Rattle.toml.specs.View.{view, table_view};
ghost use Rattle.n2k_wire.specs.Views.{Gives};
ghost use Rattle.n2k_table.specs.Tree.{has_only_keys, check_keys, get_required, as_members, int_at};
ghost use Rattle.n2k_table.specs.Tree.{any_text_at, checked_text, text_at, bool_at, as_elements, at_most, elements_at};
ghost use Rattle.n2k_table.specs.Tree.{elements_or_none};

use crate::fault::TableFault;
use toml::{Table, Value};

/// The most bytes of a name or a description.
pub(crate) const LONGEST_TEXT: usize = 255;

/// The bits of the longest message.
pub(crate) const MESSAGE_BITS: u32 = 1784;

/// The format of a table.
#[derive(Clone, Copy)]
pub(crate) enum TableFormat {
    /// Without sets.
    One,
    /// With sets: a definition may have a key `repeat`.
    Two,
    /// With offsets and units of numbers, flags, digits, strings, fields and sets after them, and short fields, too.
    Three,
}

/// What a field says that its bits are.
#[derive(Clone, Copy)]
pub(crate) enum FieldKind {
    /// A number.
    Number,
    /// A value that a lookup gives names for.
    Lookup,
    /// A text.
    Text,
    /// Bytes as they are.
    Bytes,
    /// Bits that a lookup gives names for.
    Flags,
    /// Bytes of two decimal digits.
    Digits,
    /// A text that says how long it is.
    String,
}

/// What a field is part of.
#[derive(Clone, Copy)]
pub(crate) enum Holder {
    /// A message.
    Message,
    /// A set of so many bits beside its strings, which repeats.
    Set(u32),
}

/// What a table of the document is, which decides its keys.
#[derive(Clone, Copy)]
pub(crate) enum Section {
    /// The top level.
    Document,
    /// A lookup.
    Lookup,
    /// A definition, in a table of this format.
    Definition(TableFormat),
    /// What repeats in a message, in a table of this format.
    Repeat(TableFormat),
    /// A field of this kind, in a table of this format.
    Field(TableFormat, FieldKind, Holder),
}

/// Whether a key is one of these.
fn is_among(key: &str, keys: &[&str]) -> bool
    ensures { result ≡ list_any (λ one. bytes_eq key.now one.now) keys.now }
{
    keys.iter().any(|one| key == *one)
}

impl TableFormat {
    ghost use Rattle.n2k_table.specs.Tree.{has_sets, is_extended};

    /// Whether a definition may have sets.
    fn has_sets(self) -> bool
        ensures { result ≡ has_sets self }
    {
        match self {
            TableFormat::One => false,
            TableFormat::Two | TableFormat::Three => true,
        }
    }

    /// Whether it is format 3, which has more kinds of fields, and more keys.
    pub(crate) fn is_extended(self) -> bool
        ensures { result ≡ is_extended self }
    {
        match self {
            TableFormat::One | TableFormat::Two => false,
            TableFormat::Three => true,
        }
    }
}

impl FieldKind {
    ghost use Rattle.n2k_table.specs.Tree.{is_among, own_keys, more_keys, has_bits, place_keys, can_be_short, can_match, is_later_key};

    /// Whether a key is one that fields of the kind have beside those of every field.
    fn has_key(self, key: &str) -> bool
        ensures { result ≡ is_among key.now (own_keys self) }
    {
        match self {
            FieldKind::Number => key == "signed" || key == "resolution",
            FieldKind::Lookup | FieldKind::Flags => key == "lookup",
            FieldKind::Text | FieldKind::Bytes | FieldKind::Digits => false,
            FieldKind::String => key == "form",
        }
    }

    /// Whether a key is one that fields of the kind have beside those, in format 3 alone.
    fn has_more_key(self, key: &str) -> bool
        ensures { result ≡ is_among key.now (more_keys self) }
    {
        match self {
            FieldKind::Number => key == "offset" || key == "unit",
            FieldKind::Lookup
            | FieldKind::Text
            | FieldKind::Bytes
            | FieldKind::Flags
            | FieldKind::Digits
            | FieldKind::String => false,
        }
    }

    /// Whether a field of the kind has a number of bits; a string's own bytes say how long it is.
    pub(crate) fn has_bits(self) -> bool
        ensures { result ≡ has_bits self }
    {
        match self {
            FieldKind::String => false,
            _ => true,
        }
    }

    /// Whether a key gives the place of a field of this kind.
    fn has_place_key(self, key: &str) -> bool
        ensures { result ≡ is_among key.now (place_keys self) }
    {
        key == "at" || (self.has_bits() && key == "bits")
    }

    /// Whether a field of the kind may be short.
    pub(crate) fn can_be_short(self, holder: Holder) -> bool
        ensures { result ≡ can_be_short self holder }
    {
        match (self, holder) {
            (FieldKind::Text | FieldKind::Bytes | FieldKind::String, Holder::Message) => true,
            _ => false,
        }
    }

    /// Whether a key is one that a field of the kind may have in format 3 alone.
    fn has_later_key(self, holder: Holder, key: &str) -> bool
        ensures { result ≡ is_later_key self holder key.now }
    {
        self.has_more_key(key) || key == "after" || (self.can_be_short(holder) && key == "short")
    }

    /// Whether a field of the kind may ask for a value.
    pub(crate) fn can_match(self, holder: Holder) -> bool
        ensures { result ≡ can_match self holder }
    {
        match (self, holder) {
            (FieldKind::Number | FieldKind::Lookup, Holder::Message) => true,
            _ => false,
        }
    }
}

impl Holder {
    ghost use Rattle.n2k_table.specs.Tree.{end_of};

    /// The bits within which a field ends.
    pub(crate) fn end(self) -> u32
        ensures { result ≡ end_of self }
    {
        match self {
            Holder::Message => MESSAGE_BITS,
            Holder::Set(bits) => bits,
        }
    }
}

impl Section {
    ghost use Rattle.n2k_table.specs.Tree.{is_key};

    fn has(self, key: &str) -> bool
        ensures { result ≡ is_key self key.now }
    {
        match self {
            Section::Document => is_among(key, &["format", "lookup", "pgn"]),
            Section::Lookup => is_among(key, &["name", "entries"]),
            Section::Definition(format) => {
                is_among(key, &["number", "kind", "description", "fields"])
                    || (format.has_sets() && key == "repeat")
            }
            Section::Repeat(format) => {
                is_among(key, &["at", "bits", "fields"]) || (format.is_extended() && key == "after")
            }
            Section::Field(format, kind, holder) => {
                key == "name"
                    || key == "kind"
                    || kind.has_place_key(key)
                    || kind.has_key(key)
                    || (format.is_extended() && kind.has_later_key(holder, key))
                    || (kind.can_match(holder) && key == "match")
            }
        }
    }
}

/// Whether each key of the table is one that such a section may have.
fn has_only_keys(table: &Table, section: Section) -> bool
    ensures { result ≡ has_only_keys section (table_view table.now) }
{
    for key in table.keys() {
        if !section.has(key.as_str()) {
            return false;
        }
    }
    true
}

/// Refuses a table that has another key.
pub(crate) fn check_keys(table: &Table, section: Section) -> Result<(), TableFault>
    ensures { Gives (λ done. done) result (check_keys section (table_view table.now)) }
{
    if has_only_keys(table, section) {
        Ok(())
    } else {
        Err(TableFault::Key)
    }
}

/// The value at a key, if it is there.
pub(crate) fn get<'a>(table: &'a Table, key: &str) -> Option<&'a Value>
    ensures { option_map (λ value. view value.now) result ≡ get_member key.now (table_view table.now) }
{
    table.get(key)
}

/// The value at a key that has to be there.
fn get_required<'a>(table: &'a Table, key: &str) -> Result<&'a Value, TableFault>
    ensures { Gives (λ value. view value.now) result (get_required key.now (table_view table.now)) }
{
    get(table, key).ok_or(TableFault::Key)
}

/// A value that has to be a table.
pub(crate) fn as_members(value: &Value) -> Result<&Table, TableFault>
    ensures { Gives (λ table. table_view table.now) result (as_members (view value.now)) }
{
    value.as_table().ok_or(TableFault::Key)
}

/// An integer from `least` to `most`, at a key that has to be there.
pub(crate) fn int_at(table: &Table, key: &str, least: u32, most: u32) -> Result<u32, TableFault>
    ensures value { Gives (λ number. number) result (int_at key.now least most (table_view table.now)) }
    ensures range { IfOk result (λ number. (least ≤ number) × (number ≤ most)) }
{
    let integer = get_required(table, key)?
        .as_integer()
        .ok_or(TableFault::Key)?;
    match u32::try_from(integer) {
        Ok(number) if least <= number && number <= most => Ok(number),
        _ => Err(TableFault::Range),
    }
}

/// A text of any length, at a key that has to be there.
pub(crate) fn any_text_at<'a>(table: &'a Table, key: &str) -> Result<&'a str, TableFault>
    ensures { Gives (λ text. text.now) result (any_text_at key.now (table_view table.now)) }
{
    get_required(table, key)?.as_str().ok_or(TableFault::Key)
}

/// A text that has 1 to 255 bytes.
pub(crate) fn checked_text(text: &str) -> Result<&str, TableFault>
    ensures { Gives (λ text. text.now) result (checked_text text.now) }
{
    if text.is_empty() || text.len() > LONGEST_TEXT {
        return Err(TableFault::Text);
    }
    Ok(text)
}

/// A text of 1 to 255 bytes, at a key that has to be there.
pub(crate) fn text_at<'a>(table: &'a Table, key: &str) -> Result<&'a str, TableFault>
    ensures { Gives (λ text. text.now) result (text_at key.now (table_view table.now)) }
{
    checked_text(any_text_at(table, key)?)
}

/// A truth value, false if the key is missing.
pub(crate) fn bool_at(table: &Table, key: &str) -> Result<bool, TableFault>
    ensures { Gives (λ truth. truth) result (bool_at key.now (table_view table.now)) }
{
    match get(table, key) {
        None => Ok(false),
        Some(value) => value.as_bool().ok_or(TableFault::Key),
    }
}

/// The elements of a value that has to be an array.
pub(crate) fn as_elements(value: &Value) -> Result<&[Value], TableFault>
    ensures { Gives (λ values. map view values.now) result (as_elements (view value.now)) }
{
    Ok(value.as_array().ok_or(TableFault::Key)?.as_slice())
}

/// No more elements than so many.
fn at_most(values: &[Value], most: usize) -> Result<&[Value], TableFault>
    ensures { Gives (λ values. map view values.now) result (at_most most (map view values.now)) }
{
    if values.len() > most {
        return Err(TableFault::TooMany);
    }
    Ok(values)
}

/// The elements of an array, at most so many, at a key that has to be there.
pub(crate) fn elements_at<'a>(
    table: &'a Table,
    key: &str,
    most: usize,
) -> Result<&'a [Value], TableFault>
    ensures { Gives (λ values. map view values.now) result (elements_at key.now most (table_view table.now)) }
{
    at_most(as_elements(get_required(table, key)?)?, most)
}

/// The elements of an array, at most so many; none if the key is missing.
pub(crate) fn elements_or_none<'a>(
    table: &'a Table,
    key: &str,
    most: usize,
) -> Result<&'a [Value], TableFault>
    ensures { Gives (λ values. map view values.now) result
        (elements_or_none most (get_member key.now (table_view table.now))) }
{
    match get(table, key) {
        None => Ok(&[]),
        Some(value) => at_most(as_elements(value)?, most),
    }
}
