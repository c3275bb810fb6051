//! A field, as a table spells it.
ghost use Rattle.std.specs.Prelude.{◌≡◌, ℕ, ◌≤◌, ◌<◌, ◌+◌, ◌%◌, codes, true, None, option_map, IfOk, IfSome};
ghost use Rattle.std.specs.List.{find};
ghost use Rattle.toml.specs.Data.{get_member};
ghost use Rattle.toml.specs.View.{view, table_view};
ghost use Rattle.n2k_wire.specs.Views.{Gives};
ghost use Rattle.n2k_table.specs.Inner.Line.{key_json};
ghost use Rattle.n2k_table.specs.Inner.Kept.{meaning as seen_meaning, HasRoom, HasBits};
ghost use Rattle.n2k_table.specs.Reading.{ReaderGives};
ghost use Rattle.n2k_table.specs.Tree.{has_bits, message_bits, end_of};
ghost use Rattle.n2k_table.specs.Field.{named_field_kind, more_field_kind, kind_of_field, alignment, last_bit, most_bits};
ghost use Rattle.n2k_table.specs.Field.{multiple_of, first_bit, bit_count, bits_of, is_string_named};
ghost use Rattle.n2k_table.specs.Field.{steps_through, steps_named, steps_to, steps_of, fixed_place, check_end, offset_in_range, offset_number};
ghost use Rattle.n2k_table.specs.Field.{check_unit, number_of_bits, lookup_named, named_form, form_of, meaning_of, short_of};
ghost use Rattle.n2k_table.specs.Field.{raw_or_none, match_value_of, field_at, field};

use crate::bits::{greatest, word_mask};
use crate::fault::TableFault;
use crate::field::{Field, Meaning};
use crate::lookup::{Lookup, Lookups};
use crate::number::{Scale, Shift};
use crate::padded_text::PaddedText;
use crate::resolution::{Resolution, resolution_at};
use crate::string_place::{Form, Step, bytes_needed};
use crate::text::push_json;
use crate::tree::{
    FieldKind, Holder, MESSAGE_BITS, Section, TableFormat, any_text_at, as_members, bool_at,
    check_keys, checked_text, get, int_at, text_at,
};
use std::alloc::{AllocError, Global};
use std::sync::Arc;
use toml::{Table, Value};

/// The last bit at which a field may begin.
pub(crate) const LAST_BIT: u32 = 1783;

/// The most bits of a number.
pub(crate) const MOST_NUMBER_BITS: u32 = 64;

/// The most bits of a flags field.
pub(crate) const MOST_FLAGS: u32 = 64;

/// The most bits of a lookup field.
pub(crate) const MOST_LOOKUP_BITS: u32 = 32;

/// The greatest offset; the least is as far below zero and one more.
pub(crate) const GREATEST_OFFSET: i64 = 4294967295;

/// The kinds that only a table of format 3 may have.
fn more_field_kind(name: &str) -> Result<FieldKind, TableFault>
    ensures { Gives (λ kind. kind) result (more_field_kind name.now) }
{
    match name {
        "flags" => Ok(FieldKind::Flags),
        "digits" => Ok(FieldKind::Digits),
        "string" => Ok(FieldKind::String),
        _ => Err(TableFault::Text),
    }
}

/// The kinds of fields of a message or of a set in a table of this format.
fn named_field_kind(format: TableFormat, name: &str) -> Result<FieldKind, TableFault>
    ensures { Gives (λ kind. kind) result (named_field_kind format name.now) }
{
    match name {
        "number" => Ok(FieldKind::Number),
        "lookup" => Ok(FieldKind::Lookup),
        "text" => Ok(FieldKind::Text),
        "bytes" => Ok(FieldKind::Bytes),
        _ if format.is_extended() => more_field_kind(name),
        _ => Err(TableFault::Text),
    }
}

fn kind_of_field(format: TableFormat, table: &Table) -> Result<FieldKind, TableFault>
    ensures { Gives (λ kind. kind) result (kind_of_field format (table_view table.now)) }
{
    named_field_kind(format, any_text_at(table, "kind")?)
}

/// Of what number of bits the place of a field is a multiple.
fn alignment(kind: FieldKind) -> u32
    ensures value { result ≡ alignment kind }
    ensures some { 0 < result }
{
    match kind {
        FieldKind::Number | FieldKind::Lookup | FieldKind::Flags => 1,
        FieldKind::Text | FieldKind::Bytes | FieldKind::Digits | FieldKind::String => 8,
    }
}

fn most_bits(kind: FieldKind) -> u32
    ensures value { result ≡ most_bits kind }
    ensures room { result ≤ message_bits }
{
    match kind {
        FieldKind::Number => MOST_NUMBER_BITS,
        FieldKind::Lookup => MOST_LOOKUP_BITS,
        FieldKind::Text | FieldKind::Bytes | FieldKind::Digits => MESSAGE_BITS,
        FieldKind::Flags => MOST_FLAGS,
        FieldKind::String => 0,
    }
}

fn multiple_of(alignment: u32, number: u32) -> Result<u32, TableFault>
    requires { 0 < alignment }
    ensures value { Gives (λ number. number) result (multiple_of alignment number) }
    ensures same { IfOk result (λ same. same ≡ number) }
    ensures multiple { IfOk result (λ number. number % alignment ≡ 0) }
{
    if number % alignment == 0 {
        Ok(number)
    } else {
        Err(TableFault::Range)
    }
}

/// The first bit, a multiple of the alignment.
pub(crate) fn first_bit(table: &Table, alignment: u32) -> Result<u32, TableFault>
    requires { 0 < alignment }
    ensures value { Gives (λ at. at) result (first_bit alignment (table_view table.now)) }
    ensures range { IfOk result (λ at. at ≤ last_bit) }
    ensures aligned { IfOk result (λ at. at % alignment ≡ 0) }
{
    multiple_of(alignment, int_at(table, "at", 0, LAST_BIT)?)
}

/// How many bits there are: a multiple of the alignment, from `least` to `most`.
pub(crate) fn bit_count(
    table: &Table,
    alignment: u32,
    least: u32,
    most: u32,
) -> Result<u32, TableFault>
    requires { 0 < alignment }
    ensures value { Gives (λ bits. bits) result (bit_count alignment least most (table_view table.now)) }
    ensures range { IfOk result (λ bits. (least ≤ bits) × (bits ≤ most)) }
    ensures aligned { IfOk result (λ bits. bits % alignment ≡ 0) }
{
    multiple_of(alignment, int_at(table, "bits", least, most)?)
}

/// How many bits a field has; a string has none.
fn bits_of(kind: FieldKind, table: &Table) -> Result<u32, TableFault>
    ensures value { Gives (λ bits. bits) result (bits_of kind (table_view table.now)) }
    ensures range { IfOk result (λ bits. HasBits kind bits) }
    ensures room { IfOk result (λ bits. bits ≤ message_bits) }
{
    if !kind.has_bits() {
        return Ok(0);
    }
    bit_count(table, alignment(kind), 1, most_bits(kind))
}

/// Whether the field is a string of that name.
fn is_string_named(field: &Field, name: &str) -> bool
    ensures { result ≡ is_string_named name.now field.now }
{
    field.is_string() && name == field.name()
}

/// The string of that name among these fields.
fn string_named<'a>(before: &'a [Field], name: &str) -> Option<&'a Field>
    ensures { option_map (λ field. field.now) result ≡ find (is_string_named name.now) before.now }
{
    before.iter().find(|field| is_string_named(field, name))
}

/// The strings before a field that follows this one, from the first on.
fn steps_through(alloc: Global, earlier: &Field) -> Result<Vec<Step>, AllocError>
    ensures value { IfOk result (λ steps. steps.items ≡ steps_through earlier.now) }
    ensures room { IfOk result (λ steps. fixed_place steps.items 0 ≤ message_bits) }
{
    let mut steps = Vec::with_capacity(alloc, earlier.after.len().saturating_add(1))?;
    steps.extend_from_slice(earlier.after.as_slice())?;
    if let Meaning::String(form) = earlier.meaning {
        steps.push(Step {
            at: earlier.at,
            form,
        })?;
    }
    Ok(steps)
}

/// The strings before a field that names a string of these fields.
fn steps_named(alloc: Global, before: &[Field], value: &Value) -> Result<Vec<Step>, TableFault>
    ensures value { ReaderGives (λ steps. steps.items) result (steps_named before.now (view value.now)) }
    ensures room { IfOk result (λ steps. fixed_place steps.items 0 ≤ message_bits) }
{
    let name = checked_text(value.as_str().ok_or(TableFault::Key)?)?;
    let earlier = string_named(before, name).ok_or(TableFault::Lookup)?;
    Ok(steps_through(alloc, earlier)?)
}

/// The strings before sets, which may name one of the message's own.
pub(crate) fn steps_of_sets(
    alloc: Global,
    own: &[Field],
    table: &Table,
) -> Result<Vec<Step>, TableFault>
    ensures value { ReaderGives (λ steps. steps.items) result
        (steps_to own.now None (get_member (codes "after") (table_view table.now))) }
    ensures room { IfOk result (λ steps. fixed_place steps.items 0 ≤ message_bits) }
{
    match get(table, "after") {
        None => Ok(Vec::new(alloc)),
        Some(value) => steps_named(alloc, own, value),
    }
}

/// The strings before a field that names a string read before it. A field that asks for a value names
/// none.
fn steps_of(alloc: Global, before: &[Field], table: &Table) -> Result<Vec<Step>, TableFault>
    ensures value { ReaderGives (λ steps. steps.items) result (steps_of before.now (table_view table.now)) }
    ensures room { IfOk result (λ steps. fixed_place steps.items 0 ≤ message_bits) }
{
    let Some(value) = get(table, "after") else {
        return Ok(Vec::new(alloc));
    };
    if get(table, "match").is_some() {
        return Err(TableFault::Key);
    }
    steps_named(alloc, before, value)
}

/// The place of a field after these strings if they took no bytes.
fn fixed_place(after: &[Step], at: u32) -> u32
    requires { at + fixed_place after.now 0 ≤ message_bits + last_bit }
    ensures value { result ≡ fixed_place after.now at }
    ensures later { result ≡ at + fixed_place after.now 0 }
{
    let mut place = at;
    for step in after {
        place += step.at;
    }
    place
}

/// Refuses bits after strings if they end past the end, as far as the table says it.
pub(crate) fn check_end(after: &[Step], at: u32, bits: u32, end: u32) -> Result<(), TableFault>
    requires before { fixed_place after.now 0 ≤ message_bits }
    requires at { at ≤ last_bit }
    requires bits { bits ≤ message_bits }
    ensures value { Gives (λ done. done) result (check_end after.now at bits end) }
    ensures fixed { IfOk result (λ _. fixed_place after.now at + bits ≤ end) }
    ensures inside { IfOk result (λ _. at + bits ≤ end) }
{
    if fixed_place(after, at) + bits > end {
        return Err(TableFault::Range);
    }
    Ok(())
}

fn offset_in_range(integer: i64) -> Result<i64, TableFault>
    ensures { Gives (λ offset. offset) result (offset_in_range integer) }
{
    if integer > GREATEST_OFFSET || integer < -1 - GREATEST_OFFSET {
        return Err(TableFault::Range);
    }
    Ok(integer)
}

/// What a number of that resolution means, by the value of `offset`, if there is one.
fn offset_number(
    signed: bool,
    bits: u32,
    resolution: Resolution,
    table: &Table,
) -> Result<Meaning, TableFault>
    requires some { 1 ≤ bits }
    requires room { bits ≤ 64 }
    ensures value { Gives seen_meaning result
        (offset_number signed resolution (get_member (codes "offset") (table_view table.now))) }
    ensures room { IfOk result (λ meaning. HasRoom meaning bits) }
{
    let Some(value) = get(table, "offset") else {
        return Ok(Meaning::Number(Scale::new(signed, bits, resolution)));
    };
    if signed {
        return Err(TableFault::Key);
    }
    let offset = offset_in_range(value.as_integer().ok_or(TableFault::Key)?)?;
    Ok(Meaning::Shifted(Shift::new(offset, bits, resolution)))
}

/// Refuses a unit that is not a text of 1 to 255 bytes.
fn check_unit(table: &Table) -> Result<(), TableFault>
    ensures { Gives (λ done. done) result (check_unit (get_member (codes "unit") (table_view table.now))) }
{
    let Some(value) = get(table, "unit") else {
        return Ok(());
    };
    checked_text(value.as_str().ok_or(TableFault::Key)?)?;
    Ok(())
}

#[tactic(auto, unfolding(crate::specs::Field::number_of_bits))]
fn number_of_bits(bits: u32, table: &Table) -> Result<Meaning, TableFault>
    requires some { 1 ≤ bits }
    requires room { bits ≤ 64 }
    ensures value { Gives seen_meaning result (number_of_bits bits (table_view table.now)) }
    ensures room { IfOk result (λ meaning. HasRoom meaning bits) }
{
    let signed = bool_at(table, "signed")?;
    if signed && bits < 2 {
        return Err(TableFault::Range);
    }
    let resolution = resolution_at(table)?;
    let meaning = offset_number(signed, bits, resolution, table)?;
    check_unit(table)?;
    Ok(meaning)
}

/// The lookup that a field names.
#[tactic(auto, unfolding(crate::specs::Field::lookup_named))]
fn lookup_named(lookups: &Lookups, table: &Table) -> Result<Arc<Lookup>, TableFault>
    ensures { ReaderGives (λ lookup. lookup.value) result (lookup_named lookups.now (table_view table.now)) }
{
    let name = text_at(table, "lookup")?;
    let lookup = lookups.find(name).ok_or(TableFault::Lookup)?;
    Ok(lookup.clone()?)
}

fn named_form(name: &str) -> Result<Form, TableFault>
    ensures { Gives (λ form. form) result (named_form name.now) }
{
    match name {
        "lau" => Ok(Form::Lau),
        "lz" => Ok(Form::Lz),
        _ => Err(TableFault::Text),
    }
}

/// How a string says how long it is.
fn form_of(table: &Table) -> Result<Form, TableFault>
    ensures { Gives (λ form. form) result (form_of (table_view table.now)) }
{
    named_form(any_text_at(table, "form")?)
}

/// What so many bits of a field of that kind mean, in a table of these lookups.
fn meaning_of(
    lookups: &Lookups,
    kind: FieldKind,
    bits: u32,
    table: &Table,
) -> Result<Meaning, TableFault>
    requires { HasBits kind bits }
    ensures value { ReaderGives seen_meaning result (meaning_of lookups.now kind bits (table_view table.now)) }
    ensures room { IfOk result (λ meaning. HasRoom meaning bits) }
{
    match kind {
        FieldKind::Number => number_of_bits(bits, table),
        FieldKind::Lookup => Ok(Meaning::Lookup(lookup_named(lookups, table)?)),
        FieldKind::Text => Ok(Meaning::Text),
        FieldKind::Bytes => Ok(Meaning::Bytes),
        FieldKind::Flags => Ok(Meaning::Flags(lookup_named(lookups, table)?)),
        FieldKind::Digits => Ok(Meaning::Digits),
        FieldKind::String => Ok(Meaning::String(form_of(table)?)),
    }
}

/// A raw value of so many bits, if one is asked for.
fn match_at(bits: u32, table: &Table) -> Result<Option<u64>, TableFault>
    requires some { 1 ≤ bits }
    requires room { bits ≤ 64 }
    ensures { Gives (λ value. value) result (raw_or_none bits (get_member (codes "match") (table_view table.now))) }
{
    let Some(value) = get(table, "match") else {
        return Ok(None);
    };
    let integer = value.as_integer().ok_or(TableFault::Key)?;
    match u64::try_from(integer) {
        Ok(value) if value <= greatest(false, bits) => Ok(Some(value)),
        _ => Err(TableFault::Range),
    }
}

/// The raw value that a field asks for, if it asks for one.
fn match_value_of(
    kind: FieldKind,
    holder: Holder,
    bits: u32,
    table: &Table,
) -> Result<Option<u64>, TableFault>
    requires { HasBits kind bits }
    ensures value { Gives (λ value. value) result (match_value_of kind holder bits (table_view table.now)) }
    ensures room { IfOk result (λ value. IfSome value (λ _. (1 ≤ bits) × (bits ≤ 64))) }
{
    if !kind.can_match(holder) {
        return Ok(None);
    }
    match_at(bits, table)
}

/// Whether a field may be short, which only some may.
fn short_of(kind: FieldKind, holder: Holder, table: &Table) -> Result<bool, TableFault>
    ensures { Gives (λ short. short) result (short_of kind holder (table_view table.now)) }
{
    if !kind.can_be_short(holder) {
        return Ok(false);
    }
    bool_at(table, "short")
}

/// The text before a field's value in a line, after a comma. It is built in a buffer that serves many fields.
fn key_of(alloc: Global, name: &str, room: &mut Vec<u8>) -> Result<PaddedText, AllocError>
    ensures { IfOk result (λ key. key ≡ key_json true name.now) }
{
    room.clear();
    room.push(b',')?;
    push_json(alloc, name, room)?;
    room.push(b':')?;
    PaddedText::new(alloc, room.as_slice())
}

/// Reads what else a table says of a field of that name and at that place. In the room its key is put together.
#[tactic(auto, unfolding(crate::specs::Field::field_at))]
fn field_at(
    alloc: Global,
    lookups: &Lookups,
    kind: FieldKind,
    holder: Holder,
    name: &str,
    at: u32,
    bits: u32,
    after: Vec<Step>,
    table: &Table,
    room: &mut Vec<u8>,
) -> Result<Field, TableFault>
    requires known { HasBits kind bits }
    requires fixed { fixed_place after.items at + bits ≤ message_bits }
    requires inside { at + bits ≤ message_bits }
    ensures { ReaderGives (λ field. field) result
        (field_at lookups.now kind holder name.now at bits after.items (table_view table.now)) }
{
    let meaning = meaning_of(lookups, kind, bits, table)?;
    let short = short_of(kind, holder, table)?;
    let match_value = match_value_of(kind, holder, bits, table)?;
    let end = bytes_needed(&after, at, bits);
    Ok(Field {
        name: String::from_str(alloc, name)?,
        key: key_of(alloc, name, room)?,
        at,
        bits,
        end,
        mask: word_mask(at, bits),
        short,
        after,
        meaning,
        match_value,
    })
}

/// Reads a field of a message or of a set after these, in a table of this format and of these lookups. In the buffer its
/// key is put together.
#[tactic(auto, unfolding(crate::specs::Field::field))]
pub(crate) fn read_field(
    alloc: Global,
    lookups: &Lookups,
    format: TableFormat,
    holder: Holder,
    before: &[Field],
    value: &Value,
    room: &mut Vec<u8>,
) -> Result<Field, TableFault>
    requires { end_of holder ≤ message_bits }
    ensures { ReaderGives (λ field. field) result (field format holder lookups.now before.now (view value.now)) }
{
    let table = as_members(value)?;
    let kind = kind_of_field(format, table)?;
    check_keys(table, Section::Field(format, kind, holder))?;
    let name = text_at(table, "name")?;
    let at = first_bit(table, alignment(kind))?;
    let bits = bits_of(kind, table)?;
    let after = steps_of(alloc, before, table)?;
    check_end(&after, at, bits, holder.end())?;
    field_at(
        alloc, lookups, kind, holder, name, at, bits, after, table, room,
    )
}
