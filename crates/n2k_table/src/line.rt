//! The JSON line of a message.
#![tactic(auto, using(crate::proofs::Begins::begins_steps))]

ghost use Rattle.std.specs.Prelude.{◌≡◌, ◌+◌, ◌≤◌, ◌∷◌, [], ◌++◌, ◌||◌, true, is_some, codes, if◌then◌else◌};
ghost use Rattle.std.specs.Prelude.{decimal, length, map, IfOk, IfSome, OnOk, OnErr, Some};
ghost use Rattle.n2k_table.specs.Shown.{shown, shown_parts, all_shown, flags_left};
ghost use Rattle.std.specs.List.{flat_map, join_with_byte};
ghost use Rattle.n2k_table.specs.Repeat.{all_sets};
ghost use Rattle.n2k_table.specs.Inner.FieldValue.{named_bit};
ghost use Rattle.n2k_table.specs.Json.{array, flag_json, value_json};
ghost use Rattle.n2k_table.specs.Json.{comma, member_json, members, set_json, list_json, message_members};
ghost use Rattle.n2k_table.specs.Json.{unmatched_json, chosen_json, json};
ghost use Rattle.n2k_table.specs.Inner.Line.{are_null, has_members, key_json, member_text};
ghost use Rattle.n2k_table.specs.Text.{text_json, character, hex_pairs};
ghost use Rattle.n2k_table.specs.Inner.LineBuffer.{AddsText, begins};
ghost use Rattle.n2k_table.specs.Inner.FirstWord.{HasFirstBits};

use crate::bits::first_word;
use crate::decimal::{push_decimal, push_number};
use crate::definition::{Definition, StoredDefinition};
use crate::field::Field;
use crate::field_value::FieldValue;
use crate::flags::{Flags, NamedBit};
use crate::json_header::push_header;
use crate::known_pgn::KnownPgn;
use crate::line_buffer::{LINE_ALONE, LineBuffer, TextBuffer};
use crate::padded_text::PREFIX_ROOM;
use crate::repeat::Repeat;
use crate::shown::Shown;
use crate::table::Table;
use crate::text::{self, push_characters, push_digits, push_pairs};
use crate::wide_text::push_wide;
use itoa::Buffer;
use n2k_wire::Packet;
use std::alloc::{AllocError, Global};

/// What a line has of a field that shows nothing.
#[derive(Clone, Copy)]
enum AbsentFields {
    /// No member.
    LeftOut,
    /// A member that is `null`.
    Null,
}

impl AbsentFields {
    /// `null` if the caller of `json_line` asks for empty fields.
    fn new(empty: bool) -> AbsentFields
        ensures { are_null result ≡ empty }
    {
        if empty {
            AbsentFields::Null
        } else {
            AbsentFields::LeftOut
        }
    }
}

/// Appends the PGN of a packet that no definition matches.
#[tactic(auto, using(std::proofs::Common::append_assoc, crate::proofs::Begins::begins_steps))]
fn push_pgn<const SIZE: usize>(pgn: u32, line: &mut TextBuffer<SIZE>) -> Result<(), AllocError>
    ensures { AddsText result line.old.items line.new.items (codes ",\"pgn\":" ++ decimal pgn) }
{
    let mut buffer = Buffer::new();
    line.extend_from_slice(b",\"pgn\":")?;
    line.extend_from_slice(buffer.format(pgn).as_bytes())
}

/// Appends a member that is there, its key and its value: `null`, a text, or bytes. They are not inlined: most fields
/// are numbers and names.
#[inline(never)]
fn push_null<const SIZE: usize>(
    field: &Field,
    later: bool,
    line: &mut TextBuffer<SIZE>,
) -> Result<(), AllocError>
    ensures { AddsText result line.old.items line.new.items (key_json later field.now.name ++ codes "null") }
{
    field.push_key(later, line)?;
    line.extend_from_slice(b"null")
}

#[inline(never)]
fn push_text<const SIZE: usize>(
    field: &Field,
    text: &[u8],
    later: bool,
    line: &mut TextBuffer<SIZE>,
) -> Result<(), AllocError>
    ensures { AddsText result line.old.items line.new.items (key_json later field.now.name ++ text_json (flat_map character text.now)) }
{
    field.push_key(later, line)?;
    push_characters(text, line)
}

#[inline(never)]
fn push_bytes<const SIZE: usize>(
    field: &Field,
    bytes: &[u8],
    later: bool,
    line: &mut TextBuffer<SIZE>,
) -> Result<(), AllocError>
    ensures { AddsText result line.old.items line.new.items (key_json later field.now.name ++ text_json (hex_pairs bytes.now)) }
{
    field.push_key(later, line)?;
    push_pairs(bytes, line)
}

/// Writes a comma if a member precedes. There is room for a byte.
fn write_comma<const SIZE: usize>(later: bool, line: &mut TextBuffer<SIZE>)
    requires { line.old.held + 1 ≤ SIZE }
    ensures items { line.new.items ≡ line.old.items ++ (if later then comma ∷ [] else []) }
    ensures held { line.new.held ≤ line.old.held + 1 }
{
    if later {
        line.write(b",", 1);
    }
}

/// Appends a bit by its name or its number, after a comma if another bit precedes.
fn push_bit<const SIZE: usize>(
    bit: NamedBit<'_>,
    later: bool,
    line: &mut TextBuffer<SIZE>,
) -> Result<(), AllocError>
    ensures { AddsText result line.old.items line.new.items (member_text later (Some (flag_json (named_bit bit.entry)))) }
{
    line.reserve(1 + PREFIX_ROOM)?;
    write_comma(later, line);
    match bit {
        NamedBit::Name(name) => name.push_json(line),
        NamedBit::Bit(number) => {
            let mut buffer = Buffer::new();
            line.extend_from_slice(buffer.format(number).as_bytes())
        }
    }
}

/// Appends the bits that are left, a comma between each.
fn push_bits<const SIZE: usize>(
    flags: Flags<'_>,
    line: &mut TextBuffer<SIZE>,
) -> Result<(), AllocError>
    ensures { AddsText result line.old.items line.new.items (join_with_byte comma (map flag_json (flags_left flags.entry))) }
{
    let mut rest = flags;
    let mut later = false;
    while let Some(bit) = rest.next_named() {
        push_bit(bit, later, line)?;
        later = true;
    }
    Ok(())
}

/// Appends an array of the bits that are left.
fn push_flags<const SIZE: usize>(
    flags: Flags<'_>,
    line: &mut TextBuffer<SIZE>,
) -> Result<(), AllocError>
    ensures { AddsText result line.old.items line.new.items (array (map flag_json (flags_left flags.entry))) }
{
    line.push(b'[')?;
    push_bits(flags, line)?;
    line.push(b']')
}

/// Appends what a field of any kind shows as a value: `null` if it shows nothing.
fn push_shown<const SIZE: usize>(
    shown: Shown<'_>,
    line: &mut TextBuffer<SIZE>,
) -> Result<(), AllocError>
    ensures items { OnOk result (IfSome (value_json true (shown_parts shown.entry))
        (λ value. line.new.items ≡ line.old.items ++ value)) }
    ensures prefix { OnErr result (begins line.old.items line.new.items ≡ true) }
{
    match shown {
        Shown::Absent => line.extend_from_slice(b"null"),
        Shown::Number { value, decimals } => push_decimal(value, decimals, line),
        Shown::Name(text) | Shown::Utf8(text) => text::push_text(text.as_bytes(), line),
        Shown::Text(text) => push_characters(text, line),
        Shown::Wide(bytes) => push_wide(bytes, line),
        Shown::Bytes(bytes) => push_pairs(bytes, line),
        Shown::Flags(flags) => push_flags(flags, line),
        Shown::Digits(bytes) => push_digits(bytes, line),
    }
}

/// Appends a field of any kind as a member, and returns whether a member precedes the next. Few fields come here.
#[cold]
#[inline(never)]
fn push_seldom<const SIZE: usize>(
    field: &Field,
    data: &[u8],
    absent: AbsentFields,
    later: bool,
    line: &mut TextBuffer<SIZE>,
) -> Result<bool, AllocError>
    ensures items { let member = member_json (are_null absent) (field.now.name, shown field.now «data».now) in
        IfOk result (λ more. (line.new.items ≡ line.old.items ++ member_text later member)
        × (more ≡ (later || is_some member))) }
    ensures prefix { OnErr result (begins line.old.items line.new.items ≡ true) }
{
    let shown = field.shown(data);
    match (shown, absent) {
        (Shown::Absent, AbsentFields::LeftOut) => Ok(later),
        _ => {
            field.push_key(later, line)?;
            push_shown(shown, line)?;
            Ok(true)
        }
    }
}

/// Appends a field as a member of an object, after a comma if a member precedes, and notes whether one precedes
/// before the next. What it shows goes from branch to branch, and is never put together in memory.
#[inline(always)]
fn push_member<const SIZE: usize>(
    field: &Field,
    data: &[u8],
    word: u64,
    absent: AbsentFields,
    later: &mut bool,
    line: &mut TextBuffer<SIZE>,
) -> Result<(), AllocError>
    requires { HasFirstBits word «data».now }
    ensures items { let member = member_json (are_null absent) (field.now.name, shown field.now «data».now) in
        AddsText result line.old.items line.new.items (member_text later.old member) }
    ensures later { let member = member_json (are_null absent) (field.now.name, shown field.now «data».now) in
        OnOk result (later.new ≡ (later.old || is_some member)) }
{
    match field.value(data, word) {
        FieldValue::Absent => match absent {
            AbsentFields::LeftOut => return Ok(()),
            AbsentFields::Null => push_null(field, *later, line)?,
        },
        FieldValue::Number(number) => {
            field.push_key(*later, line)?;
            push_number(number, line)?;
        }
        FieldValue::Name(name) => {
            field.push_key(*later, line)?;
            name.push_json(line)?;
        }
        FieldValue::Text(text) => push_text(field, text, *later, line)?,
        FieldValue::Bytes(bytes) => push_bytes(field, bytes, *later, line)?,
        FieldValue::Seldom => {
            *later = push_seldom(field, data, absent, *later, line)?;
            return Ok(());
        }
    }
    *later = true;
    Ok(())
}

/// Appends the fields as the members of an object, of a message or of a set, and returns whether a member precedes
/// before the next. It is inlined for the message and for sets, since a call for each line costs more.
#[inline(always)]
fn push_members<const SIZE: usize>(
    fields: &[Field],
    data: &[u8],
    word: u64,
    absent: AbsentFields,
    line: &mut TextBuffer<SIZE>,
) -> Result<bool, AllocError>
    requires { HasFirstBits word «data».now }
    ensures items { let ms = members (are_null absent) (all_shown fields.now «data».now) in
        IfOk result (λ later. (line.new.items ≡ line.old.items ++ join_with_byte comma ms) × (later ≡ has_members ms)) }
    ensures prefix { OnErr result (begins line.old.items line.new.items ≡ true) }
{
    let mut later = false;
    let mut rest = fields;
    while let Some((field, others)) = rest.split_first() {
        push_member(field, data, word, absent, &mut later, line)?;
        rest = others;
    }
    Ok(later)
}

/// Appends a set as an object, after a comma if another set precedes.
fn push_set<const SIZE: usize>(
    fields: &[Field],
    set: &[u8],
    word: u64,
    later: bool,
    absent: AbsentFields,
    line: &mut TextBuffer<SIZE>,
) -> Result<(), AllocError>
    requires { HasFirstBits word set.now }
    ensures { let object = set_json (are_null absent) (all_shown fields.now set.now) in
        AddsText result line.old.items line.new.items (member_text later (Some object)) }
{
    line.reserve(2)?;
    write_comma(later, line);
    line.write(b"{", 1);
    push_members(fields, set, word, absent, line)?;
    line.push(b'}')
}

/// Appends the sets, a comma between each. A set's word is that of all bytes from the set on: fewer than eight bytes, which
/// most sets have, would have to be copied.
fn push_sets<const SIZE: usize>(
    repeat: &Repeat,
    data: &[u8],
    absent: AbsentFields,
    line: &mut TextBuffer<SIZE>,
) -> Result<(), AllocError>
    ensures { let sets = map (set_json (are_null absent)) (all_sets repeat.now «data».now) in
        AddsText result line.old.items line.new.items (join_with_byte comma sets) }
{
    let mut later = false;
    let mut rest = repeat.from_first(data);
    while let Some((set, after)) = repeat.split_set(rest) {
        let word = first_word(rest);
        push_set(repeat.fields(), set, word, later, absent, line)?;
        later = true;
        rest = after;
    }
    Ok(())
}

/// The text before the sets, with a comma if a member precedes.
fn list_key(later: bool) -> &'static [u8]
    ensures { result.now ≡ (if later then codes ",\"list\":[" else codes "\"list\":[") }
{
    if later { b",\"list\":[" } else { b"\"list\":[" }
}

/// Appends the sets as a member, after a comma if a member precedes. Most messages have no sets.
#[inline(never)]
fn push_list<const SIZE: usize>(
    repeat: &Repeat,
    data: &[u8],
    absent: AbsentFields,
    later: bool,
    line: &mut TextBuffer<SIZE>,
) -> Result<(), AllocError>
    ensures { let list = list_json (are_null absent) (all_sets repeat.now «data».now) in
        AddsText result line.old.items line.new.items (member_text later (Some list)) }
{
    line.extend_from_slice(list_key(later))?;
    push_sets(repeat, data, absent, line)?;
    line.push(b']')
}

/// Appends the members of a message: the fields, and last the sets that follow them.
fn push_fields<const SIZE: usize>(
    definition: &StoredDefinition,
    data: &[u8],
    absent: AbsentFields,
    line: &mut TextBuffer<SIZE>,
) -> Result<(), AllocError>
    ensures { let ms = message_members (are_null absent) definition.now «data».now in
        AddsText result line.old.items line.new.items (join_with_byte comma ms) }
{
    let word = first_word(data);
    let later = push_members(definition.fields(), data, word, absent, line)?;
    match definition.repeat() {
        None => Ok(()),
        Some(repeat) => push_list(repeat, data, absent, later, line),
    }
}

/// Appends the line of a message under a definition of its PGN.
fn push_matched<const SIZE: usize>(
    definition: &StoredDefinition,
    packet: &Packet,
    absent: AbsentFields,
    line: &mut TextBuffer<SIZE>,
) -> Result<(), AllocError>
    requires { definition.now.pgn ≡ packet.now.id.pgn }
    ensures { AddsText result line.old.items line.new.items (chosen_json (Some definition.now) packet.now (are_null absent)) }
{
    push_header(packet, line)?;
    line.extend_from_slice(definition.label())?;
    push_fields(definition, packet.data(), absent, line)?;
    line.put(b"}}\n", 3)
}

/// Appends the line of a message that no definition matches: its data as they are. Few lines are such.
#[inline(never)]
fn push_unmatched<const SIZE: usize>(
    packet: &Packet,
    line: &mut TextBuffer<SIZE>,
) -> Result<(), AllocError>
    ensures { AddsText result line.old.items line.new.items (unmatched_json packet.now) }
{
    push_header(packet, line)?;
    push_pgn(packet.id().pgn, line)?;
    line.extend_from_slice(b",\"description\":\"Unmatched\",\"fields\":{\"Data\":")?;
    push_pairs(packet.data(), line)?;
    line.put(b"}}\n", 3)
}

fn push_line<const SIZE: usize>(
    definition: Option<Definition<'_>>,
    packet: &Packet,
    absent: AbsentFields,
    line: &mut TextBuffer<SIZE>,
) -> Result<(), AllocError>
    requires { IfSome definition (λ d. d.pgn ≡ packet.now.id.pgn) }
    ensures { AddsText result line.old.items line.new.items (chosen_json definition.entry packet.now (are_null absent)) }
{
    match definition {
        Some(definition) => push_matched(definition.stored(), packet, absent, line),
        None => push_unmatched(packet, line),
    }
}

/// Appends the JSON line of a packet, with its LF: when it was seen, its priority, source, destination and
/// PGN, and the fields of its definition in their order, without spaces. A field that shows nothing is left
/// out, and with `empty` it is `null`. If sets follow the fields, the last member is `list`, an array of one
/// object for each set, up to the first that does not lie wholly in the data. A packet of an unknown PGN, and one that no
/// definition of its PGN matches, is `Unmatched` and has its data as they are. A refused growth leaves `out` as it was.
///
/// ```rust
/// let table = sample_table(alloc)?;
/// let line = "2011-11-24-22:42:04.388,2,127251,36,255,8,7d,0b,7d,02,00,ff,ff,ff";
/// let packet = frame_in(line)?;
/// let mut text = Vec::new(alloc);
/// json_line(alloc, &table, &packet, false, &mut text)?;
/// let wanted = "{\"timestamp\":\"2011-11-24-22:42:04.388\",\"prio\":2,\"src\":36,\"dst\":255,\
///     \"pgn\":127251,\"description\":\"Rate of Turn\",\
///     \"fields\":{\"SID\":125,\"Rate\":0.00509634375}}\n";
/// assert_eq!(rt; text.as_slice(), wanted.as_bytes());
/// ```
pub fn json_line(
    alloc: Global,
    table: &Table,
    packet: &Packet,
    empty: bool,
    out: &mut Vec<u8>,
) -> Result<(), AllocError>
    ensures appends { OnOk result (out.new.items ≡ out.old.items ++ json table.now packet.now empty) }
    ensures unchanged { OnErr result (out.new.items ≡ out.old.items) }
{
    let mut line = TextBuffer::<LINE_ALONE>::new(alloc);
    json_line_in(alloc, table, packet, empty, &mut line, out)
}

/// Appends what `json_line` does. It is put together in a buffer that the caller keeps from line to line, which costs
/// less than a new one for each. What the buffer held is let go first.
///
/// ```rust
/// let table = sample_table(alloc)?;
/// let packet = frame_in("(1.0) can0 09F8027F#0500")?;
/// let mut line = LineBuffer::new(alloc);
/// let mut text = Vec::new(alloc);
/// json_line_in(alloc, &table, &packet, false, &mut line, &mut text)?;
/// json_line_in(alloc, &table, &packet, true, &mut line, &mut text)?;
/// let end = "{\"SID\":5,\"COG Reference\":\"True\",\"COG\":null,\"SOG\":null}}\n";
/// assert!(rt; text.ends_with(end.as_bytes()));
/// ```
#[tactic(auto, unfolding(crate::specs::Json::json))]
pub fn json_line_in<const SIZE: usize>(
    _alloc: Global,
    table: &Table,
    packet: &Packet,
    empty: bool,
    line: &mut TextBuffer<SIZE>,
    out: &mut Vec<u8>,
) -> Result<(), AllocError>
    ensures appends { OnOk result (out.new.items ≡ out.old.items ++ json table.now packet.now empty) }
    ensures unchanged { OnErr result (out.new.items ≡ out.old.items) }
{
    let definition = table.choose(packet.id().pgn, packet.data());
    line.clear();
    push_line(definition, packet, AbsentFields::new(empty), line)?;
    line.append_to(out)
}

/// Adds to the lines of a buffer what `json_line` appends, of a packet whose PGN has been looked up. A refused growth
/// leaves the lines as they were.
///
/// ```rust
/// let table = sample_table(alloc)?;
/// let packet = frame_in("(1.0) can0 09F8027F#0500")?;
/// let known = table.find(packet.id().pgn).ok_or("a definition")?;
/// let mut lines = LineBuffer::new(alloc);
/// json_line_of(&known, &packet, false, &mut lines)?;
/// let end = "{\"SID\":5,\"COG Reference\":\"True\"}}\n";
/// assert!(rt; lines.parts().1.ends_with(end.as_bytes()));
/// ```
#[tactic(auto, using(crate::proofs::Begins::begins_taken, crate::proofs::Begins::begins_length), unfolding(crate::specs::Json::json))]
pub fn json_line_of(
    known: &KnownPgn<'_>,
    packet: &Packet,
    empty: bool,
    lines: &mut LineBuffer,
) -> Result<(), AllocError>
    requires { known.now.pgn ≡ packet.now.id.pgn }
    ensures adds { OnOk result (lines.new.items ≡ lines.old.items ++ json known.now.table packet.now empty) }
    ensures unchanged { OnErr result (lines.new.items ≡ lines.old.items) }
{
    let definition = known.choose(packet.data());
    let before = lines.len();
    match push_line(definition, packet, AbsentFields::new(empty), lines) {
        Ok(()) => Ok(()),
        Err(refused) => {
            lines.truncate(before);
            Err(refused)
        }
    }
}
