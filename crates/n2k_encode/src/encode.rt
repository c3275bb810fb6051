//! Encodes a line of JSON as a message.
ghost use Rattle.std.specs.Prelude.{◌≡◌, ◌<◌, ◌≤◌, true, codes, length, option_map, unwrap_or, is_some, slice_get, Some, Err, IfErr, IfOk, IfSome};
ghost use Rattle.json.specs.Find.{as_str};
ghost use Rattle.json.specs.Value.{value_view};
ghost use Rattle.std.specs.Option.{option_and_then};
ghost use Rattle.n2k_wire.specs.Packet.{is_stamp};
ghost use Rattle.n2k_table.specs.declared.definition.Kind.{Kind};
ghost use Rattle.n2k_table.specs.Table.{kind as kind_of, matches};
ghost use Rattle.n2k_encode.specs.Encoded.{longest_request, IsEncodedLine, IsLineCause, IsNoObject, IsObjectOf};
ghost use Rattle.n2k_encode.specs.Given.{given};
ghost use Rattle.n2k_encode.specs.Payload.{culprit, cut, cut_draft, data_by, data_in, definitions_of, encoded, is_chosen, is_meant, is_unmatched, means_bytes};
ghost use Rattle.n2k_encode.specs.Payload.{given_data, matched, other_name, payload_for, sized, unmatched};
ghost use Rattle.n2k_encode.specs.Refusal.{cause, description, not_json, IfRefused};
ghost use Rattle.n2k_encode.specs.Steps.{first_of, is_some_with, Gives};
ghost use Rattle.n2k_encode.specs.Views.{request_parts};

use crate::draft::{Draft, draft_for, most_data};
use crate::given::{check_names, given, unknown_beside};
use crate::place::MOST_DATA;
use crate::reading::Reading;
use crate::refusal::{EncodeError, Refusal};
use crate::request::{Request, request_of};
use crate::texts::{FieldBytes, are_pairs, hex_bytes};
use arrayvec::ArrayVec;
use json::{Error, Scratch, Value};
use n2k_table::{Definition, Kind, KnownPgn, Table};
use n2k_wire::{Packet, join_id};
use std::alloc::{AllocError, Global};

/// The greatest number of bytes in a line.
pub const LONGEST_REQUEST: usize = 65_536;

/// The description of a message that no definition matches.
const UNMATCHED: &str = "Unmatched";

/// The only field of a message that no definition matches.
const DATA: &str = "Data";

/// Data of a message.
type Payload = ArrayVec<u8, 223>;

/// Whether data match the definition at index `place` of the PGN.
fn matches_at(known: &KnownPgn<'_>, place: usize, data: &[u8]) -> bool
    ensures { result ≡ is_some_with (matches «data».now) (slice_get (definitions_of known.now) place) }
{
    match known.definition(place) {
        Some(definition) => definition.matches(data),
        None => false,
    }
}

/// Whether the table chooses the definition at index `place` of the PGN for the data.
fn is_chosen(known: &KnownPgn<'_>, place: usize, data: &[u8]) -> bool
    ensures { result ≡ is_chosen «data».now (definitions_of known.now) place }
{
    let mut is_first = true;
    for earlier in 0..place {
        is_first &= !matches_at(known, earlier, data);
    }
    is_first && matches_at(known, place, data)
}

/// Whether the line gives the description of this definition, or no description.
fn is_meant(definition: &Definition<'_>, description: Option<&str>) -> bool
    ensures { result ≡ is_meant (option_map (λ text. text.now) description.entry) definition.now }
{
    match description {
        None => true,
        Some(text) => definition.description() == text,
    }
}

/// The first `length` bytes of a draft by the definition at index `place`, if they read back.
fn cut(
    known: &KnownPgn<'_>,
    kind: Kind,
    place: usize,
    definition: &Definition<'_>,
    reading: Reading,
    fields: &Value<'_>,
    bytes: &[u8; MOST_DATA],
    length: usize,
) -> Option<Payload>
    ensures { option_map (λ payload. payload.items) result
        ≡ cut (definitions_of known.now) kind place definition.now reading (value_view fields.now) bytes.now length }
{
    if length > most_data(kind) {
        return None;
    }
    let data = &bytes[..length];
    if !(is_chosen(known, place, data) && reading.shows_all(definition, fields, data)) {
        return None;
    }
    let mut payload = Payload::new();
    payload.try_extend_from_slice(data).ok()?;
    Some(payload)
}

/// A draft up to its last field, if that reads back; otherwise up to the last field that is given or has `match`. `None` if
/// two given fields disagree about a bit.
fn cut_draft(
    known: &KnownPgn<'_>,
    kind: Kind,
    place: usize,
    definition: &Definition<'_>,
    reading: Reading,
    fields: &Value<'_>,
    draft: &Draft,
) -> Option<Payload>
    ensures { option_map (λ payload. payload.items) result
        ≡ cut_draft (definitions_of known.now) kind place definition.now reading (value_view fields.now) draft.now }
{
    if !draft.agree {
        return None;
    }
    let bytes = &draft.bytes;
    if let Some(payload) = cut(
        known,
        kind,
        place,
        definition,
        reading,
        fields,
        bytes,
        draft.whole,
    ) {
        return Some(payload);
    }
    cut(
        known,
        kind,
        place,
        definition,
        reading,
        fields,
        bytes,
        draft.needed,
    )
}

/// The name of what may be at fault if each field of the definition shows its given value: `list` if the definition has
/// sets, otherwise its first field.
fn other_name<'t>(definition: &Definition<'t>) -> &'t str
    ensures { result.now ≡ other_name definition.now }
{
    if definition.repeated().is_some() {
        return "list";
    }
    match definition.own_fields().first() {
        Some(field) => field.name(),
        None => "",
    }
}

/// The name of the first field of the definition that does not show its given value in the draft. It is reported if the
/// draft does not read back, or if two given fields disagree about a bit.
fn culprit<'t>(
    definition: &Definition<'t>,
    reading: Reading,
    fields: &Value<'_>,
    draft: &Draft,
) -> &'t str
    ensures { result.now ≡ culprit definition.now reading (value_view fields.now) draft.now }
{
    let data = draft.bytes.get(..draft.whole).unwrap_or(&draft.bytes);
    match reading.first_wrong(definition.own_fields(), fields, data) {
        Some(field) => field.name(),
        None => other_name(definition),
    }
}

/// The data by the definition at index `place`, or the cause of its refusal.
#[tactic(auto, unfolding(crate::specs::Payload::data_by))]
fn data_by<'a>(
    alloc: Global,
    known: &KnownPgn<'_>,
    kind: Kind,
    place: usize,
    definition: &Definition<'a>,
    reading: Reading,
    request: &Request<'_, 'a>,
) -> Result<Payload, EncodeError<'a>>
    ensures { Gives (λ payload. payload.items) result
        (data_by (definitions_of known.now) kind reading (request_parts request.now) place definition.now) }
{
    let fields = request.fields;
    check_names(definition, fields)?;
    let draft = draft_for(alloc, reading.nearest, definition, kind, fields)?;
    match cut_draft(known, kind, place, definition, reading, fields, &draft) {
        Some(payload) => Ok(payload),
        None => Err(EncodeError::Refused(Refusal::Data(culprit(
            definition, reading, fields, &draft,
        )))),
    }
}

/// The earlier of two refusals.
fn earlier<'a>(first: Option<Refusal<'a>>, next: Refusal<'a>) -> Refusal<'a>
    ensures { Some (cause result) ≡ first_of (option_map cause first.entry) (Some (cause next.entry)) }
{
    match first {
        Some(kept) => kept,
        None => next,
    }
}

/// The first refusal. Without one, no definition has the requested description.
fn last_refusal<'a>(first: Option<Refusal<'a>>) -> Refusal<'a>
    ensures { cause result ≡ unwrap_or (option_map cause first.entry) description }
{
    match first {
        Some(refusal) => refusal,
        None => Refusal::Description,
    }
}

/// The data by the first definition that succeeds. If none succeeds: the refusal by the first definition with the requested
/// description.
fn data_in<'a>(
    alloc: Global,
    known: &KnownPgn<'a>,
    kind: Kind,
    reading: Reading,
    request: &Request<'_, 'a>,
) -> Result<Payload, EncodeError<'a>>
    ensures { Gives (λ payload. payload.items) result
        (data_in (definitions_of known.now) kind reading (request_parts request.now)) }
{
    let mut first = None;
    for place in 0..usize::MAX {
        let Some(definition) = known.definition(place) else {
            return Err(EncodeError::Refused(last_refusal(first)));
        };
        if !is_meant(&definition, request.description) {
            continue;
        }
        match data_by(alloc, known, kind, place, &definition, reading, request) {
            Ok(payload) => return Ok(payload),
            Err(EncodeError::Memory) => return Err(EncodeError::Memory),
            Err(EncodeError::Refused(refusal)) => first = Some(earlier(first, refusal)),
        }
    }
    Err(EncodeError::Memory)
}

/// The text of the field `Data`.
fn data_text<'v, 'a>(fields: &'v Value<'a>) -> Option<&'v str>
    ensures { option_map (λ text. text.now) result ≡ option_and_then as_str (given (codes "Data") (value_view fields.now)) }
{
    match given(fields, DATA) {
        Some(value) => value.as_str(),
        None => None,
    }
}

/// The bytes of the field `Data`.
fn given_data<'a>(fields: &Value<'_>) -> Result<FieldBytes, EncodeError<'a>>
    ensures { Gives (λ bytes. bytes.items) result (sized (given_data (value_view fields.now))) }
{
    let Some(text) = data_text(fields) else {
        return Err(EncodeError::Refused(Refusal::Value(DATA)));
    };
    match hex_bytes(text.as_bytes()) {
        Some(bytes) => Ok(bytes),
        None if are_pairs(text.as_bytes()) => Err(EncodeError::Refused(Refusal::Size)),
        None => Err(EncodeError::Refused(Refusal::Value(DATA))),
    }
}

/// Whether a line has the description of a message that no definition matches.
fn is_unmatched(description: Option<&str>) -> bool
    ensures { result ≡ is_unmatched (option_map (λ text. text.now) description.entry) }
{
    match description {
        Some(text) => text == UNMATCHED,
        None => false,
    }
}

/// Whether a line requests bytes: it has this description and the only field `Data`.
fn means_bytes(request: &Request<'_, '_>) -> bool
    ensures { result ≡ means_bytes (request_parts request.now) }
{
    is_unmatched(request.description)
        && unknown_beside(DATA, request.fields).is_none()
        && given(request.fields, DATA).is_some()
}

/// The requested bytes, if no definition matches them.
#[tactic(auto, unfolding(crate::specs::Payload::unmatched))]
fn unmatched<'a>(
    known: &KnownPgn<'a>,
    kind: Kind,
    request: &Request<'_, 'a>,
) -> Result<Payload, EncodeError<'a>>
    requires { known.now.pgn ≡ request.now.id.pgn }
    ensures { Gives (λ payload. payload.items) result (unmatched known.now.table kind (request_parts request.now)) }
{
    let bytes = given_data(request.fields)?;
    if bytes.len() > most_data(kind) {
        return Err(EncodeError::Refused(Refusal::Size));
    }
    let mut payload = Payload::new();
    if payload.try_extend_from_slice(bytes.as_slice()).is_err() {
        return Err(EncodeError::Refused(Refusal::Size));
    }
    if known.choose(payload.as_slice()).is_some() {
        return Err(EncodeError::Refused(Refusal::Data(DATA)));
    }
    Ok(payload)
}

/// The data that show exactly the given fields. If there are none: data that also show fields with `match`.
fn matched<'a>(
    alloc: Global,
    known: &KnownPgn<'a>,
    kind: Kind,
    nearest: bool,
    request: &Request<'_, 'a>,
) -> Result<Payload, EncodeError<'a>>
    ensures { Gives (λ payload. payload.items) result
        (matched (definitions_of known.now) kind nearest (request_parts request.now)) }
{
    let exactly = Reading {
        nearest,
        adding: false,
    };
    let adding = Reading {
        nearest,
        adding: true,
    };
    match data_in(alloc, known, kind, exactly, request) {
        Ok(payload) => Ok(payload),
        Err(EncodeError::Memory) => Err(EncodeError::Memory),
        Err(EncodeError::Refused(_)) => data_in(alloc, known, kind, adding, request),
    }
}

/// The data of the requested message. If the line requests bytes, they are tried first.
fn payload_for<'a>(
    alloc: Global,
    known: &KnownPgn<'a>,
    nearest: bool,
    request: &Request<'_, 'a>,
) -> Result<Payload, EncodeError<'a>>
    requires { known.now.pgn ≡ request.now.id.pgn }
    ensures { (kind : Kind) → kind_of known.now.table known.now.pgn ≡ Some kind → Gives (λ payload. payload.items) result
        (payload_for known.now.table kind nearest (request_parts request.now)) }
{
    let kind = known.kind();
    if !means_bytes(request) {
        return matched(alloc, known, kind, nearest, request);
    }
    match unmatched(known, kind, request) {
        Err(EncodeError::Refused(first)) => match matched(alloc, known, kind, nearest, request) {
            Err(EncodeError::Refused(_)) => Err(EncodeError::Refused(first)),
            other => other,
        },
        other => other,
    }
}

/// The packet of a request with these data.
fn packet_of(request: &Request<'_, '_>, data: &[u8]) -> Option<Packet>
    requires stamp { is_stamp request.now.stamp.now ≡ true }
    requires prio { request.now.id.prio ≤ 7 }
    requires pgn { request.now.id.pgn ≤ 131071 }
    requires fits { length «data».now ≤ 223 }
    ensures some { is_some result ≡ true }
    ensures packet { IfSome result (λ packet. packet
        ≡ record { stamp = request.now.stamp.now; id = request.now.id; payload = «data».now }) }
{
    Packet::new(request.stamp.as_bytes(), request.id, data)
}

/// The message that an object requests.
#[tactic(auto, unfolding(crate::specs::Payload::encoded))]
fn encode_object<'a>(
    alloc: Global,
    table: &'a Table,
    nearest: bool,
    object: &Value<'a>,
) -> Result<Packet, EncodeError<'a>>
    ensures { Gives (λ packet. packet) result (encoded table.now nearest (value_view object.now)) }
{
    let request = request_of(object)?;
    let known = table.find(request.id.pgn).ok_or(Refusal::Unknown)?;
    if join_id(&request.id).is_none() {
        return Err(EncodeError::Refused(Refusal::Address));
    }
    let payload = payload_for(alloc, &known, nearest, &request)?;
    match packet_of(&request, payload.as_slice()) {
        Some(packet) => Ok(packet),
        None => Err(EncodeError::Refused(Refusal::Member)),
    }
}

/// The JSON object of a line.
fn parse<'a>(
    alloc: Global,
    line: &'a [u8],
    scratch: &'a mut Scratch,
) -> Result<Value<'a>, EncodeError<'a>>
    ensures object { IfOk result (λ object. IsObjectOf line.now (value_view object)) }
    ensures refused { IfErr result (λ error. IfRefused error (λ c. IsNoObject line.now × (c ≡ not_json))) }
{
    let Ok(text) = std::str::from_utf8(line) else {
        return Err(EncodeError::Refused(Refusal::Json));
    };
    match Value::parse_strict(alloc, text, scratch) {
        Ok(object) => Ok(object),
        Err(Error::OutOfMemory) => Err(EncodeError::Memory),
        Err(_) => Err(EncodeError::Refused(Refusal::Json)),
    }
}

/// The message that a line of JSON requests: it has the timestamp and the identifier of the line, and data that the table
/// decodes to exactly the given fields. With `nearest` numbers are rounded to the nearest number that their field can show;
/// without it they must be exact. `scratch` holds the texts of the line, and can be used for many lines.
///
/// ```rust
/// let table = sample_table(alloc)?;
/// let mut scratch = Scratch::new(alloc);
/// let line = "{\"pgn\":129026,\"fields\":{\"COG\":0.00005}}";
/// let refused = encode_line(alloc, &table, false, line.as_bytes(), &mut scratch);
/// assert!(rt; matches!(refused, Err(EncodeError::Refused(Refusal::Value("COG")))));
/// ```
pub fn encode_line<'a>(
    alloc: Global,
    table: &'a Table,
    nearest: bool,
    line: &'a [u8],
    scratch: &'a mut Scratch,
) -> Result<Packet, EncodeError<'a>>
    ensures reads_back { IfOk result (λ packet. IsEncodedLine table.now nearest line.now packet) }
    ensures long { longest_request < length line.now → result ≡ Err (EncodeError.Refused Refusal.Long) }
    ensures refused { length line.now ≤ longest_request → IfErr result (λ error. IfRefused error (IsLineCause table.now nearest line.now)) }
{
    if line.len() > LONGEST_REQUEST {
        return Err(EncodeError::Refused(Refusal::Long));
    }
    let object = match parse(alloc, line, scratch) {
        Ok(object) => object,
        Err(error) => return Err(error),
    };
    encode_object(alloc, table, nearest, &object)
}
