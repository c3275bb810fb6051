//! The data of a message by a definition, before they are read back.
ghost use Rattle.std.specs.Prelude.{◌≡◌, ◌≤◌, true, find, option_map, Some};
ghost use Rattle.json.specs.Value.{value_view, items_view};
ghost use Rattle.n2k_encode.specs.Coded.{coded_sets};
ghost use Rattle.n2k_encode.specs.Draft.{agree, blank, both_agree, data_from, draft_for, draft_in, end_of_all, has_code, is_cut, is_set_in, laid_repeat, is_none_given, laid_sets};
ghost use Rattle.n2k_encode.specs.Draft.{last_of, most_data, own_end, put_all, put_layer, put_set, put_set_layer, set_end, short_end, whole_end, with_set_of, without_sets, SetsParts};
ghost use Rattle.n2k_encode.specs.Given.{given_sets};
ghost use Rattle.n2k_encode.specs.Refusal.{cause, is_size};
ghost use Rattle.n2k_encode.specs.Steps.{Gives};

use crate::coded::{Coded, Layer, coded_fields};
use crate::given::given_sets;
use crate::place::{MOST_DATA, end_of, put_bytes, put_code};
use crate::refusal::{EncodeError, Refusal};
use crate::value::{Code, Style};
use json::Value;
use n2k_table::{Coding, Definition, Kind, Repeat};
use std::alloc::Global;

/// Data and their possible ends.
#[derive(Drop)]
pub(crate) struct Draft {
    pub(crate) bytes: [u8; MOST_DATA],
    /// The end of the last set and of the last field that is given or has `match`.
    pub(crate) needed: usize,
    /// The end of the last set and of the last field.
    pub(crate) whole: usize,
    /// Whether no two given fields disagree about a bit.
    pub(crate) agree: bool,
}

/// The greatest number of bytes in a message of this kind.
pub(crate) fn most_data(kind: Kind) -> usize
    ensures value { result ≡ most_data kind }
    ensures few { result ≤ 223 }
{
    match kind {
        Kind::Single => 8,
        Kind::Fast => MOST_DATA,
    }
}

/// Data whose bits are all 1.
fn blank() -> [u8; MOST_DATA]
    ensures { result ≡ blank }
{
    [0xff; MOST_DATA]
}

/// Whether a field is written in a layer. A string is also written in the first layer, because other fields are placed by
/// it.
fn is_set_in(layer: Layer, coded: &Coded<'_>) -> bool
    ensures { result ≡ is_set_in layer coded.now }
{
    let is_own = match layer {
        Layer::Reserved => coded.is_reserved(),
        Layer::Asked => !coded.is_reserved() && !coded.is_given(),
        Layer::Given => coded.is_given(),
    };
    is_own || matches!(layer, Layer::Reserved) && matches!(coded.field.coding(), Coding::String(_))
}

/// Writes the fields of one layer.
fn put_layer(layer: Layer, fields: &[Coded<'_>], data: &mut [u8; MOST_DATA])
    ensures { «data».new ≡ put_layer layer fields.now «data».old }
{
    for coded in fields {
        if is_set_in(layer, coded) {
            put_code(coded.field, &coded.code, data);
        }
    }
}

/// Writes all fields: "not available" first, then `match` values, then given values.
fn put_all(fields: &[Coded<'_>], data: &mut [u8; MOST_DATA])
    ensures { «data».new ≡ put_all fields.now «data».old }
{
    put_layer(Layer::Reserved, fields, data);
    put_layer(Layer::Asked, fields, data);
    put_layer(Layer::Given, fields, data);
}

/// Whether the data contain the code of a field at its place.
fn has_code(coded: &Coded<'_>, data: &[u8; MOST_DATA]) -> bool
    ensures { result ≡ has_code «data».now coded.now }
{
    let mut same = *data;
    put_code(coded.field, &coded.code, &mut same);
    same == *data
}

/// Whether the data contain the code of each given field, so that no two given fields disagree about a bit.
fn agree(fields: &[Coded<'_>], data: &[u8; MOST_DATA]) -> bool
    ensures { result ≡ agree «data».now fields.now }
{
    fields
        .iter()
        .all(|coded| !coded.is_given() || has_code(coded, data))
}

/// The later of two ends, if both are known.
fn last_of(own: Option<usize>, other: Option<usize>) -> Option<usize>
    ensures { result ≡ last_of own other }
{
    Some(own?.max(other?))
}

/// The end of a field. For a field that is "not available" it is 0 if its place is not known or such fields do not count.
fn own_end(all: bool, coded: &Coded<'_>, data: &[u8; MOST_DATA]) -> Option<usize>
    ensures { result ≡ own_end all «data».now coded.now }
{
    if !coded.is_reserved() {
        return end_of(coded.field, &coded.code, data);
    }
    if !all {
        return Some(0);
    }
    Some(end_of(coded.field, &coded.code, data).unwrap_or(0))
}

/// The end of the last field, if all ends are known.
fn end_of_all(all: bool, fields: &[Coded<'_>], data: &[u8; MOST_DATA]) -> Option<usize>
    ensures { result ≡ end_of_all all «data».now fields.now }
{
    let mut end = Some(0);
    for coded in fields {
        end = last_of(end, own_end(all, coded, data));
    }
    end
}

/// Whether the line gives fewer bytes than the width of the field.
fn is_cut(coded: &Coded<'_>) -> bool
    ensures { result ≡ is_cut coded.now }
{
    match &coded.code {
        Code::Bytes(bytes) => coded.is_given() && bytes.len() < coded.field.bits() as usize / 8,
        Code::Bits(_) => false,
    }
}

/// The first field for which the line gives fewer bytes than its width.
fn first_cut<'c, 't>(fields: &'c [Coded<'t>]) -> Option<&'c Coded<'t>>
    ensures { option_map (λ c. c.now) result ≡ find is_cut fields.now }
{
    fields.iter().find(|coded| is_cut(coded))
}

/// The end of the first field for which the line gives fewer bytes than its width.
fn short_end(fields: &[Coded<'_>], data: &[u8; MOST_DATA]) -> Option<usize>
    ensures { result ≡ short_end «data».now fields.now }
{
    match first_cut(fields) {
        Some(coded) => end_of(coded.field, &coded.code, data),
        None => None,
    }
}

/// The end of the last set, if all sets fit, and whether no two given fields disagree about a bit.
#[derive(Clone, Copy)]
struct Sets {
    end: Option<usize>,
    agree: bool,
}

/// The end of a set that begins at byte `at`. `None` if one of its strings has no end, or if the set does not fit.
fn set_end(repeat: &Repeat, fields: &[Coded<'_>], at: usize) -> Option<usize>
    ensures { result ≡ set_end repeat.now fields.now at }
{
    let mut room = blank();
    put_all(fields, &mut room);
    let (bytes, _) = repeat.split_set(room.as_slice())?;
    let end = at.checked_add(bytes.len())?;
    if end > MOST_DATA {
        return None;
    }
    Some(end)
}

/// The data from byte `at` on, filled up with bits that are 1.
fn data_from(at: usize, data: &[u8; MOST_DATA]) -> [u8; MOST_DATA]
    ensures { result ≡ data_from at «data».now }
{
    let mut rest = blank();
    put_bytes(&mut rest, 0, data.get(at..).unwrap_or(&[]));
    rest
}

/// Writes the fields of one layer of a set that begins at byte `at`.
fn put_set_layer(layer: Layer, fields: &[Coded<'_>], at: usize, data: &mut [u8; MOST_DATA])
    ensures { «data».new ≡ put_set_layer layer fields.now at «data».old }
{
    let mut rest = data_from(at, data);
    put_layer(layer, fields, &mut rest);
    put_bytes(data, at, rest.as_slice());
}

/// Writes a set. Own fields of the definition may be inside it: those with `match` and given ones are written after the
/// fields of the set that are "not available", and before its given ones.
fn put_set(own: &[Coded<'_>], fields: &[Coded<'_>], at: usize, data: &mut [u8; MOST_DATA])
    ensures { «data».new ≡ put_set own.now fields.now at «data».old }
{
    put_set_layer(Layer::Reserved, fields, at, data);
    put_layer(Layer::Asked, own, data);
    put_layer(Layer::Given, own, data);
    put_set_layer(Layer::Given, fields, at, data);
}

/// Whether no two given fields of the definition, and of the set that begins at byte `at`, disagree about a bit.
fn both_agree(own: &[Coded<'_>], fields: &[Coded<'_>], at: usize, data: &[u8; MOST_DATA]) -> bool
    ensures { result ≡ both_agree own.now fields.now at «data».now }
{
    agree(own, data) && agree(fields, &data_from(at, data))
}

/// Writes one more set, if it fits.
fn append_set(
    repeat: &Repeat,
    own: &[Coded<'_>],
    fields: &[Coded<'_>],
    all: Sets,
    data: &mut [u8; MOST_DATA],
) -> Sets
    ensures { record { payload = «data».new; end = result.end; agree = result.agree }
        ≡ with_set_of repeat.now own.now (record { payload = «data».old; end = all.end; agree = all.agree }) fields.now }
{
    let Some(at) = all.end else {
        return all;
    };
    let Some(end) = set_end(repeat, fields, at) else {
        return Sets {
            end: None,
            agree: all.agree,
        };
    };
    put_set(own, fields, at, data);
    Sets {
        end: Some(end),
        agree: all.agree && both_agree(own, fields, at, data),
    }
}

/// The end and the agreement of data without sets, of which the first would begin at byte `first`.
fn without_sets(own: &[Coded<'_>], first: usize, data: &[u8; MOST_DATA]) -> Sets
    ensures { record { payload = «data».now; end = result.end; agree = result.agree } ≡ without_sets own.now «data».now first }
{
    Sets {
        end: Some(first),
        agree: agree(own, data),
    }
}

/// Writes sets into the data, as far as they fit. The codes of one set are kept at a time.
#[tactic(auto, using(crate::proofs::Laid::laid_rules))]
fn put_sets<'t>(
    alloc: Global,
    style: Style,
    repeat: &'t Repeat,
    own: &[Coded<'_>],
    sets: &[Value<'_>],
    first: usize,
    data: &mut [u8; MOST_DATA],
) -> Result<Sets, EncodeError<'t>>
    ensures { Gives (λ sets. record { payload = «data».new; end = sets.end; agree = sets.agree }) result
        (laid_sets repeat.now own.now (without_sets own.now «data».old first)
        (coded_sets style repeat.now.fields (items_view sets.now))) }
{
    let mut all = without_sets(own, first, data);
    for set in sets {
        let fields = coded_fields(alloc, style, repeat.fields(), set)?;
        all = append_set(repeat, own, &fields, all, data);
    }
    Ok(all)
}

/// Whether there are no sets.
#[tactic(auto, using(crate::proofs::Near::none_given))]
fn is_none_given(sets: &[Value<'_>]) -> bool
    ensures { result ≡ is_none_given (items_view sets.now) }
{
    sets.is_empty()
}

/// Writes the given sets into the data.
fn put_repeat<'t>(
    alloc: Global,
    style: Style,
    repeat: Option<&'t Repeat>,
    object: &Value<'_>,
    own: &[Coded<'_>],
    data: &mut [u8; MOST_DATA],
) -> Result<Sets, EncodeError<'t>>
    ensures { Gives (λ sets. record { payload = «data».new; end = sets.end; agree = sets.agree }) result
        (laid_repeat style (option_map (λ r. r.now) repeat.entry) (given_sets (value_view object.now)) own.now «data».old) }
{
    let Some(repeat) = repeat else {
        return Ok(without_sets(own, 0, data));
    };
    let Some(sets) = given_sets(object) else {
        return Ok(without_sets(own, 0, data));
    };
    if is_none_given(sets) {
        return Ok(without_sets(own, 0, data));
    }
    let rest = repeat.from_first(data.as_slice());
    let first = data.len().saturating_sub(rest.len());
    put_sets(alloc, style, repeat, own, sets, first, data)
}

/// The end of the first short field. Without one: 8 in a single frame, the end of the last field or set in a fast packet.
fn whole_end(short: Option<usize>, kind: Kind, last: usize) -> usize
    ensures { result ≡ whole_end short kind last }
{
    match (short, kind) {
        (Some(end), _) => end,
        (None, Kind::Single) => 8,
        (None, Kind::Fast) => last,
    }
}

/// The data by a definition and their possible ends, or a refusal.
#[tactic(auto, unfolding(crate::specs::Draft::draft_in))]
fn draft_in<'t>(
    alloc: Global,
    style: Style,
    definition: &Definition<'t>,
    kind: Kind,
    object: &Value<'_>,
) -> Result<Draft, EncodeError<'t>>
    ensures { Gives (λ draft. draft) result (draft_in style definition.now kind (value_view object.now)) }
{
    let fields = coded_fields(alloc, style, definition.own_fields(), object)?;
    let mut own = blank();
    put_all(&fields, &mut own);
    let mut bytes = own;
    let sets = put_repeat(
        alloc,
        style,
        definition.repeated(),
        object,
        &fields,
        &mut bytes,
    )?;
    let needed = last_of(end_of_all(false, &fields, &own), sets.end).ok_or(Refusal::Size)?;
    let last = last_of(end_of_all(true, &fields, &own), sets.end).ok_or(Refusal::Size)?;
    if needed > most_data(kind) {
        return Err(EncodeError::Refused(Refusal::Size));
    }
    let whole = whole_end(short_end(&fields, &own), kind, last);
    Ok(Draft {
        bytes,
        needed,
        whole,
        agree: sets.agree,
    })
}

/// Whether the size is refused.
fn is_size(refusal: Refusal<'_>) -> bool
    ensures { result ≡ is_size (cause refusal.entry) }
{
    matches!(refusal, Refusal::Size)
}

/// The data by a definition. If they are too long, strings are written in their shortest encodings.
#[tactic(auto, unfolding(crate::specs::Draft::draft_for))]
pub(crate) fn draft_for<'t>(
    alloc: Global,
    nearest: bool,
    definition: &Definition<'t>,
    kind: Kind,
    object: &Value<'_>,
) -> Result<Draft, EncodeError<'t>>
    ensures { Gives (λ draft. draft) result (draft_for nearest definition.now kind (value_view object.now)) }
{
    let first = Style {
        nearest,
        shortest: false,
    };
    let shortest = Style {
        nearest,
        shortest: true,
    };
    match draft_in(alloc, first, definition, kind, object) {
        Ok(draft) => Ok(draft),
        Err(EncodeError::Refused(refusal)) if is_size(refusal) => {
            draft_in(alloc, shortest, definition, kind, object)
        }
        Err(error) => Err(error),
    }
}
