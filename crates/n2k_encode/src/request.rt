//! The requested message: timestamp, identifier, description and fields.
ghost use Rattle.std.specs.Prelude.{◌≡◌, ◌≤◌, true, option_map, is_ok, IfErr, IfOk, IfSome};
ghost use Rattle.json.specs.Value.{value_view, members_view};
ghost use Rattle.n2k_wire.specs.Packet.{is_stamp};
ghost use Rattle.n2k_encode.specs.Refusal.{cause};
ghost use Rattle.n2k_encode.specs.Request.{fields_of, has_known, id_of, is_member, is_object, members_known, no_request, number_or, optional_text};
ghost use Rattle.n2k_encode.specs.Request.{request, stamp_of, whole_number, whole_to};
ghost use Rattle.n2k_encode.specs.Steps.{Yields};
ghost use Rattle.n2k_encode.specs.Views.{request_parts};

use crate::numeral::{is_negative, multiples, scaled};
use crate::refusal::Refusal;
use json::Value;
use n2k_wire::{Id, Packet};

/// The greatest PGN of the bus.
const GREATEST_PGN: u128 = 131_071;

/// The greatest priority.
const GREATEST_PRIORITY: u128 = 7;

/// The greatest address, which means all.
const GREATEST_ADDRESS: u128 = 255;

/// The requested message.
#[derive(Clone, Copy)]
pub(crate) struct Request<'v, 'a> {
    pub(crate) stamp: &'a str,
    pub(crate) id: Id,
    /// The description of the definition, if the line gives one.
    pub(crate) description: Option<&'a str>,
    /// The object `fields`.
    pub(crate) fields: &'v Value<'a>,
}

/// Whether a line may have a member of this name.
fn is_member(name: &str) -> bool
    ensures { result ≡ is_member name.now }
{
    name == "pgn"
        || name == "fields"
        || name == "timestamp"
        || name == "prio"
        || name == "src"
        || name == "dst"
        || name == "description"
}

/// Whether a line may have each of these members.
fn has_known(members: &[(&str, Value<'_>)]) -> bool
    ensures { result ≡ has_known (members_view members.now) }
{
    for member in members {
        if !is_member(member.0) {
            return false;
        }
    }
    true
}

/// Refuses a value that is not an object, and an object with an unknown member.
fn check_members<'a>(object: &Value<'a>) -> Result<(), Refusal<'a>>
    ensures known { is_ok result ≡ members_known (value_view object.now) }
    ensures object { IfOk result (λ _. is_object (value_view object.now) ≡ true) }
    ensures refused { IfErr result (λ refusal. cause refusal ≡ no_request (value_view object.now)) }
{
    match object {
        Value::Object(members) if has_known(members) => Ok(()),
        Value::Object(_) => Err(Refusal::Member),
        _ => Err(Refusal::Json),
    }
}

/// The value of a JSON number, if it is a whole number and not negative.
#[tactic(auto, unfolding(crate::specs::Request::whole_number))]
pub(crate) fn whole_number(text: &[u8]) -> Option<u128>
    ensures { result ≡ whole_number text.now }
{
    let number = multiples(false, 0, 1, scaled(text, 1)?)?;
    if is_negative(text) && number > 0 {
        return None;
    }
    Some(number)
}

/// The value of a JSON value, if it is a whole number from 0 to `limit`.
#[tactic(auto, unfolding(crate::specs::Request::whole_to))]
fn whole_to(limit: u128, value: &Value<'_>) -> Option<u128>
    ensures value { result ≡ whole_to limit (value_view value.now) }
    ensures bound { IfSome result (λ n. n ≤ limit) }
{
    let number = whole_number(value.as_number()?.as_bytes())?;
    if number > limit { None } else { Some(number) }
}

/// The number of a member, or `other` if the member is missing.
fn number_or(other: u128, limit: u128, member: Option<&Value<'_>>) -> Option<u128>
    requires { other ≤ limit }
    ensures value { result ≡ number_or other limit (option_map (λ v. value_view v.now) member.entry) }
    ensures bound { IfSome result (λ n. n ≤ limit) }
{
    match member {
        None => Some(other),
        Some(value) => whole_to(limit, value),
    }
}

/// The requested identifier.
#[tactic(auto, unfolding(crate::specs::Request::id_of))]
fn id_of(object: &Value<'_>) -> Option<Id>
    ensures value { result ≡ id_of (value_view object.now) }
    ensures prio { IfSome result (λ id. id.prio ≤ 7) }
    ensures pgn { IfSome result (λ id. id.pgn ≤ 131071) }
{
    let pgn = whole_to(GREATEST_PGN, object.get("pgn")?)? as u32;
    let prio = number_or(6, GREATEST_PRIORITY, object.get("prio"))? as u8;
    let src = number_or(0, GREATEST_ADDRESS, object.get("src"))? as u8;
    let dst = number_or(255, GREATEST_ADDRESS, object.get("dst"))? as u8;
    Some(Id {
        prio,
        pgn,
        src,
        dst,
    })
}

/// The text of a member, if the line has the member. `None` if its value is not a text.
fn optional_text<'a>(member: Option<&Value<'a>>) -> Option<Option<&'a str>>
    ensures { option_map (λ text. option_map (λ t. t.now) text) result
        ≡ optional_text (option_map (λ v. value_view v.now) member.entry) }
{
    match member {
        None => Some(None),
        Some(value) => Some(Some(value.as_str()?)),
    }
}

/// Whether a packet can have this text as its timestamp.
fn is_stamp(text: &[u8], id: Id) -> bool
    requires prio { id.prio ≤ 7 }
    requires pgn { id.pgn ≤ 131071 }
    ensures { result ≡ is_stamp text.now }
{
    Packet::new(text, id, &[]).is_some()
}

/// The requested timestamp, or the default.
#[tactic(auto, unfolding(crate::specs::Request::stamp_of))]
fn stamp_of<'a>(object: &Value<'a>, id: Id) -> Option<&'a str>
    requires prio { id.prio ≤ 7 }
    requires pgn { id.pgn ≤ 131071 }
    ensures value { option_map (λ text. text.now) result ≡ stamp_of (value_view object.now) }
    ensures stamp { IfSome result (λ text. is_stamp text.now ≡ true) }
{
    let stamp = optional_text(object.get("timestamp"))?.unwrap_or("1970-01-01T00:00:00.000Z");
    if is_stamp(stamp.as_bytes(), id) {
        Some(stamp)
    } else {
        None
    }
}

/// Whether a value is an object.
fn is_object(value: &Value<'_>) -> bool
    ensures { result ≡ is_object (value_view value.now) }
{
    matches!(value, Value::Object(_))
}

/// The object `fields` of a line.
#[tactic(auto, unfolding(crate::specs::Request::fields_of))]
fn fields_of<'v, 'a>(object: &'v Value<'a>) -> Option<&'v Value<'a>>
    ensures { option_map (λ v. value_view v.now) result ≡ fields_of (value_view object.now) }
{
    let fields = object.get("fields")?;
    if is_object(fields) {
        Some(fields)
    } else {
        None
    }
}

/// The message that the object of a line requests.
#[tactic(auto, unfolding(crate::specs::Request::request))]
pub(crate) fn request_of<'v, 'a>(object: &'v Value<'a>) -> Result<Request<'v, 'a>, Refusal<'a>>
    ensures asked { Yields request_parts result (request (value_view object.now)) }
    ensures refused { IfErr result (λ refusal. cause refusal ≡ no_request (value_view object.now)) }
    ensures stamp { IfOk result (λ request. is_stamp request.stamp.now ≡ true) }
    ensures prio { IfOk result (λ request. request.id.prio ≤ 7) }
    ensures pgn { IfOk result (λ request. request.id.pgn ≤ 131071) }
{
    check_members(object)?;
    let fields = fields_of(object).ok_or(Refusal::Member)?;
    let id = id_of(object).ok_or(Refusal::Member)?;
    let stamp = stamp_of(object, id).ok_or(Refusal::Member)?;
    let description = optional_text(object.get("description")).ok_or(Refusal::Member)?;
    Ok(Request {
        stamp,
        id,
        description,
        fields,
    })
}
