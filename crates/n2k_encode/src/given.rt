//! The fields that a line gives.
ghost use Rattle.std.specs.Prelude.{◌≡◌, [], option_map};
ghost use Rattle.std.specs.Str.{bytes_eq};
ghost use Rattle.std.specs.List.{list_any};
ghost use Rattle.json.specs.Value.{value_view, items_view, members_view};
ghost use Rattle.n2k_table.specs.Fields.{has_name};
ghost use Rattle.json.specs.Find.{as_object};
ghost use Rattle.n2k_encode.specs.Given.{are_objects, given, given_sets, is_name, first_in_sets, first_unknown, members_in, wrong_in_sets, wrong_names};
ghost use Rattle.n2k_encode.specs.Steps.{refusal_in};

use crate::refusal::Refusal;
use json::Value;
use n2k_table::{Definition, Field};

/// The value that a line gives for a field. `null` counts as not given.
pub(crate) fn given<'v, 'a>(fields: &'v Value<'a>, name: &str) -> Option<&'v Value<'a>>
    ensures { option_map (λ v. value_view v.now) result ≡ given name.now (value_view fields.now) }
{
    let value = fields.get(name)?;
    if value.is_null() { None } else { Some(value) }
}

/// Whether a field has this name.
fn has_name(fields: &[Field], name: &str) -> bool
    ensures { result ≡ list_any (has_name name.now) fields.now }
{
    fields.iter().any(|field| name == field.name())
}

/// Whether a name is a field's, or, if the definition has sets, `list`.
fn is_name(fields: &[Field], has_list: bool, name: &str) -> bool
    ensures { result ≡ is_name fields.now has_list name.now }
{
    has_name(fields, name) || has_list && name == "list"
}

/// The members of an object; none if the value is not an object.
fn members<'v, 'a>(object: &'v Value<'a>) -> &'v [(&'a str, Value<'a>)]
    ensures { members_view result.now ≡ members_in (as_object (value_view object.now)) }
{
    match object {
        Value::Object(members) => members.as_slice(),
        _ => &[],
    }
}

/// The name of the first given member that is not the name of a field.
fn unknown_name<'a>(fields: &[Field], has_list: bool, object: &Value<'a>) -> Option<&'a str>
    ensures { option_map (λ name. name.now) result
        ≡ first_unknown (is_name fields.now has_list) (value_view object.now) }
{
    for member in members(object) {
        if !member.1.is_null() && !is_name(fields, has_list, member.0) {
            return Some(member.0);
        }
    }
    None
}

/// The name of the first given member that differs from `name`.
pub(crate) fn unknown_beside<'a>(name: &str, object: &Value<'a>) -> Option<&'a str>
    ensures { option_map (λ name. name.now) result
        ≡ first_unknown (λ k. bytes_eq k name.now) (value_view object.now) }
{
    for member in members(object) {
        if !member.1.is_null() && member.0 != name {
            return Some(member.0);
        }
    }
    None
}

/// The name of the first given member of a set that is not the name of a field of the set.
fn unknown_in_sets<'a>(fields: &[Field], sets: &[Value<'a>]) -> Option<&'a str>
    ensures { option_map (λ name. name.now) result ≡ first_in_sets fields.now (items_view sets.now) }
{
    for set in sets {
        if let Some(name) = unknown_name(fields, false, set) {
            return Some(name);
        }
    }
    None
}

/// No sets.
fn no_sets<'v, 'a>() -> &'v [Value<'a>]
    ensures { result.now ≡ [] }
{
    &[]
}

/// The sets that a line gives: none if `list` is missing, `None` if `list` is not an array.
pub(crate) fn given_sets<'v, 'a>(object: &'v Value<'a>) -> Option<&'v [Value<'a>]>
    ensures { option_map (λ sets. items_view sets.now) result ≡ given_sets (value_view object.now) }
{
    let Some(list) = given(object, "list") else {
        return Some(no_sets());
    };
    match list {
        Value::Array(sets) => Some(sets.as_slice()),
        _ => None,
    }
}

/// Whether each of these values is an object.
fn are_objects(sets: &[Value<'_>]) -> bool
    ensures { result ≡ are_objects (items_view sets.now) }
{
    for set in sets {
        if !matches!(set, Value::Object(_)) {
            return false;
        }
    }
    true
}

/// Refuses a name in a set that no field of the set has; then a `list` that is not an array of objects.
fn check_sets<'a>(fields: &[Field], object: &Value<'a>) -> Result<(), Refusal<'a>>
    ensures { refusal_in result ≡ wrong_in_sets fields.now (given_sets (value_view object.now)) }
{
    let Some(sets) = given_sets(object) else {
        return Err(Refusal::Value("list"));
    };
    if let Some(name) = unknown_in_sets(fields, sets) {
        return Err(Refusal::Field(name));
    }
    if are_objects(sets) {
        Ok(())
    } else {
        Err(Refusal::Value("list"))
    }
}

/// Refuses a name that no field of the definition has.
pub(crate) fn check_names<'a>(
    definition: &Definition<'_>,
    object: &Value<'a>,
) -> Result<(), Refusal<'a>>
    ensures { refusal_in result ≡ wrong_names definition.now (value_view object.now) }
{
    let repeat = definition.repeated();
    if let Some(name) = unknown_name(definition.own_fields(), repeat.is_some(), object) {
        return Err(Refusal::Field(name));
    }
    match repeat {
        Some(repeat) => check_sets(repeat.fields(), object),
        None => Ok(()),
    }
}
