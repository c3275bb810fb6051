//! One value of a saved state: whether it is present, and its type.
ghost use Rattle.std.specs.Prelude.{◌≡◌, map};
ghost use Rattle.serde_json.specs.View.{view, members_view};
ghost use Rattle.n2k_wire.specs.Views.{Gives};
ghost use Rattle.n2k_wire.specs.Steps.{or_cause};
ghost use Rattle.n2k_join.specs.Resumed.{has_only, members_at, required, as_int, count_at, digits_of, elements_of};

use crate::fault::StateFault;
use crate::saved::object::Object;
use serde_json::{Map, Value};

/// Whether each member is one of the object.
fn has_only(members: &Map<String, Value>, object: Object) -> bool
    ensures { result ≡ has_only object (members_view members.now.entries) }
{
    members.keys().all(|name| object.has(name.as_str()))
}

/// Refuses a value that is not an object, or that has an unknown member.
pub(crate) fn members_at(object: Object, value: &Value) -> Result<(), StateFault>
    ensures { Gives (λ done. done) result (members_at object (view value.now)) }
{
    let members = value.as_object().ok_or(StateFault::Shape)?;
    if !has_only(members, object) {
        return Err(StateFault::Shape);
    }
    Ok(())
}

/// The required member of that name.
pub(crate) fn required<'a>(name: &str, value: &'a Value) -> Result<&'a Value, StateFault>
    ensures { Gives (λ found. view found.now) result (required name.now (view value.now)) }
{
    value.get(name).ok_or(StateFault::Shape)
}

/// A value as a whole number.
pub(crate) fn as_int(value: &Value) -> Result<u64, StateFault>
    ensures { Gives (λ number. number) result (or_cause StateFault.Shape (as_int (view value.now))) }
{
    value.as_u64().ok_or(StateFault::Shape)
}

/// The whole number at a name.
pub(crate) fn count_at(name: &str, value: &Value) -> Result<u64, StateFault>
    ensures { Gives (λ number. number) result (count_at name.now (view value.now)) }
{
    as_int(required(name, value)?)
}

/// The bytes that hexadecimal digits spell.
pub(crate) fn digits_of<const COUNT: usize>(value: &Value) -> Result<[u8; COUNT], StateFault>
    ensures { Gives (λ bytes. bytes) result (digits_of COUNT (view value.now)) }
{
    let text = value.as_str().ok_or(StateFault::Shape)?;
    let mut bytes = [0; COUNT];
    match hex::decode_to_slice(text, &mut bytes) {
        Ok(()) => Ok(bytes),
        Err(_) => Err(StateFault::Shape),
    }
}

/// The elements of an array.
pub(crate) fn elements_of(value: &Value) -> Result<&Vec<Value>, StateFault>
    ensures { Gives (λ values. map view values.now.items) result (elements_of (view value.now)) }
{
    value.as_array().ok_or(StateFault::Shape)
}
