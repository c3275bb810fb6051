//! The codes of fields for a line, and the order in which they are written.
ghost use Rattle.std.specs.Prelude.{◌≡◌, option_map, IfOk};
ghost use Rattle.json.specs.Value.{value_view};
ghost use Rattle.n2k_encode.specs.Coded.{coded, coded_absent, coded_all, is_given, is_reserved};
ghost use Rattle.n2k_wire.specs.Steps.{or_cause};
ghost use Rattle.n2k_encode.specs.Refusal.{value};
ghost use Rattle.n2k_encode.specs.Steps.{Gives};

use crate::given::given;
use crate::refusal::{EncodeError, Refusal};
use crate::value::{Code, Style, code_of, not_available};
use json::Value;
use n2k_table::Field;
use std::alloc::{AllocError, Global};
use std::marker::Model;

/// The order in which fields are written: "not available" first, then `match` values, then given values.
#[derive(Clone, Copy)]
pub(crate) enum Layer {
    Reserved,
    Asked,
    Given,
}

/// A field with its code and its layer.
#[derive(Drop)]
pub(crate) struct Coded<'t> {
    pub(crate) field: &'t Field,
    pub(crate) layer: Layer,
    pub(crate) code: Code,
}

impl<'t> Model for Coded<'t> {
    ghost use Rattle.n2k_encode.specs.Coded.{CodedParts};
    ghost use Rattle.n2k_encode.specs.Views.{code_parts};

    ghost Value = { CodedParts };

    ghost view = { λ c. record { field = c.field.now; layer = c.layer; code = code_parts c.code } };
}

impl<'t> Coded<'t> {
    /// Whether the line gives the field.
    pub(crate) fn is_given(&self) -> bool
        ensures { result ≡ is_given self.now.layer }
    {
        matches!(self.layer, Layer::Given)
    }

    /// Whether the field is "not available".
    pub(crate) fn is_reserved(&self) -> bool
        ensures { result ≡ is_reserved self.now.layer }
    {
        matches!(self.layer, Layer::Reserved)
    }
}

/// The code of a field that the line does not give: its `match` value, or "not available".
fn code_absent<'t>(alloc: Global, field: &'t Field) -> Result<Coded<'t>, AllocError>
    ensures { IfOk result (λ c. c ≡ coded_absent field.now field.now.match_value) }
{
    match field.match_value() {
        Some(asked) => Ok(Coded {
            field,
            layer: Layer::Asked,
            code: Code::Bits(asked),
        }),
        None => Ok(Coded {
            field,
            layer: Layer::Reserved,
            code: not_available(alloc, field)?,
        }),
    }
}

/// The code of a field for the value that the line gives, or the refusal of a value that the field cannot show.
fn code_field<'t>(
    alloc: Global,
    style: Style,
    field: &'t Field,
    given: Option<&Value<'_>>,
) -> Result<Coded<'t>, EncodeError<'t>>
    ensures { Gives (λ c. c) result
        (or_cause (value field.now.name) (coded style field.now (option_map (λ v. value_view v.now) given.entry))) }
{
    let Some(value) = given else {
        return Ok(code_absent(alloc, field)?);
    };
    match code_of(alloc, style, field, value)? {
        Some(code) => Ok(Coded {
            field,
            layer: Layer::Given,
            code,
        }),
        None => Err(EncodeError::Refused(Refusal::Value(field.name()))),
    }
}

/// The codes of all fields, or the refusal of the first value that its field cannot show.
#[tactic(auto, using(crate::proofs::Befores::before_rules))]
pub(crate) fn coded_fields<'t>(
    alloc: Global,
    style: Style,
    fields: &'t [Field],
    object: &Value<'_>,
) -> Result<Vec<Coded<'t>>, EncodeError<'t>>
    ensures { Gives (λ all. all.items) result (coded_all style (value_view object.now) fields.now) }
{
    let mut all = Vec::with_capacity(alloc, fields.len())?;
    for field in fields {
        let coded = code_field(alloc, style, field, given(object, field.name()))?;
        if all.push(coded).is_err() {
            return Err(EncodeError::Memory);
        }
    }
    Ok(all)
}
