//! The fields of a message or of a set, as a table spells them.
ghost use Rattle.std.specs.Prelude.{◌≡◌, ◌≤◌, [], map};
ghost use Rattle.std.specs.List.{list_any};
ghost use Rattle.toml.specs.View.{view, table_view};
ghost use Rattle.n2k_table.specs.Reading.{each_by_earlier, ReaderGives};
ghost use Rattle.n2k_table.specs.Duplicate.{has_duplicate};
ghost use Rattle.n2k_table.specs.Tree.{message_bits, end_of};
ghost use Rattle.n2k_table.specs.Field.{field};
ghost use Rattle.n2k_table.specs.Fields.{has_name, is_same_field, fields};

use crate::fault::TableFault;
use crate::field::Field;
use crate::field_reader::read_field;
use crate::lookup::Lookups;
use crate::text::NAME_ROOM;
use crate::tree::{Holder, TableFormat, elements_at};
use std::alloc::Global;
use toml::{Table, Value};

/// The most fields of a message, and of a set.
pub(crate) const MOST_FIELDS: usize = 256;

/// Whether two fields have one name.
fn has_duplicate(fields: &[Field]) -> bool
    ensures { result ≡ has_duplicate is_same_field fields.now }
{
    let mut rest = fields;
    while let Some((field, others)) = rest.split_first() {
        if is_named(others, field.name()) {
            return true;
        }
        rest = others;
    }
    false
}

/// Whether a field has the name.
pub(crate) fn is_named(fields: &[Field], name: &str) -> bool
    ensures { result ≡ list_any (has_name name.now) fields.now }
{
    fields.iter().any(|field| name == field.name())
}

/// Each of these values as a field, after the fields before it.
fn each_field(
    alloc: Global,
    lookups: &Lookups,
    format: TableFormat,
    holder: Holder,
    values: &[Value],
) -> Result<Vec<Field>, TableFault>
    requires { end_of holder ≤ message_bits }
    ensures { ReaderGives (λ fields. fields.items) result
        (each_by_earlier (field format holder lookups.now) [] (map view values.now)) }
{
    let mut room = Vec::with_capacity(alloc, NAME_ROOM)?;
    let mut fields = Vec::with_capacity(alloc, values.len())?;
    for value in values {
        let field = read_field(alloc, lookups, format, holder, &fields, value, &mut room)?;
        fields.push(field)?;
    }
    Ok(fields)
}

/// Reads the fields of a message or of a set, in a table of this format and of these lookups.
#[tactic(auto, unfolding(crate::specs::Fields::fields))]
pub(crate) fn read_fields(
    alloc: Global,
    lookups: &Lookups,
    format: TableFormat,
    holder: Holder,
    table: &Table,
) -> Result<Vec<Field>, TableFault>
    requires { end_of holder ≤ message_bits }
    ensures { ReaderGives (λ fields. fields.items) result (fields format holder lookups.now (table_view table.now)) }
{
    let values = elements_at(table, "fields", MOST_FIELDS)?;
    let fields = each_field(alloc, lookups, format, holder, values)?;
    if has_duplicate(&fields) {
        return Err(TableFault::Twice);
    }
    Ok(fields)
}
