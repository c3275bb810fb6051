//! A definition, as a table spells it.
ghost use Rattle.std.specs.Prelude.{◌≡◌, codes, IfOk, is_some};
ghost use Rattle.std.specs.List.{list_any};
ghost use Rattle.toml.specs.Data.{get_member};
ghost use Rattle.toml.specs.View.{view, table_view};
ghost use Rattle.n2k_wire.specs.Views.{Gives};
ghost use Rattle.n2k_table.specs.Reading.{ReaderGives};
ghost use Rattle.n2k_table.specs.Inner.Line.{label_json};
ghost use Rattle.n2k_table.specs.Definition.{named_kind, kind_of, repeat_if_there, definition};

use crate::definition::{Kind, StoredDefinition};
use crate::fault::TableFault;
use crate::field::Field;
use crate::fields_reader::{is_named, read_fields};
use crate::lookup::Lookups;
use crate::repeat::{Repeat, read_repeat};
use crate::text::push_json;
use crate::tree::{
    Holder, Section, TableFormat, any_text_at, as_members, check_keys, get, int_at, text_at,
};
use itoa::Buffer;
use n2k_wire::GREATEST_PGN;
use std::alloc::{AllocError, Global};
use toml::{Table, Value};

/// The name of the member that holds the sets of a message.
const LIST: &str = "list";

/// The bytes that a label has around a plain description if its PGN has six digits.
const AROUND: usize = 41;

/// Whether a field asks for a value.
fn any_has_match(fields: &[Field]) -> bool
    ensures { result ≡ list_any (λ f. is_some f.match_value) fields.now }
{
    fields.iter().any(|field| field.has_match())
}

fn named_kind(text: &str) -> Result<Kind, TableFault>
    ensures { Gives (λ kind. kind) result (named_kind text.now) }
{
    match text {
        "single" => Ok(Kind::Single),
        "fast" => Ok(Kind::Fast),
        _ => Err(TableFault::Text),
    }
}

fn kind_of(table: &Table) -> Result<Kind, TableFault>
    ensures { Gives (λ kind. kind) result (kind_of (table_view table.now)) }
{
    named_kind(any_text_at(table, "kind")?)
}

/// What the definition of a PGN puts into a line before the members.
#[tactic(auto, using(std::proofs::Common::append_assoc), unfolding(crate::specs::Inner::Line::label_json))]
fn label_of(alloc: Global, pgn: u32, description: &str) -> Result<Vec<u8>, AllocError>
    ensures { IfOk result (λ label. label.items ≡ label_json pgn description.now) }
{
    let mut buffer = Buffer::new();
    let mut label = Vec::with_capacity(alloc, description.len().saturating_add(AROUND))?;
    label.extend_from_slice(b",\"pgn\":")?;
    label.extend_from_slice(buffer.format(pgn).as_bytes())?;
    label.extend_from_slice(b",\"description\":")?;
    push_json(alloc, description, &mut label)?;
    label.extend_from_slice(b",\"fields\":{")?;
    Ok(label)
}

/// Reads the sets that follow these fields, if there are sets.
fn repeat_if_there(
    alloc: Global,
    lookups: &Lookups,
    format: TableFormat,
    own: &[Field],
    table: &Table,
) -> Result<Option<Repeat>, TableFault>
    ensures { ReaderGives (λ r. r) result
        (repeat_if_there format lookups.now own.now (get_member (codes "repeat") (table_view table.now))) }
{
    let Some(value) = get(table, "repeat") else {
        return Ok(None);
    };
    let repeat = read_repeat(alloc, lookups, format, own, value)?;
    if is_named(own, LIST) {
        return Err(TableFault::Twice);
    }
    Ok(Some(repeat))
}

/// Reads a definition, in a table of this format and of these lookups.
#[tactic(auto, unfolding(crate::specs::Definition::definition))]
pub(crate) fn read_definition(
    alloc: Global,
    lookups: &Lookups,
    format: TableFormat,
    value: &Value,
) -> Result<StoredDefinition, TableFault>
    ensures { ReaderGives (λ stored. stored) result (definition format lookups.now (view value.now)) }
{
    let table = as_members(value)?;
    check_keys(table, Section::Definition(format))?;
    let pgn = int_at(table, "number", 0, GREATEST_PGN)?;
    let kind = kind_of(table)?;
    let description = text_at(table, "description")?;
    let fields = read_fields(alloc, lookups, format, Holder::Message, table)?;
    let repeat = repeat_if_there(alloc, lookups, format, &fields, table)?;
    Ok(StoredDefinition {
        pgn,
        kind,
        description: String::from_str(alloc, description)?,
        label: label_of(alloc, pgn, description)?,
        has_match: any_has_match(&fields),
        fields,
        repeat,
    })
}
