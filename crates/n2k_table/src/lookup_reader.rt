//! Lookups, as a table spells them.
ghost use Rattle.std.specs.Prelude.{◌≡◌, map, IfOk};
ghost use Rattle.toml.specs.View.{view, table_view};
ghost use Rattle.n2k_wire.specs.Views.{Gives};
ghost use Rattle.n2k_table.specs.Inner.Entries.{map_entries, apart, HasNoneAbove};
ghost use Rattle.n2k_table.specs.Reading.{each, ReaderGives};
ghost use Rattle.n2k_table.specs.Lookup.{pair_in, entry, once, entries, lookup, lookups};

use crate::fault::TableFault;
use crate::lookup::{Lookup, Lookups, Name};
use crate::text::NAME_ROOM;
use crate::tree::{
    Section, as_elements, as_members, check_keys, checked_text, elements_at, elements_or_none,
    text_at,
};
use indexmap::IndexMap;
use std::alloc::Global;
use std::marker::Model;
use std::sync::Arc;
use toml::{Table, Value};

/// The most lookups of a table.
pub(crate) const MOST_LOOKUPS: usize = 1024;

/// The most entries of a lookup.
pub(crate) const MOST_ENTRIES: usize = 4096;

/// A value with its name.
#[derive(Drop)]
pub(crate) struct NamedValue {
    value: u64,
    name: Name,
}

impl Model for NamedValue {
    ghost use Rattle.std.specs.Prelude.{ℕ, List};

    ghost Value = { ℕ × List ℕ };

    ghost view = { λ e. (e.value, e.name) };
}

/// The integer and the text of an entry.
fn pair_in(values: &[Value]) -> Result<(i64, &str), TableFault>
    ensures { Gives (λ pair. (pair.0, pair.1.now)) result (pair_in (map view values.now)) }
{
    match values {
        [value, name] => {
            let number = value.as_integer().ok_or(TableFault::Key)?;
            let text = name.as_str().ok_or(TableFault::Key)?;
            Ok((number, text))
        }
        _ => Err(TableFault::Key),
    }
}

/// Reads a value with its name, whose JSON is put together in the room.
#[tactic(auto, unfolding(crate::specs::Lookup::entry))]
fn read_entry(alloc: Global, value: &Value, room: &mut Vec<u8>) -> Result<NamedValue, TableFault>
    ensures { ReaderGives (λ entry. entry) result (entry (view value.now)) }
{
    let (number, text) = pair_in(as_elements(value)?)?;
    let Ok(value) = u32::try_from(number) else {
        return Err(TableFault::Range);
    };
    let name = checked_text(text)?;
    Ok(NamedValue {
        value: u64::from(value),
        name: Name::new(alloc, name, room)?,
    })
}

/// Each of these values as an entry.
fn each_entry(alloc: Global, values: &[Value]) -> Result<Vec<NamedValue>, TableFault>
    ensures { ReaderGives (λ entries. entries.items) result (each entry (map view values.now)) }
{
    let mut room = Vec::with_capacity(alloc, NAME_ROOM)?;
    let mut entries = Vec::with_capacity(alloc, values.len())?;
    for value in values {
        entries.push(read_entry(alloc, value, &mut room)?)?;
    }
    Ok(entries)
}

/// The entries as a map, if no value comes twice.
fn by_value(alloc: Global, entries: Vec<NamedValue>) -> Result<IndexMap<u64, Name>, TableFault>
    ensures { ReaderGives map_entries result (once entries.items) }
{
    let mut names = IndexMap::with_capacity(alloc, entries.len())?;
    for entry in entries {
        let NamedValue { value, name } = entry;
        if names.insert(value, name)?.is_some() {
            return Err(TableFault::Twice);
        }
    }
    Ok(names)
}

#[tactic(auto, unfolding(crate::specs::Lookup::entries))]
fn read_entries(alloc: Global, table: &Table) -> Result<IndexMap<u64, Name>, TableFault>
    ensures { ReaderGives map_entries result (entries (table_view table.now)) }
{
    let values = elements_at(table, "entries", MOST_ENTRIES)?;
    by_value(alloc, each_entry(alloc, values)?)
}

/// The greatest value that has a name: none above it has one.
fn greatest_of(names: &IndexMap<u64, Name>) -> u64
    ensures { HasNoneAbove names.now.entries result }
{
    let mut greatest = 0;
    for at in 0..names.len() {
        if let Some((value, _)) = names.get_index(at) {
            greatest = greatest.max(*value);
        }
    }
    greatest
}

#[tactic(auto, unfolding(crate::specs::Lookup::lookup))]
fn read_lookup(alloc: Global, value: &Value) -> Result<Lookup, TableFault>
    ensures { ReaderGives (λ lookup. lookup) result (lookup (view value.now)) }
{
    let table = as_members(value)?;
    check_keys(table, Section::Lookup)?;
    let name = text_at(table, "name")?;
    let names = read_entries(alloc, table)?;
    Ok(Lookup {
        name: String::from_str(alloc, name)?,
        greatest: greatest_of(&names),
        names,
    })
}

/// Each of these values as a lookup.
fn each_lookup(alloc: Global, values: &[Value]) -> Result<Vec<Lookup>, TableFault>
    ensures { ReaderGives (λ lookups. lookups.items) result (each lookup (map view values.now)) }
{
    let mut lookups = Vec::with_capacity(alloc, values.len())?;
    for value in values {
        lookups.push(read_lookup(alloc, value)?)?;
    }
    Ok(lookups)
}

/// The lookups by their names, if no name comes twice.
fn by_name(alloc: Global, lookups: Vec<Lookup>) -> Result<Lookups, TableFault>
    ensures { ReaderGives (λ lookups. lookups) result (apart lookups.items) }
{
    let mut by_name = IndexMap::with_capacity(alloc, lookups.len())?;
    for lookup in lookups {
        let name = String::from_str(alloc, lookup.name())?;
        if by_name.insert(name, Arc::new(alloc, lookup)?)?.is_some() {
            return Err(TableFault::Twice);
        }
    }
    Ok(Lookups { by_name })
}

/// Reads the lookups of a table.
#[tactic(auto, unfolding(crate::specs::Lookup::lookups))]
pub(crate) fn read_lookups(alloc: Global, top: &Table) -> Result<Lookups, TableFault>
    ensures { ReaderGives (λ lookups. lookups) result (lookups (table_view top.now)) }
{
    let values = elements_or_none(top, "lookup", MOST_LOOKUPS)?;
    by_name(alloc, each_lookup(alloc, values)?)
}
