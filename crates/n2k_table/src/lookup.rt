//! Names of values.
ghost use Rattle.std.specs.Prelude.{◌≡◌, ◌&&◌, nat_eq, nat_le, option_map, Some, IfOk, IfSome, find};
ghost use Rattle.std.specs.Map.{lookup as value_at};
ghost use Rattle.std.specs.Str.{bytes_eq};
ghost use Rattle.n2k_table.specs.Inner.LineBuffer.{AddsText};

use crate::line_buffer::TextBuffer;
use crate::padded_text::PaddedText;
use crate::text::push_json;
use indexmap::IndexMap;
use std::alloc::{AllocError, Global};
use std::marker::Model;
use std::sync::Arc;

/// The name of a value.
#[derive(Drop)]
pub(crate) struct Name {
    text: String,
    /// As JSON, kept since each line that shows it needs it.
    json: PaddedText,
}

impl Model for Name {
    ghost use Rattle.std.specs.Prelude.{◌≡◌, ℕ, List, string_bytes};
    ghost use Rattle.n2k_table.specs.Text.{text_json};

    ghost Value = { List ℕ };

    ghost view = { λ n. string_bytes n.text };

    ghost invariant = { λ n. n.json ≡ text_json (string_bytes n.text) };
}

impl Name {
    ghost use Rattle.std.specs.Prelude.{◌++◌, ◌+◌, ◌≤◌, OnOk};
    ghost use Rattle.n2k_table.specs.Text.{text_json};

    /// A name of that text. Its JSON is put together in a room that serves many.
    pub(crate) fn new(alloc: Global, text: &str, room: &mut Vec<u8>) -> Result<Name, AllocError>
        ensures { IfOk result (λ name. name ≡ text.now) }
    {
        room.clear();
        push_json(alloc, text, room)?;
        Ok(Name {
            text: String::from_str(alloc, text)?,
            json: PaddedText::new(alloc, room.as_slice())?,
        })
    }

    /// The text.
    pub(crate) fn text(&self) -> &str
        ensures { result.now ≡ self.now }
    {
        self.text.as_str()
    }

    /// Appends the text as JSON. There is room for 32 bytes.
    #[inline(always)]
    pub(crate) fn push_json<const SIZE: usize>(
        &self,
        line: &mut TextBuffer<SIZE>,
    ) -> Result<(), AllocError>
        requires { line.old.held + 32 ≤ SIZE }
        ensures { AddsText result line.old.items line.new.items (text_json self.now) }
    {
        self.json.push_from(0, 0, line)
    }
}

/// The names of some values, found by the value.
#[derive(Drop)]
pub struct Lookup {
    pub(crate) name: String,
    /// In file order.
    pub(crate) names: IndexMap<u64, Name>,
    /// No greater value has a name. Most values without one are greater, and need no hash.
    pub(crate) greatest: u64,
}

impl Model for Lookup {
    ghost use Rattle.std.specs.Prelude.{map, string_bytes};
    ghost use Rattle.n2k_table.specs.Lookup.{LookupParts};
    ghost use Rattle.n2k_table.specs.Inner.Entries.{HasNoneAbove};

    ghost Value = { LookupParts };

    ghost view = { λ l. record {
      name = string_bytes l.name;
      entries = map (λ e. (e.0, e.1)) l.names.entries;
    } };

    ghost invariant = { λ l. HasNoneAbove l.names.entries l.greatest };
}

/// The lookups of a table, in file order, each by its name. It is shared by the fields that name it.
#[derive(Drop)]
pub(crate) struct Lookups {
    pub(crate) by_name: IndexMap<String, Arc<Lookup>>,
}

impl Model for Lookups {
    ghost use Rattle.std.specs.Prelude.{List, map};
    ghost use Rattle.n2k_table.specs.Lookup.{LookupParts};
    ghost use Rattle.n2k_table.specs.Inner.Entries.{AreNamed};

    ghost Value = { List LookupParts };

    ghost view = { λ l. map (λ e. e.1.value) l.by_name.entries };

    ghost invariant = { λ l. AreNamed (λ lookup. lookup.value) l.by_name.entries };
}

impl Lookup {
    ghost use Rattle.n2k_table.specs.Lookup.{name_of_value};

    /// The name of the lookup.
    pub(crate) fn name(&self) -> &str
        ensures { result.now ≡ self.now.name }
    {
        self.name.as_str()
    }

    /// The name of a value, if it has one.
    pub(crate) fn name_of(&self, value: u64) -> Option<&Name>
        ensures { option_map (λ name. name.now) result ≡ name_of_value self.now.entries value }
    {
        match self.names.get_index(value as usize) {
            Some((found, name)) if *found == value => Some(name),
            _ if value > self.greatest => None,
            _ => name_by_hash(&self.names, value),
        }
    }

    /// The name of a value as text, if it has one. It takes no memory.
    ///
    /// ```rust
    /// let table = sample_table(alloc)?;
    /// let definition = table.choose(129026, &[]).ok_or("COG & SOG")?;
    /// let [_, reference, ..] = definition.own_fields() else {
    ///     return Err("four fields".into());
    /// };
    /// let Coding::Lookup(names) = reference.coding() else {
    ///     return Err("a lookup".into());
    /// };
    /// assert_eq!(rt; names.text_of(1), Some("Magnetic"));
    /// assert_eq!(rt; names.text_of(3), None);
    /// ```
    pub fn text_of(&self, value: u64) -> Option<&str>
        ensures { option_map (λ text. text.now) result ≡ name_of_value self.now.entries value }
    {
        Some(self.name_of(value)?.text())
    }

    /// The first value in file order that has this name and is at most `most`. It takes no memory.
    ///
    /// ```rust
    /// assert_eq!(rt; names.value_of("Error", 3), Some(2));
    /// assert_eq!(rt; names.value_of("Error", 1), None);
    /// assert_eq!(rt; names.value_of("Grid", 3), None);
    /// ```
    pub fn value_of(&self, name: &str, most: u64) -> Option<u64>
        ensures first { result ≡ option_map (λ e. e.0) (find (λ e. nat_le e.0 most && bytes_eq e.1 name.now) self.now.entries) }
        ensures named { IfSome result (λ value. name_of_value self.now.entries value ≡ Some name.now) }
    {
        for place in 0..self.names.len() {
            let (value, known) = self.names.get_index(place)?;
            if *value <= most && known.text() == name {
                return Some(*value);
            }
        }
        None
    }
}

/// The name of a value, found by its hash. It is not inlined: most lookups name the values from 0 on in their order,
/// and then a name is at the place of its value.
#[inline(never)]
fn name_by_hash(names: &IndexMap<u64, Name>, value: u64) -> Option<&Name>
    ensures { option_map (λ name. name.now) result ≡ value_at (nat_eq value) names.now.entries }
{
    names.get(&value)
}

impl Lookups {
    /// The lookup of that name, if there is one.
    pub(crate) fn find(&self, name: &str) -> Option<&Arc<Lookup>>
        ensures { option_map (λ lookup. lookup.now.value) result
            ≡ find (λ lookup. bytes_eq name.now lookup.name) self.now }
    {
        self.by_name.get(name)
    }
}
