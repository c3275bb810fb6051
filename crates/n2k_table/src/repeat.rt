//! What repeats in a message, and what its sets show.
ghost use Rattle.std.specs.Prelude.{◌≡◌, [], ◌∷◌, option_map, unwrap_or};
ghost use Rattle.std.specs.List.{list_any};
ghost use Rattle.toml.specs.View.{view};
ghost use Rattle.n2k_table.specs.Reading.{ReaderGives};
ghost use Rattle.n2k_table.specs.Field.{is_string};
ghost use Rattle.n2k_table.specs.Repeat.{strings_size, sets_in, from_first, all_sets, least_set_bits, repeat};
ghost use Rattle.n2k_table.specs.Inner.Kept.{left_beside};

use crate::fault::TableFault;
use crate::field::Field;
use crate::field_reader::{bit_count, check_end, first_bit, steps_of_sets};
use crate::fields_reader::read_fields;
use crate::lookup::Lookups;
use crate::shown::Fields;
use crate::string_place::{Step, data_after};
use crate::tree::{Holder, MESSAGE_BITS, Section, TableFormat, as_members, check_keys};
use std::alloc::Global;
use std::marker::Model;
use toml::Value;

/// A set of fields that repeats, from a byte of the data on.
#[derive(Drop)]
pub struct Repeat {
    /// The first byte of the first set.
    first: u32,
    /// The bytes of a set beside those of its strings.
    size: u32,
    /// The strings of the message before the sets, from the first on. The first byte counts from the end of the
    /// last.
    after: Vec<Step>,
    fields: Vec<Field>,
    /// Whether a field of a set is a string.
    has_strings: bool,
}

impl Model for Repeat {
    ghost use Rattle.std.specs.Prelude.{◌*◌, ◌≡◌, ◌||◌, true, nat_le};
    ghost use Rattle.std.specs.List.{list_any};
    ghost use Rattle.n2k_table.specs.Field.{is_string};
    ghost use Rattle.n2k_table.specs.Repeat.{RepeatParts};

    ghost Value = { RepeatParts };

    ghost view = { λ r. record {
      at = 8 * r.first;
      bits = 8 * r.size;
      after = r.after.items;
      fields = r.fields.items;
    } };

    ghost invariant = { λ r. (r.has_strings ≡ list_any (λ f. is_string f.meaning) r.fields.items)
        × ((nat_le 1 r.size || r.has_strings) ≡ true) };
}

/// How many of so many bytes are left beside the strings of a set that begins with the first of these; none if one of
/// them is not proper, or there are not as many.
fn left_beside_strings(fields: &[Field], set: &[u8], room: usize) -> Option<usize>
    ensures { result ≡ left_beside room (strings_size fields.now set.now) }
{
    let mut left = room;
    for field in fields {
        left = left.checked_sub(field.own_bytes(set)?)?;
    }
    Some(left)
}

impl Repeat {
    /// The fields of a set in printing order. It takes no memory.
    ///
    /// ```rust
    /// let table = pairs_table(alloc)?;
    /// let definition = table.choose(130822, &[]).ok_or("Pairs")?;
    /// let repeat = definition.repeated().ok_or("sets")?;
    /// assert_eq!(rt; repeat.fields().len(), 2);
    /// ```
    pub fn fields(&self) -> &[Field]
        ensures { result.now ≡ self.now.fields }
    {
        self.fields.as_slice()
    }

    /// The data from the first set on: none if a string before it has no end. It takes no memory.
    ///
    /// ```rust
    /// let sets = repeat.from_first(&[1, 10, 100, 0, 11]);
    /// assert_eq!(rt; sets, [10, 100, 0, 11].as_slice());
    /// ```
    pub fn from_first<'a>(&self, data: &'a [u8]) -> &'a [u8]
        ensures { result.now ≡ from_first self.now «data».now }
    {
        let rest = data_after(&self.after, data).unwrap_or(&[]);
        rest.get(self.first as usize..).unwrap_or(&[])
    }

    /// How many of so many bytes are left beside the strings of a set that begins with the first of these.
    fn left_beside_strings(&self, set: &[u8], room: usize) -> Option<usize>
        ensures { result ≡ left_beside room (strings_size self.now.fields set.now) }
    {
        if self.has_strings {
            left_beside_strings(&self.fields, set, room)
        } else {
            Some(room)
        }
    }

    /// The set that begins with the first of these bytes, if it lies wholly in them, and the bytes after it. It takes no
    /// memory.
    ///
    /// ```rust
    /// let (first, rest) = repeat.split_set(sets).ok_or("a set")?;
    /// assert_eq!(rt; (first, rest), ([10, 100, 0].as_slice(), [11].as_slice()));
    /// assert!(rt; repeat.split_set(rest).is_none());
    /// ```
    pub fn split_set<'a>(&self, bytes: &'a [u8]) -> Option<(&'a [u8], &'a [u8])>
        ensures { unwrap_or (option_map (λ parts. parts.0.now ∷ sets_in self.now parts.1.now) result) []
            ≡ sets_in self.now bytes.now }
    {
        let room = bytes.len().checked_sub(self.size as usize)?;
        let left = self.left_beside_strings(bytes, room)?;
        Some(bytes.split_at(bytes.len() - left))
    }
}

/// What the sets of a message show: the `Fields` of each, in their order, and then `None` for good. They end before the
/// first that does not lie wholly in the data, its strings with it. It borrows the table and the data, and takes no memory.
#[derive(Drop)]
pub struct Sets<'a> {
    repeat: &'a Repeat,
    /// The data from the next set on.
    rest: &'a [u8],
}

impl<'a> Model for Sets<'a> {
    ghost use Rattle.std.specs.Prelude.{List, ℕ, map};
    ghost use Rattle.n2k_table.specs.Repeat.{sets_in};
    ghost use Rattle.n2k_table.specs.Shown.{ShownParts, all_shown};

    ghost Value = { List (List (List ℕ × ShownParts)) };

    ghost view = { λ s. map (all_shown s.repeat.now.fields) (sets_in s.repeat.now s.rest.now) };
}

impl<'a> Sets<'a> {
    /// What the sets in the data show.
    pub(crate) fn new(repeat: &'a Repeat, data: &'a [u8]) -> Sets<'a>
        ensures { result ≡ all_sets repeat.now «data».now }
    {
        Sets {
            repeat,
            rest: repeat.from_first(data),
        }
    }
}

impl<'a> Iterator for Sets<'a> {
    ghost use Rattle.std.specs.Iterator.{YieldsFirstBy, item_count};

    type Item = Fields<'a>;

    ghost next_gives = { YieldsFirstBy (λ fields. fields) (λ sets. sets) };

    ghost remaining = { item_count (λ sets. sets) };

    fn next(&mut self) -> Option<Fields<'a>> {
        let (set, rest) = self.repeat.split_set(self.rest)?;
        self.rest = rest;
        Some(Fields::new(self.repeat.fields(), set))
    }
}

/// The least bits of a set beside its strings: in format 3 it may have strings alone.
fn least_set_bits(format: TableFormat) -> u32
    ensures { result ≡ least_set_bits format }
{
    if format.is_extended() { 0 } else { 1 }
}

/// Whether a field is a string.
fn any_is_string(fields: &[Field]) -> bool
    ensures { result ≡ list_any (λ f. is_string f.meaning) fields.now }
{
    fields.iter().any(|field| field.is_string())
}

/// Reads the sets that follow these fields of a message, in a table of this format and of these lookups.
#[tactic(auto, unfolding(crate::specs::Repeat::repeat))]
pub(crate) fn read_repeat(
    alloc: Global,
    lookups: &Lookups,
    format: TableFormat,
    own: &[Field],
    value: &Value,
) -> Result<Repeat, TableFault>
    ensures { ReaderGives (λ r. r) result (repeat format lookups.now own.now (view value.now)) }
{
    let table = as_members(value)?;
    check_keys(table, Section::Repeat(format))?;
    let at = first_bit(table, 8)?;
    let bits = bit_count(table, 8, least_set_bits(format), MESSAGE_BITS)?;
    let after = steps_of_sets(alloc, own, table)?;
    check_end(&after, at, bits, MESSAGE_BITS)?;
    let fields = read_fields(alloc, lookups, format, Holder::Set(bits), table)?;
    let has_strings = any_is_string(&fields);
    if bits == 0 && !has_strings {
        return Err(TableFault::Range);
    }
    Ok(Repeat {
        first: at / 8,
        size: bits / 8,
        after,
        fields,
        has_strings,
    })
}
