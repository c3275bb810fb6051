//! A definition: what a table says of one message.
ghost use Rattle.std.specs.Prelude.{◌≡◌, ℕ, List, false, true, option_map};
ghost use Rattle.std.specs.List.{list_all};
ghost use Rattle.n2k_table.specs.Table.{are_mixed, field_matches};

use crate::field::Field;
use crate::repeat::{Repeat, Sets};
use crate::shown::Fields;
use std::marker::Model;

/// How the messages of a PGN are sent.
#[derive(Clone, Copy, PartialEq, Eq, Debug)]
pub enum Kind {
    /// Each in a frame of its own, with at most 8 bytes.
    Single,
    /// As fast packets, in up to 32 frames.
    Fast,
}

/// A definition, as the table keeps it.
#[derive(Drop)]
pub(crate) struct StoredDefinition {
    pub(crate) pgn: u32,
    pub(crate) kind: Kind,
    pub(crate) description: String,
    /// The text of a line between the sender and the members, kept since each line needs it.
    pub(crate) label: Vec<u8>,
    /// Whether a field asks for a value; most messages of most PGNs have none that does.
    pub(crate) has_match: bool,
    pub(crate) fields: Vec<Field>,
    pub(crate) repeat: Option<Repeat>,
}

impl Model for StoredDefinition {
    ghost use Rattle.std.specs.Prelude.{◌≡◌, string_bytes, is_some};
    ghost use Rattle.std.specs.List.{list_any};
    ghost use Rattle.n2k_table.specs.Inner.Line.{label_json};
    ghost use Rattle.n2k_table.specs.Definition.{DefinitionParts};

    ghost Value = { DefinitionParts };

    ghost view = { λ d. record {
      pgn = d.pgn;
      kind = d.kind;
      description = string_bytes d.description;
      fields = d.fields.items;
      repeat = d.repeat;
    } };

    ghost invariant = { λ d. (d.label.items ≡ label_json d.pgn (string_bytes d.description))
        × (d.has_match ≡ list_any (λ f. is_some f.match_value) d.fields.items) };
}

/// Whether the data have what the fields ask for.
fn all_match(fields: &[Field], data: &[u8]) -> bool
    ensures { result ≡ list_all (field_matches «data».now) fields.now }
{
    fields.iter().all(|field| field.matches(data))
}

impl StoredDefinition {
    ghost use Rattle.n2k_table.specs.Inner.Line.{label_json};
    ghost use Rattle.n2k_table.specs.Table.{matches};

    /// The PGN that it describes.
    pub(crate) fn pgn(&self) -> u32
        ensures { result ≡ self.now.pgn }
    {
        self.pgn
    }

    /// How its messages are sent.
    pub(crate) fn kind(&self) -> Kind
        ensures { result ≡ self.now.kind }
    {
        self.kind
    }

    /// The text that names the message.
    pub(crate) fn description(&self) -> &str
        ensures { result.now ≡ self.now.description }
    {
        self.description.as_str()
    }

    /// The text of a line between the sender and the members.
    pub(crate) fn label(&self) -> &[u8]
        ensures { result.now ≡ label_json self.now.pgn self.now.description }
    {
        self.label.as_slice()
    }

    /// The fields in printing order.
    pub(crate) fn fields(&self) -> &[Field]
        ensures { result.now ≡ self.now.fields }
    {
        self.fields.as_slice()
    }

    /// The sets that follow the fields, if there are sets.
    pub(crate) fn repeat(&self) -> Option<&Repeat>
        ensures { option_map (λ r. r.now) result ≡ self.now.repeat }
    {
        self.repeat.as_ref()
    }

    /// Whether it asks for something. Of one that doesn't, any data are a message.
    #[inline(always)]
    pub(crate) fn asks(&self) -> bool
        ensures { result ≡ false → (payload : List ℕ) → matches payload self.now ≡ true }
    {
        self.has_match
    }

    /// Whether the data have what the fields ask for.
    #[inline(always)]
    pub(crate) fn matches(&self, data: &[u8]) -> bool
        ensures { result ≡ matches «data».now self.now }
    {
        !self.has_match || all_match(&self.fields, data)
    }

    /// Whether both describe one PGN, and name different kinds.
    pub(crate) fn is_mixed_with(&self, other: &StoredDefinition) -> bool
        ensures { result ≡ are_mixed self.now other.now }
    {
        self.pgn == other.pgn && self.kind != other.kind
    }
}

/// What the table says of a message: a text that names it, and its fields. It borrows the table.
#[derive(Drop)]
pub struct Definition<'a> {
    stored: &'a StoredDefinition,
}

impl<'a> Model for Definition<'a> {
    ghost use Rattle.n2k_table.specs.Definition.{DefinitionParts};

    ghost Value = { DefinitionParts };

    ghost view = { λ d. d.stored.now };
}

impl<'a> Definition<'a> {
    ghost use Rattle.n2k_table.specs.Shown.{all_shown};
    ghost use Rattle.n2k_table.specs.Repeat.{all_sets};
    ghost use Rattle.n2k_table.specs.Table.{matches};

    /// The view of a definition that the table keeps.
    pub(crate) fn new(stored: &'a StoredDefinition) -> Definition<'a>
        ensures { result ≡ stored.now }
    {
        Definition { stored }
    }

    /// The text that names the message, 1 to 255 bytes, as the table has it. It takes no memory.
    ///
    /// ```rust
    /// let table = sample_table(alloc)?;
    /// let definition = table.choose(130820, &[0xa3, 0x99, 0x01]).ok_or("Label")?;
    /// assert_eq!(rt; definition.description(), "Sample: Label");
    /// assert!(rt; table.choose(130820, &[0x07, 0x98, 0x01]).is_none());
    /// ```
    pub fn description(&self) -> &str
        ensures { result.now ≡ self.now.description }
    {
        self.stored.description()
    }

    /// Its own fields in printing order. It takes no memory.
    ///
    /// ```rust
    /// let table = sample_table(alloc)?;
    /// let definition = table.choose(129026, &[]).ok_or("COG & SOG")?;
    /// assert_eq!(rt; definition.own_fields().len(), 4);
    /// ```
    pub fn own_fields(&self) -> &'a [Field]
        ensures { result.now ≡ self.now.fields }
    {
        self.stored.fields()
    }

    /// What repeats after its own fields, if something does. It takes no memory.
    ///
    /// ```rust
    /// assert!(rt; definition.repeated().is_none());
    /// ```
    pub fn repeated(&self) -> Option<&'a Repeat>
        ensures { option_map (λ r. r.now) result ≡ self.now.repeat }
    {
        self.stored.repeat()
    }

    /// Whether the data have what its fields ask for. It takes no memory.
    ///
    /// ```rust
    /// assert!(rt; definition.matches(&[0xff]));
    /// ```
    pub fn matches(&self, data: &[u8]) -> bool
        ensures { result ≡ matches «data».now self.now }
    {
        self.stored.matches(data)
    }

    /// As the table keeps it.
    pub(crate) fn stored(&self) -> &StoredDefinition
        ensures { result.now ≡ self.now }
    {
        self.stored
    }

    /// What each field of the definition's own shows of the data of a message (the bytes in the order of the bus),
    /// with its name, in printing order. It takes no memory.
    ///
    /// ```rust
    /// let table = sample_table(alloc)?;
    /// let data = [0x05, 0x00];
    /// let definition = table.choose(129026, &data).ok_or("COG & SOG")?;
    /// let mut fields = definition.fields(&data);
    /// assert!(rt; matches!(fields.next(), Some(("SID", Shown::Number { value: 5, .. }))));
    /// assert_eq!(rt; fields.next(), Some(("COG Reference", Shown::Name("True"))));
    /// assert_eq!(rt; fields.next(), Some(("COG", Shown::Absent)));
    /// ```
    pub fn fields(&self, data: &'a [u8]) -> Fields<'a>
        ensures { result ≡ all_shown self.now.fields «data».now }
    {
        Fields::new(self.stored.fields(), data)
    }

    /// What each set shows of the data of a message, if the definition says that it has sets; `None` if
    /// it doesn't. They end before the first that does not lie wholly in the data, and may be none. It takes no memory.
    ///
    /// ```rust
    /// let table = pairs_table(alloc)?;
    /// let data = [0x01, 0x0a, 0x64, 0x00, 0x0b, 0x9c, 0xff];
    /// let definition = table.choose(130822, &data).ok_or("Pairs")?;
    /// let mut sets = definition.repeat(&data).ok_or("sets")?;
    /// let mut first = sets.next().ok_or("a set")?;
    /// assert!(rt; matches!(first.next(), Some(("Id", Shown::Number { value: 10, .. }))));
    /// assert!(rt; sets.next().is_some());
    /// assert!(rt; sets.next().is_none());
    /// ```
    pub fn repeat(&self, data: &'a [u8]) -> Option<Sets<'a>>
        ensures { result ≡ option_map (λ r. all_sets r «data».now) self.now.repeat }
    {
        Some(Sets::new(self.stored.repeat()?, data))
    }
}
