//! A table of messages.
ghost use Rattle.std.specs.Prelude.{◌≡◌, ◌≢◌, [], All, Contains, Some, IfOk, IfErr, false, map};
ghost use Rattle.n2k_table.specs.declared.fault.TableFault.TheVariants.{Memory};
ghost use Rattle.toml.specs.View.{view, table_view};
ghost use Rattle.n2k_wire.specs.Steps.{or_cause};
ghost use Rattle.n2k_wire.specs.Views.{Gives};
ghost use Rattle.n2k_table.specs.Duplicate.{has_duplicate};
ghost use Rattle.n2k_table.specs.Reading.{each, ReaderGives};
ghost use Rattle.n2k_table.specs.Definition.{definition};
ghost use Rattle.n2k_table.specs.Table.{document, format_of, are_mixed, definitions, top_level};
ghost use Rattle.n2k_table.specs.Inner.Index.{IsIndex};

use crate::definition::{Definition, Kind, StoredDefinition};
use crate::definition_reader::read_definition;
use crate::fault::TableFault;
use crate::index::{Candidate, Index, candidates_at, has_mixed, index_of, nth_of};
use crate::known_pgn::KnownPgn;
use crate::lookup::Lookups;
use crate::lookup_reader::read_lookups;
use crate::table_id::TableId;
use crate::tree::{Section, TableFormat, check_keys, elements_or_none, int_at};
use std::alloc::Global;
use std::marker::Model;
use toml::Value;

/// The most definitions of a table.
pub(crate) const MOST_DEFINITIONS: usize = 4096;

/// The newest format of a table.
pub(crate) const NEWEST_FORMAT: u32 = 3;

/// A table of messages: which PGNs there are, how they are sent, and what their bits mean.
#[derive(Drop)]
pub struct Table {
    id: TableId,
    definitions: Vec<StoredDefinition>,
    /// Where the definitions of each PGN stand.
    index: Index,
}

impl Model for Table {
    ghost use Rattle.n2k_table.specs.Table.{TableParts};
    ghost use Rattle.n2k_table.specs.Inner.Index.{IsIndex};

    ghost Value = { TableParts };

    ghost view = { λ t. record { id = t.id; definitions = t.definitions.items } };

    ghost invariant = { λ t. IsIndex t.index t.definitions.items };
}

/// The definitions of a table, and the places of each PGN's definitions.
#[derive(Drop)]
struct Definitions {
    list: Vec<StoredDefinition>,
    index: Index,
}

/// Each of these values as a definition.
fn each_definition(
    alloc: Global,
    lookups: &Lookups,
    format: TableFormat,
    values: &[Value],
) -> Result<Vec<StoredDefinition>, TableFault>
    ensures { ReaderGives (λ v. v.items) result (each (definition format lookups.now) (map view values.now)) }
{
    let mut definitions = Vec::with_capacity(alloc, values.len())?;
    for value in values {
        definitions.push(read_definition(alloc, lookups, format, value)?)?;
    }
    Ok(definitions)
}

/// Reads the definitions of the top level, in a table of this format and of these lookups.
#[tactic(auto, unfolding(crate::specs::Table::definitions))]
fn read_definitions(
    alloc: Global,
    lookups: &Lookups,
    format: TableFormat,
    top: &toml::Table,
) -> Result<Definitions, TableFault>
    ensures value { ReaderGives (λ d. d.list.items) result (definitions format lookups.now (table_view top.now)) }
    ensures agree { IfOk result (λ d. has_duplicate are_mixed d.list.items ≡ false) }
    ensures index { IfOk result (λ d. IsIndex d.index d.list.items) }
{
    let values = elements_or_none(top, "pgn", MOST_DEFINITIONS)?;
    let list = each_definition(alloc, lookups, format, values)?;
    let index = index_of(alloc, &list)?;
    if has_mixed(&index, &list) {
        return Err(TableFault::Mixed);
    }
    Ok(Definitions { list, index })
}

/// The format that the top level says it is of.
fn format_of(top: &toml::Table) -> Result<TableFormat, TableFault>
    ensures { Gives (λ format. format) result (format_of (table_view top.now)) }
{
    match int_at(top, "format", 1, NEWEST_FORMAT) {
        Ok(1) => Ok(TableFormat::One),
        Ok(2) => Ok(TableFormat::Two),
        Ok(_) => Ok(TableFormat::Three),
        Err(_) => Err(TableFault::Format),
    }
}

#[tactic(auto, unfolding(crate::specs::Table::top_level))]
fn read_top(alloc: Global, top: &toml::Table) -> Result<Definitions, TableFault>
    ensures value { ReaderGives (λ d. d.list.items) result (top_level (table_view top.now)) }
    ensures agree { IfOk result (λ d. has_duplicate are_mixed d.list.items ≡ false) }
    ensures index { IfOk result (λ d. IsIndex d.index d.list.items) }
{
    let format = format_of(top)?;
    check_keys(top, Section::Document)?;
    let lookups = read_lookups(alloc, top)?;
    read_definitions(alloc, &lookups, format, top)
}

/// The top level of the TOML document that the bytes spell.
fn document(alloc: Global, bytes: &[u8]) -> Result<toml::Table, TableFault>
    ensures { ReaderGives (λ top. table_view top) result (or_cause TableFault.NotToml (document bytes.now)) }
{
    match toml::table_from_slice(alloc, bytes) {
        Ok(top) => Ok(top),
        Err(error) if error.is_memory() => Err(TableFault::Memory),
        Err(_) => Err(TableFault::NotToml),
    }
}

impl Table {
    ghost use Rattle.std.specs.Prelude.{◌<◌, ℕ, length, option_and_then, option_map, slice_get};
    ghost use Rattle.n2k_table.specs.Table.{read_table, faults, table, kind, choice};
    ghost use Rattle.n2k_table.specs.Inner.Index.{places, pgns, places_of, IsOfPlace};

    #[tactic(auto, unfolding(crate::specs::Table::read_table))]
    fn parse(alloc: Global, bytes: &[u8]) -> Result<Table, TableFault>
        ensures value { ReaderGives (λ t. t) result (read_table bytes.now) }
        ensures agree { IfOk result (λ t. has_duplicate are_mixed t.definitions ≡ false) }
    {
        // (the tree is freed before the bytes are copied, which keeps the peak of memory low)
        let definitions = read_top(alloc, &document(alloc, bytes)?)?;
        Ok(Table {
            id: TableId::of(alloc, bytes)?,
            definitions: definitions.list,
            index: definitions.index,
        })
    }

    /// Reads a table: the bytes of a TOML 1.1 document in UTF-8, of format 1, 2 or 3 (docs/PROFILE.md has the
    /// formats). A table with the line `format = 1` alone is one without messages.
    ///
    /// A document with a fault is refused. Of several faults the first one is returned, in the order that
    /// docs/PROFILE.md tells.
    ///
    /// ```rust
    /// let table = Table::read(alloc, "format = 1\n".as_bytes())?;
    /// assert_eq!(rt; table.kind(129026), None);
    /// let refused = Table::read(alloc, "format = 4\n".as_bytes());
    /// assert!(rt; matches!(refused, Err(TableFault::Format)));
    /// ```
    pub fn read(alloc: Global, bytes: &[u8]) -> Result<Table, TableFault>
        // The table that the bytes spell, or their first fault, unless memory runs out.
        ensures judged { ReaderGives (λ t. t) result (read_table bytes.now) }

        // In short: a table that is read has no fault, and a fault that is returned is in the bytes.
        ensures sound { IfOk result (λ t. (faults bytes.now ≡ []) × (t ≡ table bytes.now)) }
        ensures stands { IfErr result (λ fault. fault ≢ Memory → Contains (faults bytes.now) fault) }

        // All definitions of a PGN name one kind, which is the kind of the PGN.
        ensures kinds { IfOk result (λ t. All (λ d. kind t d.pgn ≡ Some d.kind) t.definitions) }
    {
        Table::parse(alloc, bytes)
    }

    /// The SHA-256 of the bytes that the table was read from, 32 bytes. Two spellings of one document have
    /// two ids. It takes no memory.
    ///
    /// ```rust
    /// let table = sample_table(alloc)?;
    /// // As `sha256sum` prints it: 6b85e2b2..
    /// assert!(rt; table.id().starts_with(&[0x6b, 0x85, 0xe2, 0xb2]));
    /// ```
    pub fn id(&self) -> [u8; 32]
        ensures { result ≡ self.now.id }
    {
        self.id.bytes()
    }

    /// The id, which is computed only when its bytes are asked for. It shares the bytes that the table was read from, and
    /// takes no memory.
    ///
    /// ```rust
    /// let table = sample_table(alloc)?;
    /// assert_eq!(rt; table.lazy_id().bytes(), table.id());
    /// ```
    pub fn lazy_id(&self) -> TableId
        ensures { result ≡ self.now.id }
    {
        self.id.share()
    }

    /// Computes the id now, and keeps it instead of the bytes that the table was read from: for a caller that saves or
    /// resumes more than once.
    ///
    /// ```rust
    /// let mut table = sample_table(alloc)?;
    /// table.compute_id();
    /// assert!(rt; table.id().starts_with(&[0x6b, 0x85, 0xe2, 0xb2]));
    /// ```
    pub fn compute_id(&mut self)
        ensures { self.new ≡ self.old }
    {
        self.id = TableId::known(self.id.bytes());
    }

    /// Where the definitions of a PGN stand, in file order.
    #[inline(always)]
    fn candidates(&self, pgn: u32) -> &[Candidate]
        ensures value { places_of result.now ≡ places pgn (pgns self.now.definitions) }
        ensures within { All (λ c. c.place < length self.now.definitions) result.now }
        ensures asked { All (IsOfPlace self.now.definitions) result.now }
    {
        candidates_at(&self.index, pgn)
    }

    /// The definition that describes a message, of the candidates of its PGN. It is not inlined: of most PGNs it is known
    /// without.
    #[inline(never)]
    pub(crate) fn chosen(&self, candidates: &[Candidate], data: &[u8]) -> Option<&StoredDefinition>
        requires within { All (λ c. c.place < length self.now.definitions) candidates.now }
        requires asked { All (IsOfPlace self.now.definitions) candidates.now }
        ensures { (pgn : ℕ) → places_of candidates.now ≡ places pgn (pgns self.now.definitions)
            → option_map (λ d. d.now) result ≡ choice self.now pgn «data».now }
    {
        for candidate in candidates {
            let definition = &self.definitions[candidate.place];
            if candidate.match_prefilter.matches(definition, data) {
                return Some(definition);
            }
        }
        None
    }

    /// The definition that the candidate at a place names.
    pub(crate) fn nth(&self, candidates: &[Candidate], place: usize) -> Option<&StoredDefinition>
        ensures { option_map (λ d. d.now) result
            ≡ option_and_then (slice_get self.now.definitions) (slice_get (places_of candidates.now) place) }
    {
        nth_of(candidates, &self.definitions, place)
    }

    /// Looks a PGN up once for all later questions; `None` if the table has no definition of it. It takes no
    /// memory.
    ///
    /// ```rust
    /// let table = sample_table(alloc)?;
    /// let known = table.find(130820).ok_or("Label")?;
    /// assert_eq!(rt; known.kind(), Kind::Fast);
    /// assert!(rt; table.find(59904).is_none());
    /// ```
    #[inline(always)]
    pub fn find(&self, pgn: u32) -> Option<KnownPgn<'_>>
        ensures { result ≡ option_map (λ _. record { table = self.now; pgn = pgn }) (kind self.now pgn) }
    {
        let candidates = self.candidates(pgn);
        let first = candidates.first()?;
        Some(KnownPgn {
            table: self,
            first: &self.definitions[first.place],
            candidates,
        })
    }

    /// How the messages of a PGN are sent, as its definitions say; `None` if the table has none. It takes
    /// no memory.
    ///
    /// ```rust
    /// let table = sample_table(alloc)?;
    /// assert_eq!(rt; table.kind(129026), Some(Kind::Single));
    /// assert_eq!(rt; table.kind(130820), Some(Kind::Fast));
    /// assert_eq!(rt; table.kind(59904), None);
    /// ```
    pub fn kind(&self, pgn: u32) -> Option<Kind>
        ensures { result ≡ kind self.now pgn }
    {
        Some(self.find(pgn)?.kind())
    }

    /// The definition that describes a message of a PGN with these data (in the order of the bus): the first
    /// of the PGN in file order all of whose match fields lie in the data and have their value. `None` if
    /// there is none. It takes no memory.
    ///
    /// ```rust
    /// let table = sample_table(alloc)?;
    /// let definition = table.choose(130820, &[0xa3, 0x99, 0x01]).ok_or("Label")?;
    /// assert_eq!(rt; definition.description(), "Sample: Label");
    /// assert!(rt; table.choose(130820, &[0x07, 0x98, 0x01]).is_none());
    /// ```
    pub fn choose(&self, pgn: u32, data: &[u8]) -> Option<Definition<'_>>
        ensures { result ≡ choice self.now pgn «data».now }
    {
        Some(Definition::new(self.chosen(self.candidates(pgn), data)?))
    }
}
