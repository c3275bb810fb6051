//! A PGN that has been looked up in a table.
ghost use Rattle.std.specs.Prelude.{◌≡◌, ℕ, List, IfSome, Some, option_map};
ghost use Rattle.n2k_table.specs.Table.{choice, kind};

use crate::definition::{Definition, Kind, StoredDefinition};
use crate::index::Candidate;
use crate::table::Table;
use std::marker::Model;

/// A PGN that a table has, looked up once for how its messages are sent and for what describes them. It borrows the
/// table.
#[derive(Drop)]
pub struct KnownPgn<'a> {
    pub(crate) table: &'a Table,
    /// Its first definition in file order.
    pub(crate) first: &'a StoredDefinition,
    /// Where all of them stand.
    pub(crate) candidates: &'a [Candidate],
}

impl<'a> Model for KnownPgn<'a> {
    ghost use Rattle.std.specs.Prelude.{◌≡◌, Some};
    ghost use Rattle.std.specs.List.{find};
    ghost use Rattle.n2k_table.specs.Table.{KnownParts, is_of};
    ghost use Rattle.n2k_table.specs.Inner.Index.{AreOfPgn};

    ghost Value = { KnownParts };

    ghost view = { λ k. record { table = k.table.now; pgn = k.first.now.pgn } };

    ghost invariant = { λ k. (find (is_of k.first.now.pgn) k.table.now.definitions ≡ Some k.first.now)
        × AreOfPgn k.first.now.pgn k.table.now.definitions k.candidates.now };
}

impl<'a> KnownPgn<'a> {
    ghost use Rattle.std.specs.Prelude.{slice_get, filter};
    ghost use Rattle.n2k_table.specs.Table.{is_of};

    /// How its messages are sent, as `Table::kind` says. It takes no memory.
    ///
    /// ```rust
    /// let table = sample_table(alloc)?;
    /// let known = table.find(130820).ok_or("Label")?;
    /// assert_eq!(rt; known.kind(), Kind::Fast);
    /// assert!(rt; table.find(59904).is_none());
    /// ```
    #[inline(always)]
    pub fn kind(&self) -> Kind
        ensures { Some result ≡ kind self.now.table self.now.pgn }
    {
        self.first.kind()
    }

    /// Its first definition, if that asks for nothing: then it describes each message.
    #[inline(always)]
    fn usual(&self) -> Option<&'a StoredDefinition>
        ensures { IfSome result (λ d. (payload : List ℕ) → choice self.now.table self.now.pgn payload ≡ Some d.now) }
    {
        if self.first.asks() {
            return None;
        }
        Some(self.first)
    }

    fn chosen(&self, data: &[u8]) -> Option<&'a StoredDefinition>
        ensures { option_map (λ d. d.now) result ≡ choice self.now.table self.now.pgn «data».now }
    {
        self.table.chosen(self.candidates, data)
    }

    /// The definition that describes a message of it with these data, as `Table::choose` says. It takes no memory.
    ///
    /// ```rust
    /// let table = sample_table(alloc)?;
    /// let known = table.find(130820).ok_or("Label")?;
    /// let definition = known.choose(&[0xa3, 0x99, 0x01]).ok_or("Label")?;
    /// assert_eq!(rt; definition.description(), "Sample: Label");
    /// assert!(rt; known.choose(&[0x07, 0x98, 0x01]).is_none());
    /// ```
    #[inline(always)]
    pub fn choose(&self, data: &[u8]) -> Option<Definition<'a>>
        ensures { result ≡ choice self.now.table self.now.pgn «data».now }
    {
        if let Some(definition) = self.usual() {
            return Some(Definition::new(definition));
        }
        Some(Definition::new(self.chosen(data)?))
    }

    /// The definition at this place among those of the PGN, in file order. It takes no memory.
    ///
    /// ```rust
    /// let table = sample_table(alloc)?;
    /// let known = table.find(130820).ok_or("Label")?;
    /// let first = known.definition(0).ok_or("Label")?;
    /// assert_eq!(rt; first.description(), "Sample: Label");
    /// assert!(rt; known.definition(1).is_none());
    /// ```
    pub fn definition(&self, place: usize) -> Option<Definition<'a>>
        ensures { result ≡ slice_get (filter (is_of self.now.pgn) self.now.table.definitions) place }
    {
        Some(Definition::new(self.table.nth(self.candidates, place)?))
    }
}
