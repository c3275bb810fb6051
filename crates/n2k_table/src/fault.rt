//! Why a table is refused.
ghost use Rattle.std.specs.Prelude.{◌≡◌};
ghost use Rattle.n2k_table.specs.declared.fault.TableFault.TheVariants.{Memory};

use std::alloc::{AllocError, AllocFailed};
use thiserror::Error;

/// Why a table is refused. The fault lines of `n2kdec` number the causes in this order, from 1.
#[derive(Clone, Copy, PartialEq, Eq, Debug, Error)]
pub enum TableFault {
    /// The bytes are not UTF-8, or no TOML 1.1 document.
    #[error("the table is not valid TOML")]
    NotToml,
    /// The top level has no `format`, or it is none of the integers 1, 2 and 3.
    #[error("the table's format is missing, or is not 1, 2 or 3")]
    Format,
    /// A key is missing or unknown, a value is of another TOML kind than its key asks, or an entry of a lookup
    /// isn't an array of an integer and a text.
    #[error("a key is missing, unknown or not allowed there, or its value is of another kind")]
    Key,
    /// An integer or a mantissa is out of its range, a field of text or bytes or a set doesn't begin and end with a
    /// byte, or a field ends past the longest message or past its set.
    #[error("a number is out of range, or a field or set is where it can't be")]
    Range,
    /// A text is empty or too long, or isn't one of those that its key asks.
    #[error("a text is empty, too long, or not one that its key takes")]
    Text,
    /// Two lookups, or two fields of a definition or of a set, have one name, a field beside sets is named `list`, or a
    /// lookup has a value twice.
    #[error("a name or a value occurs twice, or a field beside a repeat is named list")]
    Twice,
    /// A field names a lookup that isn't there, or a string that doesn't stand before it, or a repeat names a string that
    /// the message doesn't have.
    #[error("a field names a lookup or a string that is not there")]
    Lookup,
    /// Two definitions of one PGN have different kinds.
    #[error("two definitions of one PGN have different kinds")]
    Mixed,
    /// There are too many definitions, fields in one or in a set, lookups, or entries in one.
    #[error("too many definitions, fields, lookups or entries")]
    TooMany,
    /// A growth was refused.
    #[error("out of memory")]
    Memory,
}

impl From<AllocError> for TableFault {
    ghost from_gives = { λ _ fault. fault ≡ Memory };

    fn from(_refused: AllocError) -> TableFault {
        TableFault::Memory
    }
}

impl<T: Drop> From<AllocFailed<T>> for TableFault {
    ghost from_gives = { λ _ fault. fault ≡ Memory };

    fn from(_refused: AllocFailed<T>) -> TableFault {
        TableFault::Memory
    }
}
