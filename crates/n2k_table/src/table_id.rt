//! The id of a table, computed only when it is asked for.
ghost use Rattle.std.specs.Prelude.{◌≡◌, ◌<◌, ℕ, length, slice_index, IfOk};
ghost use Rattle.sha2.specs.Sha256.{sha256};

use sha2::{Digest, Sha256};
use std::alloc::{AllocError, Global};
use std::marker::Model;
use std::sync::ArcSlice;

/// What an id comes from.
#[derive(Drop)]
enum Origin {
    /// The bytes of the table, which its joins share.
    Bytes(ArcSlice<u8, Global>),
    /// The id itself.
    Id([u8; 32]),
}

/// The id of a table: the SHA-256 of the bytes that the table was read from, computed each time it is asked for; or an id
/// that is known.
#[derive(Drop)]
pub struct TableId {
    origin: Origin,
}

impl Model for TableId {
    ghost use Rattle.std.specs.Prelude.{ℕ, List};
    ghost use Rattle.n2k_table.specs.Inner.TableId.{id_of};

    ghost Value = { List ℕ };

    ghost view = { λ i. id_of i.origin };
}

/// The type guarantees 32 bytes.
fn lemma_bytes_valid(id: [u8; 32])
    ensures long { length id ≡ 32 }
    ensures bytes { (i : ℕ) → slice_index id i < 256 }
{}

impl TableId {
    /// The id of a table that is read from these bytes. They are copied.
    pub(crate) fn of(alloc: Global, bytes: &[u8]) -> Result<TableId, AllocError>
        ensures { IfOk result (λ id. id ≡ sha256 bytes.now) }
    {
        let bytes = ArcSlice::from_slice(alloc, bytes)?;
        Ok(TableId {
            origin: Origin::Bytes(bytes),
        })
    }

    /// An id that is known. It takes no memory.
    ///
    /// ```rust
    /// let table = sample_table(alloc)?;
    /// assert_eq!(rt; TableId::known(table.id()).bytes(), table.id());
    /// ```
    pub fn known(id: [u8; 32]) -> TableId
        ensures { result ≡ id }
    {
        TableId {
            origin: Origin::Id(id),
        }
    }

    /// The 32 bytes of the id. It takes no memory.
    ///
    /// ```rust
    /// let table = sample_table(alloc)?;
    /// assert_eq!(rt; table.lazy_id().bytes(), table.id());
    /// ```
    pub fn bytes(&self) -> [u8; 32]
        ensures { result ≡ self.now }
    {
        match &self.origin {
            Origin::Bytes(bytes) => Sha256::digest(bytes.as_slice()),
            Origin::Id(id) => *id,
        }
    }

    /// The same id, of the same bytes. Only if 2^63 others share them, it is computed.
    pub(crate) fn share(&self) -> TableId
        ensures { result ≡ self.now }
    {
        match &self.origin {
            Origin::Bytes(bytes) => match bytes.clone() {
                Ok(bytes) => TableId {
                    origin: Origin::Bytes(bytes),
                },
                Err(_) => TableId::known(self.bytes()),
            },
            Origin::Id(id) => TableId::known(*id),
        }
    }

    /// An id is 32 bytes.
    pub(crate) fn lemma_valid(&self)
        ensures long { length self.now ≡ 32 }
        ensures bytes { (i : ℕ) → slice_index self.now i < 256 }
    {
        match &self.origin {
            Origin::Bytes(_) => {}
            Origin::Id(id) => lemma_bytes_valid(*id),
        }
    }
}
