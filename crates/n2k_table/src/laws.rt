//! Laws that hold of the definitions: each is the contract of a function that does nothing.
ghost use Rattle.std.specs.Prelude.{◌≡◌, ◌<◌, ℕ, Bool, length, slice_index};
ghost use Rattle.n2k_wire.specs.Packet.{PacketParts};
ghost use Rattle.n2k_table.specs.Table.{TableParts};
ghost use Rattle.n2k_table.specs.Json.{json};
ghost use Rattle.n2k_table.specs.OneLine.{IsOneLine};

use crate::table_id::TableId;

/// The JSON line of a message is one line, whatever the table's names and texts and the message's data are: it ends
/// in a line feed, and contains no other byte below the space.
pub fn json_is_one_line()
    ensures { (t : TableParts) (m : PacketParts) (empty : Bool) → IsOneLine (json t m empty) }
{}

/// The id of a table is 32 bytes.
pub fn ids_are_valid(id: &TableId)
    ensures long { length id.now ≡ 32 }
    ensures bytes { (i : ℕ) → slice_index id.now i < 256 }
{
    id.lemma_valid();
}
