//! Theorems about the definitions: each is the contract of a function that does nothing.
ghost use Rattle.std.specs.Prelude.{◌≡◌, ℕ, All, List, ◌<◌, ◌≤◌, ◌^◌, ◌++◌, Some, Ok, IsTrue, codes, length};
ghost use Rattle.n2k_wire.specs.Entry.{entry, IsEntry, IsShort};
ghost use Rattle.n2k_wire.specs.Identifier.{join, split};
ghost use Rattle.n2k_wire.specs.Packet.{PacketParts, IsPacketParts};
ghost use Rattle.n2k_wire.specs.Plain.{packed};
ghost use Rattle.n2k_wire.specs.Candump.{frame_payload, is_interface};
ghost use Rattle.n2k_wire.specs.Texts.{plain_line, candump_text};

use crate::entry::{Entry, Packing};
use crate::identifier::Id;

/// The plain line of a packet is read as that packet, with the same stamp, identifier and data: as a whole message
/// under `Packing::Whole` or with more than 8 bytes, else as a frame.
#[tactic(auto, using(crate::proofs::ReadBack::reads_back))]
pub fn plain_line_reads_back()
    ensures { (p : PacketParts) (packing : Packing) → IsPacketParts p
        → entry (plain_line p) packing ≡ packed packing p }
{}

/// Splitting an identifier and joining its parts gives the identifier, and joining parts and splitting gives the parts.
#[tactic(auto, using(crate::proofs::IdentifierLemmas::join_split, crate::proofs::IdentifierLemmas::split_join))]
pub fn identifiers_round_trip()
    ensures joined { (id : Id) (n : ℕ) → id.src < 2 ^ 8 → id.dst < 2 ^ 8 → join id ≡ Some n → split n ≡ id }
    ensures split_up { (n : ℕ) → n < 2 ^ 29 → join (split n) ≡ Some n }
{}

/// The candump line of a packet of at most 8 bytes is read as the frame of that packet, under each packing.
#[tactic(auto, using(crate::proofs::CandumpBack::candump_reads_back))]
pub fn candump_line_reads_back()
    ensures { (p : PacketParts) (interface line : List ℕ) (packing : Packing) → IsPacketParts p
        → length p.payload ≤ frame_payload → IsTrue (is_interface interface)
        → candump_text interface p ≡ Ok (line ++ codes "\n") → entry line packing ≡ Entry.Frame p }
{}

/// A plain line is one line: no byte of it is below the space.
#[tactic(auto, using(crate::proofs::CleanTexts::clean_line))]
pub fn plain_line_is_one_line()
    ensures { (p : PacketParts) → IsPacketParts p → All (λ b. 32 ≤ b) (plain_line p) }
{}

/// The entry of each text is one that a line can be: the parts of its packet make one, and a frame has at most 8 bytes.
#[tactic(auto, using(crate::proofs::LineEntries::entry_is_entry, crate::proofs::LineEntries::entry_is_short))]
pub fn entries_are_entries()
    ensures valid { (line : List ℕ) (packing : Packing) → IsEntry (entry line packing) }
    ensures short { (line : List ℕ) (packing : Packing) → IsShort (entry line packing) }
{}
