//! A join from a saved state.
ghost use Rattle.std.specs.Prelude.{◌≡◌, ◌≤◌, ◌<◌, ◌+◌, [], true, IfOk, IfSome};
ghost use Rattle.n2k_join.specs.Inner.Apart.{each_new, SomeUnder};
ghost use Rattle.serde_json.specs.View.{view};
ghost use Rattle.n2k_table.specs.Table.{kind};
ghost use Rattle.n2k_wire.specs.Packet.{greatest_pgn};
ghost use Rattle.n2k_wire.specs.Plain.{greatest_address};
ghost use Rattle.n2k_join.specs.Frames.{Key, most_sequences};
ghost use Rattle.n2k_join.specs.Refusal.{GivesOrMemory};
ghost use Rattle.n2k_wire.specs.Steps.{or_cause};
ghost use Rattle.n2k_join.specs.Resumed.{firsts_rise, pieces_rise, group_holds, groups_hold, valid_if, parsed, format_in};
ghost use Rattle.n2k_wire.specs.Views.{Gives};
ghost use Rattle.n2k_join.specs.State.{IsKey, IsPiece, HasParts};
ghost use Rattle.std.specs.List.{AllByRecursion};
ghost use Rattle.n2k_join.specs.Inner.Stored.{key_of};
ghost use Rattle.n2k_join.specs.Inner.Order.{listed, IsKept};
ghost use Rattle.n2k_join.specs.Inner.Slots.{group_in, group_at};

use crate::fault::StateFault;
use crate::open_groups::OpenGroups;
use crate::piece::{FrameKey, OpenGroup};
use crate::saved::object::StateFormat;
use crate::saved::rules::{key_holds, stored_piece};
use crate::saved::spelled::{SpelledGroup, SpelledKey, SpelledPiece};
use crate::saved::{OLD_FORMAT, SAVED_FORMAT};
use n2k_table::Table;
use serde_json::Value;
use std::alloc::Global;

/// The group of these frames, if they can be a group's.
#[tactic(auto, unfolding(crate::specs::Resumed::pieces_rise))]
fn stored_pieces(first: u64, pieces: &[SpelledPiece]) -> Option<OpenGroup>
    ensures value { (key : Key) → SomeUnder (group_in key) result (pieces_rise 0 pieces.now)
        (record { first = first; key = key; pieces = pieces.now }) }
    ensures parts { IfSome result (λ _. AllByRecursion IsPiece pieces.now) }
{
    let mut group = OpenGroup::new(first);
    let mut least = 0;
    for piece in pieces {
        let kept = stored_piece(least, piece)?;
        least = kept.number + 1;
        group.take(kept);
    }
    Some(group)
}

/// A key whose parts are small enough.
fn stored_key(key: &SpelledKey) -> FrameKey
    requires src { key.now.src ≤ greatest_address }
    requires dst { key.now.dst ≤ greatest_address }
    requires pgn { key.now.pgn ≤ greatest_pgn }
    requires sequence { key.now.sequence < most_sequences }
    ensures value { key_of result ≡ key.now }
    ensures parts { IsKey (key_of result) }
{
    FrameKey {
        src: key.src as u8,
        dst: key.dst as u8,
        pgn: key.pgn as u32,
        sequence: key.sequence as u8,
    }
}

/// An open group with its key, if it is valid under the table.
#[tactic(auto, unfolding(crate::specs::Resumed::group_holds, crate::specs::Resumed::key_holds))]
fn stored_group(table: &Table, group: &SpelledGroup) -> Option<(FrameKey, OpenGroup)>
    ensures value { SomeUnder group_at result (group_holds (kind table.now) group.now) group.now }
    ensures parts { IfSome result (λ stored. HasParts (group_at stored)) }
{
    if !key_holds(table, &group.key) || group.pieces.is_empty() {
        return None;
    }
    let stored = stored_pieces(group.first, &group.pieces)?;
    if stored.is_complete() {
        return None;
    }
    Some((stored_key(&group.key), stored))
}

/// The open groups, if they are valid under the table: each by itself, and no two of one key.
#[tactic(auto, unfolding(crate::specs::Inner::Apart::each_new))]
pub(crate) fn stored_groups(
    alloc: Global,
    table: &Table,
    lines: u64,
    groups: &[SpelledGroup],
) -> Result<OpenGroups, StateFault>
    requires { firsts_rise 1 lines groups.now ≡ true }
    ensures value { GivesOrMemory (λ stored. listed stored) result
        (valid_if (groups_hold (kind table.now) groups.now) groups.now) }
    ensures parts { IfOk result (λ stored. AllByRecursion HasParts (listed stored)) }
    ensures kept { IfOk result (IsKept (lines + 1)) }
{
    let mut stored = OpenGroups::new(alloc);
    for group in groups {
        let (key, open) = stored_group(table, group).ok_or(StateFault::Invalid)?;
        if stored.groups.contains_key(&key) {
            return Err(StateFault::Invalid);
        }
        stored.insert(key, &open)?;
    }
    Ok(stored)
}

/// The JSON value of a text.
pub(crate) fn parsed(alloc: Global, bytes: &[u8]) -> Result<Value, StateFault>
    ensures { GivesOrMemory (λ value. view value) result (or_cause StateFault.NotJson (parsed bytes.now)) }
{
    match Value::from_slice(alloc, bytes) {
        Ok(value) => Ok(value),
        Err(error) if error.is_memory() => Err(StateFault::Memory),
        Err(_) => Err(StateFault::NotJson),
    }
}

/// The format of a state's value.
pub(crate) fn format_in(value: &Value) -> Result<StateFormat, StateFault>
    ensures { Gives (λ format. format) result (format_in (view value.now)) }
{
    let Some(format) = value.get("format") else {
        return Err(StateFault::Format);
    };
    match format.as_u64() {
        Some(OLD_FORMAT) => Ok(StateFormat::WithoutWindow),
        Some(SAVED_FORMAT) => Ok(StateFormat::WithWindow),
        _ => Err(StateFault::Format),
    }
}
