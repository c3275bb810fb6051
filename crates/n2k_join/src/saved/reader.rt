//! The state that a value spells: a reader for each part.
ghost use Rattle.std.specs.Prelude.{◌≡◌, map, IfOk};
ghost use Rattle.serde_json.specs.View.{view};
ghost use Rattle.n2k_wire.specs.Views.{Gives};
ghost use Rattle.n2k_join.specs.Refusal.{GivesOrMemory};
ghost use Rattle.n2k_join.specs.Resumed.{read_window, each, read_piece, read_key, read_pieces, read_group, read_groups, read_counts, read_id, read_state};

use crate::counts::Counts;
use crate::fault::StateFault;
use crate::saved::object::{Object, StateFormat};
use crate::saved::spelled::{SpelledGroup, SpelledKey, SpelledPiece, SpelledState};
use crate::saved::value::{as_int, count_at, digits_of, elements_of, members_at, required};
use crate::window::Window;
use serde_json::Value;
use std::alloc::Global;

#[tactic(auto, unfolding(crate::specs::Resumed::read_piece))]
fn read_piece(value: &Value) -> Result<SpelledPiece, StateFault>
    ensures { Gives (λ piece. piece) result (read_piece (view value.now)) }
{
    match elements_of(value)?.as_slice() {
        [number, bytes] => Ok(SpelledPiece {
            number: as_int(number)?,
            bytes: digits_of::<7>(bytes)?,
        }),
        _ => Err(StateFault::Shape),
    }
}

#[tactic(auto, unfolding(crate::specs::Resumed::read_key))]
fn read_key(value: &Value) -> Result<SpelledKey, StateFault>
    ensures { Gives (λ key. key) result (read_key (view value.now)) }
{
    let dst = count_at("dst", value)?;
    let pgn = count_at("pgn", value)?;
    let sequence = count_at("seq", value)?;
    let src = count_at("src", value)?;
    Ok(SpelledKey {
        src,
        dst,
        pgn,
        sequence,
    })
}

#[tactic(auto, unfolding(crate::specs::Resumed::read_pieces))]
fn read_pieces(alloc: Global, value: &Value) -> Result<Vec<SpelledPiece>, StateFault>
    ensures { GivesOrMemory (λ pieces. pieces.items) result (read_pieces (view value.now)) }
{
    let values = elements_of(required("frames", value)?)?;
    let mut pieces = Vec::new(alloc);
    for element in values {
        pieces.push(read_piece(element)?)?;
    }
    Ok(pieces)
}

#[tactic(auto, unfolding(crate::specs::Resumed::read_group))]
fn read_group(alloc: Global, value: &Value) -> Result<SpelledGroup, StateFault>
    ensures { GivesOrMemory (λ group. group) result (read_group (view value.now)) }
{
    members_at(Object::Group, value)?;
    let key = read_key(value)?;
    let first = count_at("first", value)?;
    let pieces = read_pieces(alloc, value)?;
    Ok(SpelledGroup { first, key, pieces })
}

#[tactic(auto, unfolding(crate::specs::Resumed::read_groups))]
fn read_groups(alloc: Global, value: &Value) -> Result<Vec<SpelledGroup>, StateFault>
    ensures { GivesOrMemory (λ groups. groups.items) result (read_groups (view value.now)) }
{
    let values = elements_of(required("groups", value)?)?;
    let mut groups = Vec::new(alloc);
    for element in values {
        groups.push(read_group(alloc, element)?)?;
    }
    Ok(groups)
}

#[tactic(auto, unfolding(crate::specs::Resumed::read_counts))]
fn read_counts(value: &Value) -> Result<Counts, StateFault>
    ensures { Gives (λ counts. counts) result (read_counts (view value.now)) }
{
    let bad = count_at("bad", value)?;
    let broken = count_at("broken", value)?;
    let lines = count_at("lines", value)?;
    let messages = count_at("messages", value)?;
    let unknown = count_at("unknown", value)?;
    Ok(Counts {
        lines,
        messages,
        bad,
        unknown,
        broken,
        held: 0,
    })
}

#[tactic(auto, unfolding(crate::specs::Resumed::read_id))]
fn read_id(value: &Value) -> Result<[u8; 32], StateFault>
    ensures { Gives (λ id. id) result (read_id (view value.now)) }
{
    digits_of::<32>(required("table", value)?)
}

/// The window of a state, or the given one if the state has no window.
fn read_window(format: StateFormat, window: u32, value: &Value) -> Result<u64, StateFault>
    ensures { Gives (λ n. n) result (read_window format window (view value.now)) }
{
    match format {
        StateFormat::WithWindow => count_at("window", value),
        StateFormat::WithoutWindow => Ok(u64::from(window)),
    }
}

/// The state that a value of a format spells, whatever its numbers.
#[tactic(auto, unfolding(crate::specs::Resumed::read_state))]
pub(crate) fn read_state(
    alloc: Global,
    format: StateFormat,
    window: Window,
    value: &Value,
) -> Result<SpelledState, StateFault>
    ensures value { GivesOrMemory (λ state. state) result (read_state format window (view value.now)) }
    ensures order { IfOk result (λ state. state.window.in_order ≡ window.in_order) }
{
    members_at(Object::State(format), value)?;
    let counts = read_counts(value)?;
    let id = read_id(value)?;
    let groups = read_groups(alloc, value)?;
    let lines = read_window(format, window.get(), value)?;
    Ok(SpelledState {
        id,
        window: lines,
        in_order: window.is_in_order(),
        counts,
        groups,
    })
}
