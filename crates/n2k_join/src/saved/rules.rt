//! The rules of a valid state.
ghost use Rattle.std.specs.Prelude.{◌≡◌, ◌≤◌, ◌<◌, true, IfSome};
ghost use Rattle.std.specs.List.{AllByRecursion};
ghost use Rattle.n2k_join.specs.Saved.{are_waiting};
ghost use Rattle.n2k_join.specs.Inner.Apart.{numbers_hold, SomeUnder};
ghost use Rattle.n2k_wire.specs.Packet.{greatest_pgn};
ghost use Rattle.n2k_table.specs.Table.{kind};
ghost use Rattle.n2k_join.specs.Counts.{most_lines};
ghost use Rattle.n2k_join.specs.Frames.{most_frames};
ghost use Rattle.n2k_join.specs.State.{IsPiece};
ghost use Rattle.n2k_join.specs.Inner.Stored.{piece_of};
ghost use Rattle.n2k_join.specs.Resumed.{counts_hold, firsts_rise, waits_hold, key_holds, total_holds, piece_holds};
ghost use Rattle.n2k_join.specs.Pieces.{is_fast};

use crate::counts::{Counts, MOST_LINES};
use crate::frame::{LONGEST_MESSAGE, MOST_FRAMES, MOST_SEQUENCES};
use crate::piece::StoredPiece;
use crate::saved::object::StateFormat;
use crate::saved::spelled::{SpelledGroup, SpelledKey, SpelledPiece, SpelledState};
use crate::window::is_waiting;
use n2k_table::{Kind, Table};
use n2k_wire::{GREATEST_ADDRESS, GREATEST_PGN};

/// Whether these can be the counts of lines. The sums can't overflow.
#[tactic(auto, unfolding(crate::specs::Resumed::counts_hold))]
fn counts_hold(counts: &Counts, held: u64) -> bool
    ensures value { result ≡ counts_hold (record counts.now { held = held }) }
    ensures few { result ≡ true → counts.now.lines ≤ most_lines }
{
    let messages = u128::from(counts.messages);
    let given = messages + u128::from(counts.bad) + u128::from(counts.unknown);
    let opened = u128::from(counts.broken) + u128::from(held);
    counts.lines <= MOST_LINES
        && (opened <= u128::from(counts.lines) && given <= u128::from(counts.lines))
}

/// Whether the first lines rise strictly from 1, and none is past the last line.
#[tactic(auto, unfolding(crate::specs::Resumed::firsts_rise))]
fn firsts_rise(lines: u64, groups: &[SpelledGroup]) -> bool
    requires { lines ≤ most_lines }
    ensures { result ≡ firsts_rise 1 lines groups.now }
{
    let mut least = 1;
    for group in groups {
        if group.first < least || group.first > lines {
            return false;
        }
        least = group.first + 1;
    }
    true
}

/// Whether the counts and the first lines of the groups can be of one state.
pub(crate) fn rules_hold(counts: &Counts, groups: &[SpelledGroup]) -> bool
    ensures { result ≡ numbers_hold counts.now groups.now }
{
    counts_hold(counts, groups.len() as u64) && firsts_rise(counts.lines, groups)
}

/// Whether no group's window has ended.
fn are_waiting(state: &SpelledState) -> bool
    ensures { result ≡ are_waiting state.now }
{
    state.groups.iter().all(|group| is_waiting(group.first, state.window, state.counts.lines))
}

/// Whether no group's window has ended, if the state has its window.
pub(crate) fn waits_hold(format: StateFormat, state: &SpelledState) -> bool
    ensures { result ≡ waits_hold format state.now }
{
    match format {
        StateFormat::WithWindow => are_waiting(state),
        StateFormat::WithoutWindow => true,
    }
}

/// Whether the table sends the PGN in fast packets.
fn is_fast(table: &Table, pgn: u64) -> bool
    requires { pgn ≤ greatest_pgn }
    ensures { result ≡ is_fast (kind table.now pgn) }
{
    matches!(table.kind(pgn as u32), Some(Kind::Fast))
}

/// Whether frames of a fast PGN of the table can have the key.
#[tactic(auto, unfolding(crate::specs::Resumed::key_holds))]
pub(crate) fn key_holds(table: &Table, key: &SpelledKey) -> bool
    ensures { result ≡ key_holds (kind table.now) key.now }
{
    key.pgn <= u64::from(GREATEST_PGN)
        && (is_fast(table, key.pgn)
            && (key.src <= GREATEST_ADDRESS
                && (key.dst <= GREATEST_ADDRESS && key.sequence < u64::from(MOST_SEQUENCES))))
}

/// Whether the total of a frame 0 is not too large. True for other frames.
fn total_holds(number: u64, bytes: &[u8; 7]) -> bool
    ensures { result ≡ total_holds number bytes.now }
{
    number != 0 || bytes[0] <= LONGEST_MESSAGE
}

/// The type guarantees bytes.
fn lemma_bytes_valid(bytes: &[u8])
    ensures { AllByRecursion (λ byte. byte < 256) bytes.now }
{}

/// The piece of a number and its bytes.
fn piece_of_parts(number: u8, bytes: &[u8; 7]) -> StoredPiece
    requires small { number < most_frames }
    requires total { total_holds number bytes.now ≡ true }
    ensures value { piece_of result ≡ record { number = number; bytes = bytes.now } }
    ensures parts { IsPiece (piece_of result) }
{
    lemma_bytes_valid(bytes);
    StoredPiece {
        number,
        bytes: *bytes,
    }
}

/// A frame as a group keeps it, if its number is from `least` to the greatest and its total is not too large.
pub(crate) fn stored_piece(least: u8, piece: &SpelledPiece) -> Option<StoredPiece>
    ensures value { SomeUnder piece_of result (piece_holds least piece.now) piece.now }
    ensures parts { IfSome result (λ stored. IsPiece (piece_of stored)) }
{
    let numbers = u64::from(least)..u64::from(MOST_FRAMES);
    if !numbers.contains(&piece.number) || !total_holds(piece.number, &piece.bytes) {
        return None;
    }
    Some(piece_of_parts(piece.number as u8, &piece.bytes))
}
