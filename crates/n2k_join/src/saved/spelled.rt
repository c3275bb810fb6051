//! The content of a state's text, before the rules of a valid state are tested: its numbers may be any.

use crate::counts::Counts;
use std::marker::Model;

/// A frame of a group.
#[derive(Drop)]
pub(crate) struct SpelledPiece {
    pub(crate) number: u64,
    pub(crate) bytes: [u8; 7],
}

impl Model for SpelledPiece {
    ghost use Rattle.n2k_join.specs.Open.{Piece};

    ghost Value = { Piece };

    ghost view = { λ p. record { number = p.number; bytes = p.bytes } };
}

/// The key of a group's frames.
#[derive(Drop)]
pub(crate) struct SpelledKey {
    pub(crate) src: u64,
    pub(crate) dst: u64,
    pub(crate) pgn: u64,
    pub(crate) sequence: u64,
}

impl Model for SpelledKey {
    ghost use Rattle.n2k_join.specs.Frames.{Key};

    ghost Value = { Key };

    ghost view = { λ k. record { src = k.src; dst = k.dst; pgn = k.pgn; sequence = k.sequence } };
}

/// An open group.
#[derive(Drop)]
pub(crate) struct SpelledGroup {
    pub(crate) first: u64,
    pub(crate) key: SpelledKey,
    pub(crate) pieces: Vec<SpelledPiece>,
}

impl Model for SpelledGroup {
    ghost use Rattle.n2k_join.specs.Open.{Group};

    ghost Value = { Group };

    ghost view = { λ g. record { first = g.first; key = g.key; pieces = g.pieces.items } };
}

/// A state. The count of open groups is their number. If its text has no window, the window is the given one; the frame
/// order always is.
#[derive(Drop)]
pub(crate) struct SpelledState {
    pub(crate) id: [u8; 32],
    pub(crate) window: u64,
    pub(crate) in_order: bool,
    pub(crate) counts: Counts,
    pub(crate) groups: Vec<SpelledGroup>,
}

impl Model for SpelledState {
    ghost use Rattle.std.specs.Prelude.{length};
    ghost use Rattle.n2k_join.specs.State.{State};

    ghost Value = { State };

    ghost view = { λ s. record {
      id = s.id;
      window = record { lines = s.window; in_order = s.in_order };
      counts = record s.counts { held = length s.groups.items };
      groups = s.groups.items;
    } };
}
