//! Where the definitions of a PGN stand, found without walking all of them.
ghost use Rattle.std.specs.Prelude.{◌≡◌, ◌<◌, length, option_and_then, option_map, slice_get, IfOk, OnOk};
ghost use Rattle.std.specs.List.{find};
ghost use Rattle.n2k_table.specs.Duplicate.{has_duplicate};
ghost use Rattle.n2k_table.specs.Table.{are_mixed, is_of};
ghost use Rattle.n2k_table.specs.Inner.Index.{candidates_in, differs, places_of, GainsCandidate, IsIndex};

use crate::definition::StoredDefinition;
use crate::match_prefilter::{MatchPrefilter, match_prefilter_of};
use indexmap::IndexMap;
use std::alloc::{AllocError, Global};
use std::marker::Model;

/// How many PGNs are distinguished without a hash.
const QUICK: usize = 8192;

/// The place of a definition, and what it asks of the first eight bytes, so that most of those that don't describe a
/// message are passed over without a look at their fields.
#[derive(Clone, Copy)]
pub(crate) struct Candidate {
    pub(crate) place: usize,
    pub(crate) match_prefilter: MatchPrefilter,
}

/// For each PGN its definitions, in file order.
type CandidatesByPgn = IndexMap<u32, Vec<Candidate>>;

/// Where the definitions of each PGN stand.
#[derive(Drop)]
pub(crate) struct Index {
    candidates: CandidatesByPgn,
    /// For the mixed bits of a PGN, its possible place in the map. The caller compares the PGN; that costs less
    /// than a hash.
    quick: Vec<u16>,
}

impl Model for Index {
    ghost use Rattle.std.specs.Prelude.{◌≡◌, List, ℕ, Vec, length};
    ghost use Rattle.std.specs.declared.alloc.Global.{Global};
    ghost use Rattle.n2k_table.specs.declared.index.Candidate.{Candidate};

    ghost Value = { List (ℕ × Vec Candidate Global) };

    ghost view = { λ i. i.candidates.entries };

    ghost invariant = { λ i. length i.quick.items ≡ 8192 };
}

/// Notes one more candidate of a PGN, after its earlier candidates.
fn note(
    alloc: Global,
    candidates: &mut CandidatesByPgn,
    pgn: u32,
    candidate: Candidate,
) -> Result<(), AllocError>
    ensures { OnOk result (GainsCandidate candidates.old.entries candidates.new.entries pgn candidate) }
{
    if let Some(candidates) = candidates.get_mut(&pgn) {
        candidates.push(candidate)?;
    } else {
        candidates.insert(pgn, Vec::from_array(alloc, [candidate])?)?;
    }
    Ok(())
}

/// A candidate for each definition.
fn all_candidates(
    alloc: Global,
    definitions: &[StoredDefinition],
) -> Result<CandidatesByPgn, AllocError>
    ensures { IfOk result (λ candidates. IsIndex candidates.entries definitions.now) }
{
    let mut candidates = IndexMap::new(alloc);
    for (place, definition) in definitions.iter().enumerate() {
        let match_prefilter = match_prefilter_of(definition.fields());
        note(
            alloc,
            &mut candidates,
            definition.pgn(),
            Candidate {
                place,
                match_prefilter,
            },
        )?;
    }
    Ok(candidates)
}

/// The bits that distinguish a PGN: its lowest 13, changed by the higher bits. By the lowest bits alone PGNs
/// whose lower 16 bits are the same would be one.
#[inline(always)]
fn slot_of(pgn: u32) -> usize
    ensures { result < 8192 }
{
    (pgn ^ (pgn >> 13)) as usize % QUICK
}

/// The place of each PGN in the map, by its mixed bits; if several PGNs share them, of the last.
fn quick_of(alloc: Global, candidates: &CandidatesByPgn) -> Result<Vec<u16>, AllocError>
    ensures { IfOk result (λ quick. length quick.items ≡ 8192) }
{
    let mut quick = vec![in alloc; 0u16; QUICK]?;
    for (at, pgn) in candidates.keys().enumerate() {
        if let Ok(at) = u16::try_from(at) {
            quick[slot_of(*pgn)] = at;
        }
    }
    Ok(quick)
}

/// Where all definitions stand.
pub(crate) fn index_of(alloc: Global, definitions: &[StoredDefinition]) -> Result<Index, AllocError>
    ensures { IfOk result (λ index. IsIndex index definitions.now) }
{
    let candidates = all_candidates(alloc, definitions)?;
    let quick = quick_of(alloc, &candidates)?;
    Ok(Index { candidates, quick })
}

/// The candidates of a PGN, found by its hash. It is not inlined: few PGNs are looked up so.
#[inline(never)]
fn candidates_by_hash(candidates: &CandidatesByPgn, pgn: u32) -> &[Candidate]
    ensures { result.now ≡ candidates_in candidates.now.entries pgn }
{
    match candidates.get(&pgn) {
        Some(candidates) => candidates.as_slice(),
        None => &[],
    }
}

/// The candidates of a PGN, none if the table doesn't have it.
pub(crate) fn candidates_at(index: &Index, pgn: u32) -> &[Candidate]
    ensures { result.now ≡ candidates_in index.now pgn }
{
    let at = index.quick[slot_of(pgn)];
    match index.candidates.get_index(usize::from(at)) {
        Some((found, candidates)) if *found == pgn => candidates.as_slice(),
        _ => candidates_by_hash(&index.candidates, pgn),
    }
}

/// The first definition of a PGN, if there is one.
fn first_of<'a>(
    index: &Index,
    definitions: &'a [StoredDefinition],
    pgn: u32,
) -> Option<&'a StoredDefinition>
    requires { IsIndex index.now definitions.now }
    ensures { option_map (λ d. d.now) result ≡ find (is_of pgn) definitions.now }
{
    definitions.get(candidates_at(index, pgn).first()?.place)
}

/// The definition at the place that the candidate at a place names.
pub(crate) fn nth_of<'a>(
    candidates: &[Candidate],
    definitions: &'a [StoredDefinition],
    place: usize,
) -> Option<&'a StoredDefinition>
    ensures { option_map (λ d. d.now) result
        ≡ option_and_then (slice_get definitions.now) (slice_get (places_of candidates.now) place) }
{
    definitions.get(candidates.get(place)?.place)
}

/// Whether a definition has another kind than the first of its PGN.
fn differs(index: &Index, definitions: &[StoredDefinition], definition: &StoredDefinition) -> bool
    requires { IsIndex index.now definitions.now }
    ensures { result ≡ differs definitions.now definition.now }
{
    match first_of(index, definitions, definition.pgn()) {
        Some(first) => first.is_mixed_with(definition),
        None => false,
    }
}

/// Whether two definitions of one PGN have different kinds. Then one of them has another than the first of the PGN, so
/// that not each pair has to be looked at.
pub(crate) fn has_mixed(index: &Index, definitions: &[StoredDefinition]) -> bool
    requires { IsIndex index.now definitions.now }
    ensures { result ≡ has_duplicate are_mixed definitions.now }
{
    for definition in definitions {
        if differs(index, definitions, definition) {
            return true;
        }
    }
    false
}
