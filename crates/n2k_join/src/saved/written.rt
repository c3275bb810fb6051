//! A fast path: finds the counts and the groups in a text of the form that `save` writes, without a tree of values.
//! Nothing is promised of the result: `Join::resume_written` saves the join made from it, and accepts it only if the
//! text is the same. Read `reader.rt` first, which reads any text.
ghost use Rattle.std.specs.Prelude.{◌≤◌, length, IfSome, IfOk};

use crate::counts::Counts;
use crate::saved::spelled::{SpelledGroup, SpelledKey, SpelledPiece};
use crate::window::{Window, is_waiting};
use std::alloc::{AllocError, Global};

/// The whole number at the start of a text, without leading zeros, and the rest of the text.
fn number_in(text: &[u8]) -> Option<(u64, &[u8])>
    ensures { IfSome result (λ r. length r.1.now ≤ length text.now) }
{
    let mut number: u64 = 0;
    let mut rest = text;
    while let Some((byte, others)) = rest.split_first() {
        if !byte.is_ascii_digit() {
            break;
        }
        number = number
            .checked_mul(10)?
            .checked_add(u64::from(*byte & 0x0f))?;
        rest = others;
    }
    let digits = text.len() - rest.len();
    if digits == 0 || (digits > 1 && text.first() == Some(&b'0')) {
        return None;
    }
    Some((number, rest))
}

/// The whole number after a label.
fn number_after<'a>(label: &[u8], text: &'a [u8]) -> Option<(u64, &'a [u8])>
    ensures { IfSome result (λ r. length r.1.now ≤ length text.now) }
{
    number_in(text.strip_prefix(label)?)
}

/// The bytes that the digits at the start of a text spell.
fn bytes_in(text: &[u8]) -> Option<([u8; 7], &[u8])>
    ensures { IfSome result (λ r. length r.1.now ≤ length text.now) }
{
    let (digits, rest) = text.split_at_checked(14)?;
    let mut bytes = [0; 7];
    hex::decode_to_slice(digits, &mut bytes).ok()?;
    Some((bytes, rest))
}

/// The frame at the start of a text.
fn piece_in(text: &[u8]) -> Option<(SpelledPiece, &[u8])>
    ensures { IfSome result (λ r. length r.1.now ≤ length text.now) }
{
    let (number, rest) = number_after(b"[", text)?;
    let (bytes, rest) = bytes_in(rest.strip_prefix(b",\"")?)?;
    let rest = rest.strip_prefix(b"\"]")?;
    Some((SpelledPiece { number, bytes }, rest))
}

/// The frames at the start of a text, separated by commas.
fn pieces_in(alloc: Global, text: &[u8]) -> Result<Option<(Vec<SpelledPiece>, &[u8])>, AllocError>
    ensures { IfOk result (λ found. IfSome found (λ r. length r.1.now ≤ length text.now)) }
{
    let mut pieces = Vec::new(alloc);
    let mut rest = text;
    while let Some((piece, after)) = piece_in(rest) {
        pieces.push(piece)?;
        match after.strip_prefix(b",") {
            Some(others) => rest = others,
            None => return Ok(Some((pieces, after))),
        }
    }
    Ok(None)
}

/// The destination and the first line of the group at the start of a text.
fn group_prefix(text: &[u8]) -> Option<(u64, u64, &[u8])>
    ensures { IfSome result (λ r. length r.2.now ≤ length text.now) }
{
    let (dst, rest) = number_after(b"{\"dst\":", text)?;
    let (first, rest) = number_after(b",\"first\":", rest)?;
    let rest = rest.strip_prefix(b",\"frames\":[")?;
    Some((dst, first, rest))
}

/// The key of a group, from the destination and the text after its frames.
fn group_key(dst: u64, text: &[u8]) -> Option<(SpelledKey, &[u8])>
    ensures { IfSome result (λ r. length r.1.now ≤ length text.now) }
{
    let (pgn, rest) = number_after(b"],\"pgn\":", text)?;
    let (sequence, rest) = number_after(b",\"seq\":", rest)?;
    let (src, rest) = number_after(b",\"src\":", rest)?;
    let rest = rest.strip_prefix(b"}")?;
    let key = SpelledKey {
        src,
        dst,
        pgn,
        sequence,
    };
    Some((key, rest))
}

/// The group at the start of a text.
fn group_in(alloc: Global, text: &[u8]) -> Result<Option<(SpelledGroup, &[u8])>, AllocError>
    ensures { IfOk result (λ found. IfSome found (λ r. length r.1.now ≤ length text.now)) }
{
    let Some((dst, first, rest)) = group_prefix(text) else {
        return Ok(None);
    };
    let Some((pieces, rest)) = pieces_in(alloc, rest)? else {
        return Ok(None);
    };
    let Some((key, rest)) = group_key(dst, rest) else {
        return Ok(None);
    };
    Ok(Some((SpelledGroup { first, key, pieces }, rest)))
}

/// The groups at the start of a text, separated by commas. There may be none.
fn groups_in(alloc: Global, text: &[u8]) -> Result<Option<(Vec<SpelledGroup>, &[u8])>, AllocError> {
    let mut groups = Vec::new(alloc);
    if text.first() == Some(&b']') {
        return Ok(Some((groups, text)));
    }
    let mut rest = text;
    while let Some((group, after)) = group_in(alloc, rest)? {
        groups.push(group)?;
        match after.strip_prefix(b",") {
            Some(others) => rest = others,
            None => return Ok(Some((groups, after))),
        }
    }
    Ok(None)
}

/// The counts of bad lines and broken groups at the start of a text, up to its groups.
fn counts_prefix(text: &[u8]) -> Option<(u64, u64, &[u8])> {
    let (bad, rest) = number_after(b"{\"bad\":", text)?;
    let (broken, rest) = number_after(b",\"broken\":", rest)?;
    let rest = rest.strip_prefix(b",\"format\":2,\"groups\":[")?;
    Some((bad, broken, rest))
}

/// The counts of lines, messages and unknown PGNs after the groups of a text, if the text has this table and window and
/// ends there.
fn counts_suffix(id: &[u8; 32], window: Window, text: &[u8]) -> Option<(u64, u64, u64)> {
    let (lines, rest) = number_after(b"],\"lines\":", text)?;
    let (messages, rest) = number_after(b",\"messages\":", rest)?;
    let rest = rest.strip_prefix(b",\"table\":\"")?;
    let (digits, rest) = rest.split_at_checked(64)?;
    let mut bytes = [0; 32];
    hex::decode_to_slice(digits, &mut bytes).ok()?;
    let (unknown, rest) = number_after(b"\",\"unknown\":", rest)?;
    let (long, rest) = number_after(b",\"window\":", rest)?;
    if bytes != *id || long != u64::from(window.get()) || rest != b"}".as_slice() {
        return None;
    }
    Some((lines, messages, unknown))
}

/// Whether the first of some groups still waits, or there is none. First lines must rise, so there are then at most as
/// many groups as the window has lines.
fn is_first_waiting(window: Window, lines: u64, groups: &[SpelledGroup]) -> bool {
    match groups.first() {
        Some(group) => is_waiting(group.first, u64::from(window.get()), lines),
        None => true,
    }
}

/// The counts and the groups of a text, if `save` seems to have written it.
pub(crate) fn written_parts(
    alloc: Global,
    id: &[u8; 32],
    window: Window,
    text: &[u8],
) -> Result<Option<(Counts, Vec<SpelledGroup>)>, AllocError> {
    let Some((bad, broken, rest)) = counts_prefix(text) else {
        return Ok(None);
    };
    let Some((groups, rest)) = groups_in(alloc, rest)? else {
        return Ok(None);
    };
    let Some((lines, messages, unknown)) = counts_suffix(id, window, rest) else {
        return Ok(None);
    };
    if !is_first_waiting(window, lines, &groups) {
        return Ok(None);
    }
    let counts = Counts {
        lines,
        messages,
        bad,
        unknown,
        broken,
        held: 0,
    };
    Ok(Some((counts, groups)))
}
