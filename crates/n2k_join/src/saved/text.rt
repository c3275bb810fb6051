//! The text of a saved state.
ghost use Rattle.std.specs.Prelude.{◌≡◌, ℕ, ◌*◌, ◌<◌, ◌≤◌, [], ◌∷◌, IfOk, IfSome};
ghost use Rattle.hex.specs.Hex.{encode_lower};
ghost use Rattle.json.specs.Token.{Token};
ghost use Rattle.n2k_join.specs.Frames.{most_frames};
ghost use Rattle.n2k_join.specs.Open.{piece_at, is_waiting};
ghost use Rattle.n2k_join.specs.Saved.{piece_tree, group_tree, state_tree, state_text, IsId};
ghost use Rattle.n2k_join.specs.Inner.SavedTokens.{AppendsTokens, tokens_of, count_tokens, piece_tokens, pieces_tokens, frames_tokens, key_tokens, groups_tokens, open_tokens, prefix_tokens, table_tokens, back_tokens, window_tokens};
ghost use Rattle.std.specs.List.{list_all};
ghost use Rattle.n2k_join.specs.Inner.Stored.{key_of};
ghost use Rattle.n2k_join.specs.Inner.Slots.{slot_of, pieces_in, group_in};
ghost use Rattle.n2k_join.specs.Inner.Order.{listed, IsKept};
ghost use Rattle.std.specs.Str.{IsUtf8};

use crate::counts::Counts;
use crate::frame::MOST_FRAMES;
use crate::open_groups::OpenGroups;
use crate::piece::{FrameKey, OpenGroup};
use crate::saved::{OLD_FORMAT, SAVED_FORMAT};
use crate::window::{Window, is_waiting};
use json::Writer;
use std::alloc::{AllocError, Global};
use std::str;

/// Writes a member that is a whole number.
fn push_count(name: &str, number: u64, out: &mut Writer) -> Result<(), AllocError>
    ensures { AppendsTokens result out.old out.new (count_tokens name.now number) }
{
    out.key(name)?;
    out.u64(number)
}

/// The digits, which are UTF-8, as text.
fn text_of(digits: &[u8]) -> &str
    requires { IsUtf8 digits.now }
    ensures { result.now ≡ digits.now }
{
    str::from_utf8(digits).unwrap()
}

/// Writes bytes as hexadecimal digits, two for each.
#[tactic(auto, using(crate::proofs::SavedDigits::digits))]
fn push_digits<const COUNT: usize, const DIGITS: usize>(
    bytes: &[u8; COUNT],
    out: &mut Writer,
) -> Result<(), AllocError>
    requires two { DIGITS ≡ 2 * COUNT }
    requires few { DIGITS ≤ 64 }
    ensures { AppendsTokens result out.old out.new (Token.string (encode_lower bytes.now) ∷ []) }
{
    let mut digits = [0; DIGITS];
    let _ = hex::encode_to_slice(bytes, &mut digits);
    out.string(text_of(&digits))
}

/// Writes a frame of a group: its number and its bytes.
#[tactic(auto, unfolding(crate::specs::Saved::piece_tree))]
fn push_piece(number: u8, bytes: &[u8; 7], out: &mut Writer) -> Result<(), AllocError>
    ensures { AppendsTokens result out.old out.new (tokens_of (piece_tree (record { number = number; bytes = bytes.now }))) }
{
    out.begin_array()?;
    out.u64(u64::from(number))?;
    push_digits::<7, 14>(bytes, out)?;
    out.end_array()
}

/// Writes the frame with a number, if the group has one.
fn push_numbered(group: &OpenGroup, number: u8, out: &mut Writer) -> Result<(), AllocError>
    requires { number < most_frames }
    ensures { AppendsTokens result out.old out.new (piece_tokens (piece_at (slot_of group.now) number)) }
{
    match group.carried(number) {
        Some(bytes) => push_piece(number, bytes, out),
        None => Ok(()),
    }
}

/// Writes the frames of a group, by rising number.
fn push_pieces(group: &OpenGroup, out: &mut Writer) -> Result<(), AllocError>
    ensures { AppendsTokens result out.old out.new (pieces_tokens (pieces_in group.now)) }
{
    for number in 0..MOST_FRAMES {
        push_numbered(group, number, out)?;
    }
    Ok(())
}

/// Writes the frames of a group as a member.
fn push_frames(group: &OpenGroup, out: &mut Writer) -> Result<(), AllocError>
    ensures { AppendsTokens result out.old out.new (frames_tokens (pieces_in group.now)) }
{
    out.key("frames")?;
    out.begin_array()?;
    push_pieces(group, out)?;
    out.end_array()
}

/// Writes the key of a group's frames except the destination.
fn push_key(key: &FrameKey, out: &mut Writer) -> Result<(), AllocError>
    ensures { AppendsTokens result out.old out.new (key_tokens (key_of key.now)) }
{
    push_count("pgn", u64::from(key.pgn), out)?;
    push_count("seq", u64::from(key.sequence), out)?;
    push_count("src", u64::from(key.src), out)
}

/// Writes an open group.
fn push_group(key: &FrameKey, group: &OpenGroup, out: &mut Writer) -> Result<(), AllocError>
    ensures { AppendsTokens result out.old out.new (tokens_of (group_tree (group_in (key_of key.now) group.now))) }
{
    out.begin_object()?;
    push_count("dst", u64::from(key.dst), out)?;
    push_count("first", group.first, out)?;
    push_frames(group, out)?;
    push_key(key, out)?;
    out.end_object()
}

/// Writes the open groups as a member.
fn push_groups(groups: &OpenGroups, out: &mut Writer) -> Result<(), AllocError>
    ensures { AppendsTokens result out.old out.new (groups_tokens (listed groups.now)) }
{
    let mut at = groups.first;
    for _written in 0..groups.groups.len() {
        let Some((key, linked)) = groups.groups.get_index(at) else {
            return Ok(());
        };
        push_group(key, &linked.group, out)?;
        at = linked.after;
    }
    Ok(())
}

/// Writes the member `groups`.
fn push_open(groups: &OpenGroups, out: &mut Writer) -> Result<(), AllocError>
    ensures { AppendsTokens result out.old out.new (open_tokens (listed groups.now)) }
{
    out.key("groups")?;
    out.begin_array()?;
    push_groups(groups, out)?;
    out.end_array()
}

/// Writes the members before `groups`, of a state with its window or without.
fn push_prefix(with_window: bool, counts: &Counts, out: &mut Writer) -> Result<(), AllocError>
    ensures { AppendsTokens result out.old out.new (prefix_tokens with_window counts.now) }
{
    let format = if with_window {
        SAVED_FORMAT
    } else {
        OLD_FORMAT
    };
    push_count("bad", counts.bad, out)?;
    push_count("broken", counts.broken, out)?;
    push_count("format", format, out)
}

/// Writes the member `table`.
fn push_table(id: &[u8; 32], out: &mut Writer) -> Result<(), AllocError>
    ensures { AppendsTokens result out.old out.new (table_tokens id.now) }
{
    out.key("table")?;
    push_digits::<32, 64>(id, out)
}

/// Writes the member `window`, if the state has it.
fn push_window(with_window: bool, window: u32, out: &mut Writer) -> Result<(), AllocError>
    ensures { AppendsTokens result out.old out.new (window_tokens with_window window) }
{
    if with_window {
        push_count("window", u64::from(window), out)
    } else {
        Ok(())
    }
}

/// Writes the members after `groups`.
fn push_back(
    with_window: bool,
    id: &[u8; 32],
    window: Window,
    counts: &Counts,
    out: &mut Writer,
) -> Result<(), AllocError>
    ensures { AppendsTokens result out.old out.new (back_tokens with_window id.now window.lines counts.now) }
{
    push_count("lines", counts.lines, out)?;
    push_count("messages", counts.messages, out)?;
    push_table(id, out)?;
    push_count("unknown", counts.unknown, out)?;
    push_window(with_window, window.get(), out)?;
    Ok(())
}

/// Whether no group's window has ended.
fn are_waiting(window: Window, lines: u64, groups: &OpenGroups) -> bool
    requires { (next : ℕ) × IsKept next groups.now }
    ensures { result ≡ list_all (is_waiting window lines) (listed groups.now) }
{
    match groups.groups.get_index(groups.first) {
        Some((_, linked)) => is_waiting(linked.group.first, u64::from(window.get()), lines),
        None => true,
    }
}

/// Writes a state, with its window if no group's window has ended.
fn push_state(
    id: &[u8; 32],
    window: Window,
    counts: &Counts,
    groups: &OpenGroups,
    out: &mut Writer,
) -> Result<(), AllocError>
    requires { (next : ℕ) × IsKept next groups.now }
    ensures { AppendsTokens result out.old out.new (tokens_of (state_tree (record {
      id = id.now;
      window = window;
      counts = counts.now;
      groups = listed groups.now;
    }))) }
{
    let with_window = are_waiting(window, counts.lines, groups);
    out.begin_object()?;
    push_prefix(with_window, counts, out)?;
    push_open(groups, out)?;
    push_back(with_window, id, window, counts, out)?;
    out.end_object()?;
    Ok(())
}

/// The text of a state.
pub(crate) fn state_text(
    alloc: Global,
    id: &[u8; 32],
    window: Window,
    counts: &Counts,
    groups: &OpenGroups,
) -> Result<Vec<u8>, AllocError>
    requires { (next : ℕ) × IsKept next groups.now }
    ensures id { IsId id.now }
    ensures text { IfOk result (λ text. text.items ≡ state_text (record {
      id = id.now;
      window = window;
      counts = counts.now;
      groups = listed groups.now;
    })) }
{
    let mut out = Writer::new(Vec::new(alloc));
    push_state(id, window, counts, groups, &mut out)?;
    Ok(out.into_inner())
}
