//! A frame taken into the open groups.
ghost use Rattle.std.specs.Prelude.{◌≡◌, ℕ, Some, None, ◌<◌, ◌≤◌, ◌+◌, IsNone, ◌++◌, [], ◌∷◌, OnOk, OnErr, IfOk, IfSome, position, true, false};
ghost use Rattle.std.specs.List.{AllByRecursion};
ghost use Rattle.n2k_join.specs.Frames.{same_key};
ghost use Rattle.n2k_join.specs.State.{IsOpen, AreApart};
ghost use Rattle.n2k_join.specs.Inner.Stored.{rejects, key_of, frame_of, of_the_key, groups_after, gained, lost};
ghost use Rattle.n2k_join.specs.Inner.Order.{found, StandsAt, listed, IsKept};
ghost use Rattle.n2k_join.specs.Step.{message_in};

use crate::open_groups::{OpenGroups, note_of};
use crate::piece::{FastFrame, FrameKey, OpenGroup};
use crate::step::Broken;
use n2k_wire::Packet;
use std::alloc::AllocError;

/// The place of the group of a key in the map.
fn place_of(groups: &OpenGroups, key: &FrameKey) -> Option<usize>
    ensures place { IfSome result (λ at. StandsAt groups.now.groups.entries key.now at) }
    ensures none { IsNone result → found groups.now.groups.entries key.now ≡ None }
{
    let at = usize::from(groups.noted[note_of(key)]);
    match groups.groups.get_index(at) {
        Some((found, _)) if found == key => Some(at),
        _ => groups.groups.get_index_of(key),
    }
}

/// The result of a frame: whether its packet is now a message, and the group that the frame breaks.
pub(crate) type Gain = (bool, Option<Broken>);

/// Opens a group for a frame whose key has no open group, as the last. Returns true if the frame completes it alone:
/// the packet then becomes the message.
fn open_last(
    in_order: bool,
    groups: &mut OpenGroups,
    line: u64,
    frame: &FastFrame,
    packet: &mut Packet,
) -> Result<bool, AllocError>
    requires kept { IsKept line groups.old }
    requires new { found groups.old.groups.entries frame.now.key ≡ None }
    ensures same { packet.new.id ≡ packet.old.id }
    ensures message { let x = frame_of line packet.old frame.now in
        IfOk result (λ is. message_in is (Some packet.new) ≡ gained in_order x (of_the_key x.key (listed groups.old))) }
    ensures groups { OnOk result (listed groups.new
        ≡ groups_after in_order (listed groups.old) (frame_of line packet.old frame.now)) }
    ensures kept { OnOk result (IsKept (line + 1) groups.new) }
    ensures unchanged { OnErr result (listed groups.new ≡ listed groups.old) }
    ensures packet { OnErr result (packet.new ≡ packet.old) }
    ensures still { OnErr result (IsKept line groups.new) }
{
    let begun = OpenGroup::open(line, frame);
    if begun.is_complete() {
        begun.write_message(packet);
        return Ok(true);
    }
    groups.insert(frame.key, &begun)?;
    Ok(false)
}

/// Adds a frame to the group of its key, which has a place for it. Returns true if that completes the group: the group
/// is removed and the packet becomes the message.
fn join_at(
    in_order: bool,
    groups: &mut OpenGroups,
    at: usize,
    line: u64,
    frame: &FastFrame,
    packet: &mut Packet,
) -> bool
    requires kept { IsKept line groups.old }
    requires open { AllByRecursion IsOpen (listed groups.old) }
    requires apart { AreApart (listed groups.old) }
    requires place { StandsAt groups.old.groups.entries frame.now.key at }
    requires missing { IfSome (of_the_key (key_of frame.now.key) (listed groups.old))
        (λ o. rejects in_order frame.now.piece.number o ≡ false) }
    ensures same { packet.new.id ≡ packet.old.id }
    ensures message { let x = frame_of line packet.old frame.now in
        message_in result (Some packet.new) ≡ gained in_order x (of_the_key x.key (listed groups.old)) }
    ensures groups { listed groups.new
        ≡ groups_after in_order (listed groups.old) (frame_of line packet.old frame.now) }
    ensures kept { IsKept (line + 1) groups.new }
{
    let Some(linked) = groups.groups.get_index_mut(at) else {
        unreachable!()
    };
    let group = &mut linked.group;
    group.take(frame.piece);
    if group.is_complete() {
        group.write_message(packet);
        groups.remove_at(at);
        return true;
    }
    false
}

/// Breaks the group of a frame's key, which has no place for the frame, and opens a new last group with it in the same
/// memory. If the frame completes the new group alone, the group is removed and the packet becomes the message.
fn reopen_at(
    in_order: bool,
    groups: &mut OpenGroups,
    at: usize,
    line: u64,
    frame: &FastFrame,
    packet: &mut Packet,
) -> Gain
    requires kept { IsKept line groups.old }
    requires open { AllByRecursion IsOpen (listed groups.old) }
    requires apart { AreApart (listed groups.old) }
    requires place { StandsAt groups.old.groups.entries frame.now.key at }
    requires there { IfSome (of_the_key (key_of frame.now.key) (listed groups.old))
        (λ o. rejects in_order frame.now.piece.number o ≡ true) }
    ensures same { packet.new.id ≡ packet.old.id }
    ensures message { let x = frame_of line packet.old frame.now in
        message_in result.0 (Some packet.new) ≡ gained in_order x (of_the_key x.key (listed groups.old)) }
    ensures broken { let x = frame_of line packet.old frame.now in
        result.1 ≡ lost in_order x (of_the_key x.key (listed groups.old)) }
    ensures groups { listed groups.new
        ≡ groups_after in_order (listed groups.old) (frame_of line packet.old frame.now) }
    ensures kept { IsKept (line + 1) groups.new }
{
    let broken = Some(groups.groups[at].group.broken(&frame.key));
    let fresh = OpenGroup::open(line, frame);
    if fresh.is_complete() {
        fresh.write_message(packet);
        groups.remove_at(at);
        return (true, broken);
    }
    groups.replace_at(at, fresh);
    (false, broken)
}

/// Adds a frame to the open groups. If it completes a message, its packet becomes that message. Memory is needed only
/// if the key has no open group; if memory is refused, the packet is unchanged.
pub(crate) fn take_frame(
    in_order: bool,
    groups: &mut OpenGroups,
    line: u64,
    frame: &FastFrame,
    packet: &mut Packet,
) -> Result<Gain, AllocError>
    requires kept { IsKept line groups.old }
    requires open { AllByRecursion IsOpen (listed groups.old) }
    requires apart { AreApart (listed groups.old) }
    ensures same { packet.new.id ≡ packet.old.id }
    ensures message { let x = frame_of line packet.old frame.now in
        IfOk result (λ g. message_in g.0 (Some packet.new)
        ≡ gained in_order x (of_the_key x.key (listed groups.old))) }
    ensures broken { let x = frame_of line packet.old frame.now in
        IfOk result (λ g. g.1 ≡ lost in_order x (of_the_key x.key (listed groups.old))) }
    ensures groups { OnOk result (listed groups.new
        ≡ groups_after in_order (listed groups.old) (frame_of line packet.old frame.now)) }
    ensures kept { OnOk result (IsKept (line + 1) groups.new) }
    ensures unchanged { OnErr result (listed groups.new ≡ listed groups.old) }
    ensures packet { OnErr result (packet.new ≡ packet.old) }
    ensures still { OnErr result (IsKept line groups.new) }
    ensures memory { OnErr result (of_the_key (key_of frame.now.key) (listed groups.old) ≡ None) }
{
    let Some(at) = place_of(groups, &frame.key) else {
        let is_message = open_last(in_order, groups, line, frame, packet)?;
        return Ok((is_message, None));
    };
    if groups.groups[at]
        .group
        .rejects(in_order, frame.piece.number)
    {
        return Ok(reopen_at(in_order, groups, at, line, frame, packet));
    }
    let is_message = join_at(in_order, groups, at, line, frame, packet);
    Ok((is_message, None))
}
