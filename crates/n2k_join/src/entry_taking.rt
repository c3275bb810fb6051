//! The result of an entry, and the open groups after it.
ghost use Rattle.std.specs.Prelude.{◌≡◌, ◌+◌, Some, None, true, false, not, IfOk, IfSome, OnOk, OnErr, is_some, option_map};
ghost use Rattle.std.specs.List.{AllByRecursion};
ghost use Rattle.n2k_table.specs.declared.definition.Kind.TheVariants.{Fast};
ghost use Rattle.n2k_table.specs.Table.{kind};
ghost use Rattle.n2k_join.specs.Frames.{frame_in, frame_by, fast_frame};
ghost use Rattle.n2k_join.specs.Messages.{is_unknown, alone, cause_in, single_by, fast_cause};
ghost use Rattle.n2k_join.specs.State.{IsOpen, AreApart};
ghost use Rattle.n2k_join.specs.Step.{opens_by, packet_in, IsOwn};
ghost use Rattle.n2k_join.specs.Inner.Stored.{gives_by, leaves_by};
ghost use Rattle.n2k_join.specs.Inner.Order.{listed, IsKept};
ghost use Rattle.n2k_join.specs.Inner.Taken.{given_of_taken};

use crate::frame::fast_frame;
use crate::frame_taking::take_frame;
use crate::open_groups::OpenGroups;
use crate::step::Broken;
use n2k_table::{Kind, KnownPgn, Table};
use n2k_wire::{BadCause, Entry, Packet};
use std::alloc::AllocError;

/// The result of a line. A message stays in the line's entry, since a packet is large.
#[derive(Drop)]
pub(crate) struct Taken<'t> {
    /// The PGN of the message that is now in the entry's packet.
    pub(crate) message: Option<KnownPgn<'t>>,
    /// Why the line is bad.
    pub(crate) bad: Option<BadCause>,
    /// The group that the line breaks.
    pub(crate) broken: Option<Broken>,
    /// Whether the line's PGN is unknown.
    pub(crate) is_unknown: bool,
}

impl<'t> Taken<'t> {
    /// A line that gives a message or nothing.
    fn of(message: Option<KnownPgn<'t>>) -> Taken<'t>
        ensures { result ≡ record { message = message.entry; bad = None; broken = None; is_unknown = false } }
    {
        Taken {
            message,
            bad: None,
            broken: None,
            is_unknown: false,
        }
    }

    fn unknown() -> Taken<'t>
        ensures { result ≡ record { message = None; bad = None; broken = None; is_unknown = true } }
    {
        Taken {
            is_unknown: true,
            ..Taken::of(None)
        }
    }

    fn bad_line(cause: BadCause) -> Taken<'t>
        ensures { result ≡ record { message = None; bad = Some cause; broken = None; is_unknown = false } }
    {
        Taken {
            bad: Some(cause),
            ..Taken::of(None)
        }
    }
}

/// The packet of an entry, if it has one.
pub(crate) fn packet_in(entry: &Entry) -> Option<&Packet>
    ensures { option_map (λ p. p.now) result ≡ packet_in entry.now }
{
    match entry {
        Entry::Skip | Entry::Bad(_) => None,
        Entry::Frame(packet) | Entry::Whole(packet) => Some(packet),
    }
}

/// The packet of an entry, if it has one. The entry is dropped.
pub(crate) fn packet_of(entry: Entry) -> Option<Packet>
    ensures { result ≡ packet_in entry }
{
    match entry {
        Entry::Skip | Entry::Bad(_) => None,
        Entry::Frame(packet) | Entry::Whole(packet) => Some(packet),
    }
}

/// Takes a frame of a fast PGN into the open groups.
#[tactic(auto, using(crate::proofs::Order::kept_next), unfolding(crate::specs::Frames::fast_frame))]
fn take_fast<'t>(
    in_order: bool,
    groups: &mut OpenGroups,
    line: u64,
    known: KnownPgn<'t>,
    packet: &mut Packet,
) -> Result<Taken<'t>, AllocError>
    requires kept { IsKept line groups.old }
    requires open { AllByRecursion IsOpen (listed groups.old) }
    requires apart { AreApart (listed groups.old) }
    ensures given { IfOk result (λ o. given_of_taken o (Some packet.new)
        ≡ gives_by in_order None (fast_cause (Some Fast) packet.old) (listed groups.old)
        (fast_frame line packet.old)) }
    ensures own { IfOk result (λ o. IfSome o.message (λ k. k ≡ known.entry)) }
    ensures same { packet.new.id ≡ packet.old.id }
    ensures unknown { IfOk result (λ o. o.is_unknown ≡ false) }
    ensures groups { OnOk result (listed groups.new
        ≡ leaves_by in_order (listed groups.old) (fast_frame line packet.old)) }
    ensures kept { OnOk result (IsKept (line + 1) groups.new) }
    ensures still { OnErr result (IsKept line groups.new) }
    ensures unchanged { OnErr result (listed groups.new ≡ listed groups.old) }
    ensures packet { OnErr result (packet.new ≡ packet.old) }
    ensures memory { OnErr result (opens_by (listed groups.old) (fast_frame line packet.old) ≡ true) }
{
    let Some(frame) = fast_frame(packet) else {
        return Ok(Taken::bad_line(BadCause::Fast));
    };
    let (is_message, broken) = take_frame(in_order, groups, line, &frame, packet)?;
    let message = if is_message { Some(known) } else { None };
    Ok(Taken {
        broken,
        ..Taken::of(message)
    })
}

/// Takes the entry of a line into the open groups. Its packet becomes the message of a group
/// that it completes.
#[tactic(auto, using(crate::proofs::Order::kept_next))]
pub(crate) fn take_entry<'t>(
    in_order: bool,
    groups: &mut OpenGroups,
    line: u64,
    table: &'t Table,
    entry: &mut Entry,
) -> Result<Taken<'t>, AllocError>
    requires kept { IsKept line groups.old }
    requires open { AllByRecursion IsOpen (listed groups.old) }
    requires apart { AreApart (listed groups.old) }
    ensures given { let k = kind table.now in
        IfOk result (λ o. given_of_taken o (packet_in entry.new)
        ≡ gives_by in_order (alone k entry.old) (cause_in k entry.old) (listed groups.old)
        (frame_in k line entry.old)) }
    ensures own { IfOk result (λ o. IsOwn table.now o.message (packet_in entry.new)) }
    ensures unknown { IfOk result (λ o. o.is_unknown ≡ is_unknown (kind table.now) entry.old) }
    ensures groups { OnOk result (listed groups.new
        ≡ leaves_by in_order (listed groups.old) (frame_in (kind table.now) line entry.old)) }
    ensures kept { OnOk result (IsKept (line + 1) groups.new) }
    ensures still { OnErr result (IsKept line groups.new) }
    ensures unchanged { OnErr result (listed groups.new ≡ listed groups.old) }
    ensures entry { OnErr result (entry.new ≡ entry.old) }
    ensures memory { OnErr result (opens_by (listed groups.old) (frame_in (kind table.now) line entry.old)
        ≡ true) }
{
    match entry {
        Entry::Skip => Ok(Taken::of(None)),
        Entry::Bad(cause) => Ok(Taken::bad_line(*cause)),
        Entry::Frame(packet) => match table.find(packet.id().pgn) {
            None => Ok(Taken::unknown()),
            Some(known) => match known.kind() {
                Kind::Single => Ok(Taken::of(Some(known))),
                Kind::Fast => take_fast(in_order, groups, line, known, packet),
            },
        },
        Entry::Whole(packet) => match table.find(packet.id().pgn) {
            None => Ok(Taken::unknown()),
            Some(known) => Ok(Taken::of(Some(known))),
        },
    }
}
