//! The open groups: by key in a map, and in a list by the lines that opened them.
ghost use Rattle.std.specs.Prelude.{◌≡◌, ℕ, ◌+◌, ◌<◌, ◌++◌, List, [], ◌∷◌, OnOk, OnErr, IsSome, IsNone, Some, None, length, drop, option_map, slice_get};
ghost use Rattle.n2k_join.specs.Messages.{as_broken};
ghost use Rattle.n2k_join.specs.Open.{ended};
ghost use Rattle.n2k_join.specs.Window.{Window as WindowParts};
ghost use Rattle.n2k_join.specs.Inner.Stored.{key_of};
ghost use Rattle.n2k_join.specs.Inner.Slots.{group_in};
ghost use Rattle.n2k_join.specs.Inner.Order.{found, item_at, IsPlace, after_of, before_of, places, groups_at, listed, IsKept, AreRelinked};
ghost use Rattle.n2k_join.specs.Inner.Places.{nowhere, put};

use crate::piece::{FrameKey, OpenGroup};
use crate::step::Broken;
use crate::window::{Window, is_waiting};
use indexmap::IndexMap;
use std::alloc::{AllocError, Global};

/// How many places of keys are noted.
const NOTED: usize = 256;

/// The place of no group.
const NOWHERE: usize = usize::MAX;

/// A group, and the places of the groups opened before and after it.
#[derive(Drop)]
pub(crate) struct Linked {
    pub(crate) group: OpenGroup,
    pub(crate) before: usize,
    pub(crate) after: usize,
}

/// The open groups. The map has no order, so that any group is removed from it at once: the last takes its place. The
/// list through the groups has the order: the oldest is found at once, and any group is removed at once.
#[derive(Drop)]
pub(crate) struct OpenGroups {
    pub(crate) groups: IndexMap<FrameKey, Linked>,
    pub(crate) first: usize,
    pub(crate) last: usize,
    /// By the mixed bits of a key, the place in the map where its group may be. The caller compares the key; that costs
    /// less than a hash.
    pub(crate) noted: [u16; NOTED],
}

/// The bits of a key by which its place is noted.
#[inline(always)]
pub(crate) fn note_of(key: &FrameKey) -> usize
    ensures { result < 256 }
{
    (key.pgn ^ u32::from(key.src) ^ u32::from(key.sequence) << 5) as usize % NOTED
}

impl OpenGroups {
    pub(crate) fn new(alloc: Global) -> OpenGroups
        ensures listed { listed result ≡ [] }
        ensures kept { (next : ℕ) → 0 < next → IsKept next result }
    {
        OpenGroups {
            groups: IndexMap::new(alloc),
            first: NOWHERE,
            last: NOWHERE,
            noted: [0; NOTED],
        }
    }

    /// The number of open groups.
    pub(crate) fn len(&self) -> usize
        ensures { (next : ℕ) → IsKept next self.now → result ≡ length (listed self.now) }
    {
        self.groups.len()
    }

    /// Sets the place after a place, or the first place.
    fn set_after(&mut self, at: usize, after: usize)
        requires few { length self.old.groups.entries < nowhere }
        requires place { IsPlace (length self.old.groups.entries) at }
        ensures { AreRelinked self.old self.new (put at after (after_of self.old)) (before_of self.old) }
    {
        match self.groups.get_index_mut(at) {
            Some(linked) => linked.after = after,
            None => self.first = after,
        }
    }

    /// Sets the place before a place, or the last place.
    fn set_before(&mut self, at: usize, before: usize)
        requires few { length self.old.groups.entries < nowhere }
        requires place { IsPlace (length self.old.groups.entries) at }
        ensures { AreRelinked self.old self.new (after_of self.old) (put at before (before_of self.old)) }
    {
        match self.groups.get_index_mut(at) {
            Some(linked) => linked.before = before,
            None => self.last = before,
        }
    }

    /// Adds a group for a key that has no open group. The group is copied once, to its final place; the map itself
    /// would copy it twice, word by word. If memory is refused, the groups are unchanged.
    pub(crate) fn insert(&mut self, key: FrameKey, group: &OpenGroup) -> Result<(), AllocError>
        requires kept { IsKept group.now.first self.old }
        requires new { found self.old.groups.entries key ≡ None }
        ensures added { OnOk result (listed self.new ≡ listed self.old ++ group_in (key_of key) group.now ∷ []) }
        ensures kept { OnOk result (IsKept (group.now.first + 1) self.new) }
        ensures unchanged { OnErr result (listed self.new ≡ listed self.old) }
        ensures still { OnErr result (IsKept group.now.first self.new) }
    {
        let at = self.groups.len();
        let before = self.last;
        let empty = Linked {
            group: OpenGroup::new(0),
            before,
            after: NOWHERE,
        };
        self.groups.insert(key, empty)?;
        let Some(linked) = self.groups.get_index_mut(at) else {
            unreachable!()
        };
        linked.group = *group;
        self.noted[note_of(&key)] = (at % 0x1_0000) as u16;
        self.set_after(before, at);
        self.last = at;
        Ok(())
    }

    /// Removes a place from the list.
    fn unlink(&mut self, at: usize)
        requires kept { (next : ℕ) × IsKept next self.old }
        requires within { at < length self.old.groups.entries }
        ensures { AreRelinked self.old self.new
            (put (before_of self.old at) (after_of self.old at) (after_of self.old))
            (put (after_of self.old at) (before_of self.old at) (before_of self.old)) }
    {
        let Some((_, linked)) = self.groups.get_index(at) else {
            unreachable!()
        };
        let before = linked.before;
        let after = linked.after;
        self.set_after(before, after);
        self.set_before(after, before);
    }

    /// Puts a group in the place of another of its key, as the last.
    pub(crate) fn replace_at(&mut self, at: usize, group: OpenGroup)
        requires kept { IsKept group.first self.old }
        requires within { at < length self.old.groups.entries }
        ensures replaced { (key : FrameKey) (old : OpenGroup) → item_at self.old at ≡ Some (key, old)
            → (xs ys : List ℕ) → places self.old ≡ xs ++ at ∷ ys
            → listed self.new ≡ (groups_at (item_at self.old) xs ++ groups_at (item_at self.old) ys) ++ group_in (key_of key) group ∷ [] }
        ensures kept { IsKept (group.first + 1) self.new }
    {
        self.unlink(at);
        let before = self.last;
        let Some(linked) = self.groups.get_index_mut(at) else {
            unreachable!()
        };
        linked.group = group;
        linked.before = before;
        linked.after = NOWHERE;
        self.set_after(before, at);
        self.last = at;
    }

    /// Removes a group. The last group of the map takes its place.
    pub(crate) fn remove_at(&mut self, at: usize)
        requires kept { (next : ℕ) × IsKept next self.old }
        requires within { at < length self.old.groups.entries }
        ensures gone { (xs ys : List ℕ) → places self.old ≡ xs ++ at ∷ ys
            → listed self.new ≡ groups_at (item_at self.old) xs ++ groups_at (item_at self.old) ys }
        ensures kept { (next : ℕ) → IsKept next self.old → IsKept next self.new }
    {
        self.unlink(at);
        self.groups.swap_remove_index(at);
        if let Some((key, moved)) = self.groups.get_index(at) {
            let before = moved.before;
            let after = moved.after;
            self.noted[note_of(key)] = (at % 0x1_0000) as u16;
            self.set_after(before, at);
            self.set_before(after, at);
        }
    }

    /// Removes the oldest group whose window has ended by the line, and returns its report.
    pub(crate) fn take_ended(&mut self, window: Window, line: u64) -> Option<Broken>
        requires kept { IsKept line self.old }
        ensures broken { result ≡ option_map as_broken (slice_get (ended window line (listed self.old)) 0) }
        ensures taken { IsSome result → listed self.new ≡ drop 1 (listed self.old) }
        ensures unchanged { IsNone result → listed self.new ≡ listed self.old }
        ensures kept { IsKept line self.new }
    {
        let at = self.first;
        let (key, linked) = self.groups.get_index(at)?;
        if is_waiting(linked.group.first, u64::from(window.get()), line) {
            return None;
        }
        let broken = linked.group.broken(key);
        self.remove_at(at);
        Some(broken)
    }
}
