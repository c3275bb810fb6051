//! The join: the open groups and the counts of a log, updated line by line.
ghost use Rattle.std.specs.Prelude.{◌≡◌, ◌+◌, ◌*◌, ◌≤◌, ◌<◌, ◌↔◌, ℕ, [], length, IfOk, IfSome, OnOk, OnErr, IsErrOf, IsSome, IsNone, Ok, Option, None, Some, true, is_some, option_map};
ghost use Rattle.n2k_table.specs.declared.definition.Kind.{Kind};
ghost use Rattle.n2k_table.specs.Table.{kind};
ghost use Rattle.n2k_wire.specs.declared.entry.Entry.{Entry};
ghost use Rattle.n2k_wire.specs.Entry.{IsShort, IsEntry};
ghost use Rattle.n2k_wire.specs.Packet.{IsPacket, IsPacketParts};
ghost use Rattle.n2k_join.specs.Counts.{most_lines};
ghost use Rattle.n2k_join.specs.Open.{Group};
ghost use Rattle.n2k_join.specs.Messages.{as_broken};
ghost use Rattle.n2k_join.specs.State.{IsState, state, step_given, step_after, AreCounts, AreFast, AreWaiting, one_if};
ghost use Rattle.n2k_join.specs.Refusal.{GivesOrMemory};
ghost use Rattle.n2k_join.specs.Resumed.{is_valid, resumed, state_of_parts, valid_if};
ghost use Rattle.n2k_join.specs.Saved.{IsId, state_text, bare_bytes, group_bytes};
ghost use Rattle.n2k_join.specs.Step.{given_of, packet_in, step_in, opens, due, expired, IsOwn, TakesLine};
ghost use Rattle.n2k_join.specs.Laws.{ExpiresFirst};
ghost use Rattle.n2k_join.specs.Inner.Taken.{given_of_taken};

use crate::counts::{Counts, MOST_LINES};
use crate::entry_taking::{Taken, packet_of, take_entry};
use crate::fault::{JoinFault, StateFault};
use crate::laws;
use crate::open_groups::OpenGroups;
use crate::saved::{
    SpelledGroup, format_in, parsed, read_state, rules_hold, state_text, stored_groups, waits_hold,
    written_parts,
};
use crate::step::{Broken, InPlaceStep, Step};
use crate::window::Window;
use n2k_table::laws::ids_are_valid;
use n2k_table::{Table, TableId};
use n2k_wire::{Entry, Id, Packet};
use std::alloc::{AllocError, Global};
use std::marker::Model;

/// The state after the lines of a log: their counts, and the open groups of frames, by the lines that opened them. It
/// keeps no line and no stamp.
#[derive(Drop)]
pub struct Join {
    id: TableId,
    window: Window,
    counts: Counts,
    groups: OpenGroups,
}

impl Model for Join {
    ghost use Rattle.n2k_join.specs.Inner.Order.{listed, IsKept};
    ghost use Rattle.std.specs.Prelude.{◌+◌};
    ghost use Rattle.n2k_join.specs.State.{State, IsState};

    ghost Value = { State };

    ghost view = { λ j. record {
      id = j.id;
      window = j.window;
      counts = j.counts;
      groups = listed j.groups;
    } };

    ghost invariant = { λ j. IsState (record {
      id = j.id;
      window = j.window;
      counts = j.counts;
      groups = listed j.groups;
    }) × IsKept (j.counts.lines + 1) j.groups };
}

/// The types guarantee the parts of a packet.
fn lemma_parts_valid(stamp: &[u8], id: Id, data: &[u8])
    requires { IsPacket stamp.now id «data».now }
    ensures { IsPacketParts (record { stamp = stamp.now; id = id; payload = «data».now }) }
{}

/// The types guarantee a packet.
fn lemma_packet_valid(packet: &Packet)
    ensures { IsPacketParts packet.now }
{
    lemma_parts_valid(packet.stamp(), packet.id(), packet.data());
}

/// The types guarantee an entry.
fn lemma_entry_valid(entry: &Entry)
    ensures { IsShort entry.now → IsEntry entry.now }
{
    match entry {
        Entry::Skip | Entry::Bad(_) => {}
        Entry::Frame(packet) | Entry::Whole(packet) => lemma_packet_valid(packet),
    }
}

/// Counts one more if the condition is true. A separate branch, so that a line touches only the counts that it changes.
#[inline(always)]
fn count_if(is: bool, count: &mut u64)
    requires { count.old < most_lines + most_lines }
    ensures { count.new ≡ count.old + one_if is }
{
    if is {
        *count += 1;
    }
}

/// Counts a line.
#[inline(always)]
fn count_line(taken: &Taken<'_>, held: usize, counts: &mut Counts)
    requires are { AreCounts counts.old }
    requires below { counts.old.lines < most_lines }
    ensures { counts.new ≡ record {
      lines = counts.old.lines + 1;
      messages = counts.old.messages + one_if (is_some taken.now.message);
      bad = counts.old.bad + one_if (is_some taken.now.bad);
      unknown = counts.old.unknown + one_if taken.now.is_unknown;
      broken = counts.old.broken + one_if (is_some taken.now.broken);
      held = held;
    } }
{
    counts.lines += 1;
    counts.held = held as u64;
    count_if(taken.message.is_some(), &mut counts.messages);
    count_if(taken.bad.is_some(), &mut counts.bad);
    count_if(taken.is_unknown, &mut counts.unknown);
    count_if(taken.broken.is_some(), &mut counts.broken);
}

impl Join {
    /// A join before the first line, with a table and a window. It needs no memory.
    ///
    /// ```rust
    /// let table = sample_table(alloc)?;
    /// let join = Join::new(alloc, &table, Window::new(10_000).unwrap());
    /// assert_eq!(rt; join.window().get(), 10_000);
    /// assert_eq!(rt; join.counts(), Counts::NONE);
    /// ```
    pub fn new(alloc: Global, table: &Table, window: Window) -> Join
        ensures { result ≡ state table.now.id window (kind table.now) [] }
    {
        Join {
            id: table.lazy_id(),
            window,
            counts: Counts::NONE,
            groups: OpenGroups::new(alloc),
        }
    }

    /// The counts of the lines so far. It needs no memory.
    ///
    /// ```rust
    /// let table = sample_table(alloc)?;
    /// let join = Join::new(alloc, &table, Window::new(10_000).unwrap());
    /// assert_eq!(rt; join.window().get(), 10_000);
    /// assert_eq!(rt; join.counts(), Counts::NONE);
    /// ```
    pub fn counts(&self) -> Counts
        ensures { result ≡ self.now.counts }
    {
        self.counts
    }

    /// The window that was given. It needs no memory.
    ///
    /// ```rust
    /// let table = sample_table(alloc)?;
    /// let join = Join::new(alloc, &table, Window::new(10_000).unwrap());
    /// assert_eq!(rt; join.window().get(), 10_000);
    /// ```
    pub fn window(&self) -> Window
        ensures { result ≡ self.now.window }
    {
        self.window
    }

    /// The type guarantees a valid state and a valid id.
    pub(crate) fn lemma_valid(&self)
        ensures state { IsState self.now }
        ensures id { IsId self.now.id }
    {
        ids_are_valid(&self.id);
    }

    /// Breaks the oldest open group whose window has ended by the next line, and returns its report. `None` if there is
    /// no such group, or if the line limit is reached; the join is then unchanged. It needs no memory.
    ///
    /// Call it before each line until it returns `None`. Each group that it breaks is reported for that line.
    ///
    /// ```rust
    /// let table = sample_table(alloc)?;
    /// // 50 lines were taken, and two groups are open.
    /// let state = open_since_1_and_2(alloc)?;
    /// let mut join = Join::resume(alloc, &table, Window::new(32).unwrap(), state.as_bytes())?;
    /// let mut opened = Vec::new(alloc);
    /// while let Some(group) = join.expire() {
    ///     opened.push(group.first)?;
    /// }
    /// assert_eq!(rt; opened.as_slice(), [1, 2].as_slice());
    /// ```
    pub fn expire(&mut self) -> Option<Broken>
        ensures broken { result ≡ option_map as_broken (due self.old) }
        ensures after { IsSome result → self.new ≡ expired self.old }
        ensures unchanged { IsNone result → self.new ≡ self.old }
        ensures one_step { (kind : ℕ → Option Kind) (e : Entry) (group : Group) → due self.old ≡ Some group
            → ExpiresFirst kind self.old e group }
        ensures waiting { AreWaiting self.old → AreWaiting self.new }
        ensures none_due { IsNone result → due self.new ≡ None }
        ensures fewer { IsSome result → length self.new.groups < length self.old.groups }
        ensures few { IsSome result → self.old.counts.lines < most_lines }
    {
        if self.counts.lines == MOST_LINES {
            return None;
        }
        let broken = self.groups.take_ended(self.window, self.counts.lines + 1)?;
        let counts = &mut self.counts;
        counts.broken += 1;
        counts.held -= 1;
        Some(broken)
    }

    /// Takes the next line, as its entry. Its packet becomes the message of a group that it completes.
    fn take<'t>(&mut self, table: &'t Table, entry: &mut Entry) -> Result<Taken<'t>, JoinFault>
        requires short { IsShort entry.old }
        requires expired { due self.old ≡ None }
        ensures takes { TakesLine (λ o. given_of_taken o (packet_in entry.new))
            (kind table.now) self.old self.new entry.old result }
        ensures own { IfOk result (λ o. IsOwn table.now o.message (packet_in entry.new)) }
        ensures entry { OnErr result (entry.new ≡ entry.old) }
    {
        if self.counts.lines == MOST_LINES {
            return Err(JoinFault::TooManyLines);
        }
        lemma_entry_valid(entry);
        let line = self.counts.lines + 1;
        let in_order = self.window.is_in_order();
        let taken = take_entry(in_order, &mut self.groups, line, table, entry)?;
        count_line(&taken, self.groups.len(), &mut self.counts);
        Ok(taken)
    }

    /// Takes the next line, as its entry. Returns the message that the line is or completes, why the line is bad, and
    /// the group that its frame breaks. The table defines how each PGN is sent. `expire` must have broken the groups
    /// whose window ends at this line.
    ///
    /// At 999,999,999,999,999 lines it refuses the line as too many. Memory is needed only to open a group for a key
    /// that has no open group. A refused line leaves the join unchanged.
    ///
    /// ```rust
    /// let table = sample_table(alloc)?;
    /// let mut join = Join::new(alloc, &table, Window::new(10_000).unwrap());
    /// assert_eq!(rt; join.expire(), None);
    /// let entry = read_line("(10.3) can0 1DFF0405#".as_bytes(), Packing::Frames);
    /// let step = join.line(&table, entry)?;
    /// assert_eq!(rt; step.bad, Some(BadCause::Fast));
    /// assert_eq!(rt; join.counts().bad, 1);
    /// ```
    pub fn line(&mut self, table: &Table, entry: Entry) -> Result<Step, JoinFault>
        requires short { IsShort entry }
        requires expired { due self.old ≡ None }
        ensures { TakesLine given_of (kind table.now) self.old self.new entry result }
    {
        let mut entry = entry;
        let taken = self.take(table, &mut entry)?;
        let is_message = taken.message.is_some();
        Ok(Step {
            message: if is_message { packet_of(entry) } else { None },
            bad: taken.bad,
            broken: taken.broken,
        })
    }

    /// Takes the next line as `line` does, but leaves the message in the entry: if a group is complete, the entry's
    /// packet becomes its message. A refused line leaves the join and the entry unchanged.
    ///
    /// ```rust
    /// let table = sample_table(alloc)?;
    /// let mut join = Join::new(alloc, &table, Window::new(10_000).unwrap());
    /// assert_eq!(rt; join.expire(), None);
    /// let mut entry = read_line("(1.0) can0 09F8027F#0500".as_bytes(), Packing::Frames);
    /// let step = join.accept_in_place(&table, &mut entry)?;
    /// assert_eq!(rt; step.line, 1);
    /// let message = message_of(step.message, &entry).ok_or("a message")?;
    /// assert_eq!(rt; message.packet.id().pgn, 129026);
    /// ```
    pub fn accept_in_place<'t>(
        &mut self,
        table: &'t Table,
        entry: &mut Entry,
    ) -> Result<InPlaceStep<'t>, JoinFault>
        requires short { IsShort entry.old }
        requires expired { due self.old ≡ None }
        ensures takes { TakesLine (λ step. given_of (step_in entry.new step))
            (kind table.now) self.old self.new entry.old result }
        ensures line { IfOk result (λ step. step.line ≡ self.new.counts.lines) }
        ensures own { IfOk result (λ step. IsOwn table.now step.message (packet_in entry.new)) }
        ensures entry { OnErr result (entry.new ≡ entry.old) }
    {
        let taken = self.take(table, entry)?;
        Ok(InPlaceStep {
            line: self.counts.lines,
            message: taken.message,
            bad: taken.bad,
            broken: taken.broken,
        })
    }

    /// The join of a state that was read, if the state is valid under the table. The count of open groups is their
    /// number.
    fn from_state(
        alloc: Global,
        table: &Table,
        id: [u8; 32],
        window: Window,
        counts: Counts,
        groups: &[SpelledGroup],
    ) -> Result<Join, StateFault>
        ensures { let state = state_of_parts id window counts groups.now in
            GivesOrMemory (λ join. join) result (valid_if (is_valid (kind table.now) state) state) }
    {
        if !rules_hold(&counts, groups) {
            return Err(StateFault::Invalid);
        }
        let stored = stored_groups(alloc, table, counts.lines, groups)?;
        let held = stored.len() as u64;
        Ok(Join {
            id: TableId::known(id),
            window,
            counts: Counts { held, ..counts },
            groups: stored,
        })
    }

    /// The join of a text that `save` wrote under this table, whose id is given, and window. `None` if no join is found
    /// whose saved text is the same.
    fn resume_written(
        alloc: Global,
        table: &Table,
        id: [u8; 32],
        window: Window,
        bytes: &[u8],
    ) -> Result<Option<Join>, AllocError>
        ensures { IfOk result (λ found. IfSome found
            (λ join. resumed (kind table.now) id window bytes.now ≡ Ok join)) }
    {
        let Some((counts, groups)) = written_parts(alloc, &id, window, bytes)? else {
            return Ok(None);
        };
        let join = match Join::from_state(alloc, table, id, window, counts, &groups) {
            Ok(join) => join,
            Err(StateFault::Memory) => return Err(AllocError),
            Err(_) => return Ok(None),
        };
        let text = join.save(alloc)?;
        if text.as_slice() == bytes {
            Ok(Some(join))
        } else {
            Ok(None)
        }
    }

    /// The join of any text that spells one under a table with this id, by the tree of its values.
    #[tactic(auto, unfolding(crate::specs::Resumed::resumed))]
    fn resume_any(
        alloc: Global,
        table: &Table,
        id: [u8; 32],
        window: Window,
        bytes: &[u8],
    ) -> Result<Join, StateFault>
        ensures { GivesOrMemory (λ join. join) result (resumed (kind table.now) id window bytes.now) }
    {
        let value = parsed(alloc, bytes)?;
        let format = format_in(&value)?;
        let state = read_state(alloc, format, window, &value)?;
        if state.id != id {
            return Err(StateFault::TableDiffers);
        }
        if state.window != u64::from(window.get()) {
            return Err(StateFault::WindowDiffers);
        }
        if !waits_hold(format, &state) {
            return Err(StateFault::Invalid);
        }
        Join::from_state(alloc, table, state.id, window, state.counts, &state.groups)
    }

    /// The join that a saved state describes, under the table and the window of the save. It continues after the last
    /// saved line. A state of format 1 has no window and gets the given one. Whether frame numbers must rise is not
    /// saved; the given window decides.
    ///
    /// Any JSON text of a valid state is accepted, even if no log could have produced it (docs/PROFILE.md lists its
    /// members and rules). Otherwise the first fault found is returned, in the order of docs/PROFILE.md, or `Memory` if
    /// memory was refused.
    ///
    /// ```rust
    /// let table = sample_table(alloc)?;
    /// let join = Join::new(alloc, &table, Window::new(10_000).unwrap());
    /// let state = join.save(alloc)?;
    /// let again = Join::resume(alloc, &table, join.window(), &state)?;
    /// assert_eq!(rt; again.counts(), join.counts());
    /// let refused = Join::resume(alloc, &table, Window::new(32).unwrap(), &state);
    /// assert!(rt; matches!(refused, Err(StateFault::WindowDiffers)));
    /// ```
    pub fn resume(
        alloc: Global,
        table: &Table,
        window: Window,
        bytes: &[u8],
    ) -> Result<Join, StateFault>
        ensures { GivesOrMemory (λ join. join) result (resumed (kind table.now) table.now.id window bytes.now) }
    {
        let id = table.id();
        if let Some(join) = Join::resume_written(alloc, table, id, window, bytes)? {
            return Ok(join);
        }
        Join::resume_any(alloc, table, id, window, bytes)
    }

    /// The text of the state for `resume`: JSON as in docs/PROFILE.md, without an LF.
    ///
    /// It reads back under the same window and under a table with the same id in which the PGNs of its groups are fast:
    /// the table of the join, if its lines were taken with that table. The format is 2, or 1 if the window of a group
    /// has ended: such a state was read in format 1 and has taken no line since.
    ///
    /// ```rust
    /// let table = sample_table(alloc)?;
    /// let join = Join::new(alloc, &table, Window::new(10_000).unwrap());
    /// let state = join.save(alloc)?;
    /// let prefix = "{\"bad\":0,\"broken\":0,\"format\":2,\"groups\":[],\"lines\":0,\"messages\":0,";
    /// assert!(rt; state.starts_with(prefix.as_bytes()));
    /// ```
    pub fn save(&self, alloc: Global) -> Result<Vec<u8>, AllocError>
        ensures text { IfOk result (λ text. text.items ≡ state_text self.now) }
        ensures bounded { IfOk result (λ text. length text.items ≤ bare_bytes + group_bytes * length self.now.groups) }
        ensures reads_back { (kind : ℕ → Option Kind) → AreFast kind self.now.groups → IsId self.now.id
            → resumed kind self.now.id self.now.window (state_text self.now) ≡ Ok self.now }
    {
        laws::state_reads_back();
        let id = self.id.bytes();
        state_text(alloc, &id, self.window, &self.counts, &self.groups)
    }
}
