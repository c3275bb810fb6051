//! Theorems about the definitions: each is the contract of a function that does nothing.
ghost use Rattle.std.specs.Prelude.{◌≡◌, ◌≤◌, ◌++◌, ℕ, All, List, Ok, Option, Some, flat_map, length, true};
ghost use Rattle.std.specs.Io.{IsEmptyOrEndsWith};
ghost use Rattle.n2k_wire.specs.declared.entry.Entry.{Entry};
ghost use Rattle.n2k_wire.specs.Packet.{PacketParts, IsPacketParts};
ghost use Rattle.n2k_wire.specs.Texts.{plain_text};
ghost use Rattle.n2k_table.specs.Table.{TableParts, kind};
ghost use Rattle.n2k_table.specs.declared.definition.Kind.TheVariants.{Fast};
ghost use Rattle.n2k_join.specs.AnyLine.{AreEnough, CanContinue, IsMoved, LeadsMoved};
ghost use Rattle.n2k_join.specs.Counts.{most_lines};
ghost use Rattle.n2k_join.specs.Pieces.{written};
ghost use Rattle.n2k_join.specs.Saved.{IsId};
ghost use Rattle.n2k_join.specs.Scattered.{IsScattered, IsMute};
ghost use Rattle.n2k_join.specs.State.{State, state};
ghost use Rattle.n2k_join.specs.Window.{IsWindow};
ghost use Rattle.n2k_run.specs.declared.options.Options.{Options};
ghost use Rattle.n2k_run.specs.AnyLine.{PrintsSame, moved_fold};
ghost use Rattle.n2k_run.specs.Decoded.{join_fold, out, out_of, output_after};
ghost use Rattle.n2k_run.specs.Entries.{entries};
ghost use Rattle.n2k_run.specs.Fold.{after_all, texts_from};
ghost use Rattle.n2k_run.specs.InOrder.{EachTellsOne};
ghost use Rattle.n2k_run.specs.Lines.{line_feed};
ghost use Rattle.n2k_run.specs.Headline.{save, state_after};
ghost use Rattle.n2k_run.specs.Parts.{begun, entries_of_parts};
ghost use Rattle.n2k_run.specs.Replayed.{PrintsBack};
ghost use Rattle.n2k_run.specs.Runs.{output_from};

use n2k_wire::Packing;

/// A log over which messages are scattered, and which gives no message alone, prints exactly these messages: one line a
/// message, and each key's in their order.
pub fn replayed()
    ensures { (t : TableParts) (ms : List PacketParts) (o : Options) (log : List ℕ) → IsWindow o.window.lines
        → IsScattered o.window (kind t) ms (entries o.packing log) → IsMute (kind t) (entries o.packing log)
        → PrintsBack t ms o log }
{
    n2k_table::laws::json_is_one_line();
    n2k_join::laws::arrives_whole();
}

/// Written messages are read back: fast packets of the table's PGNs, written as plain lines of frames in their order,
/// are a log that prints these messages.
pub fn written_then_read()
    ensures { (t : TableParts) (ms : List PacketParts) (o : Options) → IsWindow o.window.lines
        → o.packing ≡ Packing.Frames → All IsPacketParts ms
        → All (λ (m : PacketParts). kind t m.id.pgn ≡ Some Fast) ms
        → PrintsBack t ms o (flat_map plain_text (written (kind t) ms)) }
{
    n2k_wire::laws::plain_line_is_one_line();
    n2k_wire::laws::plain_line_reads_back();
    n2k_table::laws::json_is_one_line();
    n2k_join::laws::written_is_scattered();
    n2k_join::laws::arrives_whole();
}

/// In order, each line that a log prints is of one message: a message that is a line of the log by itself, or a message
/// whose frames the log has by rising number with no other frame of their key between them, with the stamp, the
/// priority and the identifier of the last. The log is the whole log, from its first line, whether it is run at once or
/// in parts; parts need not be cut at lines.
pub fn printed_in_order()
    ensures log { (t : TableParts) (o : Options) (log : List ℕ) → o.window.in_order ≡ true
        → EachTellsOne t o (entries o.packing log) (out t o log) }
    ensures parts { (t : TableParts) (o : Options) (parts : List (List ℕ)) → o.window.in_order ≡ true
        → EachTellsOne t o (entries_of_parts o parts) (out_of t o (entries_of_parts o parts)) }
{
    n2k_table::laws::json_is_one_line();
    n2k_join::laws::consecutive_frames();
}

/// The state saved after a prefix of a log reads back under the same table: the next part begins with the state that
/// the prefix leads to, for every prefix within the line limit.
pub fn saved_prefix_reads_back()
    ensures { (t : TableParts) (o : Options) (prefix : List ℕ) → IsWindow o.window.lines → IsId t.id
        → length (entries o.packing prefix) ≤ most_lines
        → begun t o (Some (save t o prefix)) ≡ Ok (state_after t o prefix) }
{
    n2k_wire::laws::entries_are_entries();
    n2k_join::laws::saved_log_reads_back();
}

/// In order, any part of a log decodes as in the whole log. For a window of W lines, the rest of a log prints the same
/// messages after all lines before it as after at least W - 1 of these lines alone. The same is true after any two
/// states with one window, and each state that a part begins with is such a state.
pub fn from_any_line()
    ensures logs { (t : TableParts) (o : Options) (before last rest : List ℕ) → IsWindow o.window.lines
        → IsEmptyOrEndsWith before line_feed → IsEmptyOrEndsWith last line_feed
        → AreEnough o.window (entries o.packing last) → PrintsSame t o (before ++ last) last rest }
    ensures states { (t : TableParts) (o : Options) (s r : State) (last rest : List Entry) → CanContinue s
        → CanContinue r → s.window ≡ r.window → AreEnough s.window last
        → texts_from (join_fold t o.empty) (after_all (join_fold t o.empty) s last) rest
        ≡ texts_from (join_fold t o.empty) (after_all (join_fold t o.empty) r last) rest }
    ensures begun { (t : TableParts) (o : Options) (given : Option (List ℕ)) (s : State) → IsWindow o.window.lines
        → begun t o given ≡ Ok s → CanContinue s × (s.window ≡ o.window) }
{
    n2k_join::laws::steps_agree();
    n2k_join::laws::lines_stay();
    n2k_join::laws::from_any_line();
    n2k_join::laws::moved_states();
    n2k_join::laws::rules_are_one();
    n2k_join::laws::groups_stay_fast();
}

/// Only distances between lines matter. A run from a state with the window and the open groups of another state, in key,
/// frames and distance to the next line, has the output of the run from that state: the same messages, and the same
/// reports with line numbers moved by the difference. It leads to such a state again, and counts the same on the way.
/// So a part of a log can be decoded from any such state, without the lines before it.
pub fn moved_runs()
    ensures output { (d : ℕ) (t : TableParts) (o : Options) (s r : State) → CanContinue s → CanContinue r
        → IsMoved d s r → output_from (join_fold t o.empty) o.packing r
        ≡ output_from (moved_fold d t o.empty) o.packing s }
    ensures log { (d : ℕ) (t : TableParts) (o : Options) (s : State) (prefix : List Entry) → IsWindow o.window.lines
        → CanContinue s → IsMoved d s (state t.id o.window (kind t) prefix)
        → output_after t o prefix ≡ output_from (moved_fold d t o.empty) o.packing s }
    ensures leads { (d : ℕ) (t : TableParts) (o : Options) (s r : State) (es : List Entry) → CanContinue s
        → CanContinue r → IsMoved d s r
        → LeadsMoved d s (after_all (join_fold t o.empty) s es) r (after_all (join_fold t o.empty) r es) }
{
    n2k_join::laws::steps_agree();
    n2k_join::laws::lines_stay();
    n2k_join::laws::moved_states();
}
