//! Theorems about the definitions: each is the contract of a function that does nothing.
ghost use Rattle.std.specs.Prelude.{◌≡◌, ◌≤◌, ◌<◌, ◌≢◌, ℕ, Bool, All, true, List, [], length, Ok, Err, Option, Some, is_some};
ghost use Rattle.n2k_wire.specs.declared.entry.Entry.{Entry};
ghost use Rattle.n2k_wire.specs.Entry.{IsEntry};
ghost use Rattle.n2k_wire.specs.Packet.{PacketParts, IsPacketParts};
ghost use Rattle.n2k_table.specs.declared.definition.Kind.{Kind};
ghost use Rattle.n2k_table.specs.declared.definition.Kind.TheVariants.{Fast};
ghost use Rattle.n2k_join.specs.Counts.{most_lines};
ghost use Rattle.n2k_join.specs.Pieces.{Sending, split_all, written};
ghost use Rattle.n2k_join.specs.Frames.{Key, Frame, frames};
ghost use Rattle.n2k_join.specs.Groups.{EndTest, EndsRepeats, within};
ghost use Rattle.n2k_join.specs.Scattered.{IsScattered, IsMute, WrittenLog, key_of_sending};
ghost use Rattle.n2k_join.specs.Replay.{Replays};
ghost use Rattle.n2k_join.specs.Messages.{Keyed, cause_in, gathered};
ghost use Rattle.n2k_join.specs.Laws.{CutJoins, CutFirst, CutGrows, HasSettled, StepsAgree, LinesStay, BadAlone, ExpiresFirst};
ghost use Rattle.n2k_join.specs.Open.{Group};
ghost use Rattle.n2k_join.specs.Step.{due};
ghost use Rattle.n2k_join.specs.Resumed.{resumed};
ghost use Rattle.n2k_join.specs.Rules.{HasShape, RulesAreOne};
ghost use Rattle.n2k_join.specs.declared.fault.StateFault.TheVariants.{WindowDiffers};
ghost use Rattle.n2k_join.specs.Saved.{IsId, state_text};
ghost use Rattle.n2k_join.specs.State.{State, IsState, AreFast, AreWaiting, state, step_given, step_after};
ghost use Rattle.n2k_join.specs.Window.{Window, IsWindow};
ghost use Rattle.n2k_join.specs.AnyLine.{CanContinue, IsMoved, StepsMoved, state_from, AreEnough};
ghost use Rattle.n2k_join.specs.Arrival.{PiecesJoin, FillsAllFrames, ArriveWhole, ComesNext, LeavesZero, Heals};
ghost use Rattle.n2k_join.specs.Consecutive.{GroupsConsecutive, ComesOfConsecutive};
ghost use Rattle.n2k_join.specs.Bounds.{HasWindow, HoldsFew};
ghost use Rattle.n2k_join.specs.UnderWay.{EightUnderWay, AreOfOneStream};

use crate::join::Join;

/// The groups that frames are cut into are the frames in their order; none is empty, and none has a repeated number.
/// This holds for every test that ends a group at a repeated number, as each window's test does.
pub fn cut_joins()
    ensures joins { (ends : EndTest) (fs : List Frame) → EndsRepeats ends → CutJoins ends fs }
    ensures windows { (window : Window) → EndsRepeats (within window) }
{}

/// What the groups of a list of frames are. No frames have no groups. Otherwise the first group is the shortest prefix
/// that has ended, because it is complete, no frame follows, or it ends before the next frame; the other frames are cut
/// in the same way.
pub fn cut_first()
    ensures { (ends : EndTest) (fs : List Frame) → CutFirst ends fs }
{}

/// Later frames leave each complete group and each broken group as it was; a broken group stays broken at the same
/// line. So the results of a log's lines are settled, whatever follows them.
pub fn cut_grows()
    ensures grows { (ends : EndTest) (fs back : List Frame) → CutGrows ends fs back }
    ensures settled { (window : Window) (kind : ℕ → Option Kind) (prefix back : List Entry) → IsWindow window.lines
        → HasSettled window kind prefix back }
{}

/// The step knows only the state, and yet agrees with the whole log: from the state of a log it leads to the state of
/// the log with the entry, and gives the message, the cause and the broken groups of the longer log's last line.
pub fn steps_agree()
    ensures { (id : List ℕ) (window : Window) (kind : ℕ → Option Kind) (es : List Entry) (e : Entry)
        → IsWindow window.lines → StepsAgree id window kind es e }
{}

/// One more entry leaves the result of each earlier line unchanged.
pub fn lines_stay()
    ensures { (window : Window) (kind : ℕ → Option Kind) (es : List Entry) (e : Entry) → IsWindow window.lines
        → LinesStay window kind es e }
{}

/// A bad line affects nothing else: with an empty line in its place every message, every broken group and every open
/// group stays, and so does every count except that of bad lines, which is one less.
pub fn bad_alone()
    ensures { (window : Window) (kind : ℕ → Option Kind) (prefix : List Entry) (e : Entry) (back : List Entry)
        → is_some (cause_in kind e) ≡ true → BadAlone window kind prefix e back }
{}

/// A new splitter, with one counter a stream, makes the defined frames: each message's frames under the number of
/// earlier messages of its stream, modulo 8.
pub fn splits_written()
    ensures { (kind : ℕ → Option Kind) (ms : List PacketParts) → split_all kind ms ≡ written kind ms }
{}

/// Messages of one stream are kept apart by their sequence numbers: any eight consecutive messages of one sender, PGN
/// and receiver have different keys, whatever other messages come between them. Messages that differ in sender, PGN or
/// receiver never share a key.
pub fn eight_under_way()
    ensures apart { (ms : List PacketParts) → EightUnderWay ms }
    ensures streams { (x y : Sending) → key_of_sending x ≡ key_of_sending y → AreOfOneStream x y }
{}

/// The frames of a message's pieces make one group, in any order: together they are complete and carry the message's
/// data, and no proper part of them is complete. The longest message has a frame of each number; one more byte would
/// need another frame.
pub fn pieces_join()
    ensures pieces { (x : Sending) → PiecesJoin x }
    ensures longest { FillsAllFrames }
{}

/// Messages whose frames are scattered over a log arrive whole, each key's in their order: no group is broken and none
/// stays open. If no entry gives a message alone, the log gives exactly these messages.
pub fn arrives_whole()
    ensures whole { (window : Window) (kind : ℕ → Option Kind) (ms : List PacketParts) (es : List Entry)
        → IsWindow window.lines → IsScattered window kind ms es → ArriveWhole window kind ms es }
    ensures given_back { (window : Window) (kind : ℕ → Option Kind) (ms : List PacketParts) (es : List Entry)
        → IsWindow window.lines → IsScattered window kind ms es → IsMute kind es → Replays window kind ms es }
{}

/// Writing fast packets as frames, one a line in order, makes a log over which the messages are scattered, and which
/// gives no message alone: so `arrives_whole` applies to it.
pub fn written_is_scattered()
    ensures { (window : Window) (kind : ℕ → Option Kind) (ms : List PacketParts) → IsWindow window.lines
        → All IsPacketParts ms → All (λ (m : PacketParts). kind m.id.pgn ≡ Some Fast) ms → WrittenLog window kind ms }
{}

/// A key heals. Suppose the next frames of a key are the pieces of one message by rising number, within the window, and
/// the key's open group, if any, has frame 0. Then the line of the last piece gives the message. The open group is
/// broken at the line of the first piece, or earlier if its window ends earlier. So if a sender's numbers rise, a lost
/// frame other than frame 0 costs only its own message.
pub fn heals()
    ensures { (window : Window) (kind : ℕ → Option Kind) (prefix back : List Entry) (x : Sending)
        (group after : List Frame) → IsWindow window.lines → ComesNext window kind prefix back x group after
        → LeavesZero window kind prefix x → Heals window kind prefix back x group }
{}

/// In order a key heals whatever was lost: its open group may be any.
pub fn heals_in_order()
    ensures { (window : Window) (kind : ℕ → Option Kind) (prefix back : List Entry) (x : Sending)
        (group after : List Frame) → window.in_order ≡ true → ComesNext window kind prefix back x group after
        → Heals window kind prefix back x group }
{}

/// In order the frames of each message of a group come in the log in the order of their numbers, 0 to the last, with
/// no other frame of the key between them.
pub fn consecutive_frames()
    ensures groups { (window : Window) (kind : ℕ → Option Kind) (es : List Entry) (key : Key) → window.in_order ≡ true
        → GroupsConsecutive window kind es key }
    ensures messages { (window : Window) (kind : ℕ → Option Kind) (es : List Entry) (line : ℕ) (m : Keyed)
        → window.in_order ≡ true → gathered (within window) (frames kind es) line ≡ Some m
        → ComesOfConsecutive kind es line m }
{}

/// The rules that a text must satisfy are the rules that the state of every join satisfies. So each accepted text
/// describes a state that a join can have.
pub fn rules_are_one()
    ensures one { (kind : ℕ → Option Kind) (s : State) → HasShape s → RulesAreOne kind s }
    ensures read { (kind : ℕ → Option Kind) (id : List ℕ) (window : Window) (bytes : List ℕ) (s : State)
        → IsWindow window.lines → resumed kind id window bytes ≡ Ok s → IsState s }
{}

/// The text of a state, read under its own table and window, gives that state, with the frame order of the window. This
/// holds for every state of a join whose open groups are of fast PGNs of the table. If no group's window has ended,
/// another window is refused.
pub fn state_reads_back()
    ensures same { (kind : ℕ → Option Kind) (s : State) → IsState s → AreFast kind s.groups → IsId s.id
        → resumed kind s.id s.window (state_text s) ≡ Ok s }
    ensures any_order { (kind : ℕ → Option Kind) (s : State) (order : Bool) → IsState s → AreFast kind s.groups
        → IsId s.id
        → resumed kind s.id (record { lines = s.window.lines; in_order = order }) (state_text s)
        ≡ Ok (record {
          id = s.id;
          window = record { lines = s.window.lines; in_order = order };
          counts = s.counts;
          groups = s.groups;
        }) }
    ensures other_window { (kind : ℕ → Option Kind) (s : State) (window : Window) → IsState s → AreWaiting s → IsId s.id
        → s.window.lines ≢ window.lines → resumed kind s.id window (state_text s) ≡ Err WindowDiffers }
{}

/// The state of every join is valid, and the id of its table.
pub fn joins_are_valid(join: &Join)
    ensures state { IsState join.now }
    ensures id { IsId join.now.id }
{
    join.lemma_valid();
}

/// A join used with one table can be read back: a new join has no open group, the groups of a state that was read are
/// of fast PGNs of its table, and each line keeps that so.
pub fn groups_stay_fast()
    ensures new { (kind : ℕ → Option Kind) (id : List ℕ) (window : Window) → AreFast kind (state id window kind []).groups }
    ensures read { (kind : ℕ → Option Kind) (id : List ℕ) (window : Window) (bytes : List ℕ) (s : State)
        → resumed kind id window bytes ≡ Ok s → AreFast kind s.groups }
    ensures same_table { (kind : ℕ → Option Kind) (id : List ℕ) (window : Window) (bytes : List ℕ) (s : State)
        → resumed kind id window bytes ≡ Ok s → s.id ≡ id }
    ensures same_window { (kind : ℕ → Option Kind) (id : List ℕ) (window : Window) (bytes : List ℕ) (s : State)
        → resumed kind id window bytes ≡ Ok s → s.window ≡ window }
    ensures step { (kind : ℕ → Option Kind) (s : State) (e : Entry) → IsWindow s.window.lines → AreFast kind s.groups
        → AreFast kind (step_after kind s e).groups }
{}

/// The state saved after a log reads back: for every log of valid entries within the line limit.
pub fn saved_log_reads_back()
    ensures { (kind : ℕ → Option Kind) (id : List ℕ) (window : Window) (es : List Entry) → IsWindow window.lines → IsId id
        → All IsEntry es → length es ≤ most_lines
        → resumed kind id window (state_text (state id window kind es)) ≡ Ok (state id window kind es) }
{}

/// A group whose window ends at the next line may be broken before that line or at it. So `Join::expire` until it
/// returns `None`, then `Join::line`, is one step.
pub fn expires_first()
    ensures { (kind : ℕ → Option Kind) (s : State) (e : Entry) (group : Group) → IsState s → due s ≡ Some group
        → ExpiresFirst kind s e group }
{}

/// If no group's window has ended, at most as many groups are open as the window has lines.
pub fn few_open()
    ensures { (s : State) → IsState s → AreWaiting s → length s.groups ≤ s.window.lines }
{}

/// For a state that was read, the window limits the open groups, too: at once if its text has its window, and after one
/// line in either format. The text of the next save is then short.
pub fn few_resumed()
    ensures read { (kind : ℕ → Option Kind) (id : List ℕ) (window : Window) (bytes : List ℕ) (s : State)
        → IsWindow window.lines → IsId id → HasWindow bytes → resumed kind id window bytes ≡ Ok s → HoldsFew s }
    ensures after_a_line { (kind : ℕ → Option Kind) (id : List ℕ) (window : Window) (bytes : List ℕ) (s : State)
        (e : Entry) → IsWindow window.lines → IsId id → resumed kind id window bytes ≡ Ok s → IsEntry e
        → s.counts.lines < most_lines → HoldsFew (step_after kind s e) }
{}

/// Only distances between lines matter. From a state with the window and the open groups of another state, in key,
/// frames and distance to the next line, each entry gives the same message, cause and broken groups, with lines counted
/// from each state's own number, and adds the same to the counts. Each state of a join or of a log can continue.
pub fn moved_states()
    ensures moved { (d : ℕ) (kind : ℕ → Option Kind) (s t : State) (e : Entry) → CanContinue s → CanContinue t
        → IsMoved d s t → StepsMoved d kind s t e }
    ensures any { (s : State) → IsState s → CanContinue s }
    ensures logs { (id : List ℕ) (window : Window) (kind : ℕ → Option Kind) (es : List Entry) → IsWindow window.lines
        → CanContinue (state id window kind es) }
{}

/// In order, a message depends only on the lines of one window. After at least W - 1 lines, for a window of W lines, two
/// runs give the same messages, whatever states they began with.
pub fn from_any_line()
    ensures { (kind : ℕ → Option Kind) (s t : State) (last : List Entry) (e : Entry) → CanContinue s → CanContinue t
        → s.window ≡ t.window → AreEnough s.window last
        → (step_given kind (state_from kind s last) e).message ≡ (step_given kind (state_from kind t last) e).message }
{}
