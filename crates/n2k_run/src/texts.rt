//! The texts of reports and of the summary.
ghost use Rattle.std.specs.Prelude.{◌≡◌, ◌++◌, ◌+◌, ◌≤◌, OnOk, OnErr, decimal, length};
ghost use Rattle.std.specs.Io.KnownBytes.{Appends};
ghost use Rattle.arrayvec.specs.ArrayVec.{array_vec_len};
ghost use Rattle.n2k_run.specs.Device.{CountsFailure};
ghost use Rattle.n2k_run.specs.Reports.{bad_text, broken_text, cause_text, summary_text};
ghost use Rattle.n2k_run.specs.Writing.{AppendsPrefix};

use crate::device::{Failed, Sink};
use crate::writing::write_all;
use arrayvec::ArrayVec;
use n2k_join::{Broken, Counts};
use n2k_wire::BadCause;
use std::alloc::{AllocError, Global};

/// Room for a report or the summary: at most 45 bytes of words, and at most six numbers of at most 20 digits.
const ROOM: usize = 165;

/// A report or the summary, put together before it is appended or written.
type Text = ArrayVec<u8, ROOM>;

/// A cause's number and word.
fn cause_text(cause: BadCause) -> &'static [u8]
    ensures text { result.now ≡ cause_text cause }
    ensures short { length result.now ≤ 13 }
{
    match cause {
        BadCause::Long => b"B1 long",
        BadCause::Stamp => b"B2 stamp",
        BadCause::Form => b"B3 form",
        BadCause::Identifier => b"B4 identifier",
        BadCause::Number => b"B5 number",
        BadCause::Data => b"B6 data",
        BadCause::Fast => b"B7 fast",
        BadCause::Unknown => b"B8 unknown",
        BadCause::Size => b"B9 size",
        BadCause::Frame => b"B10 frame",
        BadCause::Time => b"B11 time",
        BadCause::Address => b"B12 address",
    }
}

/// Appends a word, for which there is room.
fn push_word(text: &mut Text, word: &[u8])
    requires { array_vec_len text.old + length word.now ≤ 165 }
    ensures items { text.new.items ≡ text.old.items ++ word.now }
    ensures len { array_vec_len text.new ≡ array_vec_len text.old + length word.now }
{
    let _ = text.try_extend_from_slice(word);
}

/// Appends a name and a number, for which there is room.
fn push_count(text: &mut Text, name: &[u8], number: u64)
    requires { array_vec_len text.old + length name.now + 20 ≤ 165 }
    ensures items { text.new.items ≡ text.old.items ++ name.now ++ decimal number }
    ensures len { array_vec_len text.new ≤ array_vec_len text.old + length name.now + 20 }
{
    let mut buffer = itoa::Buffer::new();
    let _ = text.try_extend_from_slice(name);
    let _ = text.try_extend_from_slice(buffer.format(number).as_bytes());
}

/// Appends the report of a bad line, `line 3 bad B6 data` with an LF: the line's number, counted from 1, and the
/// cause's number and word. If memory is refused, `out` is unchanged.
///
/// ```rust
/// let mut text = Vec::new(alloc);
/// bad_text(alloc, 3, BadCause::Data, &mut text)?;
/// assert_eq!(rt; text.as_slice(), "line 3 bad B6 data\n".as_bytes());
/// ```
#[tactic(auto, using(std::proofs::Common::append_assoc), unfolding(crate::specs::Reports::bad_text))]
pub fn bad_text(
    alloc: Global,
    number: u64,
    cause: BadCause,
    out: &mut Vec<u8>,
) -> Result<(), AllocError>
    ensures ok { OnOk result (out.new.items ≡ out.old.items ++ bad_text number cause) }
    ensures unchanged { OnErr result (out.new.items ≡ out.old.items) }
{
    let mut report = ArrayVec::new();
    push_count(&mut report, b"line ", number);
    push_word(&mut report, b" bad ");
    push_word(&mut report, cause_text(cause));
    push_word(&mut report, b"\n");
    out.extend_from_slice(report.as_slice())
}

/// Appends the report of a broken group, `line 3 broken pgn 130820 src 5 dst 255 seq 3 first 1` with an LF: the number
/// of the line that breaks it, the key of its frames, and the line that opened it. If memory is refused, `out` is
/// unchanged.
///
/// ```rust
/// let group = Broken {
///     pgn: 130820,
///     src: 5,
///     dst: 255,
///     seq: 3,
///     first: 1,
/// };
/// let mut text = Vec::new(alloc);
/// broken_text(alloc, 3, &group, &mut text)?;
/// let report = "line 3 broken pgn 130820 src 5 dst 255 seq 3 first 1\n";
/// assert_eq!(rt; text.as_slice(), report.as_bytes());
/// ```
#[tactic(auto, using(std::proofs::Common::append_assoc), unfolding(crate::specs::Reports::broken_text))]
pub fn broken_text(
    alloc: Global,
    number: u64,
    group: &Broken,
    out: &mut Vec<u8>,
) -> Result<(), AllocError>
    ensures ok { OnOk result (out.new.items ≡ out.old.items ++ broken_text number group.now) }
    ensures unchanged { OnErr result (out.new.items ≡ out.old.items) }
{
    let mut text = ArrayVec::new();
    push_count(&mut text, b"line ", number);
    push_count(&mut text, b" broken pgn ", group.pgn.into());
    push_count(&mut text, b" src ", group.src.into());
    push_count(&mut text, b" dst ", group.dst.into());
    push_count(&mut text, b" seq ", group.seq.into());
    push_count(&mut text, b" first ", group.first);
    push_word(&mut text, b"\n");
    out.extend_from_slice(text.as_slice())
}

/// The summary of a run. It needs no memory.
#[tactic(auto, using(std::proofs::Common::append_assoc), unfolding(crate::specs::Reports::summary_text))]
fn summary(counts: &Counts) -> Text
    ensures { result.items ≡ summary_text counts.now }
{
    let mut text = ArrayVec::new();
    push_count(&mut text, b"lines ", counts.lines);
    push_count(&mut text, b" messages ", counts.messages);
    push_count(&mut text, b" bad ", counts.bad);
    push_count(&mut text, b" unknown ", counts.unknown);
    push_count(&mut text, b" broken ", counts.broken);
    push_count(&mut text, b" open ", counts.held);
    push_word(&mut text, b"\n");
    text
}

/// Appends the summary of a run, `lines 3 messages 1 bad 0 unknown 0 broken 0 open 0` with an LF. If memory is refused,
/// `out` is unchanged.
///
/// ```rust
/// let mut text = Vec::new(alloc);
/// summary_text(alloc, &Counts::NONE, &mut text)?;
/// let summary = "lines 0 messages 0 bad 0 unknown 0 broken 0 open 0\n";
/// assert_eq!(rt; text.as_slice(), summary.as_bytes());
/// ```
pub fn summary_text(_alloc: Global, counts: &Counts, out: &mut Vec<u8>) -> Result<(), AllocError>
    ensures ok { OnOk result (out.new.items ≡ out.old.items ++ summary_text counts.now) }
    ensures unchanged { OnErr result (out.new.items ≡ out.old.items) }
{
    out.extend_from_slice(summary(counts).as_slice())
}

/// Writes the summary of a run to a device. It needs no memory. If the device fails, a prefix of the summary has been
/// written.
///
/// ```rust
/// let mut err = MemorySink::new(alloc, 4096, 0);
/// assert_eq!(rt; write_summary(&Counts::NONE, &mut err), Ok(()));
/// let summary = "lines 0 messages 0 bad 0 unknown 0 broken 0 open 0\n";
/// assert_eq!(rt; err.bytes(), summary.as_bytes());
/// ```
pub fn write_summary<E: Sink>(counts: &Counts, errors: &mut E) -> Result<(), Failed>
    ensures written { OnOk result (Appends (E.contents errors.old) (E.contents errors.new) (summary_text counts.now)) }
    ensures prefix { OnErr result (AppendsPrefix (E.contents errors.old) (E.contents errors.new)
        (summary_text counts.now)) }
    ensures counted { CountsFailure (E.failed_calls errors.old) (E.failed_calls errors.new) result }
{
    write_all(errors, summary(counts).as_slice())
}
