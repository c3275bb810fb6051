//! A line whose bytes arrive in several reads.
ghost use Rattle.std.specs.Prelude.{◌≡◌, ◌<◌, ◌≤◌, ◌+◌, ◌∷◌, ◌++◌, length, take, drop, OnOk};
ghost use Rattle.n2k_wire.specs.Entry.{is_skipped};
ghost use Rattle.n2k_run.specs.Inner.Block.{FindsEnd};
ghost use Rattle.n2k_run.specs.Lines.{lines, without_return};
ghost use Rattle.n2k_encode_run.specs.Inner.Taking.{most_kept};

use std::alloc::AllocError;

const LINE_FEED: u8 = b'\n';

const RETURN: u8 = b'\r';

/// The greatest number of bytes kept of a line: two more than the longest line, for a carriage return and one byte too
/// many.
const MOST_KEPT: usize = 65_538;

/// The place of the first LF.
pub(crate) fn line_end(bytes: &[u8]) -> Option<usize>
    ensures { FindsEnd bytes.now result }
{
    memchr::memchr(LINE_FEED, bytes)
}

/// The bytes before the LF at `end`, and the bytes after it.
pub(crate) fn split_line(bytes: &[u8], end: usize) -> (&[u8], &[u8])
    requires { end < length bytes.now }
    ensures line { result.0.now ≡ take end bytes.now }
    ensures rest { result.1.now ≡ drop (end + 1) bytes.now }
    ensures shorter { length result.1.now < length bytes.now }
{
    (bytes.split_at(end).0, bytes.split_at(end + 1).1)
}

/// The bytes of the first line without its LF, and the bytes after it.
#[tactic(auto, using(crate::proofs::Parts::line_ends, crate::proofs::Parts::only_line))]
pub(crate) fn first_line(bytes: &[u8]) -> (&[u8], &[u8])
    requires { 0 < length bytes.now }
    ensures lines { lines bytes.now ≡ without_return result.0.now ∷ lines result.1.now }
    ensures shorter { length result.1.now < length bytes.now }
{
    match line_end(bytes) {
        Some(end) => split_line(bytes, end),
        None => bytes.split_at(bytes.len()),
    }
}

/// The bytes without one carriage return at their end.
pub(crate) fn without_return(chunk: &[u8]) -> &[u8]
    ensures { result.now ≡ without_return chunk.now }
{
    match chunk {
        [line @ .., RETURN] => line,
        _ => chunk,
    }
}

/// Whether a line is empty or begins with `#`.
pub(crate) fn is_skipped(line: &[u8]) -> bool
    ensures { result ≡ is_skipped line.now }
{
    match line {
        [] => true,
        [first, ..] => *first == b'#',
    }
}

/// Appends bytes to the beginning of their line. If the line is too long, only a prefix is kept.
#[tactic(auto, using(crate::proofs::Parts::kept_more))]
pub(crate) fn keep(kept: &mut Vec<u8>, bytes: &[u8]) -> Result<(), AllocError>
    requires { length kept.old.items ≤ most_kept }
    ensures { OnOk result (kept.new.items ≡ take most_kept (kept.old.items ++ bytes.now)) }
{
    let room = MOST_KEPT - kept.len();
    kept.extend_from_slice(&bytes[..room.min(bytes.len())])
}
