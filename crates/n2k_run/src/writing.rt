//! Writing a whole text to a sink that may take it in parts.
ghost use Rattle.std.specs.Prelude.{◌<◌, ◌++◌, length, OnOk, OnErr};
ghost use Rattle.std.specs.Io.KnownBytes.{Appends};
ghost use Rattle.n2k_run.specs.Device.{CountsFailure};
ghost use Rattle.n2k_run.specs.Writing.{AppendsPrefix};

use crate::device::{Failed, Sink};

/// Writes the whole text, by as many calls as the device needs. If the device fails, a prefix of the text has been
/// written. Writing an empty text can't fail.
///
/// ```rust
/// let mut sink = MemorySink::new(alloc, 1, 0);
/// assert_eq!(rt; write_all(&mut sink, b"abc"), Ok(()));
/// assert_eq!(rt; sink.bytes(), b"abc".as_slice());
/// ```
pub fn write_all<W: Sink>(writer: &mut W, text: &[u8]) -> Result<(), Failed>
    ensures written { OnOk result (Appends (W.contents writer.old) (W.contents writer.new) text.now) }
    ensures prefix { OnErr result (AppendsPrefix (W.contents writer.old) (W.contents writer.new) text.now) }
    ensures some { OnErr result (0 < length text.now) }
    ensures counted { CountsFailure (W.failed_calls writer.old) (W.failed_calls writer.new) result }
{
    let mut rest = text;
    while !rest.is_empty() {
        let taken = writer.write(rest)?;
        rest = &rest[taken..];
    }
    Ok(())
}

/// Writes a text of two parts, as `write_all` does. The lines of a block with over 32,768 bytes are such a text: the
/// first part may end inside a line.
#[tactic(auto, using(crate::proofs::Owed::both_parts, crate::proofs::Owed::prefix_of_first, crate::proofs::Owed::first_and_prefix, crate::proofs::Owed::some_first, crate::proofs::Owed::some_rest))]
pub(crate) fn write_parts<W: Sink>(writer: &mut W, prefix: &[u8], rest: &[u8]) -> Result<(), Failed>
    ensures written { OnOk result (Appends (W.contents writer.old) (W.contents writer.new) (prefix.now ++ rest.now)) }
    ensures prefix { OnErr result (AppendsPrefix (W.contents writer.old) (W.contents writer.new) (prefix.now ++ rest.now)) }
    ensures some { OnErr result (0 < length (prefix.now ++ rest.now)) }
    ensures counted { CountsFailure (W.failed_calls writer.old) (W.failed_calls writer.new) result }
{
    write_all(writer, prefix)?;
    write_all(writer, rest)
}
