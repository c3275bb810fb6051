//! Reading a source whole, into a vector.
ghost use Rattle.std.specs.Prelude.{◌≡◌, ◌⊎◌, ◌<◌, ◌≤◌, ◌+◌, ℕ, List, length, IfOk, IfSome, OnOk, IsErrOf, vec_len};
ghost use Rattle.std.specs.Io.KnownBytes.{Consumes, IsAtEnd};
ghost use Rattle.n2k_run.specs.Device.{HasFailed, one_more};
ghost use Rattle.n2k_run.specs.Reading.{OutlastsReads, most_reads};
ghost use Rattle.n2k_run.specs.Inner.Reading.{Gains};

use crate::blocks::BLOCK;
use crate::device::Source;
use crate::fault::BytesFault;
use std::alloc::Global;

/// The most reads of one call. A source that has not ended by then counts as one that can't be read.
pub const MOST_READS: u64 = 1_000_000_000_000;

/// One read into the block; its bytes are appended to the input. Returns their number. Room is made first, so that a
/// refused allocation loses no byte.
fn read_more<R: Source>(
    reader: &mut R,
    block: &mut [u8],
    input: &mut Vec<u8>,
) -> Result<usize, BytesFault>
    requires { 0 < length block.old }
    ensures gains { Gains input.old.items input.new.items (R.remaining reader.old) (R.remaining reader.new) }
    ensures count { IfOk result (λ n. vec_len input.new ≡ vec_len input.old + n) }
    ensures few { vec_len input.new ≤ vec_len input.old + length block.old }
    ensures end { IfOk result (λ n. n ≡ 0 → IsAtEnd (R.remaining reader.new)) }
    ensures no_failure { (IsErrOf result BytesFault.Read → ⊥) → R.failed_calls reader.new ≡ R.failed_calls reader.old }
    ensures read_fails { IsErrOf result BytesFault.Read → HasFailed (R.failed_calls reader.old)
        (R.failed_calls reader.new) }
    ensures called { OnOk result (R.calls reader.new ≡ one_more (R.calls reader.old)) }
    ensures short { IsErrOf result BytesFault.TooLong → ⊥ }
{
    input.reserve(block.len()).map_err(|_| BytesFault::Memory)?;
    let count = reader.read(block).map_err(|_| BytesFault::Read)?;
    input.extend_from_slice(&block[..count]).unwrap();
    Ok(count)
}

/// All bytes of a source, at most `limit`. `TooLong` if it has more; `Read` if the device failed or 10^12 reads found
/// no end; `Memory` if an allocation was refused. Only `Read` reports a failed call. At most one byte more than the
/// limit is read of the source.
///
/// ```rust
/// let mut source = MemorySource::new(b"abc", 1, 0);
/// let bytes = read_bytes(alloc, &mut source, 3)?;
/// assert_eq!(rt; bytes.as_slice(), b"abc".as_slice());
/// let mut source = MemorySource::new(b"abc", 1, 0);
/// let refused = read_bytes(alloc, &mut source, 2);
/// assert!(rt; matches!(refused, Err(BytesFault::TooLong)));
/// ```
pub fn read_bytes<R: Source>(
    alloc: Global,
    reader: &mut R,
    limit: usize,
) -> Result<Vec<u8>, BytesFault>
    ensures bytes { IfOk result (λ bytes. IfSome (R.remaining reader.old) (λ left. bytes.items ≡ left)) }
    ensures within { IfOk result (λ bytes. vec_len bytes ≤ limit) }
    ensures end { OnOk result (IsAtEnd (R.remaining reader.new)) }
    ensures no_failure { (IsErrOf result BytesFault.Read → ⊥) → R.failed_calls reader.new ≡ R.failed_calls reader.old }
    ensures too_long { IsErrOf result BytesFault.TooLong
        → IfSome (R.remaining reader.old) (λ left. limit < length left) }
    ensures read_fails { IsErrOf result BytesFault.Read
        → HasFailed (R.failed_calls reader.old) (R.failed_calls reader.new)
        ⊎ (OutlastsReads (R.calls reader.old) (R.calls reader.new) × (R.failed_calls reader.new ≡ R.failed_calls
        reader.old) × (most_reads ≤ limit)) }
    ensures consumed { (taken : List ℕ)
        × Consumes (R.remaining reader.old) (R.remaining reader.new) taken × (length taken ≤ limit + 1) }
{
    let mut block = [0; BLOCK];
    let mut bytes = Vec::new(alloc);
    for _reads in 0..MOST_READS {
        // One byte past the limit shows that there are too many.
        let wanted = (limit - bytes.len()).min(BLOCK - 1) + 1;
        if read_more(reader, &mut block[..wanted], &mut bytes)? == 0 {
            return Ok(bytes);
        }
        if bytes.len() > limit {
            return Err(BytesFault::TooLong);
        }
    }
    Err(BytesFault::Read)
}
