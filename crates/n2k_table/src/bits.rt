//! The bits of a message: raw values, and the greatest of them.
ghost use Rattle.std.specs.Prelude.{◌≡◌, ◌+◌, ◌*◌, ◌-◌, ◌^◌, ◌<◌, ◌≤◌, length};
ghost use Rattle.n2k_table.specs.Bits.{raw, greatest};
ghost use Rattle.n2k_table.specs.Inner.Kept.{IsWordMask};

/// The most bits that lie in eight bytes wherever they begin.
const MOST_AT_ONCE: u32 = 57;

/// The bits of the first eight bytes.
pub(crate) const WORD_BITS: u32 = 64;

/// The lower bits of a raw value that is put together of two.
const HALF: u32 = 32;

/// Fewer than eight bytes as one number, the first lowest. It is not inlined: most data have eight bytes.
#[tactic(auto, using(crate::proofs::RawBits::raw_padded))]
#[cold]
#[inline(never)]
fn short_word(data: &[u8]) -> u64
    requires { length «data».now < 8 }
    ensures { result ≡ raw «data».now 0 64 }
{
    let mut eight = [0; 8];
    eight[..data.len()].copy_from_slice(data);
    u64::from_le_bytes(eight)
}

/// The first eight bytes as one number, the first lowest. A byte that is missing counts as 0.
#[inline(always)]
pub(crate) fn first_word(data: &[u8]) -> u64
    ensures { result ≡ raw «data».now 0 64 }
{
    match data.first_chunk::<8>() {
        Some(eight) => u64::from_le_bytes(*eight),
        None => short_word(data),
    }
}

/// The raw value of bits that lie in the eight bytes from a byte on.
#[inline(always)]
fn raw_in_word(data: &[u8], from: usize, at: usize, bits: u32, mask: u64) -> u64
    requires prefix { 8 * from ≤ at }
    requires word { at + bits ≤ 8 * from + 64 }
    requires within { at + bits ≤ 8 * length «data».now }
    requires some { 1 ≤ bits }
    requires mask { mask ≡ 2 ^ bits - 1 }
    ensures { result ≡ raw «data».now at bits }
{
    (first_word(&data[from..]) >> (at - 8 * from)) & mask
}

/// The raw value of more bits, of its lower half and of the others. It is not inlined: few fields have so many.
#[cold]
#[inline(never)]
fn raw_of_two(data: &[u8], at: usize, bits: u32) -> u64
    requires place { at < 2 ^ 32 }
    requires within { at + bits ≤ 8 * length «data».now }
    requires many { 57 < bits }
    requires room { bits ≤ 64 }
    ensures { result ≡ raw «data».now at bits }
{
    let (middle, rest) = (at + HALF as usize, bits - HALF);
    let low = raw_in_word(data, at / 8, at, HALF, greatest(false, HALF));
    let high = raw_in_word(data, middle / 8, middle, rest, greatest(false, rest));
    (high << HALF) + low
}

/// The raw value of some bits, the sum of bit `at + j` times `2^j`: from the first eight bytes, from those up to its last
/// bit, or of two halves.
#[tactic(auto, using(crate::proofs::RawBits::raw_lt))]
#[inline(always)]
pub(crate) fn raw(data: &[u8], at: u32, bits: u32) -> u64
    requires within { at + bits ≤ 8 * length «data».now }
    requires some { 1 ≤ bits }
    requires room { bits ≤ 64 }
    ensures value { result ≡ raw «data».now at bits }
    ensures range { result < 2 ^ bits }
{
    let mask = greatest(false, bits);
    let at = at as usize;
    let end = at + bits as usize;
    if end <= WORD_BITS as usize {
        raw_in_word(data, 0, at, bits, mask)
    } else if bits <= MOST_AT_ONCE {
        raw_in_word(data, (end + 7) / 8 - 8, at, bits, mask)
    } else {
        raw_of_two(data, at, bits)
    }
}

/// Half of the values of some bits.
fn half(bits: u32) -> u64
    requires some { 1 ≤ bits }
    requires room { bits ≤ 64 }
    ensures { result ≡ 2 ^ (bits - 1) }
{
    1 << (bits - 1)
}

/// The greatest value of some bits.
pub(crate) fn greatest(signed: bool, bits: u32) -> u64
    requires some { 1 ≤ bits }
    requires room { bits ≤ 64 }
    ensures { result ≡ greatest signed bits }
{
    let half = half(bits);
    if signed { half - 1 } else { half - 1 + half }
}

/// The mask of some bits, if they lie in the first eight bytes.
pub(crate) fn word_mask(at: u32, bits: u32) -> Option<u64>
    requires { at + bits < 2 ^ 32 }
    ensures { IsWordMask result at bits }
{
    if bits == 0 || at + bits > WORD_BITS {
        return None;
    }
    Some(greatest(false, bits))
}
