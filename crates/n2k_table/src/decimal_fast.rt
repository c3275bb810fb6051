//! A fast path for a number of 64 bits with at most 18 decimals. Most have at most eight digits, which are put together
//! in one word and stored from there; those of the others stand in an array. `decimal.rt` appends any number; that is
//! the file to read first.
ghost use Rattle.std.specs.Prelude.{◌≡◌, ◌++◌, ◌+◌, ◌-◌, ◌≤◌, ◌<◌, ◌^◌, take, drop};
ghost use Rattle.n2k_table.specs.Decimal.{after_dot, dotted, padded_digits};
ghost use Rattle.n2k_table.specs.Inner.Digits.{pairs_word, values_word};

use crate::json_header::number_text;
use crate::line_buffer::TextBuffer;
use itoa::write_digits;

/// The most decimals of a resolution, and of a short number.
pub(crate) const MOST_DECIMALS: usize = 18;

/// How many bytes of the digits are copied at once: 20 digits have 64 bits.
const WIDE: usize = 24;

/// Where the digits end.
const END: usize = 40;

/// Room for the digits, and after them for as many bytes as are copied at once.
const ROOM: usize = END + WIDE;

/// How many digits are put together in a word.
const DIGITS: usize = 8;

/// The least number that has more digits.
const LEAST_LONG: u64 = 100_000_000;

/// Eight bytes `0`.
const NOUGHTS: u64 = 0x3030_3030_3030_3030;

/// Appends bytes of an array of digits. There is room for 24.
#[inline(always)]
fn write_digits_of<const SIZE: usize>(
    digits: &[u8; ROOM],
    from: usize,
    to: usize,
    line: &mut TextBuffer<SIZE>,
)
    requires order { from ≤ to }
    requires few { to ≤ from + 24 }
    requires start { from ≤ 40 }
    requires room { line.old.held + 24 ≤ SIZE }
    ensures items { line.new.items ≡ line.old.items ++ take (to - from) (take 24 (drop from digits.now)) }
    ensures held { line.new.held ≡ line.old.held + (to - from) }
{
    if let Some(wide) = digits[from..].first_chunk::<WIDE>() {
        line.write(wide, to - from);
    }
}

/// Appends the decimal text of `size / 10^decimals` by an array of its digits. There is room for 48 bytes.
#[inline(never)]
fn write_long<const SIZE: usize>(size: u64, decimals: usize, line: &mut TextBuffer<SIZE>)
    requires decimals { decimals ≤ 18 }
    requires room { line.old.held + 48 ≤ SIZE }
    ensures { line.new.items ≡ line.old.items ++ dotted decimals (padded_digits size decimals) }
{
    let mut digits = [b'0'; ROOM];
    let first = write_digits(size, &mut digits, END);
    let dot = END - decimals;
    let from = first.min(dot - 1);
    write_digits_of(&digits, from, dot, line);
    if decimals > 0 {
        digits[dot - 1] = b'.';
        write_digits_of(&digits, dot - 1, END, line);
    }
}

/// The four pairs of digits of a number below 10^8 as values, the first in the lowest bytes. Both halves of four digits
/// are divided by 100 at once: below 10^4, `x * 10_486 >> 20` is `x / 100`.
#[inline(always)]
fn four_pairs(number: u64) -> u64
    requires { number < 10 ^ 8 }
    ensures { result ≡ pairs_word number }
{
    let halves = number / 10_000 + (number % 10_000 << 32);
    let hundreds = (halves * 10_486 >> 20) & 0x7f_0000_007f;
    hundreds + (halves - hundreds * 100 << 16)
}

/// The eight digits of a number below 10^8 as values, zeros before them, the first in the lowest byte. All four pairs
/// are divided by 10 at once: below 100, `x * 103 >> 10` is `x / 10`.
#[inline(always)]
fn eight_values(number: u64) -> u64
    requires { number < 10 ^ 8 }
    ensures { result ≡ values_word number }
{
    let pairs = four_pairs(number);
    let tens = (pairs * 103 >> 10) & 0xf_000f_000f_000f;
    tens + (pairs - tens * 10 << 8)
}

/// Appends the first bytes of some, and a dot and the first bytes of others unless they are none. There is room for 17.
#[inline(always)]
fn write_parts<const SIZE: usize>(
    prefix: [u8; 8],
    whole: usize,
    back: [u8; 8],
    decimals: usize,
    line: &mut TextBuffer<SIZE>,
)
    requires whole { whole ≤ 8 }
    requires decimals { decimals ≤ 8 }
    requires room { line.old.held + 17 ≤ SIZE }
    ensures { line.new.items ≡ line.old.items ++ (take whole prefix ++ after_dot (take decimals back)) }
{
    line.write(&prefix, whole);
    line.write(b".", usize::from(decimals > 0));
    line.write(&back, decimals);
}

/// Appends the decimal text of `size / 10^decimals`. There is room for 48 bytes. A byte is looked up. To store the
/// digits of a short number from a word costs less than to write them to an array and to copy more bytes of it at once,
/// which waits for those that were just written.
#[inline(always)]
pub(crate) fn write_short<const SIZE: usize>(
    size: u64,
    decimals: usize,
    line: &mut TextBuffer<SIZE>,
)
    requires decimals { decimals ≤ 18 }
    requires room { line.old.held + 48 ≤ SIZE }
    ensures { line.new.items ≡ line.old.items ++ dotted decimals (padded_digits size decimals) }
{
    if decimals == 0 && size < 256 {
        let (text, count) = number_text(size as u8);
        line.write(&text, count);
    } else if size < LEAST_LONG && decimals < DIGITS {
        let values = eight_values(size);
        let zeros = (values.trailing_zeros() / 8) as usize;
        let skipped = zeros.min(DIGITS - 1 - decimals);
        let whole = DIGITS - decimals - skipped;
        let prefix = (values + NOUGHTS) >> (8 * skipped);
        let back = prefix >> (8 * (whole - 1)) >> 8;
        write_parts(
            prefix.to_le_bytes(),
            whole,
            back.to_le_bytes(),
            decimals,
            line,
        );
    } else {
        write_long(size, decimals, line);
    }
}
