//! A recording that is replayed: the same lines, each time with later timestamps, other senders and other data.

use n2k_run::{Failed, Source};
use std::alloc::{AllocError, Global};

/// The number of senders, and the lowest of their addresses. All have two digits, in either base.
pub(crate) const SENDERS: u64 = 40;

pub(crate) const LEAST_SENDER: u64 = 60;

/// The seconds of a day.
const DAY: u64 = 86_400;

/// The next number of a pseudorandom sequence: Marsaglia's xorshift.
pub(crate) fn next_random(before: u64) -> u64 {
    let a = before ^ (before << 13);
    let b = a ^ (a >> 7);
    b ^ (b << 17)
}

/// The first number of the sequence for a seed.
pub(crate) fn first_random(seed: u64) -> u64 {
    next_random(next_random(seed.wrapping_mul(0x9e37_79b9_7f4a_7c15) ^ 0x6a09_e667_f3bc_c909) | 1)
}

/// A digit.
pub(crate) fn digit(number: u64) -> u8 {
    b'0' + (number % 10) as u8
}

/// A digit in base 16.
pub(crate) fn hex_digit(number: u64) -> u8 {
    let value = (number % 16) as u8;
    if value < 10 {
        b'0' + value
    } else {
        b'A' - 10 + value
    }
}

/// The value of a digit in base 16.
pub(crate) fn hex_value(digit: u8) -> u64 {
    match digit {
        b'A'..=b'F' => u64::from(digit - b'A') + 10,
        _ => u64::from(digit.wrapping_sub(b'0')),
    }
}

/// Writes a byte, if the text is long enough.
pub(crate) fn put(text: &mut [u8], at: usize, byte: u8) {
    if let Some(place) = text.get_mut(at) {
        *place = byte;
    }
}

/// Writes bytes, if the text is long enough.
pub(crate) fn put_all<const N: usize>(text: &mut [u8], at: usize, bytes: &[u8; N]) {
    if let Some(rest) = text.get_mut(at..) {
        if let Some(place) = rest.first_chunk_mut::<N>() {
            *place = *bytes;
        }
    }
}

/// The number that decimal digits denote. Bytes that are not digits give an arbitrary number.
fn number_of(digits: &[u8]) -> u64 {
    let mut number = 0u64;
    for byte in digits {
        number = number
            .wrapping_mul(10)
            .wrapping_add(u64::from(byte.wrapping_sub(b'0')));
    }
    number
}

/// The digits of a second in a candump timestamp and in a time of day.
#[derive(Clone, Copy)]
pub(crate) struct Digits {
    second: u64,
    pub(crate) counted: [u8; 10],
    clock: [u8; 8],
}

impl Digits {
    pub(crate) fn new(second: u64) -> Digits {
        let mut counted = [b'0'; 10];
        let mut left = second;
        for place in counted.iter_mut().rev() {
            *place = digit(left);
            left /= 10;
        }
        let of_day = second % DAY;
        let (hour, minute, rest) = (of_day / 3600, of_day / 60 % 60, of_day % 60);
        let clock = [
            digit(hour / 10),
            digit(hour),
            b':',
            digit(minute / 10),
            digit(minute),
            b':',
            digit(rest / 10),
            digit(rest),
        ];
        Digits {
            second,
            counted,
            clock,
        }
    }
}

/// The positions that change in a line.
#[derive(Clone, Copy)]
struct Mark {
    /// Whether it is a candump line, whose timestamp counts seconds; a plain line has a time of day.
    is_candump: bool,
    /// The position of the digits of the seconds, and the second.
    at: usize,
    second: u64,
    /// The position of the sender's two digits, and the sender's number.
    sender_at: usize,
    sender: u64,
    /// The positions of digits in the data.
    data_at: [usize; 3],
}

/// A position that no text has.
const NOWHERE: usize = usize::MAX;

/// The marks of the candump line at a position.
fn candump_mark(begin: usize, line: &[u8]) -> Mark {
    let end = begin.saturating_add(line.len());
    let back = |bytes: usize| {
        if line.len() == 50 {
            end.saturating_sub(bytes)
        } else {
            NOWHERE
        }
    };
    Mark {
        is_candump: true,
        at: begin.saturating_add(1),
        second: number_of(line.get(1..11).unwrap_or(&[])),
        sender_at: begin.saturating_add(31),
        sender: sender_of(line.get(31..33).unwrap_or(&[]), 16),
        data_at: [back(1), back(3), back(5)],
    }
}

/// A sender's number, from the two digits of its address.
fn sender_of(digits: &[u8], base: u64) -> u64 {
    let [high, low] = digits else {
        return 0;
    };
    hex_value(*high)
        .wrapping_mul(base)
        .wrapping_add(hex_value(*low))
        .saturating_sub(LEAST_SENDER)
}

/// The position of the column after this many commas.
fn column_at(line: &[u8], commas: usize) -> usize {
    let mut seen = 0usize;
    for (at, byte) in line.iter().enumerate() {
        if *byte == b',' {
            seen = seen.saturating_add(1);
            if seen == commas {
                return at.saturating_add(1);
            }
        }
    }
    line.len()
}

/// The marks of the plain line at a position.
fn plain_mark(begin: usize, line: &[u8]) -> Mark {
    let end = begin.saturating_add(line.len());
    let column = column_at(line, 3);
    let clock = line.get(11..19).unwrap_or(&[]);
    let two = |at: usize| match clock.get(at..) {
        Some(digits) => number_of(digits.first_chunk::<2>().unwrap_or(&[b'0'; 2])),
        None => 0,
    };
    let digits = match line.get(column..) {
        Some(rest) => rest.first_chunk::<2>().unwrap_or(&[b'6', b'0']),
        None => &[b'6', b'0'],
    };
    let back = |bytes: usize| {
        if line.len() > 64 {
            end.saturating_sub(bytes)
        } else {
            NOWHERE
        }
    };
    Mark {
        is_candump: false,
        at: begin.saturating_add(11),
        second: two(0)
            .wrapping_mul(3600)
            .wrapping_add(two(3).wrapping_mul(60))
            .wrapping_add(two(6)),
        sender_at: begin.saturating_add(column),
        sender: sender_of(digits, 10),
        data_at: [back(1), back(4), back(7)],
    }
}

/// A recording that is being read.
#[derive(Drop)]
pub(crate) struct Replay {
    text: Vec<u8>,
    marks: Vec<Mark>,
    /// How many bytes of this round have been read.
    read: usize,
    /// The rounds that have begun, and the rounds still to come.
    round: u64,
    left: u64,
    /// How many seconds a round takes.
    seconds: u64,
    random: u64,
    calls: u64,
}

impl Replay {
    ghost use Rattle.std.specs.Prelude.{◌≡◌};

    /// A recording of these lines; a round lasts `seconds`. No round has been requested yet. On average one line in
    /// `lost` is lost, the same lines in each round; none if `lost` is 0.
    pub(crate) fn new(
        alloc: Global,
        lines: &str,
        seconds: u64,
        lost: u64,
        seed: u64,
    ) -> Result<Replay, AllocError> {
        let mut text = Vec::new(alloc);
        let mut marks = Vec::new(alloc);
        let mut random = first_random(seed);
        for line in lines.lines() {
            random = next_random(random);
            if lost > 0 && random % lost.max(1) == 0 {
                continue;
            }
            let bytes = line.as_bytes();
            if bytes.first() == Some(&b'(') {
                marks.push(candump_mark(text.len(), bytes))?;
            } else if bytes.first() == Some(&b'2') {
                marks.push(plain_mark(text.len(), bytes))?;
            }
            text.extend_from_slice(bytes)?;
            text.push(b'\n')?;
        }
        let read = text.len();
        Ok(Replay {
            text,
            marks,
            read,
            round: seed % SENDERS,
            left: 0,
            seconds,
            random,
            calls: 0,
        })
    }

    /// Requests more rounds.
    pub(crate) fn go_on(&mut self, rounds: u64) {
        self.left = self.left.saturating_add(rounds);
    }

    /// Begins the next round.
    fn begin_round(&mut self)
        ensures { self.new.calls ≡ self.old.calls }
    {
        let later = self.round.wrapping_mul(self.seconds);
        let mut random = self.random;
        let mut digits = Digits::new(0);
        let text = self.text.as_mut_slice();
        for mark in self.marks.as_slice() {
            let second = mark.second.wrapping_add(later);
            if digits.second != second {
                digits = Digits::new(second);
            }
            let address = LEAST_SENDER + mark.sender.wrapping_add(self.round) % SENDERS;
            if mark.is_candump {
                put_all(text, mark.at, &digits.counted);
                let sender = [hex_digit(address / 16), hex_digit(address)];
                put_all(text, mark.sender_at, &sender);
            } else {
                put_all(text, mark.at, &digits.clock);
                let sender = [digit(address / 10), digit(address)];
                put_all(text, mark.sender_at, &sender);
            }
            random = next_random(random);
            let [a, b, c] = mark.data_at;
            put(text, a, b'0' + (random % 8) as u8);
            put(text, b, b'0' + (random / 8 % 8) as u8);
            put(text, c, b'0' + (random / 64 % 8) as u8);
        }
        self.random = random;
        self.round = self.round.wrapping_add(1);
        self.left = self.left.saturating_sub(1);
        self.read = 0;
    }
}

impl Source for Replay {
    ghost use Rattle.std.specs.Prelude.{None};

    ghost calls = { λ r. r.calls };

    ghost failed_calls = { λ _. 0 };

    // No definition describes what the random numbers give.
    ghost remaining = { λ _. None };

    fn read(&mut self, buffer: &mut [u8]) -> Result<usize, Failed> {
        if self.read >= self.text.len() && self.left > 0 {
            self.begin_round();
        }
        let rest = self.text.get(self.read..).unwrap_or(&[]);
        let count = buffer.len().min(rest.len());
        buffer[..count].copy_from_slice(&rest[..count]);
        self.read = self.read.saturating_add(count);
        self.calls = self.calls.saturating_add(1);
        Ok(count)
    }
}
