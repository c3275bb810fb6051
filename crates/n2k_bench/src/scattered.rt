//! Frames of many groups in random order: half of the groups stay open, the others complete.

use crate::replay::{
    Digits, LEAST_SENDER, SENDERS, digit, first_random, hex_digit, hex_value, next_random, put,
    put_all,
};
use n2k_run::{Failed, Source};
use std::alloc::{AllocError, Global};

/// The bytes of a frame's line, with its LF, and how many lines are made at a time.
const LINE: usize = 51;

const LINES: usize = 64;

/// The frames of a message of 223 bytes, the longest.
const FRAMES: u32 = 32;

/// The time of the first frame, and the number of frames a second.
const FIRST_SECOND: u64 = 1_751_608_800;

const FRAMES_A_SECOND: u64 = 1000;

/// Whether a group stays open. Every second group does.
fn stays_open(group: u32) -> bool {
    group % 2 == 0
}

/// How many frames a group gets in a round. A group that stays open gets one, or the same frame twice, which opens the
/// group again; any other group gets a complete message.
fn frames_of(group: u32) -> u32 {
    if stays_open(group) {
        1 + group % 4 / 2
    } else {
        FRAMES
    }
}

/// Shuffles items.
fn shuffle(items: &mut [u32], mut random: u64) {
    for last in 1..items.len() {
        random = next_random(random);
        let at = (random % (last as u64).saturating_add(1)) as usize;
        if at < items.len() && last < items.len() {
            items.swap(at, last);
        }
    }
}

/// The frames of the groups.
#[derive(Drop)]
struct Frames {
    /// A frame's line, with its LF, for each PGN and sequence. Each sender has a group of each.
    kinds: Vec<u8>,
    /// The groups in the order of this round's frames, and how many frames have been made.
    order: Vec<u32>,
    come: usize,
    /// The rounds still to come.
    left: u64,
    /// The frames made so far: of each group, and of all groups.
    sent: Vec<u32>,
    frames: u64,
    /// The lines that are being read, and how many of their bytes have been read.
    text: Vec<u8>,
    read: usize,
    random: u64,
}

impl Frames {
    /// Frames with the PGNs and sequences of these candump lines, each of 50 bytes, in `rounds` rounds.
    fn new(alloc: Global, lines: &str, rounds: u64, seed: u64) -> Result<Frames, AllocError> {
        let mut kinds = Vec::new(alloc);
        let mut order = Vec::new(alloc);
        let mut sent = Vec::new(alloc);
        let mut group = 0u32;
        for line in lines.lines() {
            kinds.extend_from_slice(line.as_bytes())?;
            kinds.push(b'\n')?;
            for _sender in 0..SENDERS {
                sent.push(0)?;
                for _frame in 0..frames_of(group) {
                    order.push(group)?;
                }
                group = group.wrapping_add(1);
            }
        }
        let come = order.len();
        Ok(Frames {
            kinds,
            order,
            come,
            left: rounds,
            sent,
            frames: 0,
            text: Vec::new(alloc),
            read: 0,
            random: first_random(seed),
        })
    }

    /// Begins the next round.
    fn begin_round(&mut self) {
        self.random = next_random(self.random);
        shuffle(self.order.as_mut_slice(), self.random);
        self.come = 0;
        self.left = self.left.saturating_sub(1);
    }

    /// The number of the next frame of a group.
    fn take_number(&mut self, group: u32) -> u64 {
        let Some(sent) = self.sent.get_mut(group as usize) else {
            return 0;
        };
        let number = *sent % FRAMES;
        *sent = sent.wrapping_add(1);
        if stays_open(group) {
            1
        } else {
            u64::from(number)
        }
    }

    /// Appends the line of the next frame of a group.
    fn push_line(&mut self, group: u32) -> Option<()> {
        let number = self.take_number(group);
        self.random = next_random(self.random);
        let random = self.random;
        let kind = (group as usize) / (SENDERS as usize);
        let line = self
            .kinds
            .get(kind.saturating_mul(LINE)..)?
            .first_chunk::<LINE>()?;
        let begin = self.text.len();
        self.text.extend_from_slice(line).ok()?;
        let text = self.text.as_mut_slice().get_mut(begin..)?;
        let frames = self.frames;
        self.frames = frames.saturating_add(1);
        let second = Digits::new(FIRST_SECOND + frames / FRAMES_A_SECOND);
        put_all(text, 1, &second.counted);
        let fraction = [digit(frames / 100), digit(frames / 10), digit(frames)];
        put_all(text, 12, &fraction);
        let sender = LEAST_SENDER + u64::from(group) % SENDERS;
        put_all(text, 31, &[hex_digit(sender / 16), hex_digit(sender)]);
        let sequence = hex_value(*text.get(34)?) & 0b1110;
        put_all(
            text,
            34,
            &[hex_digit(sequence | number / 16), hex_digit(number)],
        );
        // The first frame contains the length, 223.
        let first = if number == 0 {
            *b"DF"
        } else {
            [hex_digit(random), hex_digit(random / 16)]
        };
        put_all(text, 36, &first);
        put(text, 49, hex_digit(random / 256));
        Some(())
    }

    /// Makes the next lines.
    fn make_lines(&mut self) {
        self.text.clear();
        self.read = 0;
        for _line in 0..LINES {
            if self.come >= self.order.len() && self.left > 0 {
                self.begin_round();
            }
            if let Some(group) = self.order.get(self.come).copied() {
                // If memory is refused, the frame is lost.
                let _ = self.push_line(group);
                self.come = self.come.saturating_add(1);
            }
        }
    }
}

/// The frames of many groups, as a source.
#[derive(Drop)]
pub(crate) struct Scattered {
    frames: Frames,
    calls: u64,
}

impl Scattered {
    /// Frames with the PGNs and sequences of these candump lines, each of 50 bytes, in `rounds` rounds.
    pub(crate) fn new(
        alloc: Global,
        lines: &str,
        rounds: u64,
        seed: u64,
    ) -> Result<Scattered, AllocError> {
        Ok(Scattered {
            frames: Frames::new(alloc, lines, rounds, seed)?,
            calls: 0,
        })
    }
}

impl Source for Scattered {
    ghost use Rattle.std.specs.Prelude.{None};

    ghost calls = { λ s. s.calls };

    ghost failed_calls = { λ _. 0 };

    // No definition describes what the random numbers give.
    ghost remaining = { λ _. None };

    fn read(&mut self, buffer: &mut [u8]) -> Result<usize, Failed> {
        let frames = &mut self.frames;
        if frames.read >= frames.text.len() {
            frames.make_lines();
        }
        let rest = frames.text.get(frames.read..).unwrap_or(&[]);
        let count = buffer.len().min(rest.len());
        buffer[..count].copy_from_slice(&rest[..count]);
        frames.read = frames.read.saturating_add(count);
        self.calls = self.calls.saturating_add(1);
        Ok(count)
    }
}
