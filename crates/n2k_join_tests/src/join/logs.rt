//! The logs of the worked examples of groups.
use std::alloc::Global;

pub(crate) const TWO_SOURCES: &str = "(10.000001) can0 1DFF0405#000BA39901414243
(10.100000) can0 1DFF0406#200BA39902585920
(10.200000) can0 1DFF0406#212020202020FFFF
(10.300000) can0 1DFF0405#010000000000FFFF";

pub(crate) const FRAMES_IN_REVERSE: &str = "(11.0) can0 1DFF0405#4120202020202020
(12.0) can0 1DFF0405#400DA39903444546";

pub(crate) const REPEAT_BREAKS: &str = "(1.0) can0 1DFF0405#6014A39904474849
(2.0) can0 1DFF0405#6120202020202020
(3.0) can0 1DFF0405#6120202020202020
(4.0) can0 1DFF0405#6014A39904474849
(5.0) can0 1DFF0405#6220202020202020";

pub(crate) const EXTRA_FRAME: &str = "(1.0) can0 1DFF0405#800DA39906414243
(2.0) can0 1DFF0405#8320202020202020
(3.0) can0 1DFF0405#8120202020202020
(4.0) can0 1DFF0405#800DA39906414243";

// The frame 0 of the first message was lost.
pub(crate) const MIXED_MESSAGE: &str = "(1.0) can0 1DFF0405#0141414141414141
(9.0) can0 1DFF0405#000DA39903444546";

// The frame 0 of the first of two messages was lost.
pub(crate) const FIRST_FRAME_LOST: &str = "(1.0) can0 1DFF0405#0141414141414141
(2.0) can0 1DFF0405#0242424242424242
(3.0) can0 1DFF0405#0014A39904474849
(4.0) can0 1DFF0405#0120202020202020
(5.0) can0 1DFF0405#0220202020202020";

// A frame without data, a frame 0 without a length, a PGN that the table lacks, a message of a single frame.
pub(crate) const ODD_FRAMES: &str = "(1.0) can0 1DFF0405#
(2.0) can0 1DFF0405#00
(3.0) can0 18EAFF01#00
(4.0) can0 09F11324#7D0B";

// The last frame of a message contains only its one byte.
pub(crate) const SHORT_LAST_FRAME: &str = "(1.0) can0 1DFF0405#0007010203040506
(2.0) can0 1DFF0405#0107";

// Lengths of 0, of 6 after a group of a greater length, and of 14.
pub(crate) const SHORT_TOTALS: &str = "(1.0) can0 1DFF0405#0000FFFFFFFFFFFF
(2.0) can0 1DFF0405#000BA39901414243
(3.0) can0 1DFF0405#0006A39901414243
(4.0) can0 1DFF0405#200E010203040506
(5.0) can0 1DFF0405#220E
(6.0) can0 1DFF0405#210708090A0B0C0D";

// 32 frames of 223 bytes, and a frame 0 of 224.
pub(crate) const LONGEST_MESSAGE: &str = "(1.0) can0 1DFF0405#00DFA399054A4B4C
(2.0) can0 1DFF0405#0120202020202020
(3.0) can0 1DFF0405#0220202020202020
(4.0) can0 1DFF0405#0320202020202020
(5.0) can0 1DFF0405#0420202020202020
(6.0) can0 1DFF0405#0520202020202020
(7.0) can0 1DFF0405#0620202020202020
(8.0) can0 1DFF0405#0720202020202020
(9.0) can0 1DFF0405#0820202020202020
(10.0) can0 1DFF0405#0920202020202020
(11.0) can0 1DFF0405#0A20202020202020
(12.0) can0 1DFF0405#0B20202020202020
(13.0) can0 1DFF0405#0C20202020202020
(14.0) can0 1DFF0405#0D20202020202020
(15.0) can0 1DFF0405#0E20202020202020
(16.0) can0 1DFF0405#0F20202020202020
(17.0) can0 1DFF0405#1020202020202020
(18.0) can0 1DFF0405#1120202020202020
(19.0) can0 1DFF0405#1220202020202020
(20.0) can0 1DFF0405#1320202020202020
(21.0) can0 1DFF0405#1420202020202020
(22.0) can0 1DFF0405#1520202020202020
(23.0) can0 1DFF0405#1620202020202020
(24.0) can0 1DFF0405#1720202020202020
(25.0) can0 1DFF0405#1820202020202020
(26.0) can0 1DFF0405#1920202020202020
(27.0) can0 1DFF0405#1A20202020202020
(28.0) can0 1DFF0405#1B20202020202020
(29.0) can0 1DFF0405#1C20202020202020
(30.0) can0 1DFF0405#1D20202020202020
(31.0) can0 1DFF0405#1E20202020202020
(32.0) can0 1DFF0405#1F20202020202020
(33.0) can0 1DFF0405#00E0A399054A4B4C";

// The second frames of eight messages of one stream, then the first frames in reverse.
pub(crate) const EIGHT_UNDER_WAY: &str = "(1.0) can0 1DFF0405#010000000000FFFF
(1.0) can0 1DFF0405#210000000000FFFF
(1.0) can0 1DFF0405#410000000000FFFF
(1.0) can0 1DFF0405#610000000000FFFF
(1.0) can0 1DFF0405#810000000000FFFF
(1.0) can0 1DFF0405#A10000000000FFFF
(1.0) can0 1DFF0405#C10000000000FFFF
(1.0) can0 1DFF0405#E10000000000FFFF
(2.0) can0 1DFF0405#E00BA39908414243
(2.0) can0 1DFF0405#C00BA39907414243
(2.0) can0 1DFF0405#A00BA39906414243
(2.0) can0 1DFF0405#800BA39905414243
(2.0) can0 1DFF0405#600BA39904414243
(2.0) can0 1DFF0405#400BA39903414243
(2.0) can0 1DFF0405#200BA39902414243
(2.0) can0 1DFF0405#000BA39901414243";

// The second frame of a sender's message.
fn push_second(alloc: Global, src: u8, log: &mut String) -> Option<()> {
    let line = format!(in alloc; "(1.0) can0 1DFF04{src:02X}#010000000000FFFF\n").ok()?;
    log.push_str(&line).ok()
}

// The first frame of a sender's message, which contains the sender's number.
fn push_first(alloc: Global, src: u8, log: &mut String) -> Option<()> {
    let line = format!(in alloc; "(2.0) can0 1DFF04{src:02X}#000BA399{src:02X}414243\n").ok()?;
    log.push_str(&line).ok()
}

// Second frames of 70 senders, one of them twice, then the first frames in the order of the senders: many groups are
// open at once.
pub(crate) fn seventy_senders(alloc: Global) -> Option<String> {
    let mut log = String::new(alloc);
    for src in 0..70u8 {
        push_second(alloc, src, &mut log)?;
    }
    push_second(alloc, 3, &mut log)?;
    for src in 0..70u8 {
        push_first(alloc, src, &mut log)?;
    }
    Some(log)
}
