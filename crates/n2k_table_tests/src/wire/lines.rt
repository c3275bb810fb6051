//! Lines of a log, each at its first and its last byte.
use n2k_wire::{
    BadCause, Entry, LONGEST_LINE, LineReader, Packet, Packing, plain_text, read_line, split_id,
};
use std::alloc::{AllocError, Global};
use std::process::Abort;
use std::test::Fail;

// A word, and then a packet's plain text.
fn text_after(alloc: Global, word: &str, packet: &Packet) -> Result<Vec<u8>, AllocError> {
    let mut text = word.as_bytes().to_vec(alloc)?;
    plain_text(alloc, packet, &mut text)?;
    Ok(text)
}

// An entry as text: `skipped`, the cause of a bad line, or the packet's plain text, after `whole` if it is not a frame.
fn text_of(alloc: Global, entry: &Entry) -> Result<Vec<u8>, AllocError> {
    match entry {
        Entry::Skip => b"skipped".to_vec(alloc),
        Entry::Bad(cause) => Ok(format!(in alloc; "{cause:?}")?.into_bytes()),
        Entry::Frame(packet) => text_after(alloc, "", packet),
        Entry::Whole(packet) => text_after(alloc, "whole ", packet),
    }
}

fn tells<R: Abort + AllocGlobal>(
    rt: &R,
    entry: &Entry,
    wanted: &[u8],
    case: &str,
) -> Result<(), Fail> {
    let text = text_of(rt.alloc(), entry)?;
    assert_eq!(rt; text.as_slice(), wanted, "of {case}");
    Ok(())
}

// A line gives the case's entry.
fn reads<R: Abort + AllocGlobal>(
    rt: &R,
    line: &str,
    packing: Packing,
    wanted: &str,
) -> Result<(), Fail> {
    let entry = read_line(line.as_bytes(), packing);
    tells(rt, &entry, wanted.as_bytes(), line)
}

// A candump line and its entry.
const CANDUMP_LINES: [(&str, &str); 34] = [
    // cog-and-sog, unknown-pgn
    (
        "(1502979132.106111) can0 09F8027F#00FCFFFF0000FFFF",
        "2017-08-17T14:12:12.106Z,2,129026,127,255,8,00,fc,ff,ff,00,00,ff,ff\n",
    ),
    (
        "(1.0) can0 18EAFF01#14F001",
        "1970-01-01T00:00:01.000Z,6,59904,1,255,3,14,f0,01\n",
    ),
    // candump-forms
    (
        "(1.0)  can0  09f8027f#00fcffff0000ffff R",
        "1970-01-01T00:00:01.000Z,2,129026,127,255,8,00,fc,ff,ff,00,00,ff,ff\n",
    ),
    (
        "(1.0) can0 09F8027F#00FCFFFF0000FFFF_9",
        "1970-01-01T00:00:01.000Z,2,129026,127,255,8,00,fc,ff,ff,00,00,ff,ff\n",
    ),
    ("(1.0) can0 123#00", "skipped"),
    ("(1.0) can0 09F8027F#R8", "skipped"),
    ("(1.0) can0 09F8027F##100", "skipped"),
    ("(1.0) can0 20000080#0000000000000000", "skipped"),
    ("# note", "skipped"),
    ("", "skipped"),
    (
        "(253402300799.999999999) can0 18EAFF01#",
        "9999-12-31T23:59:59.999Z,6,59904,1,255,0\n",
    ),
    ("(253402300800.0) can0 18EAFF01#", "Stamp"),
    // ten-lines-eight-bad, and a line that ends within its data
    ("(10.1) can0 1DFF0405#010", "Data"),
    ("(10.2) can0 40000000#00", "Identifier"),
    (
        "(10.3) can0 1DFF0405#",
        "1970-01-01T00:00:10.300Z,7,130820,5,255,0\n",
    ),
    ("(10) can0 1DFF0405#00", "Stamp"),
    // destinations: the PGN of two-sources has none, an ISO request has one
    (
        "(1.0) can0 18EA2301#14F001",
        "1970-01-01T00:00:01.000Z,6,59904,1,35,3,14,f0,01\n",
    ),
    // skipped, whatever follows the `#`
    ("(1.0) can0 7ff#zz", "skipped"),
    ("(1.0) can0 3FFFFFFF#x", "skipped"),
    ("(1.0) can0 1FFFFFFF#r", "skipped"),
    (
        "(1.0) can0 1FFFFFFF#00 x",
        "1970-01-01T00:00:01.000Z,7,262143,255,255,1,00\n",
    ),
    (
        "(1.0) can0 00000000#",
        "1970-01-01T00:00:01.000Z,0,0,0,0,0\n",
    ),
    // dates, by Python's datetime
    (
        "(0.0) can0 00000000#",
        "1970-01-01T00:00:00.000Z,0,0,0,0,0\n",
    ),
    (
        "(31535999.9) can0 00000000#",
        "1970-12-31T23:59:59.900Z,0,0,0,0,0\n",
    ),
    (
        "(31536000.09) can0 00000000#",
        "1971-01-01T00:00:00.090Z,0,0,0,0,0\n",
    ),
    (
        "(68255999.0099) can0 00000000#",
        "1972-02-29T23:59:59.009Z,0,0,0,0,0\n",
    ),
    (
        "(68256000.0009) can0 00000000#",
        "1972-03-01T00:00:00.000Z,0,0,0,0,0\n",
    ),
    (
        "(951782399.999) can0 00000000#",
        "2000-02-28T23:59:59.999Z,0,0,0,0,0\n",
    ),
    (
        "(951782400.9999) can0 00000000#",
        "2000-02-29T00:00:00.999Z,0,0,0,0,0\n",
    ),
    (
        "(951868800.5) can0 00000000#",
        "2000-03-01T00:00:00.500Z,0,0,0,0,0\n",
    ),
    (
        "(1709251199.120) can0 00000000#",
        "2024-02-29T23:59:59.120Z,0,0,0,0,0\n",
    ),
    (
        "(2147483648.12) can0 00000000#",
        "2038-01-19T03:14:08.120Z,0,0,0,0,0\n",
    ),
    (
        "(4107542399.123456789) can0 00000000#",
        "2100-02-28T23:59:59.123Z,0,0,0,0,0\n",
    ),
    (
        "(4107542400.1) can0 00000000#",
        "2100-03-01T00:00:00.100Z,0,0,0,0,0\n",
    ),
];

#[test]
fn candump_lines(rt: HostRuntime) -> Result<(), Fail> {
    for (line, wanted) in &CANDUMP_LINES {
        reads(&rt, line, Packing::Frames, wanted)?;
    }
    Ok(())
}

// A bad candump line and its cause.
const BAD_CANDUMP_LINES: [(&str, &str); 42] = [
    // the timestamp, from its first byte to its last
    ("(", "Stamp"),
    ("()", "Stamp"),
    ("(.0) can0 123#", "Stamp"),
    ("(1.) can0 123#", "Stamp"),
    ("(1.0 can0 123#", "Stamp"),
    ("( 1.0) can0 123#", "Stamp"),
    ("(1.0123456789) can0 123#", "Stamp"),
    ("(0000000000001.0) can0 123#", "Stamp"),
    ("(1.0.0) can0 123#", "Stamp"),
    ("(-1.0) can0 123#", "Stamp"),
    ("(1.0)) can0 123#", "Form"),
    // the bytes after the timestamp
    ("(1.0)", "Form"),
    ("(1.0) ", "Form"),
    ("(1.0)can0 123#", "Form"),
    ("(1.0)\tcan0 123#", "Form"),
    ("(1.0) can0", "Form"),
    ("(1.0) can0 ", "Form"),
    ("(1.0) can0 123", "Form"),
    ("(1.0) can0#123 45", "Form"),
    ("(1.0) abcdefghijklmnop 123#", "Form"),
    ("(1.0) ca\tn0 123#", "Form"),
    ("(1.0) abcdefghijklmno 123#", "skipped"),
    // the identifier
    ("(1.0) can0 #00", "Identifier"),
    ("(1.0) can0 12#00", "Identifier"),
    ("(1.0) can0 12g#00", "Identifier"),
    ("(1.0) can0 1234#00", "Identifier"),
    ("(1.0) can0 123456789#00", "Identifier"),
    ("(1.0) can0 G2345678#00", "Identifier"),
    ("(1.0) can0 1234567G#00", "Identifier"),
    ("(1.0) can0 FFFFFFFF#00", "Identifier"),
    ("(1.0) can0 \t123#00", "Identifier"),
    // the data, from the first byte to the last
    ("(1.0) can0 09F8027F#g0", "Data"),
    ("(1.0) can0 09F8027F#00112233445566778", "Data"),
    ("(1.0) can0 09F8027F#001122334455667788", "Data"),
    ("(1.0) can0 09F8027F#001122334455667g", "Data"),
    ("(1.0) can0 09F8027F#0011223344556677_", "Data"),
    ("(1.0) can0 09F8027F#0011223344556677_g", "Data"),
    ("(1.0) can0 09F8027F#0011223344556677_9x", "Data"),
    ("(1.0) can0 09F8027F#00.11", "Data"),
    // the first of two causes counts
    ("(x) can0", "Stamp"),
    ("(1.0) can0 12", "Form"),
    ("(1.0) can0 12#g", "Identifier"),
];

#[test]
fn bad_candump_lines(rt: HostRuntime) -> Result<(), Fail> {
    for (line, wanted) in &BAD_CANDUMP_LINES {
        reads(&rt, line, Packing::Frames, wanted)?;
    }
    Ok(())
}

// A plain line and its entry.
const PLAIN_LINES: [(&str, &str); 37] = [
    // rate-of-turn, and two lines of ten-lines-eight-bad
    (
        "2011-11-24-22:42:04.388,2,127251,36,255,8,7d,0b,7d,02,00,ff,ff,ff",
        "2011-11-24-22:42:04.388,2,127251,36,255,8,7d,0b,7d,02,00,ff,ff,ff\n",
    ),
    ("2011-11-24-22:42:04.388,2,127251,36,255,3,7d,0b", "Data"),
    ("x,8,127251,36,255,0", "Number"),
    ("hello", "Form"),
    // leading zeros, upper case, the limits
    (
        "x,0007,0016777215,000,255,1,AB",
        "x,7,16777215,0,255,1,ab\n",
    ),
    (
        "12345678901234567890123456789012,0,0,0,0,0",
        "12345678901234567890123456789012,0,0,0,0,0\n",
    ),
    (" ~,0,0,0,0,0", " ~,0,0,0,0,0\n"),
    // whole-among-frames: more bytes than a frame holds
    (
        "2020-01-01T00:00:00.000Z,7,130820,5,255,9,07,98,01,41,42,43,44,45,46",
        "whole 2020-01-01T00:00:00.000Z,7,130820,5,255,9,07,98,01,41,42,43,44,45,46\n",
    ),
    // the timestamp
    ("123456789012345678901234567890123,0,0,0,0,0", "Stamp"),
    (",0,0,0,0,0", "Stamp"),
    ("a\tb,0,0,0,0,0", "Stamp"),
    ("é,0,0,0,0,0", "Stamp"),
    // the form
    ("x", "Form"),
    ("x,0,0,0,0", "Form"),
    // the numbers
    ("x,,0,0,0,0", "Number"),
    ("x,8,0,0,0,0", "Number"),
    ("x,0,16777216,0,0,0", "Number"),
    ("x,0,0,256,0,0", "Number"),
    ("x,0,0,0,256,0", "Number"),
    ("x,0,0,0,0,224", "Number"),
    ("x,00000000001,0,0,0,0", "Number"),
    ("x,0,0,0,0,-0", "Number"),
    ("x,0,0,0,0, 0", "Number"),
    // the data
    ("x,0,0,0,0,0,", "Data"),
    ("x,0,0,0,0,0,00", "Data"),
    ("x,0,0,0,0,1", "Data"),
    ("x,0,0,0,0,1,0", "Data"),
    ("x,0,0,0,0,1,000", "Data"),
    ("x,0,0,0,0,1,0g", "Data"),
    ("x,0,0,0,0,1,g0", "Data"),
    ("x,0,0,0,0,2,00,0", "Data"),
    ("x,0,0,0,0,1,00,", "Data"),
    ("x,0,0,0,0,223,00", "Data"),
    // the first of two causes counts
    ("(x,9,0,0,0", "Stamp"),
    ("\u{7f},9", "Stamp"),
    ("x,9,0,0,0", "Form"),
    ("x,9,0,0,0,1", "Number"),
];

#[test]
fn plain_lines(rt: HostRuntime) -> Result<(), Fail> {
    for (line, wanted) in &PLAIN_LINES {
        reads(&rt, line, Packing::Frames, wanted)?;
    }
    Ok(())
}

// The entries that one reader gives for lines in this order. The reader remembers the second and the entry of the line
// before.
const IN_A_ROW: [(&str, &str); 21] = [
    (
        "(1502979132.106111) can0 09F8027F#00FCFFFF0000FFFF",
        "2017-08-17T14:12:12.106Z,2,129026,127,255,8,00,fc,ff,ff,00,00,ff,ff\n",
    ),
    (
        "(1502979132.999999) vcan12345678901 18EA2301#14f0010203040506",
        "2017-08-17T14:12:12.999Z,6,59904,1,35,8,14,f0,01,02,03,04,05,06\n",
    ),
    (
        "(1503014399.000000) c 1FFFFFFF#FFFFFFFFFFFFFFFF",
        "2017-08-17T23:59:59.000Z,7,262143,255,255,8,ff,ff,ff,ff,ff,ff,ff,ff\n",
    ),
    (
        "(1503014400.010000) can0 00000000#0000000000000000",
        "2017-08-18T00:00:00.010Z,0,0,0,0,8,00,00,00,00,00,00,00,00\n",
    ),
    // the second before the previous line's
    (
        "(1502979132.000999) can0 18EAFF01#14F0010203040506",
        "2017-08-17T14:12:12.000Z,6,59904,1,255,8,14,f0,01,02,03,04,05,06\n",
    ),
    // lines of another form, and lines after these
    ("# note", "skipped"),
    (
        "(1502979132.5) can0 18EAFF01#14F001",
        "2017-08-17T14:12:12.500Z,6,59904,1,255,3,14,f0,01\n",
    ),
    (
        "0,6,59904,1,255,9,00,01,02,03,04,05,06,07,08",
        "whole 0,6,59904,1,255,9,00,01,02,03,04,05,06,07,08\n",
    ),
    (
        "(1502979132.106111) can0 09F8027F#00FCFFFF0000FFFF",
        "2017-08-17T14:12:12.106Z,2,129026,127,255,8,00,fc,ff,ff,00,00,ff,ff\n",
    ),
    // one byte off
    (
        "(150297913x.106111) can0 09F8027F#00FCFFFF0000FFFF",
        "Stamp",
    ),
    (
        "(1502979132,106111) can0 09F8027F#00FCFFFF0000FFFF",
        "Stamp",
    ),
    (
        "(1502979132.10611:) can0 09F8027F#00FCFFFF0000FFFF",
        "Stamp",
    ),
    (
        "(1502979132.106111] can0 09F8027F#00FCFFFF0000FFFF",
        "Stamp",
    ),
    ("(1502979132.106111)_can0 09F8027F#00FCFFFF0000FFFF", "Form"),
    (
        "(1502979132.106111) abcdefghijklmnop 09F8027F#00FCFFFF0000FFFF",
        "Form",
    ),
    (
        "(1502979132.106111) can0 09F8027G#00FCFFFF0000FFFF",
        "Identifier",
    ),
    (
        "(1502979132.106111) can0 40000000#00FCFFFF0000FFFF",
        "Identifier",
    ),
    (
        "(1502979132.106111) can0 20000000#00FCFFFF0000FFFF",
        "skipped",
    ),
    ("(1502979132.106111) can0 09F8027F#00FCFFFF0000FFF@", "Data"),
    (
        "(1502979132.106111) can0 09F8027F#R0FCFFFF0000FFFF",
        "skipped",
    ),
    (
        "(1502979132.106111)  can0 09F8027F#00FCFFFF0000FFFF",
        "2017-08-17T14:12:12.106Z,2,129026,127,255,8,00,fc,ff,ff,00,00,ff,ff\n",
    ),
];

fn reads_next<R: Abort + AllocGlobal>(
    rt: &R,
    reader: &mut LineReader,
    line: &str,
    wanted: &str,
) -> Result<(), Fail> {
    let entry = reader.read(line.as_bytes(), Packing::Frames);
    tells(rt, entry, wanted.as_bytes(), line)
}

#[test]
fn lines_in_a_row(rt: HostRuntime) -> Result<(), Fail> {
    let mut reader = LineReader::new();
    for (line, wanted) in &IN_A_ROW {
        reads_next(&rt, &mut reader, line, wanted)?;
    }
    Ok(())
}

// A line that contains whole messages, and its entry.
const WHOLE_LINES: [(&str, &str); 4] = [
    // whole-among-frames, and a candump line, which is always a frame
    (
        "2020-01-01T00:00:00.000Z,7,130820,5,255,6,a3,99,01,41,42,43",
        "whole 2020-01-01T00:00:00.000Z,7,130820,5,255,6,a3,99,01,41,42,43\n",
    ),
    ("x,0,0,0,0,0", "whole x,0,0,0,0,0\n"),
    ("x,0,0,0,0,224", "Number"),
    (
        "(1.0) can0 18EAFF01#14F001",
        "1970-01-01T00:00:01.000Z,6,59904,1,255,3,14,f0,01\n",
    ),
];

#[test]
fn whole_lines(rt: HostRuntime) -> Result<(), Fail> {
    for (line, wanted) in &WHOLE_LINES {
        reads(&rt, line, Packing::Whole, wanted)?;
    }
    Ok(())
}

#[test]
fn the_longest_message(rt: HostRuntime) -> Result<(), Fail> {
    let packet = Packet::new(b"x", split_id(0), &[0xab; 223]).ok_or("refused")?;
    let text = text_after(rt.alloc(), "", &packet)?;
    let (last, line) = text.split_last().ok_or("no line")?;
    assert_eq!(rt; *last, b'\n');
    let wanted = text_after(rt.alloc(), "whole ", &packet)?;
    let entry = read_line(line, Packing::Frames);
    tells(&rt, &entry, &wanted, "the longest")
}

// A byte, how often a line repeats it, and the entry.
const LONG_LINES: [(u8, usize, &str); 6] = [
    (b'x', LONGEST_LINE, "Stamp"),
    (b'x', LONGEST_LINE + 1, "Long"),
    (b'#', LONGEST_LINE, "skipped"),
    (b'#', LONGEST_LINE + 1, "Long"),
    (b'(', LONGEST_LINE, "Stamp"),
    (b'(', LONGEST_LINE + 1, "Long"),
];

fn long_reads<R: Abort + AllocGlobal>(
    rt: &R,
    byte: u8,
    len: usize,
    wanted: &str,
) -> Result<(), Fail> {
    let line = vec![in rt.alloc(); byte; len]?;
    let entry = read_line(&line, Packing::Frames);
    tells(rt, &entry, wanted.as_bytes(), wanted)
}

#[test]
fn long_lines(rt: HostRuntime) -> Result<(), Fail> {
    for (byte, len, wanted) in &LONG_LINES {
        long_reads(&rt, *byte, *len, wanted)?;
    }
    Ok(())
}
