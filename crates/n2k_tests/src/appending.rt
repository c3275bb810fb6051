//! Calls that append leave their vector, or their buffer of lines, byte for byte as it was if a growth is refused.
//! `tests/faults/refused-growth` refuses each growth in turn.
use n2k_join::{Broken, Counts};
use n2k_run::{bad_text, broken_text, summary_text};
use n2k_table::{LineBuffer, Table, decimal_text, json_line, json_line_of};
use n2k_table_tests::samples::sample;
use n2k_wire::{
    BadCause, Entry, LineHead, Packet, Packing, candump_text, is_interface, plain_text, read_line,
};
use std::alloc::Global;
use std::process::Abort;

// The bytes in the vector before a call.
const BEFORE: &str = "what stood before";

// The first frame of split-and-back, and the texts that the calls append.
const FRAME: &str = "1970-01-01T00:00:10.300Z,7,130820,5,255,8,00,0b,a3,99,01,41,42,43";

const GROUP: Broken = Broken {
    pgn: 130820,
    src: 5,
    dst: 255,
    seq: 3,
    first: 1,
};

const APPENDED: [&str; 7] = [
    "1970-01-01T00:00:10.300Z,7,130820,5,255,8,00,0b,a3,99,01,41,42,43\n",
    "(0000000010.300000) can0 1DFF0405#000BA39901414243\n",
    "-123.456",
    "{\"timestamp\":\"1970-01-01T00:00:10.300Z\",\"prio\":7,\"src\":5,\"dst\":255,\"pgn\":130820,\"description\":\"Unmatched\",\"fields\":{\"Data\":\"00 0B A3 99 01 41 42 43\"}}\n",
    "line 10 bad B2 stamp\n",
    "line 3 broken pgn 130820 src 5 dst 255 seq 3 first 1\n",
    "lines 0 messages 0 bad 0 unknown 0 broken 0 open 0\n",
];

// Whether the call of this number appended its text.
fn appends(alloc: Global, call: usize, table: &Table, packet: &Packet, out: &mut Vec<u8>) -> bool {
    match call {
        0 => plain_text(alloc, packet, out).is_ok(),
        1 => packet.data().len() <= 8
            && is_interface(b"can0")
            && candump_text(alloc, packet, "can0", out).is_ok(),
        2 => decimal_text(alloc, -123456, 3, out).is_ok(),
        3 => json_line(alloc, table, packet, false, out).is_ok(),
        4 => bad_text(alloc, 10, BadCause::Stamp, out).is_ok(),
        5 => broken_text(alloc, 3, &GROUP, out).is_ok(),
        _ => summary_text(alloc, &Counts::NONE, out).is_ok(),
    }
}

fn appends_or_leaves<R: Abort + AllocGlobal>(
    rt: &R,
    call: usize,
    text: &str,
    table: &Table,
    packet: &Packet,
) {
    let mut out = Vec::new(rt.alloc());
    if out.extend_from_slice(BEFORE.as_bytes()).is_err() {
        return;
    }
    let done = appends(rt.alloc(), call, table, packet, &mut out);
    let (before, appended) = out.split_at(BEFORE.len().min(out.len()));
    assert_eq!(rt; before, BEFORE.as_bytes());
    let wanted = if done { text } else { "" };
    assert_eq!(rt; appended, wanted.as_bytes(), "by call {call}");
}

#[test]
fn refused_growth_leaves_each_vector(rt: HostRuntime) {
    let Ok(table) = sample(rt.alloc()) else {
        return;
    };
    let Entry::Frame(packet) = read_line(FRAME.as_bytes(), Packing::Frames) else {
        assert!(rt; false, "no frame");
        return;
    };
    for (call, text) in APPENDED.iter().enumerate() {
        appends_or_leaves(&rt, call, text, &table, &packet);
    }
}

const JSON_LINE: &str =
    "{\"timestamp\":\"1970-01-01T00:00:01.000Z\",\"prio\":2,\"src\":127,\"dst\":255,\"pgn\":129026,\"description\":\"COG & SOG, Rapid Update\",\"fields\":{\"SID\":5,\"COG Reference\":\"True\"}}\n";

const PLAIN_LINE: &str = "1970-01-01T00:00:01.000Z,2,129026,127,255,2,05,00\n";

// Whether the call of this number added its line.
fn adds(call: usize, table: &Table, packet: &Packet, lines: &mut LineBuffer) -> bool {
    match table.find(packet.id().pgn) {
        Some(known) if call == 0 => json_line_of(&known, packet, false, lines).is_ok(),
        Some(_) if call == 1 => {
            let mut head = LineHead::EMPTY;
            head.set_plain(packet);
            lines.push_line(&head, packet.data()).is_ok()
        }
        _ => lines.push_plain(packet).is_ok(),
    }
}

// The buffer contains this line `count` times. If memory for the comparison is refused, nothing is compared.
fn has_lines<R: Abort + AllocGlobal>(rt: &R, lines: &LineBuffer, line: &str, count: usize) {
    let mut wanted = Vec::new(rt.alloc());
    for _ in 0..count {
        if wanted.extend_from_slice(line.as_bytes()).is_err() {
            return;
        }
    }
    let (prefix, rest) = lines.parts();
    assert_eq!(rt; wanted.strip_prefix(prefix), Some(rest));
}

// Adds lines beyond the room.
fn adds_or_leaves<R: Abort + AllocGlobal>(
    rt: &R,
    call: usize,
    line: &str,
    table: &Table,
    packet: &Packet,
) {
    let mut lines = LineBuffer::new(rt.alloc());
    let mut count = 0usize;
    for _ in 0..700 {
        if adds(call, table, packet, &mut lines) {
            count = count.saturating_add(1);
        }
    }
    has_lines(rt, &lines, line, count);
}

#[test]
fn refused_growth_leaves_the_lines_before(rt: HostRuntime) {
    let Ok(table) = sample(rt.alloc()) else {
        return;
    };
    let line = "(1.0) can0 09F8027F#0500";
    let Entry::Frame(packet) = read_line(line.as_bytes(), Packing::Frames) else {
        assert!(rt; false, "no frame");
        return;
    };
    adds_or_leaves(&rt, 0, JSON_LINE, &table, &packet);
    adds_or_leaves(&rt, 1, PLAIN_LINE, &table, &packet);
    adds_or_leaves(&rt, 2, PLAIN_LINE, &table, &packet);
}
