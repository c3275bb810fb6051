//! JSON lines.
use crate::samples::{SAMPLE, pairs_table, read, replaced, sample, sample_2};
use n2k_table::{LineBuffer, Table, json_line, json_line_of};
use n2k_wire::{Entry, Id, Packet, Packing, read_line};
use std::alloc::{AllocError, Global};
use std::process::Abort;
use std::test::Fail;

fn packet(pgn: u32, data: &[u8]) -> Option<Packet> {
    let id = Id {
        prio: 2,
        pgn,
        src: 36,
        dst: 255,
    };
    Packet::new(b"a \"b\\c", id, data)
}

// The line that a table prints of a packet, appended to an earlier line.
fn line_of(
    alloc: Global,
    table: &Table,
    packet: &Packet,
    empty: bool,
) -> Result<Vec<u8>, AllocError> {
    let mut out = Vec::from_slice(alloc, b"before\n")?;
    json_line(alloc, table, packet, empty, &mut out)?;
    Ok(out)
}

// A table prints this description and these fields for these data.
pub(crate) fn prints<R: Abort + AllocGlobal>(
    rt: &R,
    table: &Table,
    (pgn, data): (u32, &[u8]),
    empty: bool,
    description: &str,
    fields: &str,
) -> Result<(), Fail> {
    let packet = packet(pgn, data).ok_or("a packet")?;
    let line = line_of(rt.alloc(), table, &packet, empty)?;
    let wanted = format!(in rt.alloc();
        "before\n{{\"timestamp\":\"a \\\"b\\\\c\",\"prio\":2,\"src\":36,\"dst\":255,\"pgn\":{pgn},\"description\":\"{description}\",\"fields\":{{{fields}}}}}\n"
    )?;
    assert!(rt;
        line.as_slice() == wanted.as_bytes(),
        "{line:?} and not {wanted}"
    );
    Ok(())
}

// A PGN, data, whether absent fields are requested, and the printed fields.
const LINES: [(u32, &[u8], bool, &str); 18] = [
    // cog-and-sog, lookup-and-short-data
    (
        129026,
        &[0x00, 0xfc, 0xff, 0xff, 0, 0, 0xff, 0xff],
        false,
        "\"SID\":0,\"COG Reference\":\"True\",\"SOG\":0.00",
    ),
    (
        129026,
        &[0x00, 0xfc, 0xff, 0xff, 0, 0, 0xff, 0xff],
        true,
        "\"SID\":0,\"COG Reference\":\"True\",\"COG\":null,\"SOG\":0.00",
    ),
    (
        129026,
        &[0x00, 0xff, 0, 0, 0xfe, 0xff, 0xff, 0xff],
        false,
        "\"SID\":0,\"COG\":0.0000",
    ),
    (
        129026,
        &[0x05, 0x00],
        false,
        "\"SID\":5,\"COG Reference\":\"True\"",
    ),
    // rate-of-turn, negative-and-absent
    (
        127251,
        &[0x7d, 0x0b, 0x7d, 0x02, 0, 0xff, 0xff, 0xff],
        false,
        "\"SID\":125,\"Rate\":0.00509634375",
    ),
    (
        127251,
        &[0x7d, 0xff, 0xff, 0xff, 0xff, 0xff, 0xff, 0xff],
        false,
        "\"SID\":125,\"Rate\":-0.00000003125",
    ),
    (
        127251,
        &[0x7d, 0xff, 0xff, 0xff, 0x7f, 0xff, 0xff, 0xff],
        false,
        "\"SID\":125",
    ),
    (
        127251,
        &[0x7d, 0xfe, 0xff, 0xff, 0x7f, 0xff, 0xff, 0xff],
        false,
        "\"SID\":125",
    ),
    (
        127251,
        &[0x7d, 0xfe, 0xff, 0xff, 0x7f, 0xff, 0xff, 0xff],
        true,
        "\"SID\":125,\"Rate\":null",
    ),
    (127251, &[], true, "\"SID\":null,\"Rate\":null"),
    (127251, &[], false, ""),
    // whole-among-frames, two-sources, short-totals
    (
        130820,
        &[0xa3, 0x99, 1, 0x41, 0x42, 0x43, 0, 0, 0, 0, 0],
        false,
        "\"Maker\":419,\"Kind\":1,\"Label\":\"ABC\"",
    ),
    (
        130820,
        &[
            0xa3, 0x99, 2, 0x58, 0x59, 0x20, 0x20, 0x20, 0x20, 0x20, 0xff,
        ],
        false,
        "\"Maker\":419,\"Kind\":2,\"Label\":\"XY\"",
    ),
    (
        130820,
        &[0xa3, 0x99, 1, 0x41, 0x42, 0x43],
        false,
        "\"Maker\":419,\"Kind\":1",
    ),
    (
        130820,
        &[7, 0x98, 1, 0x41, 0x42, 0x43, 0x44, 0x45, 0x46],
        true,
        "\"Data\":\"07 98 01 41 42 43 44 45 46\"",
    ),
    (130820, &[0xa3], false, "\"Data\":\"A3\""),
    (130820, &[], false, "\"Data\":\"\""),
    (59904, &[0x14, 0xf0, 0x01], false, "\"Data\":\"14 F0 01\""),
];

// The description that the sample table prints for data.
fn description_of(pgn: u32, data: &[u8]) -> &'static str {
    match pgn {
        129026 => "COG & SOG, Rapid Update",
        127251 => "Rate of Turn",
        _ if data.len() > 1 && data[0] == 0xa3 => "Sample: Label",
        _ => "Unmatched",
    }
}

fn line_shows<R: Abort + AllocGlobal>(
    rt: &R,
    table: &Table,
    case: &(u32, &[u8], bool, &str),
) -> Result<(), Fail> {
    let (pgn, data, empty, fields) = *case;
    let description = description_of(pgn, data);
    prints(rt, table, (pgn, data), empty, description, fields)
}

#[test]
fn lines(rt: HostRuntime) -> Result<(), Fail> {
    let table = sample(rt.alloc())?;
    for case in &LINES {
        line_shows(&rt, &table, case)?;
    }
    Ok(())
}

// Data, whether absent fields are requested, and the printed fields of the pairs.
const PAIRS_LINES: [(&[u8], bool, &str); 8] = [
    (
        &[0x01, 0x0a, 0x64, 0x00, 0x0b, 0x9c, 0xff, 0x0c, 0x00],
        false,
        "\"SID\":1,\"list\":[{\"Id\":10,\"Value\":10.0},{\"Id\":11,\"Value\":-10.0}]",
    ),
    (
        &[0x01, 0x0a, 0x64, 0x00, 0x0b, 0x9c, 0xff, 0x0c, 0x00],
        true,
        "\"SID\":1,\"list\":[{\"Id\":10,\"Value\":10.0},{\"Id\":11,\"Value\":-10.0}]",
    ),
    (&[0x01, 0xff, 0xff, 0x7f], false, "\"SID\":1,\"list\":[{}]"),
    (
        &[0x01, 0xff, 0xff, 0x7f],
        true,
        "\"SID\":1,\"list\":[{\"Id\":null,\"Value\":null}]",
    ),
    (&[0x01], false, "\"SID\":1,\"list\":[]"),
    (&[0x01], true, "\"SID\":1,\"list\":[]"),
    (&[], false, "\"list\":[]"),
    (&[], true, "\"SID\":null,\"list\":[]"),
];

#[test]
fn pairs(rt: HostRuntime) -> Result<(), Fail> {
    let table = pairs_table(rt.alloc())?;
    for (data, empty, fields) in &PAIRS_LINES {
        let packet = (130822, *data);
        prints(&rt, &table, packet, *empty, "Sample: Pairs", fields)?;
    }
    Ok(())
}

// A table without sets prints the same lines in both formats.
#[test]
fn lines_in_format_2(rt: HostRuntime) -> Result<(), Fail> {
    let text = sample_2(rt.alloc(), "")?;
    let table = read(rt.alloc(), &text)?;
    for case in &LINES {
        line_shows(&rt, &table, case)?;
    }
    Ok(())
}

// lookup-and-short-data with the entries 0 and 3: the name counts, although the value would be absent
#[test]
fn a_name_before_an_absent_value(rt: HostRuntime) -> Result<(), Fail> {
    let text = replaced(
        rt.alloc(),
        SAMPLE,
        "[1, \"Magnetic\"], [2, \"Error\"]",
        "[3, \"None\"]",
    )?;
    let table = read(rt.alloc(), &text)?;
    let data = [0x00, 0xff, 0, 0, 0xfe, 0xff, 0xff, 0xff];
    let fields = "\"SID\":0,\"COG Reference\":\"None\",\"COG\":0.0000";
    prints(
        &rt,
        &table,
        (129026, &data),
        false,
        "COG & SOG, Rapid Update",
        fields,
    )
}

// A buffer contains this line `count` times.
fn has_lines<R: Abort + AllocGlobal>(
    rt: &R,
    lines: &LineBuffer,
    line: &str,
    count: usize,
) -> Result<(), Fail> {
    let mut wanted = Vec::new(rt.alloc());
    for _ in 0..count {
        wanted.extend_from_slice(line.as_bytes())?;
    }
    let (prefix, rest) = lines.parts();
    assert!(rt; !prefix.is_empty());
    assert_eq!(rt; wanted.strip_prefix(prefix), Some(rest));
    Ok(())
}

fn frame(line: &str) -> Result<Packet, Fail> {
    match read_line(line.as_bytes(), Packing::Frames) {
        Entry::Frame(packet) => Ok(packet),
        _ => Err("no frame".into()),
    }
}

// 243 lines of 165 bytes exceed the buffer's room: the label does not fit into its last 98 bytes.
#[test]
fn json_lines_of_40095_bytes(rt: HostRuntime) -> Result<(), Fail> {
    let table = sample(rt.alloc())?;
    let packet = frame("(1.0) can0 09F8027F#0500")?;
    let known = table.find(packet.id().pgn).ok_or("COG & SOG")?;
    let mut lines = LineBuffer::new(rt.alloc());
    for _ in 0..243 {
        json_line_of(&known, &packet, false, &mut lines)?;
    }
    let line =
        "{\"timestamp\":\"1970-01-01T00:00:01.000Z\",\"prio\":2,\"src\":127,\"dst\":255,\"pgn\":129026,\"description\":\"COG & SOG, Rapid Update\",\"fields\":{\"SID\":5,\"COG Reference\":\"True\"}}\n";
    has_lines(&rt, &lines, line, 243)
}

// Each line reserves its room before it is written.
#[test]
fn plain_lines_of_70000_bytes(rt: HostRuntime) -> Result<(), Fail> {
    let packet = frame("(1.0) can0 18EAFF01#14F001")?;
    let mut lines = LineBuffer::new(rt.alloc());
    for _ in 0..1400 {
        lines.push_plain(&packet)?;
    }
    let line = "1970-01-01T00:00:01.000Z,6,59904,1,255,3,14,f0,01\n";
    has_lines(&rt, &lines, line, 1400)
}
