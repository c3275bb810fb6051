//! Texts of packets.
use n2k_wire::{
    CandumpLines, Entry, LINE_ROOM, LineHead, Packet, Packing, candump_text, is_interface,
    read_line,
};
use std::alloc::Global;
use std::process::Abort;
use std::test::Fail;

// A packet's line as candump writes it at an interface.
fn push_candump(
    alloc: Global,
    packet: &Packet,
    interface: &str,
    text: &mut Vec<u8>,
) -> Result<(), Fail> {
    if packet.data().len() > 8 || !is_interface(interface.as_bytes()) {
        return Err("no frame at an interface".into());
    }
    if let Err(fault) = candump_text(alloc, packet, interface, text) {
        let told = format!(in alloc; "{fault:?}")?;
        text.extend_from_slice(told.as_bytes())?;
    }
    Ok(())
}

// A packet's line, begun by `CandumpLines` after the earlier packets.
fn push_after(
    alloc: Global,
    packet: &Packet,
    lines: &mut CandumpLines,
    text: &mut Vec<u8>,
) -> Result<(), Fail> {
    let (mut head, mut line) = (LineHead::EMPTY, [0; LINE_ROOM]);
    match lines.set_head(packet, &mut head) {
        Ok(()) => {
            let end = head.write_line(&mut line, 0, packet.data());
            text.extend_from_slice(&line[..end])?;
        }
        Err(fault) => {
            let told = format!(in alloc; "{fault:?}")?;
            text.extend_from_slice(told.as_bytes())?;
        }
    }
    Ok(())
}

// A plain line's frame as a candump line, or the fault's name: alone, and twice after the earlier lines.
fn replays<R: Abort + AllocGlobal>(
    rt: &R,
    lines: &mut CandumpLines,
    line: &str,
    wanted: &str,
) -> Result<(), Fail> {
    let Entry::Frame(packet) = read_line(line.as_bytes(), Packing::Frames) else {
        return Err("no frame".into());
    };
    let mut text = Vec::new(rt.alloc());
    push_candump(rt.alloc(), &packet, "can0", &mut text)?;
    assert_eq!(rt; text.as_slice(), wanted.as_bytes(), "of {line}");
    for _ in 0..2 {
        text.clear();
        push_after(rt.alloc(), &packet, lines, &mut text)?;
        assert_eq!(rt; text.as_slice(), wanted.as_bytes(), "of {line}, in a row");
    }
    Ok(())
}

// A plain line, and its candump line or its fault.
const CANDUMP_TEXTS: [(&str, &str); 24] = [
    // split-and-back, cog-and-sog, the last moment, and a leap day by Python's datetime
    (
        "1970-01-01T00:00:10.300Z,7,130820,5,255,8,00,0b,a3,99,01,41,42,43",
        "(0000000010.300000) can0 1DFF0405#000BA39901414243\n",
    ),
    (
        "2017-08-17T14:12:12.106Z,2,129026,127,255,8,00,fc,ff,ff,00,00,ff,ff",
        "(1502979132.106000) can0 09F8027F#00FCFFFF0000FFFF\n",
    ),
    (
        "9999-12-31T23:59:59.999Z,6,59904,1,35,0",
        "(253402300799.999000) can0 18EA2301#\n",
    ),
    (
        "2024-02-29T23:59:59.120Z,0,0,0,0,1,ab",
        "(1709251199.120000) can0 00000000#AB\n",
    ),
    // no valid timestamp
    ("2011-11-24-22:42:04.388,2,127251,36,255,1,7d", "NoStamp"),
    ("1969-12-31T23:59:59.999Z,0,0,0,0,0", "NoStamp"),
    ("2023-02-29T00:00:00.000Z,0,0,0,0,0", "NoStamp"),
    ("2023-04-31T00:00:00.000Z,0,0,0,0,0", "NoStamp"),
    ("2023-00-10T00:00:00.000Z,0,0,0,0,0", "NoStamp"),
    ("2023-13-10T00:00:00.000Z,0,0,0,0,0", "NoStamp"),
    ("2023-12-00T00:00:00.000Z,0,0,0,0,0", "NoStamp"),
    ("2023-12-10T24:00:00.000Z,0,0,0,0,0", "NoStamp"),
    ("2023-12-10T23:60:00.000Z,0,0,0,0,0", "NoStamp"),
    ("2023-12-10T23:59:60.000Z,0,0,0,0,0", "NoStamp"),
    ("2023-12-10T23:59:59.000z,0,0,0,0,0", "NoStamp"),
    ("2023-12-10T23:59:59.0000,0,0,0,0,0", "NoStamp"),
    ("2023-12-10T23:59:5+.000Z,0,0,0,0,0", "NoStamp"),
    // no valid identifier, and neither
    ("1970-01-01T00:00:10.300Z,7,130820,5,9,0", "NoId"),
    ("1970-01-01T00:00:10.300Z,6,59905,1,255,0", "NoId"),
    ("1970-01-01T00:00:10.300Z,6,262144,1,255,0", "NoId"),
    ("x,7,130820,5,9,0", "NoStamp"),
    // after these faults: the last sender with the same timestamp and other data, another sender, another timestamp
    (
        "2024-02-29T23:59:59.120Z,0,0,0,0,2,cd,ef",
        "(1709251199.120000) can0 00000000#CDEF\n",
    ),
    (
        "2024-02-29T23:59:59.120Z,0,0,7,0,0",
        "(1709251199.120000) can0 00000007#\n",
    ),
    (
        "2024-02-29T23:59:59.121Z,0,0,7,0,0",
        "(1709251199.121000) can0 00000007#\n",
    ),
];

#[test]
fn candump_texts(rt: HostRuntime) -> Result<(), Fail> {
    if !is_interface(b"can0") {
        return Err("no interface".into());
    }
    let mut lines = CandumpLines::new("can0");
    for (line, wanted) in &CANDUMP_TEXTS {
        replays(&rt, &mut lines, line, wanted)?;
    }
    Ok(())
}

// The first frame of split-and-back.
#[test]
fn a_frame_at_an_interface(rt: HostRuntime) -> Result<(), Fail> {
    let line = b"1970-01-01T00:00:10.300Z,7,130820,5,255,8,00,0b,a3,99,01,41,42,43";
    let Entry::Frame(packet) = read_line(line, Packing::Frames) else {
        return Err("no frame".into());
    };
    if packet.data().len() > 8 || !is_interface(b"can0") {
        return Err("no frame at an interface".into());
    }
    let mut text = Vec::new(rt.alloc());
    candump_text(rt.alloc(), &packet, "can0", &mut text)?;
    assert_eq!(rt;
        text.as_slice(),
        b"(0000000010.300000) can0 1DFF0405#000BA39901414243\n".as_slice()
    );
    Ok(())
}
