//! Messages that are sent as frames.
use n2k_join::{SplitFault, Splitter};
use n2k_table::Table;
use n2k_table_tests::samples::sample;
use n2k_wire::{Entry, Id, Packet, Packing, plain_text, read_line};
use std::alloc::Global;
use std::process::Abort;
use std::test::Fail;

const LABEL: &str = "1970-01-01T00:00:10.300Z,7,130820,5,255,11,a3,99,01,41,42,43,00,00,00,00,00";

// The frames of `LABEL`, with `?` for the first digit of each frame's number.
const LABEL_SENT: &str = "1970-01-01T00:00:10.300Z,7,130820,5,255,8,?0,0b,a3,99,01,41,42,43
1970-01-01T00:00:10.300Z,7,130820,5,255,8,?1,00,00,00,00,00,ff,ff
";

fn whole(line: &str) -> Option<Packet> {
    match read_line(line.as_bytes(), Packing::Whole) {
        Entry::Whole(message) => Some(message),
        _ => None,
    }
}

fn texts(alloc: Global, packets: &[Packet]) -> Result<Vec<u8>, Fail> {
    let mut text = Vec::new(alloc);
    for packet in packets {
        plain_text(alloc, packet, &mut text)?;
    }
    Ok(text)
}

// The frames of a line's message: the returned count, and their texts.
fn sent(
    alloc: Global,
    table: &Table,
    splitter: &mut Splitter,
    line: &str,
) -> Result<(usize, Vec<u8>), Fail> {
    let message = whole(line).ok_or("a message")?;
    let mut packets = Vec::new(alloc);
    let count = splitter.message(table, &message, &mut packets)?;
    Ok((count, texts(alloc, &packets)?))
}

// The message of a line is sent as this many frames with these texts.
fn sends<R: Abort + AllocGlobal>(
    rt: &R,
    table: &Table,
    splitter: &mut Splitter,
    line: &str,
    frames: usize,
    wanted: &str,
) -> Result<(), Fail> {
    let (count, text) = sent(rt.alloc(), table, splitter, line)?;
    assert_eq!(rt; count, frames);
    assert_eq!(rt; text.as_slice(), wanted.as_bytes());
    Ok(())
}

#[test]
fn nine_messages_have_eight_sequences(rt: HostRuntime) -> Result<(), Fail> {
    let table = sample(rt.alloc())?;
    let mut splitter = Splitter::new(rt.alloc());
    for sequence in "0 2 4 6 8 a c e 0".split(' ') {
        let wanted = LABEL_SENT.replace(rt.alloc(), "?", sequence)?;
        sends(&rt, &table, &mut splitter, LABEL, 2, &wanted)?;
    }
    let wanted = "x,7,130820,5,9,8,00,00,ff,ff,ff,ff,ff,ff\n";
    sends(&rt, &table, &mut splitter, "x,7,130820,5,9,0", 1, wanted)?;
    // A message of a single frame is sent unchanged.
    let single = "x,2,129026,127,255,2,01,02\n";
    sends(&rt, &table, &mut splitter, single.trim_end(), 1, single)
}

fn fast(data: &[u8]) -> Option<Packet> {
    let id = Id {
        prio: 7,
        pgn: 130_820,
        src: 5,
        dst: 255,
    };
    Packet::new(b"x", id, data)
}

// For a message of `total` bytes: the returned count, the number of frames, and the text of the last frame.
fn last_sent(alloc: Global, table: &Table, total: usize) -> Result<(usize, usize, Vec<u8>), Fail> {
    let bytes = [0x20; 223];
    let message = fast(bytes.get(..total).ok_or("short")?).ok_or("a message")?;
    let mut packets = Vec::new(alloc);
    let count = Splitter::new(alloc).message(table, &message, &mut packets)?;
    let last = packets.len().saturating_sub(1);
    Ok((count, packets.len(), texts(alloc, &packets[last..])?))
}

// The bytes of a message, its number of frames, and the text of the last frame.
const LENGTHS: [(usize, usize, &str); 6] = [
    (0, 1, "x,7,130820,5,255,8,00,00,ff,ff,ff,ff,ff,ff\n"),
    (6, 1, "x,7,130820,5,255,8,00,06,20,20,20,20,20,20\n"),
    (7, 2, "x,7,130820,5,255,8,01,20,ff,ff,ff,ff,ff,ff\n"),
    (13, 2, "x,7,130820,5,255,8,01,20,20,20,20,20,20,20\n"),
    (14, 3, "x,7,130820,5,255,8,02,20,ff,ff,ff,ff,ff,ff\n"),
    (223, 32, "x,7,130820,5,255,8,1f,20,20,20,20,20,20,20\n"),
];

fn ends_with<R: Abort + AllocGlobal>(
    rt: &R,
    table: &Table,
    total: usize,
    wanted: usize,
    last: &str,
) -> Result<(), Fail> {
    let (count, found, text) = last_sent(rt.alloc(), table, total)?;
    assert_eq!(rt; (count, found), (wanted, wanted));
    assert_eq!(rt; text.as_slice(), last.as_bytes());
    Ok(())
}

#[test]
fn frames_of_short_and_of_long_messages(rt: HostRuntime) -> Result<(), Fail> {
    let table = sample(rt.alloc())?;
    for (total, wanted, last) in &LENGTHS {
        ends_with(&rt, &table, *total, *wanted, last)?;
    }
    Ok(())
}

// A line's message is refused, and no frame is made.
fn refuses<R: Abort + AllocGlobal>(
    rt: &R,
    table: &Table,
    line: &str,
    fault: SplitFault,
) -> Result<(), Fail> {
    let message = whole(line).ok_or("a message")?;
    let mut packets = Vec::new(rt.alloc());
    let answer = Splitter::new(rt.alloc()).message(table, &message, &mut packets);
    assert_eq!(rt; answer, Err(fault));
    assert_eq!(rt; packets.len(), 0);
    Ok(())
}

#[test]
fn messages_that_are_not_sent(rt: HostRuntime) -> Result<(), Fail> {
    let table = sample(rt.alloc())?;
    let long = "x,2,129026,127,255,9,01,02,03,04,05,06,07,08,09";
    refuses(&rt, &table, long, SplitFault::TooLong)?;
    refuses(&rt, &table, "x,6,59904,1,255,0", SplitFault::Unknown)
}

// `tests/faults/refused-growth` refuses each growth in turn. A refusal changes nothing, and the next try gives the same
// frames as with ample memory.
#[test]
fn refused_memory_changes_nothing(rt: HostRuntime) {
    let alloc = rt.alloc();
    let Ok(table) = sample(alloc) else {
        return;
    };
    let message = whole(LABEL).expect(&rt, "a message");
    let mut splitter = Splitter::new(alloc);
    let mut packets = Vec::new(alloc);
    let mut answer = splitter.message(&table, &message, &mut packets);
    if answer == Err(SplitFault::Memory) {
        assert_eq!(rt; packets.len(), 0);
        answer = splitter.message(&table, &message, &mut packets);
    }
    assert_eq!(rt; answer, Ok(2));
    assert_eq!(rt; packets.len(), 2);
    let first = packets.first().expect(&rt, "a frame");
    let wanted = [0x00, 0x0b, 0xa3, 0x99, 0x01, 0x41, 0x42, 0x43];
    assert_eq!(rt; first.data(), wanted.as_slice());
}
