//! Examples of `n2k_wire`.
use super::frame_in;
use n2k_wire::{
    BadCause, CandumpLines, Entry, Id, LINE_ROOM, LineHead, LineReader, Packet, Packing,
    candump_text, is_interface, join_id, plain_text, read_line, split_id, write_line,
};
use std::test::Fail;

// front page
#[test]
fn front_page(rt: HostRuntime) -> Result<(), Fail> {
    let alloc = rt.alloc();
    let line = "(1502979132.106111) can0 09F8027F#00FCFFFF0000FFFF";
    let Entry::Frame(packet) = read_line(line.as_bytes(), Packing::Frames) else {
        return Err("no frame".into());
    };
    assert_eq!(rt; (packet.id().pgn, packet.data().len()), (129026, 8));
    let mut text = Vec::new(alloc);
    plain_text(alloc, &packet, &mut text)?;
    let wanted = "2017-08-17T14:12:12.106Z,2,129026,127,255,8,00,fc,ff,ff,00,00,ff,ff\n";
    assert_eq!(rt; text.as_slice(), wanted.as_bytes());
    Ok(())
}

// read_line
#[test]
fn lines(rt: HostRuntime) {
    let frame = read_line("(1.0) can0 18EAFF01#14F001".as_bytes(), Packing::Frames);
    assert!(rt; matches!(frame, Entry::Frame(packet) if packet.id().pgn == 59904));
    let note = read_line("# note".as_bytes(), Packing::Frames);
    assert!(rt; matches!(note, Entry::Skip));
    let piece = read_line("hello".as_bytes(), Packing::Frames);
    assert!(rt; matches!(piece, Entry::Bad(BadCause::Form)));
}

// LineReader::read, LineReader::new, LineReader::read_mut
#[test]
fn lines_in_a_row(rt: HostRuntime) {
    let mut reader = LineReader::new();
    let entry = reader.read("(1.0) can0 18EAFF01#14F001".as_bytes(), Packing::Frames);
    assert!(rt; matches!(entry, Entry::Frame(packet) if packet.id().pgn == 59904));
    let entry = reader.read("(10) can0 1DFF0405#00".as_bytes(), Packing::Frames);
    assert!(rt; matches!(entry, Entry::Bad(BadCause::Stamp)));

    let mut reader = LineReader::new();
    let line = "(1.0) can0 18EAFF01#14F001".as_bytes();
    let entry = reader.read_mut(line, Packing::Frames);
    *entry = Entry::Skip;
    assert!(rt; matches!(entry, Entry::Skip));
}

// split_id, join_id
#[test]
fn identifiers(rt: HostRuntime) {
    let id = split_id(0x09F8_027F);
    assert_eq!(rt; (id.prio, id.pgn, id.src, id.dst), (2, 129026, 127, 255));

    let id = split_id(0x09F8_027F);
    assert_eq!(rt; join_id(&id), Some(0x09F8_027F));
    assert_eq!(rt; join_id(&Id { dst: 9, ..id }), None);
}

// Packet::new
#[test]
fn new_packets(rt: HostRuntime) -> Result<(), Fail> {
    let id = split_id(0x18EA_FF01);
    let packet = Packet::new(b"12:00:01", id, &[0x14, 0xf0, 0x01]).ok_or("a packet")?;
    assert_eq!(rt; packet.stamp(), b"12:00:01".as_slice());
    assert!(rt; Packet::new(b"12,00,01", id, &[]).is_none());
    Ok(())
}

// Packet::stamp, Packet::id, Packet::data
#[test]
fn parts_of_a_packet(rt: HostRuntime) -> Result<(), Fail> {
    let packet = frame_in("(1.0) can0 18EAFF01#14F001")?;
    assert_eq!(rt; packet.stamp(), "1970-01-01T00:00:01.000Z".as_bytes());

    let packet = frame_in("(1.0) can0 18EAFF01#14F001")?;
    assert_eq!(rt; (packet.id().pgn, packet.id().src), (59904, 1));

    let packet = frame_in("(1.0) can0 18EAFF01#14F001")?;
    assert_eq!(rt; packet.data(), [0x14, 0xf0, 0x01].as_slice());
    Ok(())
}

// Packet::with_data
#[test]
fn other_data(rt: HostRuntime) -> Result<(), Fail> {
    let packet = frame_in("(1.0) can0 18EAFF01#14F001")?;
    let longer = packet.with_data(&[0x20; 9]);
    assert_eq!(rt; longer.stamp(), packet.stamp());
    assert_eq!(rt; longer.data(), [0x20; 9].as_slice());
    Ok(())
}

// Packet::set_data
#[test]
fn data_set(rt: HostRuntime) -> Result<(), Fail> {
    let mut packet = frame_in("(1.0) can0 18EAFF01#14F001")?;
    packet.set_data(&[0x20; 9]);
    assert_eq!(rt; packet.id().pgn, 59904);
    assert_eq!(rt; packet.data(), [0x20; 9].as_slice());
    Ok(())
}

// plain_text
#[test]
fn plain_texts(rt: HostRuntime) -> Result<(), Fail> {
    let alloc = rt.alloc();
    let packet = frame_in("(1.0) can0 18EAFF01#14F001")?;
    let mut text = Vec::new(alloc);
    plain_text(alloc, &packet, &mut text)?;
    let wanted = "1970-01-01T00:00:01.000Z,6,59904,1,255,3,14,f0,01\n";
    assert_eq!(rt; text.as_slice(), wanted.as_bytes());
    Ok(())
}

// write_line
#[test]
fn plain_lines(rt: HostRuntime) -> Result<(), Fail> {
    let packet = frame_in("(1.0) can0 18EAFF01#14F001")?;
    assert_eq!(rt; packet.data().len(), 3);
    let mut text = [0; LINE_ROOM];
    let end = write_line(&mut text, 0, &packet);
    let wanted = "1970-01-01T00:00:01.000Z,6,59904,1,255,3,14,f0,01\n";
    assert_eq!(rt; &text[..end], wanted.as_bytes());
    Ok(())
}

// is_interface
#[test]
fn interfaces(rt: HostRuntime) {
    assert!(rt; is_interface(b"can0"));
    assert!(rt; !is_interface(b"can 0"));
    assert!(rt; !is_interface(b""));
}

// candump_text
#[test]
fn candump_texts(rt: HostRuntime) -> Result<(), Fail> {
    let alloc = rt.alloc();
    let id = split_id(0x18EA_FF01);
    let stamp = "1970-01-01T00:00:10.300Z".as_bytes();
    let packet = Packet::new(stamp, id, &[0x14, 0xf0, 0x01]).ok_or("a packet")?;
    assert!(rt; is_interface(b"can0"));
    let mut text = Vec::new(alloc);
    candump_text(alloc, &packet, "can0", &mut text)?;
    let wanted = "(0000000010.300000) can0 18EAFF01#14F001\n";
    assert_eq!(rt; text.as_slice(), wanted.as_bytes());
    Ok(())
}

// CandumpLines::set_head, CandumpLines::new
#[test]
fn candump_heads(rt: HostRuntime) -> Result<(), Fail> {
    assert!(rt; is_interface(b"can0"));
    let (mut lines, mut head) = (CandumpLines::new("can0"), LineHead::EMPTY);
    lines.set_head(&frame_in("(1.0) can0 18EAFF01#14F001")?, &mut head)?;
    let mut text = [0; LINE_ROOM];
    let end = head.write_line(&mut text, 0, &[0x14, 0xf0]);
    let wanted = "(0000000001.000000) can0 18EAFF01#14F0\n";
    assert_eq!(rt; &text[..end], wanted.as_bytes());
    Ok(())
}

// LineHead::set_plain, LineHead::write_line
#[test]
fn plain_heads(rt: HostRuntime) -> Result<(), Fail> {
    let mut head = LineHead::EMPTY;
    head.set_plain(&frame_in("(1.0) can0 18EAFF01#14F001")?);
    let mut text = [0; LINE_ROOM];
    let end = head.write_line(&mut text, 0, &[0x14, 0xf0]);
    let wanted = "1970-01-01T00:00:01.000Z,6,59904,1,255,2,14,f0\n";
    assert_eq!(rt; &text[..end], wanted.as_bytes());
    Ok(())
}
