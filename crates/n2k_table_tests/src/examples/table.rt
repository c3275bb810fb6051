//! Examples of `n2k_table`.
use super::frame_in;
use crate::samples::{pairs_table, sample as sample_table};
use n2k_table::{
    Coding, Kind, LineBuffer, Shown, Table, TableFault, TableId, TextBuffer, decimal_text,
    json_line, json_line_in, json_line_of, split_character,
};
use n2k_wire::LineHead;
use std::test::Fail;

// front page
#[test]
fn front_page(rt: HostRuntime) -> Result<(), Fail> {
    let alloc = rt.alloc();
    let table = sample_table(alloc)?;
    let line = "2011-11-24-22:42:04.388,2,127251,36,255,8,7d,0b,7d,02,00,ff,ff,ff";
    let packet = frame_in(line)?;
    let mut text = Vec::new(alloc);
    json_line(alloc, &table, &packet, false, &mut text)?;
    let end = "\"description\":\"Rate of Turn\",\"fields\":{\"SID\":125,\"Rate\":0.00509634375}}\n";
    assert!(rt; text.ends_with(end.as_bytes()));
    Ok(())
}

// Table::read
#[test]
fn tables_read(rt: HostRuntime) -> Result<(), Fail> {
    let alloc = rt.alloc();
    let table = Table::read(alloc, "format = 1\n".as_bytes())?;
    assert_eq!(rt; table.kind(129026), None);
    let refused = Table::read(alloc, "format = 4\n".as_bytes());
    assert!(rt; matches!(refused, Err(TableFault::Format)));
    Ok(())
}

// Table::id, Table::lazy_id, TableId::bytes, TableId::known, Table::compute_id, Table::kind, Definition::description, Table::choose
#[test]
fn what_a_table_says(rt: HostRuntime) -> Result<(), Fail> {
    let alloc = rt.alloc();
    let table = sample_table(alloc)?;
    // As `sha256sum` prints it: 6b85e2b2..
    assert!(rt; table.id().starts_with(&[0x6b, 0x85, 0xe2, 0xb2]));

    let table = sample_table(alloc)?;
    assert_eq!(rt; table.lazy_id().bytes(), table.id());

    let table = sample_table(alloc)?;
    assert_eq!(rt; TableId::known(table.id()).bytes(), table.id());

    let mut table = sample_table(alloc)?;
    table.compute_id();
    assert!(rt; table.id().starts_with(&[0x6b, 0x85, 0xe2, 0xb2]));

    let table = sample_table(alloc)?;
    assert_eq!(rt; table.kind(129026), Some(Kind::Single));
    assert_eq!(rt; table.kind(130820), Some(Kind::Fast));
    assert_eq!(rt; table.kind(59904), None);

    let table = sample_table(alloc)?;
    let definition = table.choose(130820, &[0xa3, 0x99, 0x01]).ok_or("Label")?;
    assert_eq!(rt; definition.description(), "Sample: Label");
    assert!(rt; table.choose(130820, &[0x07, 0x98, 0x01]).is_none());
    Ok(())
}

// KnownPgn::kind, Table::find
#[test]
fn known_pgns(rt: HostRuntime) -> Result<(), Fail> {
    let alloc = rt.alloc();
    let table = sample_table(alloc)?;
    let known = table.find(130820).ok_or("Label")?;
    assert_eq!(rt; known.kind(), Kind::Fast);
    assert!(rt; table.find(59904).is_none());
    Ok(())
}

// KnownPgn::choose
#[test]
fn definitions_of_a_known_pgn(rt: HostRuntime) -> Result<(), Fail> {
    let alloc = rt.alloc();
    let table = sample_table(alloc)?;
    let known = table.find(130820).ok_or("Label")?;
    let definition = known.choose(&[0xa3, 0x99, 0x01]).ok_or("Label")?;
    assert_eq!(rt; definition.description(), "Sample: Label");
    assert!(rt; known.choose(&[0x07, 0x98, 0x01]).is_none());
    Ok(())
}

// json_line_of
#[test]
fn json_lines_of_a_known_pgn(rt: HostRuntime) -> Result<(), Fail> {
    let alloc = rt.alloc();
    let table = sample_table(alloc)?;
    let packet = frame_in("(1.0) can0 09F8027F#0500")?;
    let known = table.find(packet.id().pgn).ok_or("a definition")?;
    let mut lines = LineBuffer::new(alloc);
    json_line_of(&known, &packet, false, &mut lines)?;
    let end = "{\"SID\":5,\"COG Reference\":\"True\"}}\n";
    assert!(rt; lines.parts().1.ends_with(end.as_bytes()));
    Ok(())
}

// TextBuffer::new
#[test]
fn a_line_in_a_short_buffer(rt: HostRuntime) -> Result<(), Fail> {
    let alloc = rt.alloc();
    let table = sample_table(alloc)?;
    let packet = frame_in("(1.0) can0 09F8027F#0500")?;
    let mut short: TextBuffer<4096> = TextBuffer::new(alloc);
    let mut text = Vec::new(alloc);
    json_line_in(alloc, &table, &packet, false, &mut short, &mut text)?;
    Ok(())
}

// TextBuffer::clear
#[test]
fn lines_let_go(rt: HostRuntime) -> Result<(), Fail> {
    let alloc = rt.alloc();
    let mut lines = LineBuffer::new(alloc);
    lines.push_plain(&frame_in("(1.0) can0 18EAFF01#14F001")?)?;
    lines.clear();
    assert!(rt; lines.parts().1.is_empty());
    Ok(())
}

// TextBuffer::parts
#[test]
fn lines_in_two_parts(rt: HostRuntime) -> Result<(), Fail> {
    let alloc = rt.alloc();
    let mut lines = LineBuffer::new(alloc);
    lines.push_plain(&frame_in("(1.0) can0 18EAFF01#14F001")?)?;
    let (prefix, rest) = lines.parts();
    assert_eq!(rt; (prefix.len(), rest.len()), (0, 50));
    Ok(())
}

// TextBuffer::push_plain
#[test]
fn plain_lines_in_a_buffer(rt: HostRuntime) -> Result<(), Fail> {
    let alloc = rt.alloc();
    let mut lines = LineBuffer::new(alloc);
    lines.push_plain(&frame_in("(1.0) can0 18EAFF01#14F001")?)?;
    let wanted = "1970-01-01T00:00:01.000Z,6,59904,1,255,3,14,f0,01\n";
    assert_eq!(rt; lines.parts().1, wanted.as_bytes());
    Ok(())
}

// TextBuffer::push_line
#[test]
fn lines_by_their_head(rt: HostRuntime) -> Result<(), Fail> {
    let alloc = rt.alloc();
    let mut head = LineHead::EMPTY;
    head.set_plain(&frame_in("(1.0) can0 18EAFF01#14F001")?);
    let mut lines = LineBuffer::new(alloc);
    lines.push_line(&head, &[0x14, 0xf0])?;
    let wanted = "1970-01-01T00:00:01.000Z,6,59904,1,255,2,14,f0\n";
    assert_eq!(rt; lines.parts().1, wanted.as_bytes());
    Ok(())
}

// Definition::fields
#[test]
fn fields(rt: HostRuntime) -> Result<(), Fail> {
    let alloc = rt.alloc();
    let table = sample_table(alloc)?;
    let data = [0x05, 0x00];
    let definition = table.choose(129026, &data).ok_or("COG & SOG")?;
    let mut fields = definition.fields(&data);
    assert!(rt; matches!(fields.next(), Some(("SID", Shown::Number { value: 5, .. }))));
    assert_eq!(rt; fields.next(), Some(("COG Reference", Shown::Name("True"))));
    assert_eq!(rt; fields.next(), Some(("COG", Shown::Absent)));
    Ok(())
}

// Definition::repeat
#[test]
fn sets(rt: HostRuntime) -> Result<(), Fail> {
    let alloc = rt.alloc();
    let table = pairs_table(alloc)?;
    let data = [0x01, 0x0a, 0x64, 0x00, 0x0b, 0x9c, 0xff];
    let definition = table.choose(130822, &data).ok_or("Pairs")?;
    let mut sets = definition.repeat(&data).ok_or("sets")?;
    let mut first = sets.next().ok_or("a set")?;
    assert!(rt; matches!(first.next(), Some(("Id", Shown::Number { value: 10, .. }))));
    assert!(rt; sets.next().is_some());
    assert!(rt; sets.next().is_none());
    Ok(())
}

// decimal_text
#[test]
fn decimals(rt: HostRuntime) -> Result<(), Fail> {
    let alloc = rt.alloc();
    let mut text = Vec::new(alloc);
    decimal_text(alloc, -123456, 3, &mut text)?;
    assert_eq!(rt; text.as_slice(), b"-123.456".as_slice());
    Ok(())
}

// json_line
#[test]
fn json_lines(rt: HostRuntime) -> Result<(), Fail> {
    let alloc = rt.alloc();
    let table = sample_table(alloc)?;
    let line = "2011-11-24-22:42:04.388,2,127251,36,255,8,7d,0b,7d,02,00,ff,ff,ff";
    let packet = frame_in(line)?;
    let mut text = Vec::new(alloc);
    json_line(alloc, &table, &packet, false, &mut text)?;
    let wanted = "{\"timestamp\":\"2011-11-24-22:42:04.388\",\"prio\":2,\"src\":36,\"dst\":255,\
        \"pgn\":127251,\"description\":\"Rate of Turn\",\
        \"fields\":{\"SID\":125,\"Rate\":0.00509634375}}\n";
    assert_eq!(rt; text.as_slice(), wanted.as_bytes());
    Ok(())
}

// json_line_in
#[test]
fn json_lines_in_a_row(rt: HostRuntime) -> Result<(), Fail> {
    let alloc = rt.alloc();
    let table = sample_table(alloc)?;
    let packet = frame_in("(1.0) can0 09F8027F#0500")?;
    let mut line = LineBuffer::new(alloc);
    let mut text = Vec::new(alloc);
    json_line_in(alloc, &table, &packet, false, &mut line, &mut text)?;
    json_line_in(alloc, &table, &packet, true, &mut line, &mut text)?;
    let end = "{\"SID\":5,\"COG Reference\":\"True\",\"COG\":null,\"SOG\":null}}\n";
    assert!(rt; text.ends_with(end.as_bytes()));
    Ok(())
}

// Field::name, Field::at, Field::bits, Field::is_short, Field::match_value, Field::coding, Field::rest, Field::shown
#[test]
fn a_field(rt: HostRuntime) -> Result<(), Fail> {
    let alloc = rt.alloc();
    let table = sample_table(alloc)?;
    let definition = table.choose(127251, &[]).ok_or("Rate of Turn")?;
    let [sid, rate] = definition.own_fields() else {
        return Err("two fields".into());
    };
    assert_eq!(rt; (sid.name(), rate.name()), ("SID", "Rate"));

    let rate_at = rate.at();
    assert_eq!(rt; (sid.at(), rate_at), (0, 8));

    let rate_bits = rate.bits();
    assert_eq!(rt; (sid.bits(), rate_bits), (8, 32));

    assert!(rt; !rate.is_short());

    assert_eq!(rt; rate.match_value(), None);

    assert!(rt; matches!(sid.coding(), Coding::Number(false, _)));
    assert!(rt; matches!(rate.coding(), Coding::Number(true, _)));

    assert_eq!(rt; rate.rest(&[1, 2]), Some([1, 2].as_slice()));

    assert!(rt; matches!(sid.shown(&[5]), Shown::Number { value: 5, .. }));
    assert_eq!(rt; rate.shown(&[5]), Shown::Absent);
    Ok(())
}

// Lookup::text_of, Lookup::value_of
#[test]
fn names_of_values(rt: HostRuntime) -> Result<(), Fail> {
    let alloc = rt.alloc();
    let table = sample_table(alloc)?;
    let definition = table.choose(129026, &[]).ok_or("COG & SOG")?;
    let [_, reference, ..] = definition.own_fields() else {
        return Err("four fields".into());
    };
    let Coding::Lookup(names) = reference.coding() else {
        return Err("a lookup".into());
    };
    assert_eq!(rt; names.text_of(1), Some("Magnetic"));
    assert_eq!(rt; names.text_of(3), None);

    assert_eq!(rt; names.value_of("Error", 3), Some(2));
    assert_eq!(rt; names.value_of("Error", 1), None);
    assert_eq!(rt; names.value_of("Grid", 3), None);
    Ok(())
}

// Repeat::fields, Repeat::from_first, Repeat::split_set
#[test]
fn what_repeats(rt: HostRuntime) -> Result<(), Fail> {
    let alloc = rt.alloc();
    let table = pairs_table(alloc)?;
    let definition = table.choose(130822, &[]).ok_or("Pairs")?;
    let repeat = definition.repeated().ok_or("sets")?;
    assert_eq!(rt; repeat.fields().len(), 2);

    let sets = repeat.from_first(&[1, 10, 100, 0, 11]);
    assert_eq!(rt; sets, [10, 100, 0, 11].as_slice());

    let (first, rest) = repeat.split_set(sets).ok_or("a set")?;
    assert_eq!(rt; (first, rest), ([10, 100, 0].as_slice(), [11].as_slice()));
    assert!(rt; repeat.split_set(rest).is_none());
    Ok(())
}

// Definition::own_fields, Definition::repeated, Definition::matches, KnownPgn::definition
#[test]
fn definitions(rt: HostRuntime) -> Result<(), Fail> {
    let alloc = rt.alloc();
    let table = sample_table(alloc)?;
    let definition = table.choose(129026, &[]).ok_or("COG & SOG")?;
    assert_eq!(rt; definition.own_fields().len(), 4);

    assert!(rt; definition.repeated().is_none());

    assert!(rt; definition.matches(&[0xff]));

    let table = sample_table(alloc)?;
    let known = table.find(130820).ok_or("Label")?;
    let first = known.definition(0).ok_or("Label")?;
    assert_eq!(rt; first.description(), "Sample: Label");
    assert!(rt; known.definition(1).is_none());
    Ok(())
}

// split_character
#[test]
fn characters_of_utf_16(rt: HostRuntime) -> Result<(), Fail> {
    let (letter, rest) = split_character(&[0x3d, 0xd8, 0x00, 0xde, 0x41]).ok_or("a character")?;
    assert_eq!(rt; (letter, rest), ('\u{1f600}', [0x41].as_slice()));
    assert!(rt; split_character(rest).is_none());
    Ok(())
}
