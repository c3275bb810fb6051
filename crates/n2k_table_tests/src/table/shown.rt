//! What numbers, fields and sets show.
use super::lines::prints;
use super::tables::of_format;
use crate::samples::{pairs_table, read};
use n2k_table::{Fields, Sets, Shown, Table, decimal_text};
use std::alloc::Global;
use std::mem::ManuallyDrop;
use std::process::Abort;
use std::test::Fail;

// A value, its decimals, and its text.
const DECIMALS: [(i128, u8, &str); 9] = [
    (-1, 2, "-0.01"),
    (0, 2, "0.00"),
    (5, 0, "5"),
    (-123456, 3, "-123.456"),
    (1, 18, "0.000000000000000001"),
    (i128::MIN, 0, "-170141183460469231731687303715884105728"),
    (i128::MIN, 18, "-170141183460469231731.687303715884105728"),
    (i128::MAX, 0, "170141183460469231731687303715884105727"),
    (18446744073709551616, 1, "1844674407370955161.6"),
];

fn decimal_is<R: Abort + AllocGlobal>(
    rt: &R,
    value: i128,
    decimals: u8,
    text: &str,
) -> Result<(), Fail> {
    let mut out = Vec::from_slice(rt.alloc(), b"x=")?;
    decimal_text(rt.alloc(), value, decimals, &mut out)?;
    let wanted = format!(in rt.alloc(); "x={text}")?;
    assert_eq!(rt; out.as_slice(), wanted.as_bytes(), "{text}");
    Ok(())
}

#[test]
fn decimals(rt: HostRuntime) -> Result<(), Fail> {
    for (value, decimals, text) in &DECIMALS {
        decimal_is(&rt, *value, *decimals, text)?;
    }
    Ok(())
}

// A field, data, and what is shown.
const SHOWN: [(&str, &[u8], &str); 36] = [
    // bits that cross bytes, the low ones first
    ("kind = 'number', at = 4, bits = 8", &[0xa5, 0x5b], "186"),
    ("kind = 'number', at = 3, bits = 11", &[0xf8, 0x07], "255"),
    ("kind = 'number', at = 0, bits = 16", &[0x02, 0x01], "258"),
    // 64 bits at an odd bit: -2, and the lowest value
    (
        "kind = 'number', at = 1, bits = 64, signed = true",
        &[0xfc, 0xff, 0xff, 0xff, 0xff, 0xff, 0xff, 0xff, 0x01],
        "-2",
    ),
    (
        "kind = 'number', at = 1, bits = 64, signed = true",
        &[0, 0, 0, 0, 0, 0, 0, 0, 1],
        "-9223372036854775808",
    ),
    // the greatest product
    (
        "kind = 'number', at = 0, bits = 64, resolution = '42949672.95'",
        &[0xfd, 0xff, 0xff, 0xff, 0xff, 0xff, 0xff, 0xff],
        "792281624958175935069494968.35",
    ),
    // data that end before the field
    ("kind = 'number', at = 8, bits = 16", &[1, 2], "null"),
    ("kind = 'number', at = 8, bits = 9", &[1, 2], "null"),
    // the greatest value from two bits on, the second greatest from four bits on
    ("kind = 'number', at = 0, bits = 1", &[1], "1"),
    ("kind = 'number', at = 0, bits = 2", &[3], "null"),
    ("kind = 'number', at = 0, bits = 2", &[2], "2"),
    ("kind = 'number', at = 0, bits = 3", &[6], "6"),
    ("kind = 'number', at = 0, bits = 4", &[15], "null"),
    ("kind = 'number', at = 0, bits = 4", &[14], "null"),
    ("kind = 'number', at = 0, bits = 4", &[13], "13"),
    (
        "kind = 'number', at = 0, bits = 4, signed = true",
        &[7],
        "null",
    ),
    (
        "kind = 'number', at = 0, bits = 4, signed = true",
        &[6],
        "null",
    ),
    (
        "kind = 'number', at = 0, bits = 4, signed = true",
        &[15],
        "-1",
    ),
    // a match is compared with the raw value, also of a signed field, and is printed like any other field
    (
        "kind = 'number', at = 0, bits = 8, match = 255, signed = true",
        &[255],
        "-1",
    ),
    (
        "kind = 'number', at = 0, bits = 8, match = 255",
        &[255],
        "null",
    ),
    // names are looked up before the greatest value counts as absent
    (
        "kind = 'lookup', at = 0, bits = 2, lookup = 'L'",
        &[3],
        "\"Three\"",
    ),
    (
        "kind = 'lookup', at = 0, bits = 2, lookup = 'L'",
        &[0],
        "\"z\u{e9}ro \\\"0\\\"\"",
    ),
    ("kind = 'lookup', at = 0, bits = 2, lookup = 'L'", &[2], "2"),
    ("kind = 'lookup', at = 0, bits = 1, lookup = 'L'", &[1], "1"),
    (
        "kind = 'lookup', at = 0, bits = 4, lookup = 'L'",
        &[14],
        "14",
    ),
    (
        "kind = 'lookup', at = 0, bits = 4, lookup = 'L'",
        &[15],
        "null",
    ),
    (
        "kind = 'lookup', at = 8, bits = 4, lookup = 'L'",
        &[0],
        "null",
    ),
    // texts: trailing filler is cut, and each byte is the character of its number
    (
        "kind = 'text', at = 8, bits = 32",
        &[1, 65, 64, 32, 0],
        "\"A\"",
    ),
    (
        "kind = 'text', at = 0, bits = 32",
        &[64, 65, 255, 66],
        "\"@A\u{ff}B\"",
    ),
    ("kind = 'text', at = 0, bits = 16", &[0, 255], "null"),
    (
        "kind = 'text', at = 0, bits = 40",
        &[10, 34, 92, 1, 127],
        "\"\\n\\\"\\\\\\u0001\u{7f}\"",
    ),
    (
        "kind = 'text', at = 0, bits = 16",
        &[0xe9, 0x9f],
        "\"\u{e9}\u{9f}\"",
    ),
    ("kind = 'text', at = 0, bits = 24", &[65, 66], "null"),
    // bytes without change
    (
        "kind = 'bytes', at = 8, bits = 24",
        &[1, 0xff, 0x0a, 0],
        "\"FF 0A 00\"",
    ),
    ("kind = 'bytes', at = 0, bits = 8", &[0xff, 1], "\"FF\""),
    ("kind = 'bytes', at = 0, bits = 16", &[1], "null"),
];

// Fields of exactly eight bytes of data, from which numbers and named values of up to 32 bits are read in one step.
const SHOWN_OF_EIGHT: [(&str, [u8; 8], &str); 20] = [
    (
        "kind = 'number', at = 4, bits = 8",
        [0xa5, 0x5b, 0, 0, 0, 0, 0, 0],
        "186",
    ),
    (
        "kind = 'number', at = 50, bits = 14",
        [0, 0, 0, 0, 0, 0, 0xfc, 0xfc],
        "16191",
    ),
    (
        "kind = 'number', at = 0, bits = 1",
        [1, 0, 0, 0, 0, 0, 0, 0],
        "1",
    ),
    (
        "kind = 'number', at = 0, bits = 2",
        [3, 0, 0, 0, 0, 0, 0, 0],
        "null",
    ),
    (
        "kind = 'number', at = 0, bits = 2",
        [2, 0, 0, 0, 0, 0, 0, 0],
        "2",
    ),
    (
        "kind = 'number', at = 0, bits = 3",
        [6, 0, 0, 0, 0, 0, 0, 0],
        "6",
    ),
    (
        "kind = 'number', at = 0, bits = 4",
        [15, 0, 0, 0, 0, 0, 0, 0],
        "null",
    ),
    (
        "kind = 'number', at = 0, bits = 4",
        [14, 0, 0, 0, 0, 0, 0, 0],
        "null",
    ),
    (
        "kind = 'number', at = 0, bits = 4",
        [13, 0, 0, 0, 0, 0, 0, 0],
        "13",
    ),
    (
        "kind = 'number', at = 60, bits = 4, signed = true",
        [0, 0, 0, 0, 0, 0, 0, 0x7f],
        "null",
    ),
    (
        "kind = 'number', at = 60, bits = 4, signed = true",
        [0, 0, 0, 0, 0, 0, 0, 0x6f],
        "null",
    ),
    (
        "kind = 'number', at = 60, bits = 4, signed = true",
        [0, 0, 0, 0, 0, 0, 0, 0x8f],
        "-8",
    ),
    (
        "kind = 'number', at = 0, bits = 8, signed = true, resolution = '0.01'",
        [0xff, 0, 0, 0, 0, 0, 0, 0],
        "-0.01",
    ),
    // the greatest product of 32 bits, and the lowest
    (
        "kind = 'number', at = 32, bits = 32, resolution = '4294967295'",
        [0, 0, 0, 0, 0xfd, 0xff, 0xff, 0xff],
        "18446744056529682435",
    ),
    (
        "kind = 'number', at = 0, bits = 32, signed = true, resolution = '4294967295'",
        [0, 0, 0, 0x80, 0, 0, 0, 0],
        "-9223372034707292160",
    ),
    (
        "kind = 'number', at = 0, bits = 8, match = 255, signed = true",
        [255, 0, 0, 0, 0, 0, 0, 0],
        "-1",
    ),
    (
        "kind = 'lookup', at = 0, bits = 2, lookup = 'L'",
        [3, 0, 0, 0, 0, 0, 0, 0],
        "\"Three\"",
    ),
    (
        "kind = 'lookup', at = 0, bits = 2, lookup = 'L'",
        [2, 0, 0, 0, 0, 0, 0, 0],
        "2",
    ),
    (
        "kind = 'lookup', at = 0, bits = 4, lookup = 'L'",
        [14, 0, 0, 0, 0, 0, 0, 0],
        "14",
    ),
    (
        "kind = 'lookup', at = 0, bits = 4, lookup = 'L'",
        [15, 0, 0, 0, 0, 0, 0, 0],
        "null",
    ),
];

// A table of this format with this one field.
pub(crate) fn with_field(
    alloc: Global,
    format: u32,
    field: &str,
) -> Result<ManuallyDrop<Table>, Fail> {
    let fields = format!(in alloc; "{{ name = 'F \"', {field} }}")?;
    let text = of_format(alloc, format, &fields)?;
    Ok(read(alloc, &text)?)
}

pub(crate) fn field_shows<R: Abort + AllocGlobal>(
    rt: &R,
    format: u32,
    field: &str,
    data: &[u8],
    value: &str,
) -> Result<(), Fail> {
    let table = with_field(rt.alloc(), format, field)?;
    let fields = format!(in rt.alloc(); "\"F \\\"\":{value}")?;
    prints(rt, &table, (65280, data), true, "D", &fields)
}

#[test]
fn single_fields(rt: HostRuntime) -> Result<(), Fail> {
    for (field, data, value) in &SHOWN {
        field_shows(&rt, 1, field, data, value)?;
    }
    for (field, data, value) in &SHOWN_OF_EIGHT {
        field_shows(&rt, 1, field, data, value)?;
    }
    Ok(())
}

// This line is longer than the room in which a line is built: each of its bytes is printed as six.
#[test]
fn a_line_longer_than_its_room(rt: HostRuntime) -> Result<(), Fail> {
    let mut value = String::from_str(rt.alloc(), "\"")?;
    for _ in 0..223 {
        value.push_str("\\u0001")?;
    }
    value.push_str("\"")?;
    field_shows(
        &rt,
        1,
        "kind = 'text', at = 0, bits = 1784",
        &[1; 223],
        value.as_str(),
    )
}

pub(crate) fn next_is<R: Abort>(
    rt: &R,
    fields: &mut Fields<'_>,
    wanted: Option<(&str, Shown<'_>)>,
) {
    assert_eq!(rt; fields.next(), wanted);
}

pub(crate) fn sets_of<'a>(table: &'a Table, pgn: u32, data: &'a [u8]) -> Result<Sets<'a>, Fail> {
    let definition = table.choose(pgn, data).ok_or("a definition")?;
    Ok(definition.repeat(data).ok_or("sets")?)
}

pub(crate) fn set_of<'a>(sets: &mut Sets<'a>) -> Result<Fields<'a>, Fail> {
    Ok(sets.next().ok_or("a set")?)
}

// The second pair's number: a set's fields are read from the set's own bytes.
#[test]
fn each_set_is_shown(rt: HostRuntime) -> Result<(), Fail> {
    let table = pairs_table(rt.alloc())?;
    let data = [0x01, 0x0a, 0x64, 0x00, 0x0b, 0x9c, 0xff, 0x0c, 0x00];
    let mut sets = sets_of(&table, 130822, &data)?;
    set_of(&mut sets)?;
    let mut second = set_of(&mut sets)?;
    let id = Shown::Number {
        value: 11,
        decimals: 0,
    };
    let value = Shown::Number {
        value: -100,
        decimals: 1,
    };
    next_is(&rt, &mut second, Some(("Id", id)));
    next_is(&rt, &mut second, Some(("Value", value)));
    next_is(&rt, &mut second, None);
    assert!(rt; sets.next().is_none());
    assert!(rt; sets.next().is_none());
    let cog = table.choose(129026, &data).ok_or("another")?;
    assert!(rt; cog.repeat(&data).is_none());
    Ok(())
}
