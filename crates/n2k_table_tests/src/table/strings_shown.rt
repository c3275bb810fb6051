//! What is shown of strings and of the fields after them.
use super::lines::prints;
use super::shown::next_is;
use crate::samples::read;
use n2k_table::{Shown, Table};
use std::alloc::Global;
use std::mem::ManuallyDrop;
use std::process::Abort;
use std::test::Fail;

// The texts of sample 3: PGN 130823 has fields after strings, PGN 130826 a short string.
const TEXTS: &str = "format = 3

[[lookup]]
name = \"Status\"
entries = [[0, \"Check Engine\"], [1, \"Over Temperature\"], [3, \"Low Oil\"]]

[[pgn]]
number = 130823
kind = \"fast\"
description = \"D\"
fields = [
  { name = \"A\", kind = \"string\", at = 0, form = \"lau\" },
  { name = \"B\", kind = \"string\", at = 0, after = \"A\", form = \"lz\" },
  { name = \"C\", kind = \"number\", at = 0, bits = 8, after = \"B\", offset = -40, unit = \"C\" },
  { name = \"D\", kind = \"flags\", at = 8, bits = 8, after = \"B\", lookup = \"Status\" },
  { name = \"E\", kind = \"bytes\", at = 16, bits = 64, after = \"B\", short = true },
]

[[pgn]]
number = 130826
kind = \"fast\"
description = \"D\"
fields = [
  { name = \"Name\", kind = \"string\", at = 0, form = \"lau\", short = true },
  { name = \"Type\", kind = \"number\", at = 0, bits = 8, after = \"Name\" },
]
";

// A PGN, data, whether empty fields are requested, and the fields.
const SHOWN: [(u32, &[u8], bool, &str); 14] = [
    (
        130823,
        &[4, 1, 0x48, 0x69, 3, 0x59, 0x6f, 0, 0x3c, 5, 0xde, 0xad],
        false,
        "\"A\":\"Hi\",\"B\":\"Yo\",\"C\":20,\"D\":[\"Check Engine\",2],\"E\":\"DE AD\"",
    ),
    // UTF-16 with a lone surrogate, then an empty string
    (
        130823,
        &[6, 0, 0xe4, 0, 0x3d, 0xd8, 0],
        false,
        "\"A\":\"\u{e4}\u{fffd}\"",
    ),
    (130823, &[2, 1, 0, 0xff, 0xff], false, ""),
    (
        130823,
        &[2, 1, 0, 0xff, 0xff],
        true,
        "\"A\":null,\"B\":null,\"C\":null,\"D\":null,\"E\":null",
    ),
    // a length of 1 counts only itself: there is no byte for the encoding
    (130823, &[1, 1, 0, 5], false, ""),
    (130823, &[2, 1, 0, 0x28, 0], false, "\"C\":0,\"D\":[]"),
    // UTF-8; D is the second greatest value
    (
        130823,
        &[4, 1, 0xc3, 0x84, 1, 0x31, 0x3c, 0xfe],
        false,
        "\"A\":\"\u{c4}\",\"B\":\"1\",\"C\":20",
    ),
    // C4 alone is not valid UTF-8
    (
        130823,
        &[3, 1, 0xc4, 0, 0x3c, 6],
        false,
        "\"A\":\"\u{c4}\",\"C\":20,\"D\":[\"Over Temperature\",2]",
    ),
    // a short string ends with the data, so no field follows it
    (
        130826,
        &[0x16, 1, 0x42, 0x55, 0x4f, 0x59],
        false,
        "\"Name\":\"BUOY\"",
    ),
    (
        130826,
        &[6, 1, 0x42, 0x55, 0x4f, 0x59, 3],
        false,
        "\"Name\":\"BUOY\",\"Type\":3",
    ),
    (
        130826,
        &[6, 0, 0xe4, 0, 0x3d, 0xd8, 3],
        false,
        "\"Name\":\"\u{e4}\u{fffd}\",\"Type\":3",
    ),
    (130826, &[3, 2, 0x41, 3], false, "\"Type\":3"),
    (130826, &[2, 1, 3], false, "\"Type\":3"),
    (130826, &[1, 1, 3], false, ""),
];

#[test]
fn texts_are_shown(rt: HostRuntime) -> Result<(), Fail> {
    let table = read(rt.alloc(), TEXTS)?;
    for (pgn, data, empty, fields) in &SHOWN {
        prints(&rt, &table, (*pgn, *data), *empty, "D", fields)?;
    }
    Ok(())
}

// Keys of a string that a number follows.
const PAIR: &str = "at = 8, form = ";

// The form (and `short`) of a string, data, and what the string and the byte after it show.
const STRINGS: [(&str, &[u8], &str); 27] = [
    // filler is cut only at the end
    ("'lau'", &[9, 6, 1, 0x40, 0x41, 0x20, 0x40, 7], "\"@A\",7"),
    ("'lau'", &[9, 4, 1, 0x00, 0xff, 7], "null,7"),
    ("'lz'", &[9, 3, 0x41, 0x00, 0xff, 7], "\"A\",7"),
    ("'lz'", &[9, 0, 7], "null,7"),
    // a string that would end after the data is invalid, and no field follows it
    ("'lz'", &[9, 3, 0x41, 0x42], "null,null"),
    ("'lau'", &[9, 4, 1, 0x41], "null,null"),
    ("'lau'", &[9], "null,null"),
    ("'lz'", &[], "null,null"),
    ("'lau'", &[9, 0, 7], "null,null"),
    ("'lau'", &[9, 1, 7], "null,null"),
    // an unknown encoding shows nothing, but the string has an end
    ("'lau'", &[9, 3, 2, 0x41, 7], "null,7"),
    ("'lau'", &[9, 3, 0xff, 0x41, 7], "null,7"),
    // UTF-16: a pair, a lone surrogate of either half, an odd last byte, filler
    (
        "'lau'",
        &[9, 6, 0, 0x3d, 0xd8, 0x00, 0xde, 7],
        "\"\u{1f600}\",7",
    ),
    (
        "'lau'",
        &[9, 8, 0, 0x00, 0xde, 0x3d, 0xd8, 0x41, 0x00, 7],
        "\"\u{fffd}\u{fffd}A\",7",
    ),
    ("'lau'", &[9, 5, 0, 0x41, 0x00, 0x42, 7], "\"A\",7"),
    (
        "'lau'",
        &[9, 12, 0, 0x41, 0, 0x40, 0, 0x20, 0, 0xff, 0xff, 0, 0, 7],
        "\"A\",7",
    ),
    ("'lau'", &[9, 4, 0, 0x40, 0x41, 7], "\"\u{4140}\",7"),
    ("'lau'", &[9, 3, 0, 0x41, 7], "null,7"),
    // characters that JSON escapes
    ("'lau'", &[9, 4, 1, 0x22, 0x0a, 7], "\"\\\"\\n\",7"),
    (
        "'lau'",
        &[9, 6, 0, 0x5c, 0, 0x1f, 0, 7],
        "\"\\\\\\u001f\",7",
    ),
    // a short string of which only a part exists
    ("'lau', short = true", &[9, 9, 1, 0x41, 0x42], "\"AB\",null"),
    ("'lau', short = true", &[9, 9, 1], "null,null"),
    ("'lau', short = true", &[9, 9], "null,null"),
    ("'lz', short = true", &[9, 9, 0x41], "\"A\",null"),
    ("'lz', short = true", &[9], "null,null"),
    // a complete short string has an end, and an invalid one is not shown
    ("'lau', short = true", &[9, 3, 1, 0x41, 7], "\"A\",7"),
    ("'lau', short = true", &[9, 1, 1, 0x41], "null,null"),
];

// A table of a string and a number after it.
fn with_string(alloc: Global, string: &str) -> Result<ManuallyDrop<Table>, Fail> {
    let text = format!(in alloc;
        "format = 3\n[[pgn]]\nnumber = 65280\nkind = 'fast'\ndescription = 'D'\nfields = [\n\
        {{ name = 'S', kind = 'string', {PAIR}{string} }},\n\
        {{ name = 'N', kind = 'number', at = 0, bits = 8, after = 'S' }} ]\n"
    )?;
    Ok(read(alloc, &text)?)
}

fn string_shows<R: Abort + AllocGlobal>(
    rt: &R,
    string: &str,
    data: &[u8],
    values: &str,
) -> Result<(), Fail> {
    let table = with_string(rt.alloc(), string)?;
    let (shown, after) = values.rsplit_once(",").ok_or("two values")?;
    let fields = format!(in rt.alloc(); "\"S\":{shown},\"N\":{after}")?;
    prints(rt, &table, (65280, data), true, "D", &fields)
}

#[test]
fn strings(rt: HostRuntime) -> Result<(), Fail> {
    for (string, data, values) in &STRINGS {
        string_shows(&rt, string, data, values)?;
    }
    Ok(())
}

// What a string shows through the public calls.
#[test]
fn strings_are_answered(rt: HostRuntime) -> Result<(), Fail> {
    let table = read(rt.alloc(), TEXTS)?;
    let data = [4, 1, 0xc3, 0x84, 2, 0xc4, 0x40];
    let definition = table.choose(130823, &data).ok_or("a definition")?;
    let mut fields = definition.fields(&data);
    next_is(&rt, &mut fields, Some(("A", Shown::Utf8("\u{c4}"))));
    next_is(&rt, &mut fields, Some(("B", Shown::Text(&[0xc4]))));
    next_is(&rt, &mut fields, Some(("C", Shown::Absent)));
    let data = [7, 0, 0x3d, 0xd8, 0x40, 0x00, 0x41];
    let mut fields = definition.fields(&data);
    next_is(&rt, &mut fields, Some(("A", Shown::Wide(&[0x3d, 0xd8]))));
    Ok(())
}
