//! Tables of format 3, and what they show.
use super::lines::prints;
use super::shown::{field_shows, with_field};
use super::tables::{answers, field_answers};
use crate::samples::read;
use n2k_table::{Flag, Flags, Shown};
use std::alloc::{AllocError, Global};
use std::process::Abort;
use std::test::Fail;

// Result, field in format 3.
const FIELDS: &str = "reads | kind = 'number', at = 0, bits = 8, offset = -40, unit = 'C'
reads | kind = 'number', at = 0, bits = 8, offset = 4294967295
Range | kind = 'number', at = 0, bits = 8, offset = 4294967296
reads | kind = 'number', at = 0, bits = 8, offset = -4294967296
Range | kind = 'number', at = 0, bits = 8, offset = -4294967297
Range | kind = 'number', at = 0, bits = 8, offset = 9223372036854775807
Range | kind = 'number', at = 0, bits = 8, offset = -9223372036854775808
Key | kind = 'number', at = 0, bits = 8, offset = 1.0
Key | kind = 'number', at = 0, bits = 8, offset = '1'
Key | kind = 'number', at = 0, bits = 8, signed = true, offset = 0
Key | kind = 'number', at = 0, bits = 8, signed = true, offset = 4294967296
reads | kind = 'number', at = 0, bits = 8, signed = false, offset = 1
reads | kind = 'number', at = 0, bits = 8, signed = true, unit = 'C'
reads | kind = 'number', at = 0, bits = 8, offset = 1, match = 255
Text | kind = 'number', at = 0, bits = 8, unit = ''
Key | kind = 'number', at = 0, bits = 8, unit = 1
Key | kind = 'lookup', at = 0, bits = 8, lookup = 'L', offset = 1
Key | kind = 'lookup', at = 0, bits = 8, lookup = 'L', unit = 'C'
Key | kind = 'text', at = 0, bits = 8, unit = 'C'
Key | kind = 'bytes', at = 0, bits = 8, offset = 1
Text | kind = 'number', at = 0, bits = 8, resolution = '.', offset = 4294967296
Range | kind = 'number', at = 0, bits = 8, offset = 4294967296, unit = 1
Text | kind = 'number', at = 0, bits = 8, unit = '', match = 256
reads | kind = 'flags', at = 0, bits = 8, lookup = 'L'
reads | kind = 'flags', at = 1720, bits = 64, lookup = 'L'
Range | kind = 'flags', at = 1721, bits = 64, lookup = 'L'
Range | kind = 'flags', at = 0, bits = 65, lookup = 'L'
Range | kind = 'flags', at = 0, bits = 0, lookup = 'L'
Lookup | kind = 'flags', at = 0, bits = 8, lookup = 'M'
Text | kind = 'flags', at = 0, bits = 8, lookup = ''
Key | kind = 'flags', at = 0, bits = 8
Key | kind = 'flags', at = 0, bits = 8, lookup = 1
Key | kind = 'flags', at = 0, bits = 8, lookup = 'L', match = 1
Key | kind = 'flags', at = 0, bits = 8, lookup = 'L', offset = 1
Key | kind = 'flags', at = 0, bits = 8, lookup = 'L', signed = false
Text | kind = 'flag', at = 0, bits = 8, lookup = 'L'
reads | kind = 'digits', at = 0, bits = 32
reads | kind = 'digits', at = 0, bits = 1784
Range | kind = 'digits', at = 4, bits = 32
Range | kind = 'digits', at = 0, bits = 12
Range | kind = 'digits', at = 0, bits = 0
Range | kind = 'digits', at = 8, bits = 1784
Key | kind = 'digits', at = 0, bits = 8, match = 1
Key | kind = 'digits', at = 0, bits = 8, short = true
reads | kind = 'text', at = 0, bits = 8, short = true
reads | kind = 'bytes', at = 0, bits = 8, short = false
Key | kind = 'bytes', at = 0, bits = 8, short = 1
Key | kind = 'number', at = 0, bits = 8, short = true
Key | kind = 'lookup', at = 0, bits = 8, lookup = 'L', short = true
Key | kind = 'flags', at = 0, bits = 8, lookup = 'L', short = true
Text | kind = 'texts', at = 0
Lookup | kind = 'text', at = 0, bits = 8, after = 'G'
Key | kind = 'text', at = 0, bits = 8, form = 'lau'";

// Keys that format 2 does not have.
const NEW_KEYS: [&str; 2] = ["offset = -40", "unit = 'C'"];

#[test]
fn one_field_each(rt: HostRuntime) -> Result<(), Fail> {
    for case in FIELDS.lines() {
        let (wanted, field) = case.split_once(" | ").ok_or("an answer")?;
        field_answers(&rt, 3, field, wanted)?;
    }
    Ok(())
}

#[test]
fn new_kinds_are_none_in_format_2(rt: HostRuntime) -> Result<(), Fail> {
    let flags = "kind = 'flags', at = 0, bits = 8, lookup = 'L'";
    field_answers(&rt, 2, flags, "Text")?;
    field_answers(&rt, 1, flags, "Text")?;
    field_answers(&rt, 2, "kind = 'digits', at = 0, bits = 8", "Text")?;
    field_answers(
        &rt,
        2,
        "kind = 'text', at = 0, bits = 8, short = true",
        "Key",
    )
}

// Sets of one field, with these bits.
fn with_set(alloc: Global, bits: &str, field: &str) -> Result<String, AllocError> {
    format!(in alloc;
        "format = 3\npgn = [{{ number = 65280, kind = 'fast', description = 'D', fields = [], repeat = {{ at = 0, {bits}, \
            fields = [{{ name = 'F', {field} }}] }} }}]\nlookup = [{{ name = 'L', entries = [[0, 'Zero']] }}]\n"
    )
}

// Result, bits of a set, field, in format 3.
const SETS: [(&str, &str, &str); 9] = [
    ("reads", "bits = 8", "kind = 'text', at = 0, bits = 8"),
    (
        "Key",
        "bits = 8",
        "kind = 'text', at = 0, bits = 8, short = true",
    ),
    (
        "reads",
        "bits = 8",
        "kind = 'number', at = 0, bits = 8, offset = 1, unit = 'C'",
    ),
    (
        "reads",
        "bits = 8",
        "kind = 'flags', at = 0, bits = 8, lookup = 'L'",
    ),
    ("Range", "bits = 8", "kind = 'digits', at = 0, bits = 16"),
    ("Range", "bits = 0", "kind = 'digits', at = 0, bits = 8"),
    // sets after a string of the message, and a field after a string of its set
    (
        "Lookup",
        "bits = 8, after = 'F'",
        "kind = 'digits', at = 0, bits = 8",
    ),
    ("reads", "bits = 8", "kind = 'string', at = 0, form = 'lz'"),
    (
        "Lookup",
        "bits = 8",
        "kind = 'digits', at = 0, bits = 8, after = 'F'",
    ),
];

#[test]
fn fields_of_a_set(rt: HostRuntime) -> Result<(), Fail> {
    for (wanted, bits, field) in &SETS {
        answers(&rt, &with_set(rt.alloc(), bits, field)?, wanted, field)?;
    }
    Ok(())
}

#[test]
fn sets_are_shown(rt: HostRuntime) -> Result<(), Fail> {
    let field = "kind = 'flags', at = 0, bits = 8, lookup = 'L'";
    let text = with_set(rt.alloc(), "bits = 8", field)?;
    let table = read(rt.alloc(), &text)?;
    let data = [0x05, 0x00, 0xff];
    let fields = "\"list\":[{\"F\":[\"Zero\",2]},{\"F\":[]},{}]";
    prints(&rt, &table, (65280, &data), false, "D", fields)
}

// Sample 3 without strings: the fields after the strings begin at the first byte.
const ALARMS: &str = "{ name = 'C', kind = 'number', at = 0, bits = 8, offset = -40, unit = 'C' }, \
    { name = 'D', kind = 'flags', at = 8, bits = 8, lookup = 'Status' }, \
    { name = 'E', kind = 'bytes', at = 16, bits = 64, short = true }";

const STATUS: &str =
    "[[lookup]]\nname = 'Status'\nentries = [[0, 'Check Engine'], [1, 'Over Temperature'], [3, 'Low Oil']]\n";

// Data, whether empty fields are requested, and the fields.
const ALARMS_SHOWN: [(&[u8], bool, &str); 7] = [
    (
        &[0x3c, 0x05, 0xde, 0xad],
        false,
        "\"C\":20,\"D\":[\"Check Engine\",2],\"E\":\"DE AD\"",
    ),
    (&[0xff, 0xff], false, ""),
    (&[0xff, 0xff], true, "\"C\":null,\"D\":null,\"E\":null"),
    (&[0x28, 0x00], false, "\"C\":0,\"D\":[]"),
    (&[0x3c, 0xfe], false, "\"C\":20"),
    (
        &[0x3c, 0x06],
        false,
        "\"C\":20,\"D\":[\"Over Temperature\",2]",
    ),
    (&[], false, ""),
];

#[test]
fn alarms(rt: HostRuntime) -> Result<(), Fail> {
    let text = format!(in rt.alloc();
        "format = 3\n{STATUS}[[pgn]]\nnumber = 130823\nkind = 'fast'\ndescription = 'D'\nfields = [{ALARMS}]\n"
    )?;
    let table = read(rt.alloc(), &text)?;
    for (data, empty, fields) in &ALARMS_SHOWN {
        prints(&rt, &table, (130823, *data), *empty, "D", fields)?;
    }
    Ok(())
}

#[test]
fn new_keys_are_none_in_format_2(rt: HostRuntime) -> Result<(), Fail> {
    for key in &NEW_KEYS {
        let field = format!(in rt.alloc(); "kind = 'number', at = 0, bits = 8, {key}")?;
        field_answers(&rt, 2, &field, "Key")?;
        field_answers(&rt, 1, &field, "Key")?;
        field_answers(&rt, 3, &field, "reads")?;
    }
    Ok(())
}

const OFFSET: &str = "kind = 'number', at = 0, bits = 8, offset = -40";

// A field, data, and what is shown.
const SHOWN: [(&str, &[u8], &str); 34] = [
    (OFFSET, &[0x3c], "20"),
    (OFFSET, &[0x28], "0"),
    (OFFSET, &[0x00], "-40"),
    // the value before the offset decides
    (OFFSET, &[0xfd], "213"),
    (OFFSET, &[0xfe], "null"),
    (OFFSET, &[0xff], "null"),
    (OFFSET, &[], "null"),
    // the offset is multiplied too
    (
        "kind = 'number', at = 0, bits = 16, offset = -40, resolution = '0.5'",
        &[0x3d, 0x00],
        "10.5",
    ),
    (
        "kind = 'number', at = 0, bits = 1, offset = 7",
        &[0x01],
        "8",
    ),
    // the greatest number
    (
        "kind = 'number', at = 0, bits = 64, offset = 4294967295, resolution = '0.000000004294967295'",
        &[0xfd, 0xff, 0xff, 0xff, 0xff, 0xff, 0xff, 0xff],
        "79228162514.264337572069113860",
    ),
    (
        "kind = 'number', at = 0, bits = 64, offset = -4294967296",
        &[0xfd, 0xff, 0xff, 0xff, 0xff, 0xff, 0xff, 0xff],
        "18446744069414584317",
    ),
    // bits from the lowest, by name
    (FLAGS, &[0x09], "[\"z\u{e9}ro \\\"0\\\"\",\"Three\"]"),
    (FLAGS, &[0x8c], "[2,\"Three\",7]"),
    (FLAGS, &[0x00], "[]"),
    (FLAGS, &[0xfe], "null"),
    (FLAGS, &[0xff], "null"),
    (
        FLAGS,
        &[0xfd],
        "[\"z\u{e9}ro \\\"0\\\"\",2,\"Three\",4,5,6,7]",
    ),
    (FLAGS, &[], "null"),
    (
        "kind = 'flags', at = 1, bits = 7, lookup = 'L'",
        &[0xff],
        "[\"z\u{e9}ro \\\"0\\\"\",1,2,\"Three\",4,5,6]",
    ),
    // values of bits past its end are not shown
    (
        "kind = 'flags', at = 0, bits = 3, lookup = 'L'",
        &[0x0e],
        "[1,2]",
    ),
    (
        "kind = 'flags', at = 0, bits = 64, lookup = 'L'",
        &[0x02, 0, 0, 0, 0, 0, 0, 0x80],
        "[1,63]",
    ),
    // digits
    (PHONE, &[0x00, 0x49, 0x63, 0xff], "\"007399\""),
    (PHONE, &[0x64, 0, 0, 0], "null"),
    (PHONE, &[0xff, 0xff, 0xff, 0xff], "null"),
    (PHONE, &[0xff, 0x01, 0xff, 0xff], "null"),
    (PHONE, &[0x01, 0x02, 0x03, 0x04], "\"01020304\""),
    (PHONE, &[0x01, 0x02, 0x03], "null"),
    // the bytes that exist of a short field
    (SHORT_BYTES, &[0x00, 0xde, 0xad], "\"DE AD\""),
    (SHORT_BYTES, &[0x00, 0xde, 0xad, 0x01, 0x02], "\"DE AD 01\""),
    (SHORT_BYTES, &[0x00], "null"),
    (SHORT_BYTES, &[], "null"),
    (
        "kind = 'bytes', at = 8, bits = 24",
        &[0x00, 0xde, 0xad],
        "null",
    ),
    (
        "kind = 'text', at = 0, bits = 64, short = true",
        &[0x41, 0x42, 0x20],
        "\"AB\"",
    ),
    (
        "kind = 'text', at = 0, bits = 64, short = true",
        &[0x20],
        "null",
    ),
];

const PHONE: &str = "kind = 'digits', at = 0, bits = 32";

const SHORT_BYTES: &str = "kind = 'bytes', at = 8, bits = 24, short = true";

const FLAGS: &str = "kind = 'flags', at = 0, bits = 8, lookup = 'L'";

#[test]
fn shown(rt: HostRuntime) -> Result<(), Fail> {
    for (field, data, value) in &SHOWN {
        field_shows(&rt, 3, field, data, value)?;
    }
    Ok(())
}

fn next_flag_is<R: Abort>(rt: &R, flags: &mut Flags<'_>, wanted: Option<Flag<'_>>) {
    assert_eq!(rt; flags.next(), wanted);
}

#[test]
fn each_bit_is_answered(rt: HostRuntime) -> Result<(), Fail> {
    let table = with_field(rt.alloc(), 3, FLAGS)?;
    let data = [0x0c];
    let definition = table.choose(65280, &data).ok_or("a definition")?;
    let Some((_, Shown::Flags(mut flags))) = definition.fields(&data).next() else {
        return Err(Fail::from("flags"));
    };
    next_flag_is(&rt, &mut flags, Some(Flag::Bit(2)));
    next_flag_is(&rt, &mut flags, Some(Flag::Name("Three")));
    next_flag_is(&rt, &mut flags, None);
    next_flag_is(&rt, &mut flags, None);
    Ok(())
}
