//! Tables with strings and with fields after strings: which are read, and the faults of the others.
use super::tables::{answers, of_format};
use crate::samples::replaced;
use std::process::Abort;
use std::test::Fail;

// The texts of sample 3.
const TEXTS: &str = "format = 3

[[lookup]]
name = \"Status\"
entries = [[0, \"Check Engine\"], [1, \"Over Temperature\"], [3, \"Low Oil\"]]

[[pgn]]
number = 130823
kind = \"fast\"
description = \"Sample: Texts\"
fields = [
  { name = \"A\", kind = \"string\", at = 0, form = \"lau\" },
  { name = \"B\", kind = \"string\", at = 0, after = \"A\", form = \"lz\" },
  { name = \"C\", kind = \"number\", at = 0, bits = 8, after = \"B\", offset = -40, unit = \"C\" },
  { name = \"D\", kind = \"flags\", at = 8, bits = 8, after = \"B\", lookup = \"Status\" },
  { name = \"E\", kind = \"bytes\", at = 16, bits = 64, after = \"B\", short = true },
]
";

// One change to `TEXTS`: result, old text, new text.
const CHANGES: [(&str, &str, &str); 11] = [
    ("reads", "\"lau\"", "\"lz\""),
    ("Text", "\"lau\"", "\"x\""),
    ("Lookup", "after = \"A\"", "after = \"Z\""),
    (
        "Lookup",
        "8, after = \"B\", lookup",
        "8, after = \"C\", lookup",
    ),
    ("Lookup", "\"lau\" }", "\"lau\", after = \"B\" }"),
    ("Key", "offset = -40", "match = 1"),
    ("Key", "at = 0, form", "at = 0, bits = 8, form"),
    ("Key", "offset = -40", "short = true"),
    ("Key", "offset = -40", "signed = true, offset = -40"),
    ("Text", "format = 3", "format = 2"),
    ("Text", "format = 3", "format = 1"),
];

#[test]
fn texts(rt: HostRuntime) -> Result<(), Fail> {
    answers(&rt, TEXTS, "reads", "sample 3")?;
    for (wanted, old, new) in &CHANGES {
        answers(&rt, &replaced(rt.alloc(), TEXTS, old, new)?, wanted, new)?;
    }
    Ok(())
}

// Result, fields of a message in format 3. S is a string.
const FIELDS: &str = "reads | { name = 'S', kind = 'string', at = 1776, form = 'lz', short = true }
Range | { name = 'S', kind = 'string', at = 1784, form = 'lz' }
Range | { name = 'S', kind = 'string', at = 4, form = 'lz' }
Range | { name = 'S', kind = 'string', at = -8, form = 'lz' }
Key | { name = 'S', kind = 'string', form = 'lz' }
Key | { name = 'S', kind = 'string', at = 0 }
Key | { name = 'S', kind = 'string', at = 0, form = 1 }
Text | { name = 'S', kind = 'string', at = 0, form = '' }
Text | { name = 'S', kind = 'string', at = 0, form = 'LZ' }
Key | { name = 'S', kind = 'string', at = 0, form = 'lz', short = 1 }
Key | { name = 'S', kind = 'string', at = 0, form = 'lz', match = 1 }
Key | { name = 'S', kind = 'string', at = 0, form = 'lz', lookup = 'L' }
Key | { name = 'S', kind = 'string', at = 0, form = 'lz', unit = 'C' }
Key | { name = 'N', kind = 'text', at = 0, bits = 8, form = 'lz' }
Lookup | { name = 'S', kind = 'string', at = 0, form = 'lz', after = 'S' }
Lookup | { name = 'N', kind = 'number', at = 0, bits = 8, after = 'S' }, { name = 'S', kind = 'string', at = 0, form = 'lz' }
Lookup | { name = 'N', kind = 'text', at = 0, bits = 8 }, { name = 'S', kind = 'string', at = 0, form = 'lz', after = 'N' }";

// Result, keys of a field after S.
const AFTER: &str = "reads | at = 0, bits = 8, kind = 'number'
reads | at = 0, bits = 8, kind = 'number', signed = true, resolution = '0.1', unit = 'C'
reads | at = 0, bits = 8, kind = 'lookup', lookup = 'L'
reads | at = 0, bits = 8, kind = 'text', short = true
reads | at = 0, bits = 8, kind = 'bytes', short = false
reads | at = 0, bits = 8, kind = 'flags', lookup = 'L'
reads | at = 0, bits = 8, kind = 'digits'
reads | at = 0, form = 'lau', kind = 'string', short = true
Key | at = 0, bits = 8, kind = 'number', match = 0
Key | at = 0, bits = 8, kind = 'lookup', lookup = 'L', match = 0
Key | at = 0, bits = 8, kind = 'number', match = 256
Range | at = 1784, bits = 8, kind = 'number'
Range | at = 0, bits = 65, kind = 'number'";

// Values of `after`, and their results.
const NAMES: [(&str, &str); 5] = [
    ("'S'", "reads"),
    ("'s'", "Lookup"),
    ("'N'", "Lookup"),
    ("''", "Text"),
    ("1", "Key"),
];

// The places of S, of T after S and of a number after T, and the result.
const PLACES: [(u32, u32, u32, &str); 8] = [
    (0, 0, 0, "reads"),
    (1000, 776, 0, "reads"),
    (1000, 784, 0, "Range"),
    (1000, 768, 8, "reads"),
    (1000, 768, 16, "Range"),
    (1776, 0, 0, "reads"),
    (1776, 8, 0, "Range"),
    (0, 0, 1784, "Range"),
];

fn fields_answer<R: Abort + AllocGlobal>(rt: &R, fields: &str, wanted: &str) -> Result<(), Fail> {
    answers(rt, &of_format(rt.alloc(), 3, fields)?, wanted, fields)
}

#[test]
fn strings(rt: HostRuntime) -> Result<(), Fail> {
    for case in FIELDS.lines() {
        let (wanted, fields) = case.split_once(" | ").ok_or("an answer")?;
        fields_answer(&rt, fields, wanted)?;
    }
    Ok(())
}

const S: &str = "{ name = 'S', kind = 'string', at = 0, form = 'lz' }";

#[test]
fn each_kind_after_a_string(rt: HostRuntime) -> Result<(), Fail> {
    for case in AFTER.lines() {
        let (wanted, keys) = case.split_once(" | ").ok_or("an answer")?;
        let fields = format!(in rt.alloc(); "{S}, {{ name = 'N', {keys}, after = 'S' }}")?;
        fields_answer(&rt, &fields, wanted)?;
    }
    Ok(())
}

#[test]
fn names_of_strings(rt: HostRuntime) -> Result<(), Fail> {
    for (name, wanted) in &NAMES {
        let fields = format!(in rt.alloc();
            "{S}, {{ name = 'N', kind = 'number', at = 0, bits = 8, after = {name} }}"
        )?;
        fields_answer(&rt, &fields, wanted)?;
    }
    Ok(())
}

// A number after a string T, which comes after S. Its place is limited by the sum of all three.
#[test]
fn fixed_places(rt: HostRuntime) -> Result<(), Fail> {
    for (first, second, at, wanted) in &PLACES {
        let fields = format!(in rt.alloc();
            "{{ name = 'S', kind = 'string', at = {first}, form = 'lz' }}, \
                {{ name = 'T', kind = 'string', at = {second}, after = 'S', form = 'lau' }}, \
                {{ name = 'N', kind = 'number', at = {at}, bits = 8, after = 'T' }}"
        )?;
        fields_answer(&rt, &fields, wanted)?;
    }
    Ok(())
}

// Two strings of one name: `after` refers to the first, and then the name is found twice.
#[test]
fn a_string_and_another_of_its_name(rt: HostRuntime) -> Result<(), Fail> {
    let second = "{ name = 'S', kind = 'string', at = 1776, form = 'lau' }";
    let fields = format!(in rt.alloc();
        "{S}, {second}, {{ name = 'N', kind = 'number', at = 0, bits = 16, after = 'S' }}"
    )?;
    fields_answer(&rt, &fields, "Twice")
}

// Several faults, of which the first is reported: result, keys of a field after S.
const FIRST: &str = "Key | kind = 'number', at = 0, bits = 8, after = '', form = 'x'
Range | kind = 'number', at = 1784, bits = 8, after = 1
Range | kind = 'number', at = 0, bits = 0, after = ''
Text | kind = 'number', at = 1783, bits = 8, after = ''
Lookup | kind = 'number', at = 1783, bits = 8, after = 'T'
Range | kind = 'number', at = 1783, bits = 8, after = 'S', signed = 1
Lookup | kind = 'number', at = 0, bits = 8, after = 'T', signed = 1
Text | kind = 'lookup', at = 0, bits = 8, after = '', lookup = 1
Key | kind = 'number', at = 0, bits = 8, after = '', resolution = '.', match = 1
Key | kind = 'number', at = 1783, bits = 8, after = 'S', match = 256
Lookup | kind = 'string', at = 0, after = 'T', form = 'x'
Text | kind = 'string', at = 0, after = 'S', form = 'x', short = 1
Key | kind = 'text', at = 0, bits = 8, after = 'S', short = 1";

#[test]
fn first_of_a_field_after_a_string(rt: HostRuntime) -> Result<(), Fail> {
    for case in FIRST.lines() {
        let (wanted, keys) = case.split_once(" | ").ok_or("an answer")?;
        let fields = format!(in rt.alloc(); "{S}, {{ name = 'N', {keys} }}")?;
        fields_answer(&rt, &fields, wanted)?;
    }
    Ok(())
}

// Formats 1 and 2 have no strings.
#[test]
fn older_tables_have_no_strings(rt: HostRuntime) -> Result<(), Fail> {
    for format in 1..3u32 {
        let text = of_format(rt.alloc(), format, S)?;
        answers(&rt, &text, "Text", "string")?;
        let after = "{ name = 'N', kind = 'number', at = 0, bits = 8, after = 'S' }";
        answers(&rt, &of_format(rt.alloc(), format, after)?, "Key", "after")?;
        let form = "{ name = 'N', kind = 'number', at = 0, bits = 8, form = 'lz' }";
        answers(&rt, &of_format(rt.alloc(), format, form)?, "Key", "form")?;
    }
    Ok(())
}
