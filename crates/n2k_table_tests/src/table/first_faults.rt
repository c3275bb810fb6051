//! Tables with several faults: the first is reported, in the order of docs/PROFILE.md.
use super::tables::{answers, of_format};
use std::process::Abort;
use std::test::Fail;

// Result, whole table.
const TABLES: [(&str, &str); 7] = [
    ("Format", "unit = 'm'"),
    ("Key", "format = 1\nunit = 'm'\nlookup = [{ name = '' }]"),
    (
        "Text",
        "format = 1\npgn = 1\nlookup = [{ name = '', entries = [] }]",
    ),
    (
        "Range",
        "format = 1\nlookup = [{ name = 'L', entries = [[-1, '']] }]",
    ),
    (
        "Text",
        "format = 1\nlookup = [{ name = 'L', entries = [[0, 'a'], [0, 'b'], [1, '']] }]",
    ),
    (
        "Key",
        "format = 1\nlookup = [{ name = 'L', entries = [] }, { name = 'L', entries = [] }, 1]",
    ),
    (
        "Twice",
        "format = 1\npgn = 1\nlookup = [{ name = 'L', entries = [] }, { name = 'L', entries = [] }]",
    ),
];

// Result, definitions of a table in format 2.
const DEFINITIONS: &str = "Key | { unit = 'm', number = -1 }
Range | { number = -1, kind = 'slow' }
Text | { number = 1, kind = 'slow', description = 1 }
Key | { number = 1, kind = 'fast', description = 1, fields = [], repeat = { at = 4 } }
Range | { number = 1, kind = 'fast', description = 'D', fields = [], repeat = { at = 1776, bits = 16, fields = 1 } }
Range | { number = 1, kind = 'fast', description = 'D', repeat = { at = 4, bits = 8, fields = [] }, \
    fields = [{ name = 'list', kind = 'number', at = 0, bits = 8 }] }
Text | { number = 1, kind = 'fast', description = 'D', fields = [] }, \
    { number = 1, kind = 'single', description = 'D', fields = [] }, { number = 1, kind = 'slow' }";

// Result, fields of a definition, in a table with the lookup L.
const FIELDS: &str = "Text | { kind = 'pair', unit = 'm' }
Key | { kind = 'number', unit = 'm', name = '' }
Text | { kind = 'number', name = '', at = -1 }
Range | { kind = 'number', name = 'N', at = -1, bits = '8' }
Range | { kind = 'bytes', name = 'N', at = 4, bits = '8' }
Range | { kind = 'number', name = 'N', at = 1783, bits = 8, signed = 1 }
Range | { kind = 'number', name = 'N', at = 0, bits = 1, signed = true, resolution = '.' }
Text | { kind = 'number', name = 'N', at = 0, bits = 8, resolution = '.', match = 256 }
Lookup | { kind = 'lookup', name = 'N', at = 0, bits = 8, lookup = 'M', match = 256 }
Key | { kind = 'number', name = 'N', at = 0, bits = 8 }, { kind = 'number', name = 'N', at = 0, bits = 8 }, 1";

#[test]
fn first_of_table(rt: HostRuntime) -> Result<(), Fail> {
    for case in &TABLES {
        let (wanted, text) = *case;
        answers(&rt, text, wanted, text)?;
    }
    Ok(())
}

fn first_of_definitions<R: Abort + AllocGlobal>(rt: &R, case: &str) -> Result<(), Fail> {
    let (wanted, definitions) = case.split_once(" | ").ok_or("an answer")?;
    let text = format!(in rt.alloc(); "format = 2\npgn = [{definitions}]\n")?;
    answers(rt, &text, wanted, case)
}

#[test]
fn first_of_definition(rt: HostRuntime) -> Result<(), Fail> {
    for case in DEFINITIONS.lines() {
        first_of_definitions(&rt, case)?;
    }
    Ok(())
}

fn first_of_fields<R: Abort + AllocGlobal>(rt: &R, case: &str) -> Result<(), Fail> {
    let (wanted, fields) = case.split_once(" | ").ok_or("an answer")?;
    let text = of_format(rt.alloc(), 1, fields)?;
    answers(rt, &text, wanted, case)
}

#[test]
fn first_of_field(rt: HostRuntime) -> Result<(), Fail> {
    for case in FIELDS.lines() {
        first_of_fields(&rt, case)?;
    }
    Ok(())
}
