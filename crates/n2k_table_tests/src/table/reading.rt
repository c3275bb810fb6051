//! Tables with one change each.
use super::tables::{answers, changed};
use crate::samples::{PAIRS, SAMPLE, SAMPLE_ID, replaced, sample, sample_2};
use n2k_table::{Kind, Table, TableFault};
use std::process::Abort;
use std::test::Fail;

// The result if one part of sample 2's end (its first occurrence) is replaced: result, part, replacement.
const PAIRS_CHANGES: &str = "reads | repeat = | repeat =
Key | 'Id', | 'Id', match = 1,
Range | bits = 24 | bits = 20
Range | at = 8, bits = 16 | at = 16, bits = 16
Twice | 'SID' | 'list'
Twice | 'Value' | 'Id'
reads | 'Id' | 'list'
reads | 'Id' | 'SID'
Key | repeat = | repeats =
Key | { at = 8, | { 
Key | bits = 24, | 
Key | bits = 24, fields | bits = 24, list
Key | bits = 24, | bits = 24, kind = 'number',
Key | { at = 8, | { at = '8',
Key | bits = 24, | bits = 24.0,
Key | bits = 16, | bits = 16, match = -1,
Key | 'Id', kind = 'number', | 'Id', kind = 'lookup', lookup = 'Reference', match = 1,
reads | 'Id', kind = 'number', | 'Id', kind = 'lookup', lookup = 'Reference',
Lookup | 'Id', kind = 'number', | 'Id', kind = 'lookup', lookup = 'Ref',
Text | 'Id' | ''
Text | 'Id', kind = 'number' | 'Id', kind = 'pair'
reads | 'Id', kind = 'number' | 'Id', kind = 'bytes'
Range | 'Id', kind = 'number', at = 0, | 'Id', kind = 'bytes', at = 24,
Range | 'Id', kind = 'number', at = 0, | 'Id', kind = 'number', at = 17,
reads | 'Id', kind = 'number', at = 0, | 'Id', kind = 'number', at = 16,
reads | at = 8, bits = 24 | at = 1760, bits = 24
Range | at = 8, bits = 24 | at = 1768, bits = 24
reads | at = 8, bits = 24 | at = 0, bits = 1784
Range | at = 8, bits = 24 | at = 0, bits = 1792
Range | at = 8, bits = 24 | at = 8, bits = 1784
Range | at = 8, bits = 24 | at = 1784, bits = 24
Range | at = 8, bits = 24 | at = -8, bits = 24
Range | at = 8, bits = 24 | at = 4, bits = 24
Range | at = 8, bits = 24 | at = 8, bits = 0
Range | at = 8, bits = 24 | at = 8, bits = 16";

// The result if one part of the sample (its first occurrence) is replaced: result, part, replacement. In these texts '
// is a quotation mark.
const CHANGES: &str = "reads | format = 1 | format = 1
NotToml | bits = 64 } | bits = 64
Format | format = 1 | 
Format | format = 1 | format = 0
Format | format = 1 | format = 4
reads | format = 1 | format = 2
reads | format = 1 | format = 3
Format | format = 1 | format = '1'
Key | [[lookup]] | [[lookups]]
Key | '0.01' } | '0.01', unit = 'm' }
Key | '0.0001' } | '0.0001', lookup = 'Reference' }
Range | bits = 8 | bits = 0
Range | match = 419 | match = 2048
Range | at = 24 | at = 20
Range | '0.01' | '0.00'
Text | 'single' | 'slow'
Text | '0.01' | '.01'
Twice | 'COG', | 'SID',
Twice | entries = [[0, 'True'], [1, | entries = [[0, 'True'], [0,
Lookup | lookup = 'Reference' | lookup = 'Ref'
Mixed | number = 130820 | number = 129026
reads | [1, 'Magnetic'], [2, 'Error'] | [3, 'None']
Key | name = 'Reference' | 
Key | entries = | items =
Key | number = 129026 | 
Key | kind = 'single' | 
Key | description = 'Rate of Turn' | 
Key | fields = | list =
Key | name = 'SID', | 
Key | kind = 'number', | 
Key | at = 16, | 
Key | bits = 11, | 
Key | , lookup = 'Reference' | 
Key | name = 'Reference' | name = 1
Key | [[0, 'True'], [1, 'Magnetic'], [2, 'Error']] | 'True'
Key | [0, 'True'] | 0
Key | [0, 'True'] | [0]
Key | [0, 'True'] | [0, 'True', 0]
Key | [0, 'True'] | ['0', 'True']
Key | [0, 'True'] | [0, 1]
Key | number = 129026 | number = '129026'
Key | kind = 'single' | kind = 1
Key | 'Rate of Turn' | 1
Key | name = 'SID' | name = 1
Key | kind = 'number' | kind = 1
Key | at = 16 | at = '16'
Key | bits = 11 | bits = 11.0
Key | signed = true | signed = 1
Key | '0.01' | 0.01
Key | match = 419 | match = '419'
Key | lookup = 'Reference' | lookup = 1
Key | [[lookup]] | [lookup]
reads | number = 127251 | number = 0
reads | number = 127251 | number = 16777215
Range | number = 127251 | number = -1
Range | number = 127251 | number = 16777216
reads | [1, 'M | [4294967295, 'M
Range | [1, 'M | [4294967296, 'M
Range | [1, 'M | [-1, 'M
Text | 'Magnetic' | ''
Text | 'Reference' | ''
Text | 'Rate of Turn' | ''
Text | lookup = 'Reference' | lookup = ''
Mixed | number = 127251 | number = 130820
reads | [[0, 'True'], [1, 'Magnetic'], [2, 'Error']] | []";

#[test]
fn sample_reads(rt: HostRuntime) -> Result<(), Fail> {
    let table = sample(rt.alloc())?;
    assert_eq!(rt; table.kind(129026), Some(Kind::Single));
    assert_eq!(rt; table.kind(130820), Some(Kind::Fast));
    assert_eq!(rt; table.kind(130821), None);
    let id = hex::encode(rt.alloc(), table.id().as_slice())?;
    assert_eq!(rt; id.as_str(), SAMPLE_ID);
    Ok(())
}

// The digest of `format = 1` and a line feed, by sha256sum.
const FORMAT_ALONE: [u8; 32] = [
    0xa1, 0xaf, 0x1b, 0xcc, 0xf4, 0x68, 0x62, 0xc1, 0xce, 0x45, 0xd1, 0x06, 0x40, 0x94, 0xb0, 0x0a,
    0x08, 0x08, 0x32, 0x95, 0x40, 0xe0, 0x6a, 0x44, 0xbc, 0xed, 0xd8, 0xc9, 0x21, 0x84, 0x9f, 0x1e,
];

#[test]
fn format_alone_reads(rt: HostRuntime) -> Result<(), Fail> {
    let table = Table::read(rt.alloc(), b"format = 1\n")?;
    assert_eq!(rt; table.kind(129026), None);
    assert_eq!(rt; table.id(), FORMAT_ALONE);
    Ok(())
}

#[test]
fn one_change_each(rt: HostRuntime) -> Result<(), Fail> {
    for case in CHANGES.lines() {
        changed(&rt, SAMPLE, ("'", "\""), case)?;
    }
    Ok(())
}

// Sample 2 with one change at its end gives the case's result.
fn changed_pairs<R: Abort + AllocGlobal>(rt: &R, case: &str) -> Result<(), Fail> {
    let (wanted, change) = case.split_once(" | ").ok_or("an answer")?;
    let (old, new) = change.split_once(" | ").ok_or("a replacement")?;
    let end = replaced(rt.alloc(), PAIRS, old, new)?;
    let text = sample_2(rt.alloc(), &end)?;
    answers(rt, &text, wanted, case)
}

#[test]
fn one_change_of_pairs_each(rt: HostRuntime) -> Result<(), Fail> {
    for case in PAIRS_CHANGES.lines() {
        changed_pairs(&rt, case)?;
    }
    Ok(())
}

// Format 1 has no sets.
#[test]
fn pairs_in_format_1_key(rt: HostRuntime) -> Result<(), Fail> {
    let text = format!(in rt.alloc(); "{SAMPLE}{PAIRS}")?;
    answers(&rt, &text, "Key", "format 1")
}

// The last bracket is missing.
#[test]
fn no_last_bracket(rt: HostRuntime) -> Result<(), Fail> {
    let end = SAMPLE.rfind(']').ok_or("a bracket")?;
    let (prefix, _) = SAMPLE.split_at(end);
    answers(&rt, prefix, "NotToml", "no last bracket")
}

// The byte FF precedes the sample.
#[test]
fn no_utf8(rt: HostRuntime) -> Result<(), Fail> {
    let mut bytes = Vec::new(rt.alloc());
    bytes.push(0xFF)?;
    bytes.extend_from_slice(SAMPLE.as_bytes())?;
    assert_eq!(rt;
        Table::read(rt.alloc(), &bytes).err(),
        Some(TableFault::NotToml)
    );
    Ok(())
}
