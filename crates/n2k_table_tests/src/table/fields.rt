//! Tables with one field.
use super::tables::field_answers;
use std::test::Fail;

// Result, field.
const FIELDS: &str = "reads | kind = 'number', at = 0, bits = 1
reads | kind = 'number', at = 1783, bits = 1
reads | kind = 'number', at = 1720, bits = 64, signed = true
Range | kind = 'number', at = 1784, bits = 1
Range | kind = 'number', at = -1, bits = 8
Range | kind = 'number', at = 0, bits = 0
Range | kind = 'number', at = 0, bits = 65
Range | kind = 'number', at = 1721, bits = 64
Range | kind = 'number', at = 0, bits = 1, signed = true
reads | kind = 'number', at = 0, bits = 1, signed = false
reads | kind = 'number', at = 0, bits = 2, signed = true
reads | kind = 'number', at = 0, bits = 8, match = 0
reads | kind = 'number', at = 0, bits = 8, match = 255
Range | kind = 'number', at = 0, bits = 8, match = 256
Range | kind = 'number', at = 0, bits = 8, match = -1
reads | kind = 'number', at = 0, bits = 64, match = 9223372036854775807
Range | kind = 'number', at = 0, bits = 62, match = 9223372036854775807
NotToml | kind = 'number', at = 0, bits = 64, match = 9223372036854775808
reads | kind = 'number', at = 0, bits = 8, resolution = '0.000000000000000001'
Text | kind = 'number', at = 0, bits = 8, resolution = '0.0000000000000000001'
reads | kind = 'number', at = 0, bits = 8, resolution = '4294967295'
Range | kind = 'number', at = 0, bits = 8, resolution = '4294967296'
Range | kind = 'number', at = 0, bits = 8, resolution = '0'
Text | kind = 'number', at = 0, bits = 8, resolution = '00000000001'
Text | kind = 'number', at = 0, bits = 8, resolution = '1.'
Text | kind = 'number', at = 0, bits = 8, resolution = ''
Text | kind = 'number', at = 0, bits = 8, resolution = '-1'
Text | kind = 'float', at = 0, bits = 8
reads | kind = 'lookup', at = 0, bits = 1, lookup = 'L'
reads | kind = 'lookup', at = 1752, bits = 32, lookup = 'L', match = 4294967295
Range | kind = 'lookup', at = 0, bits = 33, lookup = 'L'
Range | kind = 'lookup', at = 1753, bits = 32, lookup = 'L'
Range | kind = 'lookup', at = 0, bits = 0, lookup = 'L'
Range | kind = 'lookup', at = 0, bits = 2, lookup = 'L', match = 4
Key | kind = 'lookup', at = 0, bits = 2, lookup = 'L', signed = false
Key | kind = 'lookup', at = 0, bits = 2, lookup = 'L', resolution = '1'
Lookup | kind = 'lookup', at = 0, bits = 2, lookup = 'l'
reads | kind = 'text', at = 0, bits = 8
reads | kind = 'text', at = 0, bits = 1784
reads | kind = 'bytes', at = 1776, bits = 8
Range | kind = 'bytes', at = 0, bits = 1792
Range | kind = 'bytes', at = 8, bits = 1784
Range | kind = 'bytes', at = 4, bits = 8
Range | kind = 'bytes', at = 0, bits = 12
Range | kind = 'text', at = 0, bits = 0
Key | kind = 'text', at = 0, bits = 8, match = 0
Key | kind = 'bytes', at = 0, bits = 8, resolution = '1'";

#[test]
fn one_field_each(rt: HostRuntime) -> Result<(), Fail> {
    for case in FIELDS.lines() {
        let (wanted, field) = case.split_once(" | ").ok_or("an answer")?;
        field_answers(&rt, 1, field, wanted)?;
    }
    Ok(())
}
