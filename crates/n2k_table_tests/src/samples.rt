//! What the tests of several crates use: the sample table, and sample 2.
use n2k_table::{Table, TableFault};
use std::alloc::Global;
use std::mem::ManuallyDrop;
use std::test::Fail;

// The table of `examples/sample.toml`.
pub(crate) const SAMPLE: &str = "format = 1

[[lookup]]
name = \"Reference\"
entries = [[0, \"True\"], [1, \"Magnetic\"], [2, \"Error\"]]

[[pgn]]
number = 129026
kind = \"single\"
description = \"COG & SOG, Rapid Update\"
fields = [
  { name = \"SID\", kind = \"number\", at = 0, bits = 8 },
  { name = \"COG Reference\", kind = \"lookup\", at = 8, bits = 2, lookup = \"Reference\" },
  { name = \"COG\", kind = \"number\", at = 16, bits = 16, resolution = \"0.0001\" },
  { name = \"SOG\", kind = \"number\", at = 32, bits = 16, resolution = \"0.01\" },
]

[[pgn]]
number = 127251
kind = \"single\"
description = \"Rate of Turn\"
fields = [
  { name = \"SID\", kind = \"number\", at = 0, bits = 8 },
  { name = \"Rate\", kind = \"number\", at = 8, bits = 32, signed = true, resolution = \"0.00000003125\" },
]

[[pgn]]
number = 130820
kind = \"fast\"
description = \"Sample: Label\"
fields = [
  { name = \"Maker\", kind = \"number\", at = 0, bits = 11, match = 419 },
  { name = \"Kind\", kind = \"number\", at = 16, bits = 8 },
  { name = \"Label\", kind = \"text\", at = 24, bits = 64 },
]
";

/// The table's SHA-256, by sha256sum.
pub const SAMPLE_ID: &str = "6b85e2b24165c1cf1b657bbddd71b3850cd65dafaf42319db5372fef7b615284";

// Reads a table. It has no clause, so that no test's proof unfolds the text.
pub(crate) fn read(alloc: Global, text: &str) -> Result<ManuallyDrop<Table>, TableFault> {
    Ok(ManuallyDrop::new(Table::read(alloc, text.as_bytes())?))
}

/// The sample table. It is never dropped: the proof that a drop is safe takes minutes.
pub fn sample(alloc: Global) -> Result<ManuallyDrop<Table>, TableFault> {
    read(alloc, SAMPLE)
}

// The end of sample 2, as another spelling of the same document. The rest is the sample in format 2.
pub(crate) const PAIRS: &str = "
[[pgn]]
number = 130822
kind = 'fast'
description = 'Sample: Pairs'
fields = [ { name = 'SID', kind = 'number', at = 0, bits = 8 } ]
repeat = { at = 8, bits = 24, fields = [
  { name = 'Id', kind = 'number', at = 0, bits = 8 },
  { name = 'Value', kind = 'number', at = 8, bits = 16, signed = true, resolution = '0.1' },
] }
";

// Replaces the first occurrence of a part.
pub(crate) fn replaced(alloc: Global, text: &str, old: &str, new: &str) -> Result<String, Fail> {
    let (prefix, back) = text.split_once(old).ok_or("a part of the text")?;
    Ok(format!(in alloc; "{prefix}{new}{back}")?)
}

// Sample 2, with this text at its end.
pub(crate) fn sample_2(alloc: Global, end: &str) -> Result<String, Fail> {
    let prefix = replaced(alloc, SAMPLE, "format = 1", "format = 2")?;
    Ok(format!(in alloc; "{prefix}{end}")?)
}

/// Sample 2 as a table.
pub fn pairs_table(alloc: Global) -> Result<ManuallyDrop<Table>, Fail> {
    let text = sample_2(alloc, PAIRS)?;
    Ok(read(alloc, &text)?)
}
