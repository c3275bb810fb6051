//! Tables for the benchmark: the table of the input with other descriptions, and two large tables.

use crate::replay::next_random;
use std::alloc::{AllocError, Global};

/// The text before a description in a table.
const KEY: &str = "description = \"";

fn letter(random: u64) -> u8 {
    b'A' + (random % 26) as u8
}

/// Appends a number in decimal digits.
fn push_number(alloc: Global, text: &mut Vec<u8>, number: u64) -> Result<(), AllocError> {
    let digits = format!(in alloc; "{number}")?;
    text.extend_from_slice(digits.as_bytes())
}

/// The table with four letters before each description, from this random number and the following ones.
pub(crate) fn with_letters(
    alloc: Global,
    table: &str,
    mut random: u64,
) -> Result<Vec<u8>, AllocError> {
    let mut text = Vec::new(alloc);
    for (at, piece) in table.split(KEY).enumerate() {
        if at > 0 {
            random = next_random(random);
            text.extend_from_slice(KEY.as_bytes())?;
            let letters = [
                letter(random),
                letter(random / 26),
                letter(random / 676),
                letter(random / 17_576),
            ];
            text.extend_from_slice(&letters)?;
        }
        text.extend_from_slice(piece.as_bytes())?;
    }
    Ok(text)
}

/// A table of `count` PGNs with two fields each.
pub(crate) fn many_pgns(alloc: Global, count: u64, random: u64) -> Result<Vec<u8>, AllocError> {
    let mut text = Vec::new(alloc);
    text.extend_from_slice(b"format = 1\n")?;
    for pgn in 0..count {
        text.extend_from_slice(b"[[pgn]]\nnumber = ")?;
        push_number(alloc, &mut text, pgn.wrapping_mul(31))?;
        text.extend_from_slice(b"\nkind = \"single\"\ndescription = \"Message ")?;
        push_number(alloc, &mut text, pgn ^ random % 65_536)?;
        text.extend_from_slice(
            b"\"\nfields = [\n  { name = \"SID\", kind = \"number\", at = 0, bits = 8 },\n  { name = \"Value\", kind = \"number\", at = 8, bits = 16, resolution = \"0.01\", signed = true },\n]\n",
        )?;
    }
    Ok(text)
}

/// A table of several lookups with several names each, and a PGN with a field of 12 bits for each lookup.
pub(crate) fn many_names(
    alloc: Global,
    lookups: u64,
    names: u64,
    random: u64,
) -> Result<Vec<u8>, AllocError> {
    let mut text = Vec::new(alloc);
    text.extend_from_slice(b"format = 1\n")?;
    for lookup in 0..lookups {
        text.extend_from_slice(b"[[lookup]]\nname = \"LOOKUP_")?;
        push_number(alloc, &mut text, lookup)?;
        text.extend_from_slice(b"\"\nentries = [\n")?;
        for name in 0..names {
            text.extend_from_slice(b"[")?;
            push_number(alloc, &mut text, name)?;
            text.extend_from_slice(b", \"Name ")?;
            push_number(alloc, &mut text, name ^ random % 65_536)?;
            text.extend_from_slice(b"\"],\n")?;
        }
        text.extend_from_slice(b"]\n")?;
    }
    text.extend_from_slice(
        b"[[pgn]]\nnumber = 130816\nkind = \"fast\"\ndescription = \"Names\"\nfields = [\n",
    )?;
    for lookup in 0..lookups {
        text.extend_from_slice(b"  { name = \"Field ")?;
        push_number(alloc, &mut text, lookup)?;
        text.extend_from_slice(b"\", kind = \"lookup\", at = ")?;
        push_number(alloc, &mut text, lookup.wrapping_mul(12))?;
        text.extend_from_slice(b", bits = 12, lookup = \"LOOKUP_")?;
        push_number(alloc, &mut text, lookup)?;
        text.extend_from_slice(b"\" },\n")?;
    }
    text.extend_from_slice(b"]\n")?;
    Ok(text)
}
