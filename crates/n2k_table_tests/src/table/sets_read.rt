//! Tables with sets whose length depends on their strings, and with sets after a string: which are read, and the faults
//! of the others.
use super::tables::{answers, changed};
use std::process::Abort;
use std::test::Fail;

// The names of sample 3, with a string outside the sets.
const NAMES: &str = "format = 3
[[pgn]]
number = 130824
kind = 'fast'
description = 'D'
fields = [ { name = 'SID', kind = 'number', at = 0, bits = 8 }, { name = 'S', kind = 'string', at = 8, form = 'lz' } ]
[pgn.repeat]
at = 8
bits = 8
fields = [
  { name = 'Id', kind = 'number', at = 0, bits = 8 },
  { name = 'Name', kind = 'string', at = 8, form = 'lau' },
]
";

// One change to `NAMES`: result | old text | new text, with ~ for a line break.
const CHANGES: &str = "reads | bits = 8~fields | after = 'S'~bits = 8~fields
reads | at = 8, form = 'lau' }, | at = 0, form = 'lau' }, { name = 'N', kind = 'number', at = 0, bits = 8, after = 'Name' },
Key | at = 8, form = 'lau' }, | at = 8, form = 'lau', short = true },
Key | at = 8, form = 'lau' }, | at = 8, form = 'lau', match = 1 },
Key | { name = 'Id', kind = 'number', at = 0, bits = 8 } | { name = 'Id', kind = 'number', at = 0, bits = 8, match = 1 }
Range | at = 8, form = 'lau' }, | at = 8, form = 'lau' }, { name = 'X', kind = 'number', at = 0, bits = 16, after = 'Name' },
Range | at = 8, form = 'lau' | at = 16, form = 'lau'
Lookup | at = 8, form = 'lau' }, | at = 8, form = 'lau', after = 'S' },
Lookup | at = 8, form = 'lau' }, | at = 8, form = 'lau', after = 'Name' },
Lookup | bits = 8~fields | after = 'Name'~bits = 8~fields
Lookup | bits = 8~fields | after = 'SID'~bits = 8~fields
Text | bits = 8~fields | after = ''~bits = 8~fields
Key | bits = 8~fields | after = 1~bits = 8~fields
Key | bits = 8~fields | form = 'lz'~bits = 8~fields
Range | bits = 8~fields | after = 'S'~bits = 1776~fields
reads | bits = 8~fields | after = 'S'~bits = 1768~fields
reads | bits = 8~fields | bits = 1776~fields
Range | bits = 8~fields | bits = 1784~fields
Range | bits = 8~fields | bits = 0~fields
Range | bits = 8~fields | bits = 4~fields
Range | bits = 8~fields | bits = -8~fields
Text | format = 3 | format = 2";

#[test]
fn sets_that_vary(rt: HostRuntime) -> Result<(), Fail> {
    answers(&rt, NAMES, "reads", "names")?;
    for case in CHANGES.lines() {
        changed(&rt, NAMES, ("~", "\n"), case)?;
    }
    Ok(())
}

// Result | fields outside the sets | keys of a repeat after them, in format 3.
const REPEATS: &str =
    "reads | | at = 0, bits = 0, fields = [{ name = 'A', kind = 'string', at = 0, form = 'lz' }]
reads | | at = 0, bits = 1784, fields = []
Range | | at = 0, bits = 1792, fields = []
Range | | at = 0, bits = 0, fields = []
Range | | at = 0, bits = 0, fields = [{ name = 'A', kind = 'text', at = 0, bits = 8 }]
Key | | at = 0, bits = 0
Key | | at = 0, bits = 0, fields = [{ name = 'A' }]
Twice | | at = 0, bits = 0, fields = [{ name = 'A', kind = 'string', at = 0, form = 'lz' }, { name = 'A', kind = 'string', at = 0, form = 'lz' }]
Range | { name = 'list', kind = 'text', at = 0, bits = 8 } | at = 0, bits = 0, fields = []
Twice | { name = 'list', kind = 'text', at = 0, bits = 8 } | at = 0, bits = 8, fields = []
Lookup | | at = 0, after = 'S', bits = 8, fields = []
Range | { name = 'S', kind = 'string', at = 1768, form = 'lz' } | at = 8, after = 'S', bits = 16, fields = []
reads | { name = 'S', kind = 'string', at = 1768, form = 'lz' } | at = 8, after = 'S', bits = 8, fields = []
Range | | at = 8, after = 'S', bits = 4, fields = 1
Range | | at = 4, after = 1, bits = 8, fields = 1
Key | | at = 8, after = 1, bits = 1784, fields = 1
Lookup | | at = 8, after = 'S', bits = 1784, fields = 1
Range | | at = 8, bits = 1784, fields = 1";

#[test]
fn repeats(rt: HostRuntime) -> Result<(), Fail> {
    for case in REPEATS.lines() {
        let (wanted, rest) = case.split_once(" | ").ok_or("an answer")?;
        let (own, keys) = rest.split_once("| ").ok_or("keys")?;
        let text = format!(in rt.alloc();
            "format = 3\npgn = [{{ number = 65280, kind = 'fast', description = 'D', fields = [{own}], repeat = {{ {keys} }} }}]\n"
        )?;
        answers(&rt, &text, wanted, case)?;
    }
    Ok(())
}

// Formats 1 and 2 have no such sets.
#[test]
fn older_tables_have_no_such_sets(rt: HostRuntime) -> Result<(), Fail> {
    for (keys, wanted) in &[
        ("at = 0, bits = 8, after = 'S', fields = []", "Key"),
        ("at = 0, bits = 0, fields = []", "Range"),
        (
            "at = 0, bits = 8, fields = [{ name = 'A', kind = 'string', at = 0, form = 'lz' }]",
            "Text",
        ),
        (
            "at = 0, bits = 8, fields = [{ name = 'A', kind = 'number', at = 0, bits = 8, after = 'S' }]",
            "Key",
        ),
    ] {
        let text = format!(in rt.alloc();
            "format = 2\npgn = [{{ number = 65280, kind = 'fast', description = 'D', fields = [], repeat = {{ {keys} }} }}]\n"
        )?;
        answers(&rt, &text, wanted, keys)?;
    }
    Ok(())
}
