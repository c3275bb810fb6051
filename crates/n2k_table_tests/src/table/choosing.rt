//! Which definition of a PGN is chosen.
use crate::samples::read;
use n2k_table::Table;
use std::alloc::Global;
use std::mem::ManuallyDrop;
use std::process::Abort;
use std::test::Fail;

const WIDE: &str = "{ number = 1, kind = 'fast', description = 'Wide', fields = [] }";

const NARROW: &str = "{ number = 1, kind = 'fast', description = 'Narrow', fields = [\
    { name = 'A', kind = 'number', at = 0, bits = 8, match = 7 }, \
    { name = 'B', kind = 'lookup', at = 4, bits = 8, lookup = 'L', match = 16 }] }";

// A table of these two definitions, after a definition of another PGN.
fn two(alloc: Global, first: &str, second: &str) -> Result<ManuallyDrop<Table>, Fail> {
    let text = format!(in alloc;
        "format = 1\npgn = [{{ number = 2, kind = 'single', description = 'O', fields = [] }}, {first}, {second}]\nlookup = [{{ name = 'L', entries = [] }}]\n"
    )?;
    Ok(read(alloc, &text)?)
}

// Whether the wide definition comes first, data, and the description that is chosen.
const CHOICES: [(bool, &[u8], &str); 6] = [
    (false, &[7, 1], "Narrow"),
    (true, &[7, 1], "Wide"),
    (false, &[7, 2], "Wide"),
    (false, &[8, 1], "Wide"),
    (false, &[7], "Wide"),
    (false, &[], "Wide"),
];

fn chooses<R: Abort + AllocGlobal>(
    rt: &R,
    wide_first: bool,
    data: &[u8],
    wanted: &str,
) -> Result<(), Fail> {
    let table = if wide_first {
        two(rt.alloc(), WIDE, NARROW)?
    } else {
        two(rt.alloc(), NARROW, WIDE)?
    };
    let definition = table.choose(1, data).ok_or("a definition")?;
    assert_eq!(rt; definition.description(), wanted);
    Ok(())
}

// Of several definitions of a PGN, the first in the file whose values the data match is chosen, even if another matches
// more.
#[test]
fn first_match_in_file_order(rt: HostRuntime) -> Result<(), Fail> {
    for (wide_first, data, wanted) in &CHOICES {
        chooses(&rt, *wide_first, data, wanted)?;
    }
    Ok(())
}
