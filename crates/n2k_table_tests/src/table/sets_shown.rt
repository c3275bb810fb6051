//! What is shown of sets whose length depends on their strings, and of sets after a string.
use super::lines::prints;
use super::shown::{next_is, set_of, sets_of};
use crate::samples::read;
use n2k_table::Shown;
use std::process::Abort;
use std::test::Fail;

// The names of sample 3, sets after two strings, and sets that contain only strings.
const NAMES: &str = "format = 3

[[pgn]]
number = 130824
kind = \"fast\"
description = \"D\"
fields = [ { name = \"SID\", kind = \"number\", at = 0, bits = 8 } ]
[pgn.repeat]
at = 8
bits = 8
fields = [
  { name = \"Id\", kind = \"number\", at = 0, bits = 8 },
  { name = \"Name\", kind = \"string\", at = 8, form = \"lau\" },
]

[[pgn]]
number = 130825
kind = \"fast\"
description = \"D\"
fields = [
  { name = \"A\", kind = \"string\", at = 8, form = \"lz\" },
  { name = \"B\", kind = \"string\", at = 8, after = \"A\", form = \"lz\" },
]
[pgn.repeat]
at = 8
after = \"B\"
bits = 16
fields = [ { name = \"N\", kind = \"number\", at = 0, bits = 16 } ]

[[pgn]]
number = 130826
kind = \"fast\"
description = \"D\"
fields = []
[pgn.repeat]
at = 0
bits = 0
fields = [
  { name = \"A\", kind = \"string\", at = 0, form = \"lz\" },
  { name = \"B\", kind = \"string\", at = 0, after = \"A\", form = \"lau\" },
]

[[pgn]]
number = 130827
kind = \"fast\"
description = \"D\"
fields = []
[pgn.repeat]
at = 0
bits = 24
fields = [
  { name = \"A\", kind = \"string\", at = 8, form = \"lz\" },
  { name = \"F\", kind = \"number\", at = 8, bits = 8, after = \"A\" },
  { name = \"N\", kind = \"number\", at = 0, bits = 8 },
]
";

// A PGN, data, and the fields.
const SHOWN: [(u32, &[u8], &str); 21] = [
    (
        130824,
        &[7, 1, 4, 1, 0x41, 0x42, 2, 2, 1, 3, 9],
        "\"SID\":7,\"list\":[{\"Id\":1,\"Name\":\"AB\"},{\"Id\":2}]",
    ),
    (130824, &[7, 1, 1, 0x41, 2, 2, 1], "\"SID\":7,\"list\":[]"),
    // a set that lacks a byte, and a set that ends with the data
    (130824, &[7, 1, 3, 1], "\"SID\":7,\"list\":[]"),
    (
        130824,
        &[7, 1, 3, 1, 0x41],
        "\"SID\":7,\"list\":[{\"Id\":1,\"Name\":\"A\"}]",
    ),
    (130824, &[7, 1], "\"SID\":7,\"list\":[]"),
    (130824, &[], "\"list\":[]"),
    // after an invalid set no further set is shown
    (
        130824,
        &[7, 1, 3, 1, 0x41, 2, 0, 1, 3, 3, 1, 0x42],
        "\"SID\":7,\"list\":[{\"Id\":1,\"Name\":\"A\"}]",
    ),
    // sets after strings
    (
        130825,
        &[9, 1, 0x41, 9, 1, 0x42, 9, 1, 0, 2, 0, 3],
        "\"A\":\"A\",\"B\":\"B\",\"list\":[{\"N\":1},{\"N\":2}]",
    ),
    (
        130825,
        &[9, 0, 9, 0, 9, 1, 0, 2, 0],
        "\"list\":[{\"N\":1},{\"N\":2}]",
    ),
    (
        130825,
        &[9, 1, 0x41, 9, 1, 0x42],
        "\"A\":\"A\",\"B\":\"B\",\"list\":[]",
    ),
    (
        130825,
        &[9, 1, 0x41, 9, 9, 0x42, 9, 1, 0],
        "\"A\":\"A\",\"list\":[]",
    ),
    (130825, &[9, 9, 0x41, 9, 1, 0x42, 9, 1, 0], "\"list\":[]"),
    (130825, &[9], "\"list\":[]"),
    // sets that contain only strings
    (
        130826,
        &[1, 0x41, 3, 1, 0x42, 0, 2, 1],
        "\"list\":[{\"A\":\"A\",\"B\":\"B\"},{}]",
    ),
    (130826, &[1, 0x41, 1, 1, 0x42], "\"list\":[]"),
    (130826, &[0, 2, 1, 9], "\"list\":[{}]"),
    (130826, &[0], "\"list\":[]"),
    (130826, &[], "\"list\":[]"),
    // a string between other fields, one of them after the string
    (
        130827,
        &[5, 1, 0x41, 9, 6, 7, 0, 9, 8],
        "\"list\":[{\"A\":\"A\",\"F\":6,\"N\":5},{\"F\":8,\"N\":7}]",
    ),
    (130827, &[5, 1, 0x41, 9], "\"list\":[]"),
    (130827, &[5, 0, 9, 6, 0xff], "\"list\":[{\"F\":6,\"N\":5}]"),
];

#[test]
fn sets_that_vary(rt: HostRuntime) -> Result<(), Fail> {
    let table = read(rt.alloc(), NAMES)?;
    for (pgn, data, fields) in &SHOWN {
        prints(&rt, &table, (*pgn, *data), false, "D", fields)?;
    }
    Ok(())
}

// A number without decimals.
fn whole(value: i128) -> Shown<'static> {
    Shown::Number { value, decimals: 0 }
}

// The sets of a message through the public calls, which give none after the last set.
#[test]
fn sets_are_answered(rt: HostRuntime) -> Result<(), Fail> {
    let table = read(rt.alloc(), NAMES)?;
    let data = [7, 1, 3, 1, 0x41, 2, 2, 1, 3, 9];
    let mut sets = sets_of(&table, 130824, &data)?;
    let mut first = set_of(&mut sets)?;
    next_is(&rt, &mut first, Some(("Id", whole(1))));
    next_is(&rt, &mut first, Some(("Name", Shown::Utf8("A"))));
    next_is(&rt, &mut first, None);
    let mut second = set_of(&mut sets)?;
    next_is(&rt, &mut second, Some(("Id", whole(2))));
    next_is(&rt, &mut second, Some(("Name", Shown::Absent)));
    next_is(&rt, &mut second, None);
    assert!(rt; sets.next().is_none());
    assert!(rt; sets.next().is_none());
    Ok(())
}
