//! How large a table may be.
use super::tables::answers;
use std::alloc::{AllocError, Global};
use std::process::Abort;
use std::test::Fail;

// Appends a part, in which `{}` is replaced by the part's number.
fn push_part(
    alloc: Global,
    number: usize,
    part: &str,
    text: &mut String,
) -> Result<(), AllocError> {
    match part.split_once("{}") {
        None => text.push_str(part),
        Some((prefix, back)) => {
            let one = format!(in alloc; "{prefix}{number}{back}")?;
            text.push_str(&one)
        }
    }
}

fn many(alloc: Global, count: usize, part: &str) -> Result<String, AllocError> {
    let mut text = String::new(alloc);
    for number in 0..count {
        push_part(alloc, number, part, &mut text)?;
    }
    Ok(text)
}

const FIELD: &str = "{ name = '{}', kind = 'number', at = 0, bits = 8 }, ";

const DEFINITION: &str = "{ number = {}, kind = 'fast', description = 'D', fields = [] }, ";

const ONE: &str = "pgn = [{ number = 1, kind = 'fast', description = 'D', fields = [";

const SET: &str = "pgn = [{ number = 1, kind = 'fast', description = 'D', fields = [], \
    repeat = { at = 0, bits = 8, fields = [";

// The result of a table with many parts: text before, count, part, text after, result.
const LIMITS: [(&str, usize, &str, &str, &str); 13] = [
    ("pgn = [", 4096, DEFINITION, "]", "reads"),
    ("pgn = [", 4097, DEFINITION, "]", "TooMany"),
    (ONE, 256, FIELD, "] }]", "reads"),
    (ONE, 257, FIELD, "] }]", "TooMany"),
    (
        "lookup = [",
        1024,
        "{ name = '{}', entries = [] }, ",
        "]",
        "reads",
    ),
    (
        "lookup = [",
        1025,
        "{ name = '{}', entries = [] }, ",
        "]",
        "TooMany",
    ),
    (
        "lookup = [{ name = 'L', entries = [",
        4096,
        "[{}, 'N'], ",
        "] }]",
        "reads",
    ),
    (
        "lookup = [{ name = 'L', entries = [",
        4097,
        "[{}, 'N'], ",
        "] }]",
        "TooMany",
    ),
    (
        "lookup = [{ entries = [], name = '",
        255,
        "N",
        "' }]",
        "reads",
    ),
    (
        "lookup = [{ entries = [], name = '",
        256,
        "N",
        "' }]",
        "Text",
    ),
    (
        "lookup = [{ entries = [], name = '",
        128,
        "\u{e9}",
        "' }]",
        "Text",
    ),
    (
        "pgn = [",
        1,
        "{ number = 1, kind = 'fast', description = 'D', fields = [], repeat = 1 }",
        "]",
        "Key",
    ),
    (
        "lookup = [",
        2,
        "{ name = 'L', entries = [] }, ",
        "]",
        "Twice",
    ),
];

// Limits in format 2: text before, count, part, text after, result.
const SET_LIMITS: [(&str, usize, &str, &str, &str); 6] = [
    (SET, 0, FIELD, "] } }]", "reads"),
    (SET, 256, FIELD, "] } }]", "reads"),
    (SET, 257, FIELD, "] } }]", "TooMany"),
    (
        "pgn = [",
        1,
        "{ number = 1, kind = 'fast', description = 'D', fields = [], repeat = 1 }",
        "]",
        "Key",
    ),
    (
        "pgn = [",
        1,
        "{ number = 1, kind = 'fast', description = 'D', fields = [], repeat = [] }",
        "]",
        "Key",
    ),
    (
        ONE,
        1,
        "{ name = 'list', kind = 'number', at = 0, bits = 8 }",
        "] }]",
        "reads",
    ),
];

fn limit_answers<R: Abort + AllocGlobal>(
    rt: &R,
    format: u32,
    case: &(&str, usize, &str, &str, &str),
) -> Result<(), Fail> {
    let (prefix, count, part, back, wanted) = *case;
    let middle = many(rt.alloc(), count, part)?;
    let text = format!(in rt.alloc(); "format = {format}\n{prefix}{middle}{back}\n")?;
    answers(rt, &text, wanted, part)
}

#[test]
fn limits(rt: HostRuntime) -> Result<(), Fail> {
    for case in &LIMITS {
        limit_answers(&rt, 1, case)?;
    }
    for case in &SET_LIMITS {
        limit_answers(&rt, 2, case)?;
    }
    Ok(())
}
