//! What the tests of tables use: tables with one field, and the result of reading a table.
use crate::samples::{read, replaced};
use std::alloc::{AllocError, Global};
use std::process::Abort;
use std::test::Fail;

// The result of reading a table: `reads`, or the name of the fault.
pub(crate) fn answer(alloc: Global, text: &str) -> Result<String, AllocError> {
    match read(alloc, text) {
        Ok(_) => String::from_str(alloc, "reads"),
        Err(fault) => format!(in alloc; "{fault:?}"),
    }
}

pub(crate) fn answers<R: Abort + AllocGlobal>(
    rt: &R,
    text: &str,
    wanted: &str,
    case: &str,
) -> Result<(), Fail> {
    let text = answer(rt.alloc(), text)?;
    assert_eq!(rt; text.as_str(), wanted, "{case}");
    Ok(())
}

// A text with one change gives the case's result. A case is: result, part, replacement; in the latter two, `mark` is
// written for `meant`.
pub(crate) fn changed<R: Abort + AllocGlobal>(
    rt: &R,
    text: &str,
    (mark, meant): (&str, &str),
    case: &str,
) -> Result<(), Fail> {
    let (wanted, change) = case.split_once(" | ").ok_or("an answer")?;
    let change = change.replace(rt.alloc(), mark, meant)?;
    let (old, new) = change.split_once(" | ").ok_or("a replacement")?;
    let text = replaced(rt.alloc(), text, old, new)?;
    answers(rt, &text, wanted, case)
}

// A table of this format with a lookup and one definition with these fields.
pub(crate) fn of_format(alloc: Global, format: u32, fields: &str) -> Result<String, AllocError> {
    format!(in alloc;
        "format = {format}\npgn = [{{ number = 65280, kind = 'fast', description = 'D', fields = [{fields}] }}]\nlookup = [{{ name = 'L', entries = [[3, 'Three'], [0, 'z\u{e9}ro \"0\"']] }}]\n"
    )
}

// A table of this format with this one field gives this result.
pub(crate) fn field_answers<R: Abort + AllocGlobal>(
    rt: &R,
    format: u32,
    field: &str,
    wanted: &str,
) -> Result<(), Fail> {
    let field = format!(in rt.alloc(); "{{ name = 'F', {field} }}")?;
    let text = of_format(rt.alloc(), format, &field)?;
    answers(rt, &text, wanted, &field)
}
