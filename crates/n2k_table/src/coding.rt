//! What the bits of a field mean, for writing them.
use crate::lookup::Lookup;
use crate::resolution::Resolution;
use crate::string_place::Form;

/// What the bits of a field mean. It borrows the table.
#[derive(Clone, Copy)]
pub enum Coding<'a> {
    /// A number, in two's complement if it is signed, times its resolution.
    Number(bool, Resolution),
    /// A number to which an offset is added, times its resolution.
    Shifted(i64, Resolution),
    /// A value that a lookup has names for.
    Lookup(&'a Lookup),
    /// Bits that a lookup has names for.
    Flags(&'a Lookup),
    /// A text, each byte the character of its number.
    Text,
    /// Bytes as they are.
    Bytes,
    /// Bytes of two decimal digits.
    Digits,
    /// A string, which begins with its length.
    String(Form),
}
