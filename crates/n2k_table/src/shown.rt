//! What a field shows of a message.
ghost use Rattle.std.specs.Prelude.{◌≡◌};

use crate::field::Field;
use crate::flags::Flags;
use std::marker::Model;

/// What a field shows of a message. It borrows the table and the data.
#[derive(Clone, Copy, PartialEq, Eq, Debug)]
pub enum Shown<'a> {
    /// Nothing: the data end before the field does, a string before it has no end, or its value says that none is
    /// there.
    Absent,
    /// A number, `value / 10^decimals`.
    Number {
        /// The digits of the number, without its dot.
        value: i128,
        /// How many of its digits stand after the dot, 0 to 18.
        decimals: u8,
    },
    /// The name of a value, as the table has it.
    Name(&'a str),
    /// A text, each byte the character of its number (so byte E9 is U+00E9), without the bytes that fill it up.
    Text(&'a [u8]),
    /// The characters of a string, without those that fill it up. Where they are no UTF-8, it is `Text`.
    Utf8(&'a str),
    /// The characters of a string as UTF-16, two bytes each, the low one first, without those that fill it up. A surrogate
    /// may stand alone.
    Wide(&'a [u8]),
    /// Bytes as they are.
    Bytes(&'a [u8]),
    /// Those bits of a field that are 1.
    Flags(Flags<'a>),
    /// Digits: each byte, 0 to 99, is two of them.
    Digits(&'a [u8]),
}

/// What the fields of a definition show of a message: the name of each, and what it shows. It borrows
/// the table and the data, takes no memory, and returns `None` forever after the last field.
#[derive(Drop)]
pub struct Fields<'a> {
    rest: &'a [Field],
    data: &'a [u8],
}

impl<'a> Model for Fields<'a> {
    ghost use Rattle.std.specs.Prelude.{List, ℕ};
    ghost use Rattle.n2k_table.specs.Shown.{ShownParts, all_shown};

    ghost Value = { List (List ℕ × ShownParts) };

    ghost view = { λ f. all_shown f.rest.now f.«data».now };
}

impl<'a> Fields<'a> {
    ghost use Rattle.n2k_table.specs.Shown.{all_shown};

    /// What these fields show of the data.
    pub(crate) fn new(rest: &'a [Field], data: &'a [u8]) -> Fields<'a>
        ensures { result ≡ all_shown rest.now «data».now }
    {
        Fields { rest, data }
    }
}

impl<'a> Iterator for Fields<'a> {
    ghost use Rattle.std.specs.Iterator.{YieldsFirstBy, item_count};
    ghost use Rattle.n2k_table.specs.Shown.{shown_parts};

    type Item = (&'a str, Shown<'a>);

    ghost next_gives = { YieldsFirstBy (λ item. (item.0.now, shown_parts item.1)) (λ fields. fields) };

    ghost remaining = { item_count (λ fields. fields) };

    fn next(&mut self) -> Option<(&'a str, Shown<'a>)> {
        let (field, rest) = self.rest.split_first()?;
        self.rest = rest;
        Some((field.name(), field.shown(self.data)))
    }
}
