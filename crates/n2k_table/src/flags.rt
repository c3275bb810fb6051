//! Bits that are 1, by their names.
ghost use Rattle.std.specs.Prelude.{◌≡◌, [], ◌∷◌, ◌+◌, ◌-◌, ◌≤◌, ◌<◌, nat_eq, MatchOption};
ghost use Rattle.std.specs.Cmp.Lexicographic.{pointwise, nat_list_eq_equiv};
ghost use Rattle.std.specs.Cmp.{partial_equiv_from_equiv, on_per, on_equiv};
ghost use Rattle.n2k_table.specs.Bits.{has_bit, bits_set};
ghost use Rattle.n2k_table.specs.Shown.{flag_parts, flags_left, shown_flags, shown_parts};
ghost use Rattle.n2k_table.specs.Inner.FieldValue.{flags_key, named_bit};

use crate::bits::greatest;
use crate::lookup::{Lookup, Name};
use crate::shown::Shown;
use std::fmt;

/// A bit that is 1.
#[derive(Clone, Copy, PartialEq, Eq, Debug)]
pub enum Flag<'a> {
    /// Its name, as the table has it.
    Name(&'a str),
    /// Its number, if the table has no name for it. 0 is the least significant.
    Bit(u8),
}

/// The same with what a line needs of a name.
#[derive(Clone, Copy)]
pub(crate) enum NamedBit<'a> {
    Name(&'a Name),
    Bit(u8),
}

/// The bits of a field that are 1, by their names, from the least significant on, and then `None` for good. It borrows
/// the table and takes no memory. Two are equal if the raw value, the next bit and the end are, and the name of the
/// lookup; what names stand in that is not compared.
#[derive(Clone, Copy)]
pub struct Flags<'a> {
    pub(crate) lookup: &'a Lookup,
    pub(crate) raw: u64,
    /// The next bit, and the one at which they end.
    pub(crate) next: u8,
    pub(crate) end: u8,
}

/// Whether a bit is 1.
fn has_bit(raw: u64, bit: u8) -> bool
    ensures { result ≡ has_bit raw bit }
{
    match raw.checked_shr(u32::from(bit)) {
        Some(from_bit) => from_bit % 2 == 1,
        None => false,
    }
}

/// The first bit that is 1, from one on.
fn next_bit(raw: u64, from: u8, end: u8) -> Option<u8>
    ensures { MatchOption result (bits_set raw from (end - from) ≡ [])
        (λ bit. (bit < end) × (bits_set raw from (end - from) ≡ bit ∷ bits_set raw (bit + 1) (end - (bit + 1)))) }
{
    for bit in from..end {
        if has_bit(raw, bit) {
            return Some(bit);
        }
    }
    None
}

impl<'a> Flags<'a> {
    ghost use Rattle.std.specs.Prelude.{map};
    ghost use Rattle.n2k_table.specs.Shown.{flag};

    /// All of so many bits.
    fn new(lookup: &'a Lookup, bits: u32, raw: u64) -> Flags<'a>
        requires { bits ≤ 64 }
        ensures { flags_left result ≡ map (flag lookup.now.entries) (bits_set raw 0 bits) }
    {
        Flags {
            lookup,
            raw,
            next: 0,
            end: bits as u8,
        }
    }

    /// The next bit that is 1.
    pub(crate) fn next_named(&mut self) -> Option<NamedBit<'a>>
        ensures { MatchOption result ((flags_left self.old ≡ []) × (flags_left self.new ≡ []))
            (λ bit. flags_left self.old ≡ named_bit bit ∷ flags_left self.new) }
    {
        let bit = next_bit(self.raw, self.next, self.end)?;
        self.next = bit + 1;
        match self.lookup.name_of(u64::from(bit)) {
            Some(name) => Some(NamedBit::Name(name)),
            None => Some(NamedBit::Bit(bit)),
        }
    }
}

impl<'a> PartialEq for Flags<'a> {
    ghost eq = { λ x y. pointwise nat_eq (flags_key x) (flags_key y) };

    ghost laws = { on_per flags_key (partial_equiv_from_equiv nat_list_eq_equiv) };

    fn eq(&self, other: &Self) -> bool {
        self.raw == other.raw
            && self.next == other.next
            && self.end == other.end
            && self.lookup.name() == other.lookup.name()
    }
}

impl<'a> Eq for Flags<'a> {
    ghost laws = { on_equiv flags_key nat_list_eq_equiv };
}

impl<'a> fmt::Debug for Flags<'a> {
    fn fmt<W: fmt::Write>(&self, f: &mut fmt::Formatter<W>) -> fmt::Result {
        f.debug_struct("Flags").field("raw", &self.raw).finish()
    }
}

impl<'a> Iterator for Flags<'a> {
    ghost use Rattle.std.specs.Iterator.{YieldsFirstBy, item_count};

    type Item = Flag<'a>;

    ghost next_gives = { YieldsFirstBy flag_parts flags_left };

    ghost remaining = { item_count flags_left };

    fn next(&mut self) -> Option<Flag<'a>> {
        match self.next_named()? {
            NamedBit::Name(name) => Some(Flag::Name(name.text())),
            NamedBit::Bit(bit) => Some(Flag::Bit(bit)),
        }
    }
}

/// What bits of that raw value show by their names. From eight bits on the greatest two values say that none is there.
pub(crate) fn flags_value<'a>(lookup: &'a Lookup, bits: u32, raw: u64) -> Shown<'a>
    requires some { 1 ≤ bits }
    requires room { bits ≤ 64 }
    ensures { shown_parts result ≡ shown_flags lookup.now.entries bits raw }
{
    let greatest = greatest(false, bits);
    if bits >= 8 && (raw == greatest || raw == greatest - 1) {
        return Shown::Absent;
    }
    Shown::Flags(Flags::new(lookup, bits, raw))
}
