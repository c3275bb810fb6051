//! What a definition asks of the first eight bytes, as one comparison.
ghost use Rattle.std.specs.Prelude.{◌≡◌, ◌+◌, ◌/◌, ◌%◌, ◌^◌, ◌≤◌, ℕ, List, true, length, bit_and};
ghost use Rattle.n2k_table.specs.Bits.{raw};
ghost use Rattle.n2k_table.specs.Table.{field_matches, matches};
ghost use Rattle.n2k_table.specs.Inner.MatchPrefilter.{IsMatchPrefilter, Settles};

use crate::bits::{WORD_BITS, first_word, greatest};
use crate::definition::StoredDefinition;
use crate::field::Field;

/// Which of the first eight bytes' bits are asked for, and what they have to be, both with the first byte lowest.
#[derive(Clone, Copy)]
pub(crate) struct MatchPrefilter {
    mask: u64,
    wanted: u64,
    /// Whether data that have these bits match, so that no field has to be looked at.
    settles: bool,
}

impl MatchPrefilter {
    /// One that asks for no bit.
    const NONE: MatchPrefilter = MatchPrefilter {
        mask: 0,
        wanted: 0,
        settles: false,
    };

    /// Asks for some bits more.
    fn with_bits(self, at: u32, bits: u32, value: u64) -> MatchPrefilter
        requires some { 1 ≤ bits }
        requires inside { at + bits ≤ 64 }
        ensures { (word : ℕ) → bit_and word self.mask ≡ self.wanted → word / 2 ^ at % 2 ^ bits ≡ value
            → bit_and word result.mask ≡ result.wanted }
    {
        MatchPrefilter {
            mask: self.mask | (greatest(false, bits) << at),
            wanted: self.wanted | (value << at),
            settles: false,
        }
    }

    /// Also asks for what a field asks for, if it lies in the first eight bytes.
    fn with_field(self, field: &Field) -> MatchPrefilter
        ensures { (payload : List ℕ) → field_matches payload field.now ≡ true
            → bit_and (raw payload 0 64) self.mask ≡ self.wanted
            → bit_and (raw payload 0 64) result.mask ≡ result.wanted }
    {
        match field.match_value {
            Some(value) if field.at + field.bits <= WORD_BITS => {
                self.with_bits(field.at, field.bits, value)
            }
            _ => self,
        }
    }

    /// Whether data of eight bytes that have the wanted bits surely have what a field asks for.
    fn settles_field(&self, field: &Field) -> bool
        ensures { result ≡ true → (payload : List ℕ) → 8 ≤ length payload
            → bit_and (raw payload 0 64) self.now.mask ≡ self.now.wanted → field_matches payload field.now ≡ true }
    {
        match (field.match_value, field.mask) {
            (None, _) => true,
            (Some(value), Some(mask)) => {
                (self.mask >> field.at) & mask == mask && (self.wanted >> field.at) & mask == value
            }
            (Some(_), None) => false,
        }
    }

    /// Whether such data surely have what each of these fields asks for.
    fn settles_all(&self, fields: &[Field]) -> bool
        ensures { result ≡ true → Settles self.now.mask self.now.wanted fields.now }
    {
        let mut rest = fields;
        while let Some((field, others)) = rest.split_first() {
            if !self.settles_field(field) {
                return false;
            }
            rest = others;
        }
        true
    }

    /// Whether data have what the fields of a definition ask for. Mostly their first eight bytes tell.
    #[tactic(auto, using(crate::proofs::MatchPrefilters::differs))]
    #[inline(always)]
    pub(crate) fn matches(&self, definition: &StoredDefinition, data: &[u8]) -> bool
        requires { IsMatchPrefilter self.now definition.now.fields }
        ensures { result ≡ matches «data».now definition.now }
    {
        if self.mask != 0 && data.len() >= 8 {
            if first_word(data) & self.mask != self.wanted {
                return false;
            }
            if self.settles {
                return true;
            }
        }
        definition.matches(data)
    }
}

/// What these fields ask for.
pub(crate) fn match_prefilter_of(fields: &[Field]) -> MatchPrefilter
    ensures { IsMatchPrefilter result fields.now }
{
    let mut match_prefilter = MatchPrefilter::NONE;
    for field in fields {
        match_prefilter = match_prefilter.with_field(field);
    }
    match_prefilter.settles = match_prefilter.settles_all(fields);
    match_prefilter
}
