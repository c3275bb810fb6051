//! What some bits show as a number.
ghost use Rattle.std.specs.Prelude.{◌≡◌, ◌≤◌, Some};
ghost use Rattle.n2k_table.specs.Shown.{shown_parts};
ghost use Rattle.n2k_table.specs.Inner.Number.{reserved_values, scaled, shifted, shifted_value, value_of, IsScale, IsShift};
ghost use Rattle.n2k_table.specs.Inner.FieldValue.{value_parts};

use crate::bits::greatest;
use crate::field_value::FieldValue;
use crate::resolution::Resolution;
use crate::shown::Shown;

/// A number, its sign apart: a size times a resolution, or as far below zero.
#[derive(Clone, Copy)]
pub(crate) struct Number {
    /// Whether it is below zero, if it is not zero.
    pub(crate) negative: bool,
    /// How far the value of its bits is from zero.
    pub(crate) size: u64,
    /// What that is multiplied with.
    pub(crate) resolution: Resolution,
}

impl Number {
    /// The number without its dot.
    pub(crate) fn value(self) -> i128
        ensures { result ≡ value_of self }
    {
        let size = i128::from(self.size) * i128::from(self.resolution.mantissa);
        if self.negative { -size } else { size }
    }
}

/// How some bits make a number, kept since each line needs it.
#[derive(Clone, Copy)]
pub(crate) struct Scale {
    /// Whether the number may be below zero.
    pub(crate) signed: bool,
    /// What the value of the bits is multiplied with.
    pub(crate) resolution: Resolution,
    /// The greatest value that counts.
    pub(crate) max_valid: u64,
    /// The greatest value. Those between say that none is there, and raw values above it are below zero.
    pub(crate) max: u64,
    /// The greatest raw value.
    pub(crate) max_raw: u64,
}

/// How some bits make a number to which an offset is added.
#[derive(Clone, Copy)]
pub(crate) struct Shift {
    /// What is added to the value of the bits.
    pub(crate) offset: i64,
    /// What the sum is multiplied with.
    pub(crate) resolution: Resolution,
    /// The greatest value of the bits that counts. Those above say that none is there.
    pub(crate) max_valid: u64,
}

/// How many values of so many bits say that none is there.
fn reserved_values(bits: u32) -> u64
    ensures { result ≡ reserved_values bits }
{
    match bits {
        0..=1 => 0,
        2..=3 => 1,
        _ => 2,
    }
}

impl Scale {
    /// How bits make a number by a resolution.
    pub(crate) fn new(signed: bool, bits: u32, resolution: Resolution) -> Scale
        requires some { 1 ≤ bits }
        requires room { bits ≤ 64 }
        ensures signed { result.signed ≡ signed }
        ensures resolution { result.resolution ≡ resolution }
        ensures kept { IsScale bits result }
    {
        let max_raw = greatest(false, bits);
        let max = greatest(signed, bits);
        Scale {
            signed,
            resolution,
            max_valid: max.saturating_sub(reserved_values(bits)),
            max,
            max_raw,
        }
    }

    /// What bits of that raw value show.
    #[inline(always)]
    pub(crate) fn number<'a>(&self, raw: u64) -> FieldValue<'a>
        requires { raw ≤ self.now.max_raw }
        ensures { value_parts result ≡ Some (scaled self.now raw) }
    {
        if raw <= self.max_valid {
            return FieldValue::Number(Number {
                negative: false,
                size: raw,
                resolution: self.resolution,
            });
        }
        if raw <= self.max {
            return FieldValue::Absent;
        }
        FieldValue::Number(Number {
            negative: true,
            size: self.max_raw - raw + 1,
            resolution: self.resolution,
        })
    }
}

impl Shift {
    /// How bits make a number by an offset and a resolution.
    pub(crate) fn new(offset: i64, bits: u32, resolution: Resolution) -> Shift
        requires some { 1 ≤ bits }
        requires room { bits ≤ 64 }
        ensures offset { result.offset ≡ offset }
        ensures resolution { result.resolution ≡ resolution }
        ensures kept { IsShift bits result }
    {
        Shift {
            offset,
            resolution,
            max_valid: greatest(false, bits).saturating_sub(reserved_values(bits)),
        }
    }

    /// The sum of a raw value and the offset, times the mantissa.
    pub(crate) fn value(self, raw: u64) -> i128
        ensures { result ≡ shifted_value self raw }
    {
        (i128::from(raw) + i128::from(self.offset)) * i128::from(self.resolution.mantissa)
    }

    /// What bits of that raw value show.
    pub(crate) fn shown<'a>(&self, raw: u64) -> Shown<'a>
        ensures { shown_parts result ≡ shifted self.now raw }
    {
        if raw > self.max_valid {
            return Shown::Absent;
        }
        Shown::Number {
            value: self.value(raw),
            decimals: self.resolution.decimals,
        }
    }
}
