//! The resolution of a number field: a decimal number, kept exactly.
ghost use Rattle.std.specs.Prelude.{◌≡◌, ◌==◌, ◌<◌, ◌^◌, true, length, position, IfOk, IfSome};
ghost use Rattle.std.specs.Char.{is_ascii_digit};
ghost use Rattle.std.specs.List.{list_all};
ghost use Rattle.std.specs.Option.{SomeIff};
ghost use Rattle.std.specs.Str.Parse.{digits_value_after};
ghost use Rattle.toml.specs.View.{table_view};
ghost use Rattle.n2k_wire.specs.Views.{Gives};
ghost use Rattle.n2k_table.specs.Resolution.{is_digits, parts, of_parts, resolution, resolution_at};
ghost use Rattle.n2k_table.specs.Inner.Digits.{ArePartsOfDigits};

use crate::decimal_fast::MOST_DECIMALS;
use crate::fault::TableFault;
use crate::tree::get;
use toml::Table;

/// What the raw value of a number field is multiplied with: `mantissa / 10^decimals`.
#[derive(Clone, Copy)]
pub struct Resolution {
    /// The number that all digits make, 1 to 4294967295.
    pub mantissa: u32,
    /// How many digits stand after the dot, 0 to 18.
    pub decimals: u8,
}

/// The resolution of what has none.
pub(crate) const ONE: Resolution = Resolution {
    mantissa: 1,
    decimals: 0,
};

const MOST_WHOLE_DIGITS: usize = 10;

fn are_digits(text: &[u8]) -> bool
    ensures { result ≡ list_all is_ascii_digit text.now }
{
    text.iter().all(|byte| byte.is_ascii_digit())
}

/// Whether a text is 1 to `most` decimal digits.
fn is_digits(most: usize, text: &[u8]) -> bool
    ensures { result ≡ is_digits most text.now }
{
    !text.is_empty() && text.len() <= most && are_digits(text)
}

fn dot_of(text: &[u8]) -> Option<usize>
    ensures place { result ≡ position (λ byte. byte == 46) text.now }
    ensures within { IfSome result (λ dot. dot < length text.now) }
{
    text.iter().position(|byte| *byte == b'.')
}

/// The number that digits make after the digits that made `before`, if it has 32 bits at most.
fn read_on(before: u32, digits: &[u8]) -> Option<u32>
    requires { list_all is_ascii_digit digits.now ≡ true }
    ensures { let number = digits_value_after 10 before digits.now in
        SomeIff result (number < 2 ^ 32) number }
{
    let mut number = before;
    for digit in digits {
        let value = u32::from(*digit - b'0');
        number = number.checked_mul(10)?.checked_add(value)?;
    }
    Some(number)
}

/// The digits before the dot and those after it.
fn parts(text: &[u8]) -> Result<(&[u8], &[u8]), TableFault>
    ensures value { Gives (λ p. (p.0.now, p.1.now)) result (parts text.now) }
    ensures digits { IfOk result (λ p. ArePartsOfDigits p.0.now p.1.now) }
{
    match dot_of(text) {
        None if is_digits(MOST_WHOLE_DIGITS, text) => Ok((text, &[])),
        None => Err(TableFault::Text),
        Some(dot) => {
            let (whole, _) = text.split_at(dot);
            let (_, decimals) = text.split_at(dot + 1);
            if is_digits(MOST_WHOLE_DIGITS, whole) && is_digits(MOST_DECIMALS, decimals) {
                Ok((whole, decimals))
            } else {
                Err(TableFault::Text)
            }
        }
    }
}

/// The resolution that the digits before and after the dot make.
fn of_parts(whole: &[u8], decimals: &[u8]) -> Result<Resolution, TableFault>
    requires { ArePartsOfDigits whole.now decimals.now }
    ensures { Gives (λ resolution. resolution) result (of_parts whole.now decimals.now) }
{
    let Some(number) = read_on(0, whole) else {
        return Err(TableFault::Range);
    };
    let Some(mantissa) = read_on(number, decimals) else {
        return Err(TableFault::Range);
    };
    if mantissa == 0 {
        return Err(TableFault::Range);
    }
    Ok(Resolution {
        mantissa,
        decimals: decimals.len() as u8,
    })
}

#[tactic(auto, unfolding(crate::specs::Resolution::resolution))]
fn of_text(text: &str) -> Result<Resolution, TableFault>
    ensures { Gives (λ resolution. resolution) result (resolution text.now) }
{
    let (whole, decimals) = parts(text.as_bytes())?;
    of_parts(whole, decimals)
}

/// The resolution of a field, 1 if it has none.
pub(crate) fn resolution_at(table: &Table) -> Result<Resolution, TableFault>
    ensures { Gives (λ resolution. resolution) result (resolution_at (table_view table.now)) }
{
    match get(table, "resolution") {
        None => Ok(ONE),
        Some(value) => of_text(value.as_str().ok_or(TableFault::Key)?),
    }
}
