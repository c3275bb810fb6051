//! Stamps of candump lines, and the UTC text of a stamp in a packet.
ghost use Rattle.std.specs.Prelude.{◌≡◌, ◌+◌, ◌^◌, ◌≤◌, ◌<◌, ◌↔◌, IfSome, IsSome, IsTrue, true, length, pos};
ghost use Rattle.jiff_core.specs.Calendar.{IsCivilDate};
ghost use Rattle.jiff_core.specs.Date.{epoch_day};
ghost use Rattle.n2k_wire.specs.Steps.{some_if};
ghost use Rattle.std.specs.List.{list_all};
ghost use Rattle.n2k_wire.specs.Packet.{is_stamp, is_stamp_byte};
ghost use Rattle.n2k_wire.specs.Inner.Stamp.{IsMoment, last_day, plain_moment};
ghost use Rattle.n2k_wire.specs.Stamp.{seconds_of_day, utc_len, moment, three_digits, two_digits, date_text, time_text};
ghost use Rattle.n2k_wire.specs.Stamp.{utc_text, has_utc_form, number_at, day_at_start, second_after_date, utc_moment};
ghost use Rattle.n2k_wire.specs.Calendar.{day_number, is_date, year_of, month_of, day_of_month};
ghost use Rattle.n2k_wire.specs.Views.{Finds};

use crate::cuts::cut_at;
use crate::digits::decimal_number;
use jiff::ToSpan;
use jiff::civil::{Date, date};

/// A moment of a candump stamp.
#[derive(Clone, Copy)]
pub(crate) struct Moment {
    /// Whole seconds since 1970 in UTC.
    pub(crate) seconds: u64,
    /// The milliseconds after them.
    pub(crate) millis: u32,
}

const LAST_SECOND: u64 = 253_402_300_799;

const SECONDS_OF_DAY: u64 = 86_400;

/// The bytes of a stamp `YYYY-MM-DDTHH:MM:SS.mmmZ`.
pub const UTC_LEN: usize = 24;

/// The digits of a fraction, filled with zeros and cut to three.
#[tactic(auto, unfolding(crate::specs::Stamp::three_digits))]
pub(crate) fn three_digits(fraction: &[u8]) -> [u8; 3]
    ensures { result ≡ three_digits fraction.now }
{
    match fraction {
        [] => *b"000",
        [a] => [*a, b'0', b'0'],
        [a, b] => [*a, *b, b'0'],
        [a, b, c, ..] => [*a, *b, *c],
    }
}

/// The moment of a text `seconds.fraction`.
#[tactic(auto, unfolding(crate::specs::Stamp::moment))]
pub(crate) fn read_moment(text: &[u8]) -> Option<Moment>
    ensures value { Finds plain_moment result (moment text.now) }
    ensures range { IfSome result (λ m. IsMoment (plain_moment m)) }
{
    let (seconds, fraction) = cut_at(b'.', text)?;
    let seconds = decimal_number(12, seconds)?;
    decimal_number(9, fraction)?;
    let millis = decimal_number(3, &three_digits(fraction))? as u32;
    if seconds > LAST_SECOND {
        return None;
    }
    Some(Moment { seconds, millis })
}

/// Day 0 of the day numbers.
fn first_day() -> Date
    ensures { epoch_day result ≡ pos 0 }
{
    date(1970, 1, 1)
}

/// The date of a day number.
fn date_of_day(day: u32) -> Date
    requires { day ≤ last_day }
    ensures { epoch_day result ≡ pos day }
{
    first_day().checked_add(i64::from(day).days()).unwrap()
}

/// The day number of a date, below 0 before 1970.
fn day_of_date(date: Date) -> i64
    ensures { result ≡ epoch_day date }
{
    date.duration_since(first_day()).as_hours() / 24
}

/// The year, the month and the day of the month of a day number.
fn civil_date(day: u32) -> (u16, u8, u8)
    requires { day ≤ last_day }
    ensures year { result.0 ≡ year_of day }
    ensures month { result.1 ≡ month_of day }
    ensures day { result.2 ≡ day_of_month day }
    ensures year_short { result.0 ≤ 9999 }
    ensures month_short { result.1 ≤ 12 }
    ensures day_short { result.2 ≤ 31 }
{
    let date = date_of_day(day);
    (date.year() as u16, date.month() as u8, date.day() as u8)
}

fn two_digits(n: u32) -> [u8; 2]
    requires { n < 100 }
    ensures { result ≡ two_digits n }
{
    [b'0' + (n / 10) as u8, b'0' + (n % 10) as u8]
}

/// `YYYY-MM-DD` of a day number.
fn date_text(day: u32) -> [u8; 10]
    requires { day ≤ last_day }
    ensures value { result ≡ date_text day }
    ensures stamp { list_all is_stamp_byte result ≡ true }
{
    let (year, month, day) = civil_date(day);
    let [a, b] = two_digits(u32::from(year) / 100);
    let [c, d] = two_digits(u32::from(year) % 100);
    let [e, f] = two_digits(u32::from(month));
    let [g, h] = two_digits(u32::from(day));
    [a, b, c, d, b'-', e, f, b'-', g, h]
}

/// `HH:MM:SS` of a second of the day.
fn time_text(second: u32) -> [u8; 8]
    requires { second < seconds_of_day }
    ensures value { result ≡ time_text second }
    ensures stamp { list_all is_stamp_byte result ≡ true }
{
    let [a, b] = two_digits(second / 3600);
    let [c, d] = two_digits(second / 60 % 60);
    let [e, f] = two_digits(second % 60);
    [a, b, b':', c, d, b':', e, f]
}

/// `YYYY-MM-DDTHH:MM:SS.mmmZ`, the stamp that a packet keeps of a candump line.
#[tactic(auto, unfolding(crate::specs::Stamp::utc_text))]
pub(crate) fn utc_text(moment: Moment) -> [u8; UTC_LEN]
    requires { IsMoment (plain_moment moment) }
    ensures value { result ≡ utc_text (plain_moment moment) }
    ensures stamp { IsTrue (is_stamp result) }
{
    let [a, b, c, d, e, f, g, h, i, j] = date_text((moment.seconds / SECONDS_OF_DAY) as u32);
    let [k, l, m, n, o, p, q, r] = time_text((moment.seconds % SECONDS_OF_DAY) as u32);
    let s = b'0' + (moment.millis / 100) as u8;
    let [t, u] = two_digits(moment.millis % 100);
    [
        a, b, c, d, e, f, g, h, i, j, b'T', k, l, m, n, o, p, q, r, b'.', s, t, u, b'Z',
    ]
}

/// The date of a year, a month and a day, if the calendar has it.
fn date_of(year: u32, month: u32, day: u32) -> Option<Date>
    requires year { year ≤ 9999 }
    requires month { month ≤ 99 }
    requires day { day ≤ 99 }
    ensures some { IsSome result ↔ IsCivilDate (pos year) month day }
    ensures year { IfSome result (λ date. date.year ≡ pos year) }
    ensures month { IfSome result (λ date. date.month ≡ month) }
    ensures day { IfSome result (λ date. date.day ≡ day) }
{
    Date::new(year as i16, month as i8, day as i8).ok()
}

/// The day number of a year, a month and a day, if the calendar has that day and it is 1970 or later.
fn civil_day(year: u32, month: u32, day: u32) -> Option<u32>
    requires year { year ≤ 9999 }
    requires month { month ≤ 99 }
    requires day { day ≤ 99 }
    ensures value { result ≡ some_if (is_date year month day) (day_number year month day) }
    ensures bound { IfSome result (λ n. n ≤ last_day) }
{
    if year < 1970 {
        return None;
    }
    let date = date_of(year, month, day)?;
    Some(day_of_date(date) as u32)
}

/// The number of so many decimal digits from a place on.
fn number_at(place: usize, digits: usize, text: &[u8]) -> Option<u32>
    requires inside { place + digits ≤ length text.now }
    requires few { digits ≤ 4 }
    ensures value { result ≡ number_at place digits text.now }
    ensures bound { IfSome result (λ n. n < 10 ^ digits) }
{
    let number = decimal_number(digits, &text[place..place + digits])?;
    Some(number as u32)
}

fn has_utc_form(text: &[u8]) -> bool
    ensures { result ≡ has_utc_form text.now }
{
    text.len() == UTC_LEN
        && text[4] == b'-'
        && text[7] == b'-'
        && text[10] == b'T'
        && text[13] == b':'
        && text[16] == b':'
        && text[19] == b'.'
        && text[23] == b'Z'
}

/// The day number of `YYYY-MM-DD` at the start of a text.
#[tactic(auto, unfolding(crate::specs::Stamp::day_at_start))]
fn day_at_start(text: &[u8]) -> Option<u32>
    requires { length text.now ≡ utc_len }
    ensures value { result ≡ day_at_start text.now }
    ensures bound { IfSome result (λ n. n ≤ last_day) }
{
    let year = number_at(0, 4, text)?;
    let month = number_at(5, 2, text)?;
    let day = number_at(8, 2, text)?;
    civil_day(year, month, day)
}

/// The second of the day of `HH:MM:SS` after `YYYY-MM-DDT`.
#[tactic(auto, unfolding(crate::specs::Stamp::second_after_date))]
fn second_after_date(text: &[u8]) -> Option<u32>
    requires { length text.now ≡ utc_len }
    ensures value { result ≡ second_after_date text.now }
    ensures bound { IfSome result (λ n. n < seconds_of_day) }
{
    let hour = number_at(11, 2, text)?;
    let minute = number_at(14, 2, text)?;
    let second = number_at(17, 2, text)?;
    if hour < 24 && minute < 60 && second < 60 {
        Some(hour * 3600 + minute * 60 + second)
    } else {
        None
    }
}

/// The moment of a text `YYYY-MM-DDTHH:MM:SS.mmmZ` of a day that the calendar has from 1970 on.
#[tactic(auto, unfolding(crate::specs::Stamp::utc_moment))]
pub(crate) fn read_utc(text: &[u8]) -> Option<Moment>
    ensures value { Finds plain_moment result (utc_moment text.now) }
    ensures range { IfSome result (λ m. IsMoment (plain_moment m)) }
{
    if !has_utc_form(text) {
        return None;
    }
    let day = u64::from(day_at_start(text)?);
    let second = u64::from(second_after_date(text)?);
    let millis = number_at(20, 3, text)?;
    Some(Moment {
        seconds: day * SECONDS_OF_DAY + second,
        millis,
    })
}
