// DATE: digits by two, and real days.

ghost use Rattle.std.specs.Prelude.{◌≡◌, drop};
ghost use Rattle.value.specs.types.Day.{month_days, Real};
ghost use Rattle.value.specs.mirror.Digits.{One, Two, Mark, DayAt, NextAt};
ghost use Rattle.list.specs.Listing.{date};
ghost use Rattle.value.specs.Judged.{FormedAny};

use text::class::is_digit;
use value::bounds::{LAST_MONTH, LAST_YEAR};
use value::judged::{Day, Judged};
use value::written;

// How many days a month of a year has, 0 where there is no such month.
pub fn month_days(y: u16, m: u8) -> u8
    ensures { result ≡ month_days y m }
{
    if m == 0 {
        return 0;
    }
    if LAST_MONTH < m {
        return 0;
    }
    match m {
        2 => {
            if y % 4 == 0 {
                if y % 100 == 0 {
                    if y % 400 == 0 {
                        return 29;
                    }
                    return 28;
                }
                return 29;
            }
            28
        }
        4 | 6 | 9 | 11 => 30,
        _ => 31,
    }
}

// The years that the first two digits of one count.
const CENTURY: u16 = 100;

// The number of one digit.
pub(crate) fn one(s: &[u8], at: usize) -> Option<u8>
    ensures { One (drop at s.now) result }
{
    if s.len() <= at {
        return None;
    }
    if !is_digit(s[at]) {
        return None;
    }
    Some(s[at] - b'0')
}

// The number of two digits.
pub(crate) fn two(s: &[u8], at: usize) -> Option<u8>
    ensures { Two (drop at s.now) result }
{
    let x = one(s, at)?;
    let y = one(s, at + 1)?;
    Some(x * 10 + y)
}

// Whether this byte stands there.
pub(crate) fn mark(s: &[u8], at: usize, b: u8) -> bool
    ensures { Mark (drop at s.now) b result }
{
    at < s.len() && s[at] == b
}

// The day that a text begins with.
pub(crate) fn day_at(t: &[u8]) -> Option<Day>
    ensures { DayAt t.now result }
{
    let hi = two(t, 0)?;
    let lo = two(t, 2)?;
    let month = two(t, written::MONTH)?;
    let day = two(t, written::DAY)?;
    if !mark(t, written::FIRST_DASH, b'-') {
        return None;
    }
    if !mark(t, written::SECOND_DASH, b'-') {
        return None;
    }
    let year = u16::from(hi) * CENTURY + u16::from(lo);
    if year == 0 {
        return None;
    }
    if day == 0 {
        return None;
    }
    if month_days(year, month) < day {
        return None;
    }
    Some(Day { year, month, day })
}

// The day after a real day; after 9999-12-31 there is none.
pub(crate) fn next_day(date: Day) -> Option<Day>
    requires { Real date.year date.month date.day }
    ensures { NextAt date.year date.month date.day result }
{
    let Day { year, month, day } = date;
    if day < month_days(year, month) {
        return Some(Day {
            year,
            month,
            day: day + 1,
        });
    }
    if month < LAST_MONTH {
        return Some(Day {
            year,
            month: month + 1,
            day: 1,
        });
    }
    if year < LAST_YEAR {
        return Some(Day {
            year: year + 1,
            month: 1,
            day: 1,
        });
    }
    None
}

// The day that a text is.
pub fn day(t: &[u8]) -> Option<Judged>
    ensures { FormedAny date t.now result }
{
    if t.len() != written::DATE_END {
        return None;
    }
    Some(Judged::Day(day_at(t)?))
}
