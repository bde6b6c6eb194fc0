// DTM: the parts after the day.

ghost use Rattle.std.specs.Prelude.{◌≡◌, drop, ◌≤◌};
ghost use Rattle.list.specs.Listing.{dtm};
ghost use Rattle.value.specs.mirror.Digits.{FractionAt, by_last, ZoneAt, ClockAt, MidnightAt};
ghost use Rattle.value.specs.types.Day.{Real};
ghost use Rattle.value.specs.Judged.{FormedAny};
ghost use Rattle.value.specs.Places.{written_fraction, written_zone};

use crate::day::{day_at, mark, next_day, one, two};
use text::part::begins;
use value::judged::{Day, Judged, Moment};
use value::written::CLOCK_END;
use value::{bounds, written};

// A fraction of a second in microseconds, and the place after it.
#[derive(Clone, Copy)]
struct Split {
    micros: u32,
    end: usize,
}

// No fraction.
const BARE: Split = Split {
    micros: 0,
    end: CLOCK_END,
};

// What a fraction is whose last digit this is: none, where it is zero.
fn ended(last: u8, micros: u32, end: usize) -> Split
    ensures { (result.micros ≡ by_last last micros 0) × (result.end ≡ by_last last end written_fraction) }
{
    if last == 0 {
        return BARE;
    }
    Split { micros, end }
}

// None, or a point and one to three digits, the last not zero, at 19. Where the digits are none or end in zero there is none, and no zone is found there either.
fn fraction(t: &[u8]) -> Split
    ensures { FractionAt (drop written_fraction t.now) result.micros (drop result.end t.now) × (result.end ≤ written_zone) }
{
    if !mark(t, CLOCK_END, b'.') {
        return BARE;
    }
    let Some(a) = one(t, written::TENTHS) else {
        return BARE;
    };
    let tenths = u32::from(a);
    let Some(b) = one(t, written::HUNDREDTHS) else {
        return ended(a, tenths * bounds::TENTH, written::HUNDREDTHS);
    };
    let hundredths = tenths * 10 + u32::from(b);
    let Some(c) = one(t, written::THOUSANDTHS) else {
        return ended(b, hundredths * bounds::HUNDREDTH, written::THOUSANDTHS);
    };
    let thousandths = hundredths * 10 + u32::from(c);
    ended(c, thousandths * bounds::THOUSANDTH, written::FRACTION_END)
}

// `Z` or a sign with `hh:mm`, up to the end: offset minutes plus 840.
fn zone(t: &[u8], at: usize) -> Option<u16>
    requires { at ≤ written_zone }
    ensures { ZoneAt (drop at t.now) result }
{
    if t.len() == at + 1 {
        if mark(t, at, b'Z') {
            return Some(bounds::ZERO_OFFSET);
        }
        return None;
    }
    if t.len() != at + written::ZONE_END {
        return None;
    }
    let h = two(t, at + 1)?;
    let m = two(t, at + written::ZONE_MINUTE)?;
    if bounds::LAST_ZONE_HOUR < h {
        return None;
    }
    if bounds::LAST_MINUTE < m {
        return None;
    }
    if !mark(t, at + written::ZONE_COLON, b':') {
        return None;
    }
    let n = u16::from(h) * bounds::HOUR_MINUTES + u16::from(m);
    if bounds::ZERO_OFFSET < n {
        return None;
    }
    if mark(t, at, b'+') {
        return Some(bounds::ZERO_OFFSET + n);
    }
    if mark(t, at, b'-') {
        return Some(bounds::ZERO_OFFSET - n);
    }
    None
}

// The parts after a day that was read.
fn clocked(t: &[u8], date: Day) -> Option<Judged>
    ensures { ClockAt t.now date.year date.month date.day result }
{
    let hour = two(t, written::HOUR)?;
    let minute = two(t, written::MINUTE)?;
    let second = two(t, written::SECOND)?;
    if bounds::LAST_HOUR < hour {
        return None;
    }
    if bounds::LAST_MINUTE < minute {
        return None;
    }
    if bounds::LAST_SECOND < second {
        return None;
    }
    if !mark(t, written::DATE_END, b'T') {
        return None;
    }
    if !mark(t, written::FIRST_COLON, b':') {
        return None;
    }
    if !mark(t, written::SECOND_COLON, b':') {
        return None;
    }
    let f = fraction(t);
    let offset = zone(t, f.end)?;
    Some(Judged::Moment(Moment {
        year: date.year,
        month: date.month,
        day: date.day,
        hour,
        minute,
        second,
        micros: f.micros,
        offset,
    }))
}

// 24:00:00 on a day is 00:00:00 on the next; the zone stands at 19.
fn midnight(t: &[u8], date: Day) -> Option<Judged>
    requires { Real date.year date.month date.day }
    ensures { MidnightAt (drop written_fraction t.now) date.year date.month date.day result }
{
    let offset = zone(t, CLOCK_END)?;
    let next = next_day(date)?;
    Some(Judged::Moment(Moment {
        year: next.year,
        month: next.month,
        day: next.day,
        hour: 0,
        minute: 0,
        second: 0,
        micros: 0,
        offset,
    }))
}

// The moment that a text is.
pub fn moment(t: &[u8]) -> Option<Judged>
    ensures { FormedAny dtm t.now result }
{
    let date = day_at(t)?;
    if begins(t, written::DATE_END, b"T24:00:00") {
        return midnight(t, date);
    }
    clocked(t, date)
}
