// AMT and DATE as they are mostly written: without blanks, signs and many digits.

ghost use Rattle.list.specs.Listing.{amt, date};
ghost use Rattle.value.specs.Kind.{code};
ghost use Rattle.value_leaf.specs.Leafed.{Leafed};
ghost use Rattle.value_levels.specs.mirror.Levels.{Leveled};

use list::table;
use value::bounds::MOST_SCALE;
use value::judged::Judged;
use value::packed::{AMOUNT_SIZE, DATE_SIZE};
use value::written::DATE_END;
use value_dates::day::day;
use value_leaf::found::{Found, tell};
use value_leaf::slow::plain;
use value_levels::class::{DIGIT, run};
use value_levels::table::Levels;

const AMT: u8 = table::AMT as u8;

const DATE: u8 = table::DATE as u8;

// So many digits before the point are taken here; with the point, so many after them as a scale may be.
const DIGITS: usize = 12;

const PLACES: usize = MOST_SCALE as usize + 1;

// A day and the `<` after it.
const DAY_ENDED: usize = DATE_END + 1;

// At most twelve digits, and at most five after a point: whatever zeros there are, neither scale nor coefficient is too large.
pub(crate) fn money(levels: &Levels, k: usize, s: &[u8], at: usize) -> Found
    ensures { Leveled levels.now → Leafed (code amt) k s.now at result }
{
    let dot = run(levels, s, at, DIGIT);
    if s.len() <= dot {
        return plain(AMT, k, s, at);
    }
    let n = dot - at;
    if n == 0 {
        return plain(AMT, k, s, at);
    }
    if DIGITS < n {
        return plain(AMT, k, s, at);
    }
    if s[dot] == b'<' {
        return tell(dot, AMOUNT_SIZE);
    }
    if s[dot] != b'.' {
        return plain(AMT, k, s, at);
    }
    let end = run(levels, s, dot + 1, DIGIT);
    if s.len() <= end {
        return plain(AMT, k, s, at);
    }
    if s[end] != b'<' {
        return plain(AMT, k, s, at);
    }
    if PLACES < end - dot {
        return plain(AMT, k, s, at);
    }
    tell(end, AMOUNT_SIZE)
}

// Ten bytes and then `<`.
pub(crate) fn dated(k: usize, s: &[u8], at: usize) -> Found
    ensures { Leafed (code date) k s.now at result }
{
    if s.len() <= at {
        return plain(DATE, k, s, at);
    }
    if s.len() - at < DAY_ENDED {
        return plain(DATE, k, s, at);
    }
    let end = at + DATE_END;
    if s[end] != b'<' {
        return plain(DATE, k, s, at);
    }
    match day(&s[at..end]) {
        Some(Judged::Day(_)) => tell(end, DATE_SIZE),
        _ => plain(DATE, k, s, at),
    }
}
