// DATE and DTM, from their bytes: a real day; a time of day, microseconds, the offset.

ghost use Rattle.std.specs.Prelude.{◌≡◌};
ghost use Rattle.value.specs.types.Day.{is_real};
ghost use Rattle.value.specs.mirror.Judges.{is_day, is_moment};

use text_bytes::number::{get16, get32};
use value::{bounds, packed};
use value_dates::day::month_days;
use value_shared::place::byte;

fn is_real(y: u16, m: u8, d: u8) -> bool
    ensures { result ≡ is_real y m d }
{
    if y == 0 {
        return false;
    }
    if bounds::LAST_YEAR < y {
        return false;
    }
    if d == 0 {
        return false;
    }
    d <= month_days(y, m)
}

pub fn is_day(b: &[u8]) -> bool
    ensures { result ≡ is_day b.now }
{
    is_real(get16(b, 0), byte(b, packed::MONTH), byte(b, packed::DAY))
}

// Kept: a test after another, flat, so that each answer of the proof is one line (docs/PROVING.md).
pub fn is_moment(b: &[u8]) -> bool
    ensures { result ≡ is_moment b.now }
{
    if !is_day(b) {
        return false;
    }
    if bounds::LAST_HOUR < byte(b, packed::HOUR) {
        return false;
    }
    if bounds::LAST_MINUTE < byte(b, packed::MINUTE) {
        return false;
    }
    if bounds::LAST_SECOND < byte(b, packed::SECOND) {
        return false;
    }
    if bounds::LAST_MICRO < get32(b, packed::MICROS) {
        return false;
    }
    get16(b, packed::OFFSET) <= bounds::LAST_OFFSET
}
