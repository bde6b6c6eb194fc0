// The bytes of DATE and DTM, whole or not at all, and how many there are.

ghost use Rattle.std.specs.Prelude.{◌+◌, ◌≤◌, ◌≡◌, [], ◌∷◌, length};
ghost use Rattle.value.specs.Value.{bytes, day};
ghost use Rattle.value.specs.given.Wrote.{Wrote};
ghost use Rattle.text.specs.Pasting.{pasted};
ghost use Rattle.value.specs.Judged.{moment_value};
ghost use Rattle.value.specs.Places.{clock_size};

use text_bytes::number::{put16, put32};
use value::judged::Moment;
use value::packed;
use value::packed::{DATE_SIZE, MOMENT_SIZE};
use value_shared::place::{has_room, place};

pub fn write_day(out: &mut [u8], at: usize, y: u16, m: u8, d: u8) -> usize
    ensures { Wrote out.old at (bytes (day y m d)) result out.new }
{
    if !has_room(out.len(), at, DATE_SIZE) {
        return DATE_SIZE;
    }
    put16(out, at, y);
    place(out, at + packed::MONTH, m);
    place(out, at + packed::DAY, d);
    DATE_SIZE
}

// Hour, minute and second.
fn put_clock(out: &mut [u8], at: usize, h: u8, m: u8, s: u8)
    requires { at + clock_size ≤ length out.old }
    ensures { out.new ≡ pasted out.old at (h ∷ m ∷ s ∷ []) }
{
    place(out, at, h);
    place(out, at + 1, m);
    place(out, at + 2, s);
}

pub fn write_moment(out: &mut [u8], at: usize, m: Moment) -> usize
    ensures { Wrote out.old at (bytes (moment_value m)) result out.new }
{
    if !has_room(out.len(), at, MOMENT_SIZE) {
        return MOMENT_SIZE;
    }
    write_day(out, at, m.year, m.month, m.day);
    put_clock(out, at + packed::HOUR, m.hour, m.minute, m.second);
    put32(out, at + packed::MICROS, m.micros);
    put16(out, at + packed::OFFSET, m.offset);
    MOMENT_SIZE
}
