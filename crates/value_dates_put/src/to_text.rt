// Days and moments. They are made in a buffer that has room for the longest, and copied from there.

ghost use Rattle.std.specs.Prelude.{◌≡◌, ◌+◌, ◌≤◌, length, ◌∷◌};
ghost use Rattle.text.specs.Pasting.{pasted};
ghost use Rattle.value.specs.mirror.Stored.{three_raw, fraction_raw, offset_raw, zone_raw, day_in, clock_in, moment_in};
ghost use Rattle.text.specs.Digits.{padded};
ghost use Rattle.value.specs.Places.{two_signed, fraction_size, zone_size, written_clock, written_fraction, longest_moment};
ghost use Rattle.text.specs.Bytes.{code};

use text_bytes::number::{copy, get16, get32};
use text_digits::decimal::pad;
use value::bounds::ZERO_OFFSET;
use value::written::ZONE_END;
use value::{bounds, packed, written};
use value_shared::place::byte;

// A sign and a number of two digits: so many bytes stand before the second sign, and one more before the third number.
const SIGNED: usize = 3;

const THIRD: usize = SIGNED + 1;

// The digits of a fraction in thousandths and in microseconds.
const MILLI_DIGITS: usize = 3;

const MICRO_DIGITS: usize = 6;

// Three numbers with a sign between each two, the first in w digits, the others in two.
fn put_three(buf: &mut [u8], at: usize, w: usize, a: u16, sign: &[u8], b: u8, c: u8)
    requires { (length sign.now ≡ 1) × (at + (w + two_signed) ≤ length buf.old) }
    ensures { buf.new ≡ pasted buf.old at (three_raw w a sign.now b c) }
{
    pad(buf, at, w, a as u64);
    copy(sign, 0, 1, buf, at + w);
    pad(buf, at + w + 1, 2, b as u64);
    copy(sign, 0, 1, buf, at + w + SIGNED);
    pad(buf, at + w + THIRD, 2, c as u64);
}

// A point and the last k digits of n; the place after them.
fn put_places(buf: &mut [u8], at: usize, k: usize, n: u32) -> usize
    requires { at + (1 + k) ≤ length buf.old }
    ensures { (result ≡ at + (1 + k)) × (buf.new ≡ pasted buf.old at (code "." ∷ padded k n)) }
{
    copy(b".", 0, 1, buf, at);
    pad(buf, at + 1, k, n as u64);
    at + (1 + k)
}

// "The writer .. writes the shortest fraction"; the place after it. What is finer than thousandths no file says: its six digits stand for it.
fn put_fraction(buf: &mut [u8], at: usize, u: u32) -> usize
    requires { at + fraction_size ≤ length buf.old }
    ensures { (result ≡ at + length (fraction_raw u)) × ((result ≤ at + fraction_size) × (buf.new ≡ pasted buf.old at (fraction_raw u))) }
{
    if u == 0 {
        return at;
    }
    if u % bounds::TENTH == 0 {
        return put_places(buf, at, 1, u / bounds::TENTH);
    }
    if u % bounds::HUNDREDTH == 0 {
        return put_places(buf, at, 2, u / bounds::HUNDREDTH);
    }
    if u % bounds::THOUSANDTH == 0 {
        return put_places(buf, at, MILLI_DIGITS, u / bounds::THOUSANDTH);
    }
    put_places(buf, at, MICRO_DIGITS, u)
}

// A sign, hours and minutes.
fn put_offset(buf: &mut [u8], at: usize, sign: &[u8], m: u16)
    requires { (length sign.now ≡ 1) × (at + zone_size ≤ length buf.old) }
    ensures { buf.new ≡ pasted buf.old at (offset_raw sign.now m) }
{
    copy(sign, 0, 1, buf, at);
    pad(buf, at + 1, 2, (m / bounds::HOUR_MINUTES) as u64);
    copy(b":", 0, 1, buf, at + written::ZONE_COLON);
    pad(
        buf,
        at + written::ZONE_MINUTE,
        2,
        (m % bounds::HOUR_MINUTES) as u64,
    );
}

// "offset zero as `Z`"; the place after.
fn put_zone(buf: &mut [u8], at: usize, z: u16) -> usize
    requires { at + zone_size ≤ length buf.old }
    ensures { (result ≡ at + length (zone_raw z)) × ((result ≤ at + zone_size) × (buf.new ≡ pasted buf.old at (zone_raw z))) }
{
    if z == ZERO_OFFSET {
        copy(b"Z", 0, 1, buf, at);
        return at + 1;
    }
    if z < ZERO_OFFSET {
        put_offset(buf, at, b"-", ZERO_OFFSET - z);
        return at + ZONE_END;
    }
    put_offset(buf, at, b"+", z - ZERO_OFFSET);
    at + ZONE_END
}

fn put_day(buf: &mut [u8], b: &[u8])
    requires { written_clock ≤ length buf.old }
    ensures { buf.new ≡ pasted buf.old 0 (day_in b.now) }
{
    put_three(
        buf,
        0,
        written::YEAR_DIGITS,
        get16(b, 0),
        b"-",
        byte(b, packed::MONTH),
        byte(b, packed::DAY),
    );
}

fn put_clock(buf: &mut [u8], b: &[u8])
    requires { written_fraction ≤ length buf.old }
    ensures { buf.new ≡ pasted buf.old written_clock (code "T" ∷ clock_in b.now) }
{
    copy(b"T", 0, 1, buf, written::DATE_END);
    put_three(
        buf,
        written::HOUR,
        2,
        byte(b, packed::HOUR) as u16,
        b":",
        byte(b, packed::MINUTE),
        byte(b, packed::SECOND),
    );
}

pub fn write_day(b: &[u8], out: &mut [u8], at: usize) -> usize
    ensures { (result ≡ length (day_in b.now)) × ((result ≤ written_clock) × (out.new ≡ pasted out.old at (day_in b.now))) }
{
    let mut space = [0u8; written::DATE_END];
    put_day(&mut space, b);
    copy(&space, 0, written::DATE_END, out, at);
    written::DATE_END
}

pub fn write_moment(b: &[u8], out: &mut [u8], at: usize) -> usize
    ensures { (result ≡ length (moment_in b.now)) × ((result ≤ longest_moment) × (out.new ≡ pasted out.old at (moment_in b.now))) }
{
    let mut space = [0u8; written::MOMENT_SIZE];
    put_day(&mut space, b);
    put_clock(&mut space, b);
    let zone = put_fraction(&mut space, written::CLOCK_END, get32(b, packed::MICROS));
    let n = put_zone(&mut space, zone, get16(b, packed::OFFSET));
    copy(&space, 0, n, out, at);
    n
}
