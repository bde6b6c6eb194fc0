// A number in decimal digits, the most significant first. What does not fit is not written.
ghost use Rattle.std.specs.Prelude.{◌≡◌, ◌+◌, ◌-◌, ◌≤◌, ◌<◌, length};
ghost use Rattle.text.specs.Digits.{in_digits, padded, pointed, last_pointed, most_digits, most_pointed};
ghost use Rattle.text.specs.Pasting.{pasted};
ghost use Rattle.text.specs.Bytes.{code};

use text_bytes::number::copy;

// The most digits that a number of 64 bits has.
pub const MOST_DIGITS: usize = 20;

fn digit(n: u64) -> u8
    requires { n < 10 }
    ensures { result ≡ code "0" + n }
{
    b'0' + (n as u8)
}

// How many digits n has.
pub fn width(n: u64) -> usize
    ensures { (result ≡ length (in_digits n)) × (result ≤ most_digits) }
{
    let mut left = n;
    let mut w = 1;
    while 10 <= left {
        left = left / 10;
        w += 1;
    }
    w
}

// How many bytes they are with a point before the last k: a digit at least stands before it.
fn pointed_width(n: u64, k: u8) -> usize
    ensures { (result ≡ length (pointed k n)) × (result ≤ most_pointed) }
{
    let w = width(n);
    if k == 0 {
        return w;
    }
    let places = k as usize;
    if places < w {
        return w + 1;
    }
    places + 2
}

// The last k digits of n, the last one first.
pub fn pad(buf: &mut [u8], at: usize, k: usize, n: u64)
    ensures { buf.new ≡ pasted buf.old at (padded k n) }
{
    if buf.len() < at {
        return;
    }
    if buf.len() - at < k {
        return;
    }
    let mut to = k;
    let mut left = n;
    while 0 < to {
        to -= 1;
        buf[at + to] = digit(left % 10);
        left /= 10;
    }
}

// One digit where nothing stands after a point; else `0.` and k digits.
fn spread_first(buf: &mut [u8], at: usize, n: u64, k: u8) -> usize
    requires { (n < 10) × (at + length (pointed k n) ≤ length buf.old) }
    ensures { (result ≡ at + length (pointed k n)) × (buf.new ≡ pasted buf.old at (pointed k n)) }
{
    if k == 0 {
        buf[at] = digit(n);
        return at + 1;
    }
    copy(b"0.", 0, 2, buf, at);
    pad(buf, at + 2, k as usize, n);
    at + 2 + (k as usize)
}

// The last digit, and before it the point where it alone stands after one.
fn spread_last(buf: &mut [u8], at: usize, d: u64, k: u8) -> usize
    requires { (d < 10) × (at + length (last_pointed k d) ≤ length buf.old) }
    ensures { (result ≡ at + length (last_pointed k d)) × (buf.new ≡ pasted buf.old at (last_pointed k d)) }
{
    if k == 1 {
        buf[at] = b'.';
        buf[at + 1] = digit(d);
        return at + 2;
    }
    buf[at] = digit(d);
    at + 1
}

// How many digits stand after the point in a tenth of it.
fn fewer(k: u8) -> u8
    ensures { result ≡ k - 1 }
{
    if k == 0 {
        return 0;
    }
    k - 1
}

// The digits of n from a place on, a point before the last k, where there is room for them; the place after them.
fn spread(buf: &mut [u8], at: usize, n: u64, k: u8) -> usize
    requires { at + length (pointed k n) ≤ length buf.old }
    ensures { (result ≡ at + length (pointed k n)) × (buf.new ≡ pasted buf.old at (pointed k n)) }
{
    if n < 10 {
        return spread_first(buf, at, n, k);
    }
    let next = spread(buf, at, n / 10, fewer(k));
    spread_last(buf, next, n % 10, k)
}

// Writes the digits of n at a place with a point before the last k, and answers how many bytes they are.
pub fn put_pointed(buf: &mut [u8], at: usize, n: u64, k: u8) -> usize
    ensures { (result ≡ length (pointed k n)) × ((result ≤ most_pointed) × (buf.new ≡ pasted buf.old at (pointed k n))) }
{
    let w = pointed_width(n, k);
    if buf.len() < at {
        return w;
    }
    if buf.len() - at < w {
        return w;
    }
    spread(buf, at, n, k);
    w
}

// Writes the digits of n at a place, and answers how many there are.
pub fn put(buf: &mut [u8], at: usize, n: u64) -> usize
    ensures { (result ≡ length (in_digits n)) × ((result ≤ most_digits) × (buf.new ≡ pasted buf.old at (in_digits n))) }
{
    put_pointed(buf, at, n, 0)
}
