// AMT: one pass over the digits, a function for each stage, each the tail call of the one before.

ghost use Rattle.std.specs.Prelude.{◌^◌, ◌≤◌, ◌<◌, ◌+◌, ◌≡◌};
ghost use Rattle.value.specs.mirror.Reading.{found, answer, frac_of, whole_of, signed_of};
ghost use Rattle.list.specs.Listing.{amt};
ghost use Rattle.value.specs.Judged.{FormedAny};

use text::class::is_digit;
use value::bounds::{MOST_SCALE, NUMBER_LIMIT};
use value::judged::Judged;

// Powers of ten, of which an amount's places after the point need five.
const TEN: u64 = 10;

const TEN_2: u64 = 10 * TEN;

const TEN_3: u64 = 10 * TEN_2;

const TEN_4: u64 = 10 * TEN_3;

const TEN_5: u64 = 10 * TEN_4;

// The last of these places, and the one before it, from 0.
const LAST_PLACE: usize = MOST_SCALE as usize - 1;

const FOURTH_PLACE: usize = LAST_PLACE - 1;

fn finish(neg: bool, c: u64, k: u8) -> Option<Judged>
    requires { (c < 10 ^ 18) × (k ≤ 5) }
    ensures { result ≡ answer (found neg c k) }
{
    if neg && c != 0 {
        return None;
    }
    Some(Judged::Amount(c, k))
}

// Ten to the power of z + 1, of which there are five.
fn shift(z: usize) -> u64
    requires { z < 5 }
    ensures { (result ≡ 10 ^ (z + 1)) × ((10 ≤ result) × (result ≤ 10 ^ 5)) }
{
    match z {
        0 => TEN,
        1 => TEN_2,
        2 => TEN_3,
        FOURTH_PLACE => TEN_4,
        _ => TEN_5,
    }
}

// After the point: z zeros were read after c over 10^k. Zeros without end cost nothing but time.
fn frac(t: &[u8], neg: bool, whole: u64) -> Option<Judged>
    requires { whole < 10 ^ 18 }
    ensures { result ≡ answer (frac_of neg whole 0 whole 0 t.now) }
{
    let mut c = whole;
    let mut k: usize = 0;
    let mut z: usize = 0;
    for b in t {
        if !is_digit(*b) {
            return None;
        }
        if *b == b'0' {
            z += 1;
            continue;
        }
        if LAST_PLACE < k + z {
            return None;
        }
        let p = shift(z);
        if NUMBER_LIMIT / p <= c {
            return None;
        }
        c = c * p + u64::from(*b - b'0');
        k = k + z + 1;
        z = 0;
    }
    finish(neg, c, k as u8)
}

// Digits before the point.
fn whole(t: &[u8], neg: bool) -> Option<Judged>
    ensures { result ≡ answer (whole_of neg 0 t.now) }
{
    let mut c: u64 = 0;
    for (i, b) in t.iter().enumerate() {
        if !is_digit(*b) {
            if *b == b'.' {
                return frac(&t[i + 1..], neg, c);
            }
            return None;
        }
        if NUMBER_LIMIT / 10 <= c {
            return None;
        }
        c = c * 10 + u64::from(*b - b'0');
    }
    finish(neg, c, 0)
}

// After the sign: a digit, or a point with a digit after it.
fn signed(t: &[u8], neg: bool) -> Option<Judged>
    ensures { result ≡ answer (signed_of neg t.now) }
{
    let (first, rest) = t.split_first()?;
    if is_digit(*first) {
        return whole(t, neg);
    }
    if *first != b'.' {
        return None;
    }
    if rest.is_empty() {
        return None;
    }
    frac(rest, neg, 0)
}

// The amount that a text without blanks around it writes.
pub fn amount(t: &[u8]) -> Option<Judged>
    ensures { FormedAny amt t.now result }
{
    let (first, rest) = t.split_first()?;
    if *first == b'+' {
        return signed(rest, false);
    }
    if *first == b'-' {
        return signed(rest, true);
    }
    signed(t, false)
}
