// Bytes at a place as one number, the first the least, with zeros after the end; and two such numbers compared under masks.
#![tactic(auto)]

ghost use Rattle.std.specs.Prelude.{◌≡◌, ◌&&◌, ◌+◌, ◌≤◌, ◌<◌, eqb, length, get_or};
ghost use Rattle.std.specs.Int.Bits.{bit_and};
ghost use Rattle.text.specs.Little.{Loaded};

use text::chunk::{FIFTH, joined};
use text::part::rest;
use text::width::{WIDTH_32, WIDTH_64};

// Four neighbouring bytes, which the compiler reads at once.
fn load4(s: &[u8], at: usize) -> u64
    requires { at + 4 ≤ length s.now }
    ensures { Loaded 4 s.now at result × (result < 4294967296) }
{
    let b = at + 1;
    let c = b + 1;
    joined(s[at], s[b], s[c], s[c + 1])
}

// Eight.
fn load8(s: &[u8], at: usize) -> u64
    requires { at + 8 ≤ length s.now }
    ensures { Loaded 8 s.now at result }
{
    load4(s, at) + FIFTH * load4(s, at + WIDTH_32)
}

// The byte that stands so many behind a place.
fn near(s: &[u8], at: usize, j: usize) -> u8
    ensures { result ≡ get_or s.now (at + j) 0 }
{
    rest(s, at).get(j).copied().unwrap_or(0)
}

fn near4(s: &[u8], at: usize, j: usize) -> u64
    requires { j ≤ 12 }
    ensures { Loaded 4 s.now (at + j) result × (result < 4294967296) }
{
    let b = j + 1;
    let c = b + 1;
    joined(
        near(s, at, j),
        near(s, at, b),
        near(s, at, c),
        near(s, at, c + 1),
    )
}

pub fn four(s: &[u8], at: usize) -> u64
    ensures { Loaded 4 s.now at result }
{
    if s.len() < at {
        return 0;
    }
    if WIDTH_32 <= s.len() - at {
        return load4(s, at);
    }
    near4(s, at, 0)
}

// Eight bytes near the end, from so many behind a place on.
fn near8(s: &[u8], at: usize, j: usize) -> u64
    requires { j ≤ 8 }
    ensures { Loaded 8 s.now (at + j) result }
{
    near4(s, at, j) + FIFTH * near4(s, at, j + WIDTH_32)
}

// The eight bytes that stand so many behind a place. It asks for sixteen from the place on, so that for a tag one test does for both eights.
fn eight_behind(s: &[u8], at: usize, j: usize) -> u64
    requires { j ≤ 8 }
    ensures { Loaded 8 s.now (at + j) result }
{
    if s.len() < at {
        return 0;
    }
    if WIDTH_64 + WIDTH_64 <= s.len() - at {
        return load8(s, at + j);
    }
    near8(s, at, j)
}

// The eight bytes at a place.
pub fn eight(s: &[u8], at: usize) -> u64
    ensures { Loaded 8 s.now at result }
{
    eight_behind(s, at, 0)
}

// The eight bytes after these.
pub fn eight_after(s: &[u8], at: usize) -> u64
    ensures { Loaded 8 s.now (at + 8) result }
{
    eight_behind(s, at, WIDTH_64)
}

// Whether x under the mask m is a, and y under n is b. Both are compared at once: which of them differs is nothing to jump by.
pub fn equal_under(x: u64, m: u64, a: u64, y: u64, n: u64, b: u64) -> bool
    ensures { result ≡ (eqb (bit_and x m) a && eqb (bit_and y n) b) }
{
    (x & m == a) & (y & n == b)
}
