// Numbers as big-endian bytes, and parts of slices, written into a lent buffer. Where they do not fit, nothing is changed.

ghost use Rattle.std.specs.Prelude.{◌≡◌, ◌≤◌, ◌<◌, ◌^◌, length, take, drop};
ghost use Rattle.std.proofs.Math.Seq.{slice};
ghost use Rattle.text.specs.Numbers.{big_endian, number};
ghost use Rattle.text.specs.Pasting.{pasted};

use text::part::{part_of, rest};
use text::width::{WIDTH_16, WIDTH_32, WIDTH_64};

// Bytes written to a place, where there is room for all of them; the compiler knows how many.
fn paste<const N: usize>(dst: &mut [u8], at: usize, bytes: &[u8; N])
    ensures { dst.new ≡ pasted dst.old at bytes.now }
{
    if dst.len() < at {
        return;
    }
    if dst.len() - at < N {
        return;
    }
    dst[at..at + N].copy_from_slice(bytes);
}

// The same of any number of bytes. They go one by one: most are few, and `copy_from_slice` would be a call of the C library's `memmove` for each,
// which the archive for C needs for nothing else.
fn paste_all(dst: &mut [u8], at: usize, bytes: &[u8])
    ensures { dst.new ≡ pasted dst.old at bytes.now }
{
    if dst.len() < at {
        return;
    }
    if dst.len() - at < bytes.len() {
        return;
    }
    for (k, byte) in bytes.iter().enumerate() {
        dst[at + k] = *byte;
    }
}

pub fn put16(dst: &mut [u8], at: usize, n: u16)
    ensures { dst.new ≡ pasted dst.old at (big_endian 2 n) }
{
    paste(dst, at, &u16::to_be_bytes(n));
}

pub fn put32(dst: &mut [u8], at: usize, n: u32)
    ensures { dst.new ≡ pasted dst.old at (big_endian 4 n) }
{
    paste(dst, at, &u32::to_be_bytes(n));
}

pub fn put64(dst: &mut [u8], at: usize, n: u64)
    ensures { dst.new ≡ pasted dst.old at (big_endian 8 n) }
{
    paste(dst, at, &u64::to_be_bytes(n));
}

// The number that bytes write.
fn number_of(s: &[u8]) -> u64
    requires { length s.now ≤ 8 }
    ensures is { result ≡ number s.now }
    ensures fits { result < 256 ^ length s.now }
{
    let mut r = 0;
    for x in s {
        r = r * 256 + u64::from(*x);
    }
    r
}

// The number that W bytes write, or as many as there are. Where they are all there, the compiler knows how many.
fn get<const W: usize>(s: &[u8], at: usize) -> u64
    requires { W ≤ 8 }
    ensures is { result ≡ number (take W (drop at s.now)) }
    ensures fits { result < 256 ^ W }
{
    let there = rest(s, at);
    match there.first_chunk::<W>() {
        Some(all) => number_of(all),
        None => number_of(there),
    }
}

pub fn get16(s: &[u8], at: usize) -> u16
    ensures { result ≡ number (take 2 (drop at s.now)) }
{
    get::<WIDTH_16>(s, at) as u16
}

pub fn get32(s: &[u8], at: usize) -> u32
    ensures { result ≡ number (take 4 (drop at s.now)) }
{
    get::<WIDTH_32>(s, at) as u32
}

pub fn get64(s: &[u8], at: usize) -> u64
    ensures { result ≡ number (take 8 (drop at s.now)) }
{
    get::<WIDTH_64>(s, at)
}

// The part of src from a to b, written to a place of dst.
pub fn copy(src: &[u8], a: usize, b: usize, dst: &mut [u8], at: usize)
    ensures { dst.new ≡ pasted dst.old at (slice a b src.now) }
{
    paste_all(dst, at, part_of(src, a, b));
}
