// An answer as the programs write it.
ghost use Rattle.std.specs.Prelude.{◌≡◌, ◌∷◌, ◌+◌, ◌≤◌, length, take};
ghost use Rattle.text.specs.Digits.{in_digits};
ghost use Rattle.text.specs.Pasting.{pasted};
ghost use Rattle.program_line.specs.Line.{numbers, refusal, longest_next, longest_numbers, longest_refusal};
ghost use Rattle.text.specs.Bytes.{code};

use answer::Answer;
use text_bytes::number::copy;
use text_digits::decimal::{MOST_DIGITS, put};

const REFUSED: [u8; 8] = *b"refused ";

// The most bytes of three numbers with a blank between each two, and of the line of a refusal.
const NUMBERS: usize = 3 * MOST_DIGITS + 2;

pub const REFUSAL: usize = REFUSED.len() + NUMBERS + 1;

// Room for the three numbers.
pub const ROOM: usize = 64;

// A blank at a place, and a number of at most twenty digits after it; how many bytes they are.
fn spread_next(buf: &mut [u8], at: usize, n: u64) -> usize
    requires { at + longest_next ≤ length buf.old }
    ensures { (result ≡ 1 + length (in_digits n)) × ((result ≤ longest_next) × (buf.new ≡ pasted buf.old at (code " " ∷ in_digits n))) }
{
    copy(b" ", 0, 1, buf, at);
    1 + put(buf, at + 1, n)
}

// The three numbers, with a blank between each two, from the start of the buffer on; how many bytes they are.
fn spread_numbers(buf: &mut [u8], a: Answer) -> usize
    requires { longest_numbers ≤ length buf.old }
    ensures { (result ≡ length (numbers a)) × ((result ≤ longest_numbers) × (buf.new ≡ pasted buf.old 0 (numbers a))) }
{
    let code = put(buf, 0, a.code as u64);
    let row = code + spread_next(buf, code, a.row as u64);
    row + spread_next(buf, row, a.place as u64)
}

// Writes `CODE ROW PLACE` at a place, or nothing where it does not fit, and answers how many bytes it is.
pub fn put_numbers(out: &mut [u8], at: usize, a: Answer) -> usize
    ensures { (result ≡ length (numbers a)) × ((result ≤ longest_numbers) × (out.new ≡ pasted out.old at (numbers a))) }
{
    let mut space = [0u8; ROOM];
    let n = spread_numbers(&mut space, a);
    copy(&space, 0, n, out, at);
    n
}

// The line of a refusal, from the start of the buffer on; how many bytes it is.
fn spread_refusal(buf: &mut [u8], a: Answer) -> usize
    requires { longest_refusal ≤ length buf.old }
    ensures { (result ≡ length (refusal a)) × ((result ≤ longest_refusal) × (buf.new ≡ pasted buf.old 0 (refusal a))) }
{
    copy(&REFUSED, 0, REFUSED.len(), buf, 0);
    let end = REFUSED.len() + put_numbers(buf, REFUSED.len(), a);
    copy(b"\n", 0, 1, buf, end);
    end + 1
}

// Writes `refused CODE ROW PLACE` and LF at a place, or nothing where it does not fit, and answers how many bytes it is.
pub fn put_refusal(out: &mut [u8], at: usize, a: Answer) -> usize
    ensures { (result ≡ length (refusal a)) × ((result ≤ longest_refusal) × (out.new ≡ pasted out.old at (refusal a))) }
{
    let mut space = [0u8; REFUSAL];
    let n = spread_refusal(&mut space, a);
    copy(&space, 0, n, out, at);
    n
}
