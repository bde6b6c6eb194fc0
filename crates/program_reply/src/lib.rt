// The lines that answer a feed: the line of an answer, the line of a broken feed. A line is written whole from the start of a buffer on, or not at all.
#![tactic(auto)]

ghost use Rattle.std.specs.Prelude.{◌≡◌, ◌+◌, ◌≤◌, length};
ghost use Rattle.text.specs.Pasting.{pasted};
ghost use Rattle.program_reply.specs.Reply.{answer_line, pair_line, broken_line, Put, longest_answer, longest_pair, longest_broken};

use answer::Answer;
use program_line::answer_line::{ROOM, put_numbers};
use program_line::hex;
use text_bytes::number::copy;
use text_digits::decimal;

const BROKEN: [u8; 20] = *b"feed broken at case ";

// Its most bytes.
const BROKEN_LINE: usize = BROKEN.len() + decimal::MOST_DIGITS + 1;

// What stands beside the numbers and the digits in the line of an answer: a blank and LF; with two parts a slash, too.
const ANSWER_MARKS: usize = 2;

const PAIR_MARKS: usize = 3;

// The line of an answer into a buffer that holds it; how many bytes it is.
fn spread_answer(a: Answer, s: &[u8], out: &mut [u8]) -> usize
    requires { length (answer_line a s.now) ≤ length out.old }
    ensures { (result ≡ length (answer_line a s.now)) × (out.new ≡ pasted out.old 0 (answer_line a s.now)) }
{
    let n = put_numbers(out, 0, a);
    copy(b" ", 0, 1, out, n);
    hex::put(s, out, n + 1);
    let end = n + 1 + s.len() + s.len();
    copy(b"\n", 0, 1, out, end);
    end + 1
}

// Writes `CODE ROW PLACE HEX` and LF from the start of a buffer on, HEX being the bytes of s, and answers how many bytes it is; none
// where it does not fit, and then nothing is changed. It is at most 64 bytes and two for each byte of s.
pub fn put_answer(a: Answer, s: &[u8], out: &mut [u8]) -> Option<usize>
    ensures put { Put (answer_line a s.now) out.old result out.new }
    ensures most { length (answer_line a s.now) ≤ longest_answer + (length s.now + length s.now) }
{
    let n = put_numbers(&mut [0u8; ROOM], 0, a) + ANSWER_MARKS;
    if out.len() < n || (out.len() - n) / 2 < s.len() {
        return None;
    }
    Some(spread_answer(a, s, out))
}

// The line of an answer with two parts into a buffer that holds it; how many bytes it is.
fn spread_pair(a: Answer, s: &[u8], t: &[u8], out: &mut [u8]) -> usize
    requires { length (pair_line a s.now t.now) ≤ length out.old }
    ensures { (result ≡ length (pair_line a s.now t.now)) × (out.new ≡ pasted out.old 0 (pair_line a s.now t.now)) }
{
    let blank = put_numbers(out, 0, a);
    copy(b" ", 0, 1, out, blank);
    hex::put(s, out, blank + 1);
    let mark = blank + 1 + s.len() + s.len();
    copy(b"/", 0, 1, out, mark);
    hex::put(t, out, mark + 1);
    let end = mark + 1 + t.len() + t.len();
    copy(b"\n", 0, 1, out, end);
    end + 1
}

// Writes `CODE ROW PLACE HEX/HEX` and LF from the start of a buffer on, for two slices, and answers how many bytes it is; none where it
// does not fit, and then nothing is changed. It is at most 65 bytes and two for each byte of the slices.
pub fn put_pair(a: Answer, s: &[u8], t: &[u8], out: &mut [u8]) -> Option<usize>
    ensures put { Put (pair_line a s.now t.now) out.old result out.new }
    ensures most { length (pair_line a s.now t.now) ≤ longest_pair + (length s.now + length s.now) + (length t.now + length t.now) }
{
    let n = put_numbers(&mut [0u8; ROOM], 0, a) + PAIR_MARKS;
    if out.len() < n || (out.len() - n) / 2 < s.len() + t.len() {
        return None;
    }
    Some(spread_pair(a, s, t, out))
}

// The line of a broken feed into a buffer that holds it; how many bytes it is.
fn spread_broken(n: u64, buf: &mut [u8]) -> usize
    requires { longest_broken ≤ length buf.old }
    ensures { (result ≡ length (broken_line n)) × ((result ≤ longest_broken) × (buf.new ≡ pasted buf.old 0 (broken_line n))) }
{
    copy(&BROKEN, 0, BROKEN.len(), buf, 0);
    let end = BROKEN.len() + decimal::put(buf, BROKEN.len(), n);
    copy(b"\n", 0, 1, buf, end);
    end + 1
}

// Writes `feed broken at case N` and LF from the start of a buffer on, and answers how many bytes it is; none where it does not fit,
// and then nothing is changed. It is at most 41 bytes.
pub fn put_broken(n: u64, out: &mut [u8]) -> Option<usize>
    ensures put { Put (broken_line n) out.old result out.new }
    ensures most { length (broken_line n) ≤ longest_broken }
{
    let mut space = [0u8; BROKEN_LINE];
    let w = spread_broken(n, &mut space);
    copy(&space, 0, w, out, 0);
    (w <= out.len()).then_some(w)
}
