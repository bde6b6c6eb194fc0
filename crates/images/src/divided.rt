// What the program writes: a run divided with the reader that holds its place.
ghost use Rattle.std.specs.Prelude.{◌≡◌, ◌+◌, ◌≤◌, length, take};
ghost use Rattle.io.specs.Counts.{IsPrefixLen};
ghost use Rattle.text.specs.Pasting.{pasted};
ghost use Rattle.images.specs.Divides.{Taken, image_line, Divides, longest_line, all_lines};

use answer::Answer;
use image_first::reading;
use image_hold::held::next_at;
use program_line::answer_line::{REFUSAL, put_refusal};
use text_bytes::number::copy;
use text_digits::decimal::put;

// A run with an image in it has at most 1,048,576 bytes, no image is shorter than six and no line of one longer than 24: so there is room for
// every line, and for that of a refusal after them.
pub(crate) const ROOM: usize = 4 * Answer::LIMIT + REFUSAL;

// Writes an image's line at a place, its three numbers of at most twenty digits each; the place after it.
fn put_image(out: &mut [u8], to: usize, place: usize, size: usize, count: usize) -> usize
    requires { to + longest_line ≤ length out.old }
    ensures { (result ≡ to + length (image_line place size count)) × (out.new ≡ pasted out.old to (image_line place size count)) }
{
    let blank = to + put(out, to, place as u64);
    copy(b" ", 0, 1, out, blank);
    let second = blank + 1 + put(out, blank + 1, size as u64);
    copy(b" ", 0, 1, out, second);
    let end = second + 1 + put(out, second + 1, count as u64);
    copy(b"\n", 0, 1, out, end);
    end + 1
}

// How many items the reader takes of a run.
fn taken(run: &[u8]) -> usize
    ensures { Taken run.now result }
{
    match reading(run) {
        Ok(image) => image.count,
        Err(refusal) => refusal.count,
    }
}

// Puts what is written for a run to the start of a buffer, and answers how many bytes it is.
pub(crate) fn divided(run: &[u8], out: &mut [u8]) -> usize
    requires { length out.old ≡ all_lines }
    ensures is { Divides run.now 0 (take result out.new) }
    ensures within { IsPrefixLen result out.new }
{
    // Kept: `next_at` says at each turn where the next image begins, so no range and no iterator knows the turns beforehand.
    let mut at: usize = 0;
    let mut n: usize = 0;
    while at < run.len() {
        let step = next_at(run, at);
        if step.answer.code != Answer::ACCEPTED {
            return n + put_refusal(out, n, step.answer);
        }
        let count = taken(&run[at..]);
        n = put_image(out, n, at, step.answer.place, count);
        at = step.at;
    }
    n
}
