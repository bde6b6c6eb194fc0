// What a call's answer hands back, and the lines of answers that hand back no bytes of a buffer.
#![tactic(auto)]

ghost use Rattle.std.specs.Prelude.{◌≡◌, [], ◌≤◌, length};
ghost use Rattle.text.specs.Numbers.{big_endian};
ghost use Rattle.program_reply.specs.Reply.{answer_line, held_length, Put, longest_answer, longest_count};

use answer::Answer;
use program_reply::put_answer;
use text::width::{WIDTH_32, WIDTH_64};

// Where the last four of eight bytes begin.
const LAST_HALF: usize = WIDTH_64 - WIDTH_32;

// How many bytes an accepted call leaves in the buffer that it was lent; a refused one none.
pub fn held(a: Answer) -> usize
    ensures { result ≡ held_length a }
{
    if !a.is_accepted() {
        return 0;
    }
    a.place
}

// Writes the line of an answer alone from the start of a buffer on, and answers how many bytes it is; none where it does not fit, and
// then nothing is changed. It is at most 64 bytes.
pub fn put_bare(a: Answer, out: &mut [u8]) -> Option<usize>
    ensures put { Put (answer_line a []) out.old result out.new }
    ensures most { length (answer_line a []) ≤ longest_answer }
{
    put_answer(a, b"", out)
}

// Writes the line of an answer with a count in four bytes from the start of a buffer on, and answers how many bytes it is; none where
// it does not fit, and then nothing is changed. It is at most 72 bytes.
pub fn put_count(a: Answer, count: usize, out: &mut [u8]) -> Option<usize>
    ensures put { Put (answer_line a (big_endian 4 count)) out.old result out.new }
    ensures most { length (answer_line a (big_endian 4 count)) ≤ longest_count }
{
    let bytes = (count as u64).to_be_bytes();
    put_answer(a, &bytes[LAST_HALF..], out)
}
