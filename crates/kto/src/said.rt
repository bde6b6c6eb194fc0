// What the program writes: the image of a good file, read back before it is written, or one line.
ghost use Rattle.std.specs.Prelude.{◌≡◌, length, take};
ghost use Rattle.io.specs.Counts.{IsPrefixLen};
ghost use Rattle.kto.specs.Says.{Says, most};
ghost use Rattle.kto.specs.Answered.{Answered};

use answer::Answer;
use program_outcome::outcome;
use unit::check::check;
use unit::read::read;

// The most bytes that count.
pub(crate) const MOST: usize = 65536;

// The answer to longer input: of the file as the program reads it, no more is known.
// Kept: `Answer::too_long()` names another limit, that of files, so these three numbers stand here alone.
fn longer() -> Answer
    ensures { result ≡ record { code = 1; row = 0; place = most } }
{
    Answer {
        code: Answer::TOO_LONG,
        row: 0,
        place: MOST,
    }
}

// The answer to an input, with its image in the buffer where it is accepted: an image counts as one once it is read back.
fn answered(input: &[u8], out: &mut [u8]) -> Answer
    ensures { Answered input.now out.old result out.new }
{
    if MOST < input.len() {
        return longer();
    }
    let a = check(input, out);
    if a.code != Answer::ACCEPTED {
        return a;
    }
    let n = a.place;
    read(&out[..n])
}

// Puts what is written for an input to the start of a buffer, and answers how many bytes it is.
pub(crate) fn said(input: &[u8], out: &mut [u8]) -> usize
    requires { length out.old ≡ most }
    ensures is { Says input.now (take result out.new) }
    ensures within { IsPrefixLen result out.new }
{
    let a = answered(input, out);
    outcome(a, out)
}
