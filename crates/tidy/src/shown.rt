// What the program writes: the tidied file, or one line.
ghost use Rattle.std.specs.Prelude.{◌≡◌, length, take};
ghost use Rattle.io.specs.Counts.{IsPrefixLen};
ghost use Rattle.tidy.specs.Presents.{Presents};
ghost use Rattle.answer.specs.Table.{limit};

use program_outcome::outcome;
use unit::tidy::tidy;

// Puts what is written for a file to the start of a buffer, and answers how many bytes it is.
pub(crate) fn shown(input: &[u8], image: &mut [u8], out: &mut [u8]) -> usize
    requires { (length image.old ≡ limit) × (length out.old ≡ limit) }
    ensures is { Presents input.now (take result out.new) }
    ensures within { IsPrefixLen result out.new }
{
    let a = tidy(input, image, out);
    outcome(a, out)
}
