// What the program writes: the statement file of the image that a run begins with, or one line.
ghost use Rattle.std.specs.Prelude.{◌≡◌, length, take};
ghost use Rattle.io.specs.Counts.{IsPrefixLen};
ghost use Rattle.write.specs.Sends.{Sends};
ghost use Rattle.answer.specs.Table.{limit};

use program_outcome::outcome;
use unit::write::write;

// Puts what is written for a run to the start of a buffer, and answers how many bytes it is.
pub(crate) fn sent(run: &[u8], out: &mut [u8]) -> usize
    requires { length out.old ≡ limit }
    ensures is { Sends run.now (take result out.new) }
    ensures within { IsPrefixLen result out.new }
{
    let a = write(run, out);
    outcome(a, out)
}
