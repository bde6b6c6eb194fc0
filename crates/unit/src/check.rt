// The entry for files: a statement file in, its image out, or the one answer that says why there is none.
ghost use Rattle.file.specs.Checks.{Checks};

use answer::Answer;

pub fn check(input: &[u8], out: &mut [u8]) -> Answer
    ensures { Checks input.now out.old result out.new }
{
    file_check::check(input, out)
}
