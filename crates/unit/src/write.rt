// The entry for files that are written: the statement file of the image that a run begins with, or why there is none.
ghost use Rattle.file_letter.specs.Writes.{Writes};

use answer::Answer;

pub fn write(run: &[u8], out: &mut [u8]) -> Answer
    ensures { Writes run.now out.old result out.new }
{
    file_write::write(run, out)
}
