// The entry for files that are tidied: a file checked into one buffer, and written again from its image into another.
ghost use Rattle.file_letter.specs.Tidies.{Tidies};

use answer::Answer;

pub fn tidy(input: &[u8], image: &mut [u8], out: &mut [u8]) -> Answer
    ensures { Tidies input.now image.old out.old result image.new out.new }
{
    file_tidy::tidy(input, image, out)
}
