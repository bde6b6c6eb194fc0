// A file tidied: checked, then written again from its image. The image goes into one lent buffer, the tidied file into another.
#![tactic(auto)]

ghost use Rattle.file_letter.specs.Tidies.{Tidies};

use answer::Answer;
use file_check::check;
use file_write::write;

// The writer is lent the image's own bytes: what stands after them is the caller's, and none of its concern.
pub fn tidy(input: &[u8], image: &mut [u8], out: &mut [u8]) -> Answer
    ensures { Tidies input.now image.old out.old result image.new out.new }
{
    let checked = check(input, image);
    if checked.code != Answer::ACCEPTED {
        return checked;
    }
    write(&image[..checked.place], out)
}
