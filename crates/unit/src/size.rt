// The entry for a file without a buffer: how many bytes its image has, or why it has none.
ghost use Rattle.answer.specs.Handed.{handed};
ghost use Rattle.file.specs.Checks.{Finds};

use answer::Answer;
use answer::hand::hand;
use file_lane::measure;

pub fn size(input: &[u8]) -> Answer
    ensures { Finds input.now result }
{
    measure(input)
}

// The same for C: the code is the result.
pub fn kto_size(input: &[u8], row: &mut u64, place: &mut u64) -> u64
    ensures { Finds input.now (handed result row.new place.new) }
{
    hand(size(input), row, place)
}
