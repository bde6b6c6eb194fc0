// The entry for values: the n-th leaf, from 0, of a row in the image that a run begins with.
ghost use Rattle.image_reading.specs.Reads.{HouseAnswers, HousePicked};

use answer::Answer;

// Its row, and where its part of the run begins; or why there is none.
pub fn pick(run: &[u8], row: usize, n: usize) -> Answer
    ensures { HouseAnswers run.now row n result }
{
    image_first::pick(run, row, n)
}

// That part itself, without row byte and length; empty where `pick` refuses.
pub fn picked<'a>(run: &'a [u8], row: usize, n: usize) -> &'a [u8]
    ensures { HousePicked run.entry row n result }
{
    image_first::picked(run, row, n)
}
