// The entries for images: the length of the image that a run begins with, or why it begins with none; and how many items were taken.
ghost use Rattle.image_reading.specs.Reads.{HouseReads, HouseCounts};

use answer::Answer;

pub fn read(run: &[u8]) -> Answer
    ensures { HouseReads run.now result }
{
    image_first::read(run)
}

// The same answer with the items that were taken for it, the closing 0 among them.
// Kept: document 01 has the count beside the answer ("The reader returns the number of items it took"), and both are told of a refusal too.
#[derive(Clone, Copy)]
pub struct Counted {
    pub answer: Answer,
    pub count: usize,
}

pub fn reading(run: &[u8]) -> Counted
    ensures is { HouseReads run.now result.answer }
    ensures counts { HouseCounts run.now result.answer result.count }
{
    match image_first::reading(run) {
        Ok(image) => Counted {
            answer: Answer::accepted(image.length),
            count: image.count,
        },
        Err(refusal) => Counted {
            answer: refusal.answer,
            count: refusal.count,
        },
    }
}
