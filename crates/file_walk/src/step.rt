// Where the walk stands, and what a step of it meets.

use crate::level::Level;
use answer::Answer;

// Where the walk stands: the innermost open element, how many are around it (they are on the stack), the place after the last tag, and
// where that tag's first attribute has its value.
#[derive(Clone, Copy)]
pub struct Here {
    pub level: Level,
    pub depth: usize,
    pub at: usize,
    pub value: usize,
    pub quote: usize,
}

// Why the walk does not begin: the answer to what stands where the root is to begin, and where the walk would stand after it.
#[derive(Clone, Copy)]
pub struct Refusal {
    pub answer: Answer,
    pub here: Here,
}

// What a step met where it found no violation. A violation is the step's `Err`, and so is the answer to bytes that are no house XML, 3.
#[derive(Clone, Copy)]
pub enum Turn {
    // An element that goes on: the walk stands in it now.
    Opened(Here),
    // The end of an element within another, in which the walk stands now; the text before the end goes up to this place.
    Closed(Here, usize),
    // The end of the root; the text before it goes up to this place.
    Ended(usize),
}
