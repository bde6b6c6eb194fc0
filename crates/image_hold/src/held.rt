// A reader that holds a run and its place, over the lists of stored images. It answers as `read`, `pick` and `picked` do on the rest of the
// run, with places counted from the start of that rest. Reading moves on by the image's length when it accepts, and stays when it refuses;
// picking stays. So a run of images laid end to end, of whatever versions and kinds, is divided by
//
//     let mut h = hold(run);
//     let mut a = next(&mut h);
//     while a.code == Answer::ACCEPTED {
//         a = next(&mut h);
//     }
//
// and the values of an image are picked before it is read. At the run's end, and past it, every call answers 15: nothing is left there.
//
// The functions that have a `Held` only make it or take it apart; the work is done by the others, on the slice and the place. A caller that
// keeps the place itself, and has no `Held`, goes by `next_at`.
ghost use Rattle.std.specs.Prelude.{◌≡◌, ◌≤◌, length, drop};
ghost use Rattle.image.specs.Pick.{Lies};
ghost use Rattle.image_reading.specs.Reads.{HouseAnswers};
ghost use Rattle.image_hold.specs.Held.{left, Steps, HeldPicked, Next};

use answer::Answer;

// The run and the place.
#[derive(Clone, Copy)]
pub struct Held<'a> {
    pub run: &'a [u8],
    pub at: usize,
}

// What was read at a place, and the place to read at next.
// Kept: both are told of a refusal too, where the place is the one that it stays at (`Moves`): a Result would leave it out.
#[derive(Clone, Copy)]
pub struct Step {
    pub answer: Answer,
    pub at: usize,
}

// The rest of a run; empty from its end on.
// Kept: `text::part::rest` says which bytes these are, and not where they lie, which `HeldPicked` asks of `picked_at`.
fn rest(run: &[u8], at: usize) -> &[u8]
    ensures is { result.now ≡ drop at run.now }
    ensures lies { at ≤ length run.now → Lies run.entry at result }
{
    if run.len() < at {
        return &run[0..0];
    }
    &run[at..]
}

// The answer for the image that begins at a place, and the place after it; the same place where none begins.
pub(crate) fn read_at(run: &[u8], at: usize) -> Step
    ensures { Steps run.now at result }
{
    let a = image_first::read(rest(run, at));
    if a.code != Answer::ACCEPTED {
        return Step { answer: a, at };
    }
    Step {
        answer: a,
        at: at + a.place,
    }
}

// The n-th leaf of `row` in that image.
pub(crate) fn pick_at(run: &[u8], at: usize, row: usize, n: usize) -> Answer
    ensures { HouseAnswers (drop at run.now) row n result }
{
    image_first::pick(rest(run, at), row, n)
}

// Its part.
pub(crate) fn picked_at(run: &[u8], at: usize, row: usize, n: usize) -> &[u8]
    ensures { HeldPicked run.entry at row n result }
{
    image_first::picked(rest(run, at), row, n)
}

// At the start of a run.
pub fn hold<'a>(run: &'a [u8]) -> Held<'a>
    ensures { (result.run ≡ run.entry) × (result.at ≡ 0) }
{
    Held { run, at: 0 }
}

// The answer for the image at its place; it moves on past an image that it accepts.
pub fn next<'s, 'a>(h: &'s mut Held<'a>) -> Answer
    ensures { Next h.old result h.new }
{
    let step = read_at(h.run, h.at);
    h.at = step.at;
    step.answer
}

// The same for a run and a place: held for one call, and where it is held then.
pub fn next_at(run: &[u8], at: usize) -> Step
    ensures { Steps run.now at result }
{
    let mut h = Held { run, at };
    let answer = next(&mut h);
    Step { answer, at: h.at }
}

// The answer for the n-th leaf, from 0, of `row` in the image at its place.
pub fn pick<'a>(h: Held<'a>, row: usize, n: usize) -> Answer
    ensures { HouseAnswers (left h.entry) row n result }
{
    pick_at(h.run, h.at, row, n)
}

// Its part of the run; empty where `pick` refuses.
pub fn picked<'a>(h: Held<'a>, row: usize, n: usize) -> &'a [u8]
    ensures { HeldPicked h.entry.run h.entry.at row n result }
{
    picked_at(h.run, h.at, row, n)
}
