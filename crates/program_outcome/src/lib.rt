// What a program writes for an answer: what the call put into the buffer that it was lent, or the line of a refusal.
#![tactic(auto)]

ghost use Rattle.program_outcome.specs.Outcome.{Outcome};

use answer::Answer;
use program_line::answer_line::put_refusal;

// What is to be written stands at the start of the buffer then; how many bytes it is.
pub fn outcome(a: Answer, out: &mut [u8]) -> usize
    ensures { Outcome a out.old result out.new }
{
    if a.is_accepted() {
        return a.place;
    }
    put_refusal(out, 0, a)
}
