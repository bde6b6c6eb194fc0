// What the head of a case asks for.
ghost use Rattle.std.specs.Prelude.{◌≡◌, ◌≤◌, ◌<◌, min, length, take, drop, MatchOption};
ghost use Rattle.text.specs.Little.{little};
ghost use Rattle.answer.specs.Table.{limit};
ghost use Rattle.program_feed.specs.Cases.{op_by, case_of, size_of, case_in, goes_on};

use answer::Answer;
use text::width::WIDTH_32;

#[derive(Clone, Copy, PartialEq, Eq)]
pub enum Ask {
    // To check a file, for a buffer of `room`.
    Check { room: usize },
    // To read a run.
    Read,
    // The leaf number `nth`, from 0, of `row` in a run.
    Pick { row: usize, nth: usize },
    // To write a run as a file, for a buffer of `room`.
    Write { room: usize },
    // To count the items of a run.
    Count,
    // To tidy a file, for buffers of `room` for its image and of `space` for the file.
    Tidy { room: usize, space: usize },
}

// What is asked of the `size` bytes after the head.
#[derive(Clone, Copy, PartialEq, Eq)]
pub struct Case {
    pub ask: Ask,
    pub size: usize,
}

// The ops.
const CHECK: u8 = 0;

const READ: u8 = 1;

const PICK: u8 = 2;

const WRITE: u8 = 3;

const COUNT: u8 = 6;

const TIDY: u8 = 8;

// How many bytes a head has: the op and three numbers of 32 bits.
pub const HEAD: usize = 1 + 3 * WIDTH_32;

// The most bytes that a case may have: one more than a file may.
pub const LONGEST: usize = Answer::LIMIT + 1;

// The number of 32 bits that bytes begin with, its least significant byte first, and the bytes after it.
fn number(s: &[u8]) -> Option<(usize, &[u8])>
    ensures { MatchOption result (length s.now < 4) (λ r. (4 ≤ length s.now) × (r.0 ≡ little (take 4 s.now)) × (r.1.now ≡ drop 4 s.now)) }
{
    let (bytes, rest) = s.split_first_chunk::<WIDTH_32>()?;
    Some((u32::from_le_bytes(*bytes) as usize, rest))
}

// The room that a head asks for; more than a buffer may need counts as that much.
fn room_of(n: usize) -> usize
    ensures { result ≡ min n limit }
{
    n.min(Answer::LIMIT)
}

// The case that a whole head asks for by its op and the three numbers after it.
#[tactic(auto, unfolding(crate::specs::Cases::op_by))]
fn by_op(op: u8, first: usize, second: usize, size: usize) -> Option<Case>
    ensures { result ≡ op_by op first second size }
{
    let ask = match op {
        CHECK => Ask::Check {
            room: room_of(first),
        },
        READ => Ask::Read,
        PICK => Ask::Pick {
            row: first,
            nth: second,
        },
        WRITE => Ask::Write {
            room: room_of(first),
        },
        COUNT => Ask::Count,
        TIDY => Ask::Tidy {
            room: room_of(first),
            space: room_of(second),
        },
        _ => return None,
    };
    Some(Case { ask, size })
}

// The case that a head asks for; what stands after it does not matter. None where the head breaks off, or names another op or a length over
// the longest.
pub fn case_of(head: &[u8]) -> Option<Case>
    ensures { result ≡ case_of head.now }
{
    let (op, numbers) = head.split_first()?;
    let (first, numbers) = number(numbers)?;
    let (second, numbers) = number(numbers)?;
    let (size, _) = number(numbers)?;
    if LONGEST < size {
        return None;
    }
    by_op(*op, first, second, size)
}

// How many bytes a case has after its head.
pub fn size_of(c: Option<Case>) -> usize
    ensures { result ≡ size_of c }
{
    c.map_or(0, |case| case.size)
}

// The case that a feed begins with, its head and its bytes; none where the feed breaks off before they end.
pub fn case_in(feed: &[u8]) -> Option<Case>
    ensures { result ≡ case_in feed.now }
{
    let case = case_of(feed)?;
    if feed.len() < HEAD + case.size {
        return None;
    }
    Some(case)
}

// Whether more is read after a case.
pub fn goes_on(c: Option<Case>) -> bool
    ensures { result ≡ goes_on c }
{
    c.is_some()
}
