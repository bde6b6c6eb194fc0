// Answers a feed of cases from standard input, with a line for each to standard output.
#![tactic(auto)]

mod reply; // reply.rt: the line for a case, computed on slices

ghost use Rattle.std.specs.Prelude.{◌≡◌, ◌+◌, ◌≤◌, length, IfOk};
ghost use Rattle.io.specs.Counts.{IsPrefixLen};
ghost use Rattle.answer.specs.Table.{limit};
ghost use Rattle.program_feed.specs.Cases.{head_size, longest};
ghost use Rattle.replay.specs.Replies.{pair_room};

use answer::Answer;
use program_feed::case::{HEAD, LONGEST, case_in, case_of, goes_on, size_of};
use program_input::read_full;
use reply::reply;
use std::io::{Read, Result};

// The most bytes of a line: of each byte of an image and of a file, two digits.
const LINE: usize = 65 + 4 * Answer::LIMIT;

// Reads between two places of a buffer, as far as the feed goes; how many bytes.
fn fill<R: Read>(input: &mut R, space: &mut [u8], from: usize, end: usize) -> Result<usize>
    requires { (from ≤ end) × (end ≤ length space.old) }
    ensures { IfOk result (λ n. from + n ≤ end) }
{
    read_full(input, &mut space[from..end])
}

// Reads a case as far as the feed goes, its head and then as many bytes as that says; how many bytes there are.
fn take_case<R: Read>(input: &mut R, space: &mut [u8]) -> Result<usize>
    requires { length space.old ≡ head_size + longest }
    ensures { IfOk result (λ n. IsPrefixLen n space.new) }
{
    let got = fill(input, space, 0, HEAD)?;
    if got < HEAD {
        return Ok(got);
    }
    let end = HEAD + size_of(case_of(space));
    let more = fill(input, space, HEAD, end)?;
    Ok(HEAD + more)
}

// One case; whether the feed goes on after it. A line is written as soon as it is there.
fn answer_case<R: Read, P: Print>(
    input: &mut R,
    rt: &P,
    number: u64,
    space: &mut [u8],
    buffer: &mut [u8],
    second: &mut [u8],
    line: &mut [u8],
) -> Result<bool>
    requires { (length space.old ≡ head_size + longest) × ((length buffer.old ≡ limit) × ((length second.old ≡ limit) × (length line.old ≡ pair_room))) }
{
    let got = take_case(input, space)?;
    if got == 0 {
        return Ok(false);
    }
    let n = reply(&space[..got], number, buffer, second, line);
    rt.write_all(&line[..n])?;
    Ok(goes_on(case_in(&space[..got])))
}

// A proved loop ends, and nothing says that a feed does: the number of the case is what ends it.
fn answer_all<R: Read, P: Print>(
    input: &mut R,
    rt: &P,
    space: &mut [u8],
    buffer: &mut [u8],
    second: &mut [u8],
    line: &mut [u8],
) -> Result<()>
    requires { (length space.old ≡ head_size + longest) × ((length buffer.old ≡ limit) × ((length second.old ≡ limit) × (length line.old ≡ pair_room))) }
{
    let mut number: u64 = 0;
    while number < u64::MAX && answer_case(input, rt, number, space, buffer, second, line)? {
        number += 1;
    }
    Ok(())
}

// The longest case, the largest rooms and the longest line.
const CASE: usize = HEAD + LONGEST;

// Answers the feed in these.
fn answer_feed<R: Read, P: Print>(
    input: &mut R,
    rt: &P,
    space: &mut [u8; CASE],
    buffer: &mut [u8; Answer::LIMIT],
    second: &mut [u8; Answer::LIMIT],
    line: &mut [u8; LINE],
) -> Result<()> {
    answer_all(input, rt, space, buffer, second, line)
}

fn main(rt: HostRuntime) -> Result<()> {
    let mut space = [0u8; CASE];
    let mut buffer = [0u8; Answer::LIMIT];
    let mut second = [0u8; Answer::LIMIT];
    let mut line = [0u8; LINE];
    answer_feed(
        &mut rt.stdin(),
        &rt,
        &mut space,
        &mut buffer,
        &mut second,
        &mut line,
    )
}
