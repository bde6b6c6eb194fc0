// Reads, or picks from, each run of its input, and writes a line for each: `CODE ROW PLACE` and, after a blank, the part that was
// picked, in hexadecimal. A run stands after 13 bytes: 1 for a read or 2 for a pick, then the row, the n and the run's length, each
// in 32 bits, little-endian. The answers that it is held to were computed by another program.
#![tactic(auto)]

ghost use Rattle.std.specs.Prelude.{◌<◌};

use answer::Answer;
use image_first::{pick, picked, read};
use program_input::read_full;
use std::io::{Read, Result};

// How many bytes stand before a run.
const HEAD: usize = 13;

// The most bytes that a run may have.
const ROOM: usize = 65536;

// What the third and the fourth byte of a number count.
const THIRD: usize = 256 * 256;

const FOURTH: usize = 256 * THIRD;

fn wide(x: u8) -> usize
    ensures { result < 256 }
{
    x as usize
}

// The number that four bytes write, the least significant first.
fn number(a: u8, b: u8, c: u8, d: u8) -> usize
    ensures { result < 4294967296 }
{
    wide(a) + 256 * wide(b) + THIRD * wide(c) + FOURTH * wide(d)
}

fn write_answer<P: Print>(rt: &P, a: Answer) -> Result<()> {
    let code = a.code;
    let row = a.row;
    let place = a.place;
    print!(rt; "{code} {row} {place} ")
}

fn write_part<P: Print>(rt: &P, part: &[u8]) -> Result<()> {
    let mut i = 0;
    while i < part.len() {
        let b = part[i];
        print!(rt; "{b:02x}")?;
        i += 1;
    }
    Ok(())
}

// One run's line; false where it is to be neither read nor picked from.
fn answer_run<P: Print>(rt: &P, what: u8, row: usize, n: usize, run: &[u8]) -> Result<bool> {
    if what == 1 {
        write_answer(rt, read(run))?;
        rt.write_all(b"\n")?;
        return Ok(true);
    }
    if what == 2 {
        write_answer(rt, pick(run, row, n))?;
        write_part(rt, picked(run, row, n))?;
        rt.write_all(b"\n")?;
        return Ok(true);
    }
    Ok(false)
}

// Fills `run` from the input and answers for it; false where the input ends before.
fn fill_run<R: Read, P: Print>(
    input: &mut R,
    rt: &P,
    what: u8,
    row: usize,
    n: usize,
    run: &mut [u8],
) -> Result<bool> {
    if read_full(input, run)? < run.len() {
        return Ok(false);
    }
    answer_run(rt, what, row, n, run)
}

// The next run; false where there is none, or a longer one than the buffer.
fn next_run<R: Read, P: Print>(input: &mut R, rt: &P) -> Result<bool> {
    let mut head = [0u8; HEAD];
    if read_full(input, &mut head)? < HEAD {
        return Ok(false);
    }
    let row = number(head[1], head[2], head[3], head[4]);
    let n = number(head[5], head[6], head[7], head[8]);
    let length = number(head[9], head[10], head[11], head[12]);
    let mut space = [0u8; ROOM];
    if space.len() < length {
        return Ok(false);
    }
    fill_run(input, rt, head[0], row, n, &mut space[..length])
}

// A proved loop has to end, and nothing says that an input does: it counts down from a number that no input uses up.
fn answer_all<R: Read, P: Print>(input: &mut R, rt: &P) -> Result<()> {
    let mut turns = u64::MAX;
    while turns > 0 && next_run(input, rt)? {
        turns -= 1;
    }
    Ok(())
}

fn main(rt: HostRuntime) -> Result<()> {
    answer_all(&mut rt.stdin(), &rt)
}
