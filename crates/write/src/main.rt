// The program: a run of images from standard input; the statement file of the first, or the line of a refusal, to standard output.
#![tactic(auto)]

mod sent; // sent.rt: what it writes, computed on slices

use answer::Answer;
use program_input::read_full;
use sent::sent;
use std::io::{Read, Result};

// One byte more is read than a run may have, so that a longer one is known as such; there is room for every file that may be written.
const MOST: usize = Answer::LIMIT + 1;

// Reads a run, and writes what is to be written for it.
fn pass<R: Read, P: Print>(
    from: &mut R,
    to: &P,
    run: &mut [u8; MOST],
    out: &mut [u8; Answer::LIMIT],
) -> Result<()> {
    let got = read_full(from, run)?;
    let n = sent(&run[..got], out);
    to.write_all(&out[..n])
}

fn main(rt: HostRuntime) -> Result<()> {
    let mut run = [0u8; MOST];
    let mut out = [0u8; Answer::LIMIT];
    pass(&mut rt.stdin(), &rt, &mut run, &mut out)
}
