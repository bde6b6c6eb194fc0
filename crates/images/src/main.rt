// The program: a run of images from standard input; for each image a line with its place, its length and its items to standard output, and after the last
// the line of the reader's refusal, where anything is left.
#![tactic(auto)]

mod divided; // divided.rt: what it writes, computed on slices

use answer::Answer;
use divided::{ROOM, divided};
use program_input::read_full;
use std::io::{Read, Result};

// One byte more is read than an image's run may have, so that a longer run is known as such.
const MOST: usize = Answer::LIMIT + 1;

// Reads a run, and writes what is to be written for it.
fn pass<R: Read, P: Print>(
    from: &mut R,
    to: &P,
    run: &mut [u8; MOST],
    out: &mut [u8; ROOM],
) -> Result<()> {
    let got = read_full(from, run)?;
    let n = divided(&run[..got], out);
    to.write_all(&out[..n])
}

fn main(rt: HostRuntime) -> Result<()> {
    let mut run = [0u8; MOST];
    let mut out = [0u8; ROOM];
    pass(&mut rt.stdin(), &rt, &mut run, &mut out)
}
