// The program: a file from standard input; the tidied file, or the line of a refusal, to standard output.
#![tactic(auto)]

mod shown; // shown.rt: what it writes, computed on slices

use answer::Answer;
use program_input::read_full;
use shown::shown;
use std::io::{Read, Result};

// One byte more is read than a file may have, so that a longer one is known as such; there is room for every image and every file.
const MOST: usize = Answer::LIMIT + 1;

// Reads a file, and writes what is to be written for it.
fn pass<R: Read, P: Print>(
    from: &mut R,
    to: &P,
    input: &mut [u8; MOST],
    image: &mut [u8; Answer::LIMIT],
    out: &mut [u8; Answer::LIMIT],
) -> Result<()> {
    let got = read_full(from, input)?;
    let n = shown(&input[..got], image, out);
    to.write_all(&out[..n])
}

fn main(rt: HostRuntime) -> Result<()> {
    let mut input = [0u8; MOST];
    let mut image = [0u8; Answer::LIMIT];
    let mut out = [0u8; Answer::LIMIT];
    pass(&mut rt.stdin(), &rt, &mut input, &mut image, &mut out)
}
