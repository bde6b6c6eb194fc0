// The program: one statement file from standard input; its image, or the line of its refusal, to standard output.
#![tactic(auto)]

mod said; // said.rt: what it writes, computed on slices

use program_input::read_full;
use said::{MOST, said};
use std::io::Result;

// One byte more is read than counts, so that longer input is known as such.
fn main(rt: HostRuntime) -> Result<()> {
    let mut input = [0u8; MOST + 1];
    let mut out = [0u8; MOST];
    let got = read_full(&mut rt.stdin(), &mut input)?;
    let n = said(&input[..got], &mut out);
    rt.write_all(&out[..n])
}
