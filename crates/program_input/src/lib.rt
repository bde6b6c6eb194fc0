// What the programs read: a buffer filled from standard input, or from any reader.
#![tactic(auto)]

ghost use Rattle.std.specs.Prelude.{◌<◌, length, take, IfOk};
ghost use Rattle.std.specs.Io.KnownBytes.{Consumes, IsAtEnd};
ghost use Rattle.io.specs.Counts.{IsPrefixLen};

use std::io::{Read, Result};

// Reads until the buffer is full or the input ends; how many bytes stand at its start. Those are what the reader has then given, in their order,
// and fewer than the buffer's only at the reader's end. A read that fails ends it, and what it says is the answer.
pub fn read_full<R: Read>(input: &mut R, buf: &mut [u8]) -> Result<usize>
    ensures within { IfOk result (λ n. IsPrefixLen n buf.new) }
    ensures bytes { IfOk result (λ n. Consumes (R.remaining input.old) (R.remaining input.new) (take n buf.new)) }
    ensures ends { IfOk result (λ n. n < length buf.new → IsAtEnd (R.remaining input.new)) }
{
    // Kept: `Read::read` says at each turn how far the place moves on, so no range and no iterator knows the turns beforehand.
    let mut done = 0;
    while done < buf.len() {
        let n = input.read(&mut buf[done..])?;
        if n == 0 {
            break;
        }
        done += n;
    }
    Ok(done)
}
