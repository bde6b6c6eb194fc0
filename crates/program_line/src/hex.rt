// Bytes in lower-case hexadecimal, two digits each.
ghost use Rattle.std.specs.Prelude.{◌≡◌, ◌<◌};
ghost use Rattle.text.specs.Pasting.{pasted};
ghost use Rattle.program_line.specs.Hex.{hex_digit, hexadecimal};

const BASE: u8 = 16;

// What makes a letter of a digit above nine.
const LETTERS: u8 = b'a' - 10;

fn digit(n: u8) -> u8
    requires { n < 16 }
    ensures { result ≡ hex_digit n }
{
    if n < 10 {
        return b'0' + n;
    }
    LETTERS + n
}

// Writes bytes in hexadecimal at a place of out, or nothing where they do not fit. There are twice as many digits as bytes, which may be
// more than a number holds: so the room is halved, and they are not doubled, to see whether they fit.
pub fn put(bytes: &[u8], out: &mut [u8], at: usize)
    ensures { out.new ≡ pasted out.old at (hexadecimal bytes.now) }
{
    if out.len() < at || (out.len() - at) / 2 < bytes.len() {
        return;
    }
    for (k, b) in bytes.iter().enumerate() {
        let to = at + 2 * k;
        out[to] = digit(*b / BASE);
        out[to + 1] = digit(*b % BASE);
    }
}
