// Text between tags: "XML 1.0 characters without `<` and `]]>`".
ghost use Rattle.std.specs.Prelude.{◌≤◌, ◌<◌, length, get_or, ◌≢◌};
ghost use Rattle.xml_scan.specs.mirror.Goes.{GoesText, GoesOther};
ghost use Rattle.text.specs.Bytes.{code};

use crate::table::Classes;
use xml_pieces::Stopped;
use xml_pieces::bracket::brackets;
use xml_pieces::piece::piece;

// Over text and the `<` that ends it.
pub(crate) fn text_end(s: &[u8], at: usize, classes: &Classes) -> Result<usize, Stopped>
    requires { at ≤ length s.now }
    ensures { GoesText s.now at result }
{
    let mut i = at;
    loop {
        let j = classes.plain_end(s, i);
        if s.len() <= j {
            return Err(Stopped { at: j });
        }
        if s[j] == b'<' {
            return Ok(j + 1);
        }
        i = other(s, j)?;
    }
}

// Over a `>`, a row of `]` or a piece, in text.
fn other(s: &[u8], at: usize) -> Result<usize, Stopped>
    requires { (at < length s.now) × (get_or s.now at 0 ≢ code "<") }
    ensures { GoesOther s.now at result }
{
    match s[at] {
        b'>' => Ok(at + 1),
        b']' => brackets(s, at),
        _ => piece(s, at),
    }
}
