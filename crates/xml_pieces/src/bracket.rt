// A row of `]` in text, which is "without `]]>`".
ghost use Rattle.std.specs.Prelude.{◌≡◌, ◌+◌, drop};
ghost use Rattle.text.specs.Lists.{span};
ghost use Rattle.xml_pieces.specs.Kinds.{is_bracket, over_row};

use crate::Stopped;
use text::run::run_end;

// Where a row of `]` ends.
fn brackets_end(s: &[u8], at: usize) -> usize
    ensures { result ≡ at + span is_bracket (drop at s.now) }
{
    run_end(s, at, |b| b == b']')
}

// Over a row of `]`, which stops at a `>` that follows two or more.
pub fn brackets(s: &[u8], at: usize) -> Result<usize, Stopped>
    ensures { result ≡ over_row (drop at s.now) at }
{
    let end = brackets_end(s, at);
    if s.len() <= end {
        return Err(Stopped { at: end });
    }
    if 1 < end - at {
        if s[end] == b'>' {
            return Err(Stopped { at: end });
        }
    }
    Ok(end)
}
