// What follows the name in a start tag.
ghost use Rattle.std.specs.Prelude.{◌≡◌, ◌≤◌, ◌<◌, length, get_or, false};
ghost use Rattle.text.specs.Bytes.{is_blank};
ghost use Rattle.xml_scan.specs.mirror.Tags.{GoesTag, GoesEnd};

use crate::attribute::attribute;
use crate::seen::Seen;
use crate::table::Classes;
use text::class::is_name_start;
use text::span::blanks_end;
use xml_pieces::Stopped;

// `>` or `/>`, and the place after it.
#[derive(Clone, Copy)]
pub enum Ending {
    Open(usize),
    Empty(usize),
}

// Over `>` or `/>`.
fn tag_end(s: &[u8], at: usize) -> Result<Ending, Stopped>
    requires { (at < length s.now) × (is_blank (get_or s.now at 0) ≡ false) }
    ensures { GoesEnd s.now at result }
{
    let x = s[at];
    let i = at + 1;
    if x == b'>' {
        return Ok(Ending::Open(i));
    }
    if x != b'/' {
        return Err(Stopped { at });
    }
    if s.len() <= i {
        return Err(Stopped { at: i });
    }
    if s[i] == b'>' {
        return Ok(Ending::Empty(i + 1));
    }
    Err(Stopped { at: i })
}

// Over attributes, "each after one or more blanks", then blanks, and `>` or `/>`.
fn attributes(s: &[u8], at: usize, classes: &Classes) -> Result<Ending, Stopped>
    requires { at ≤ length s.now }
    ensures { GoesTag s.now at result }
{
    let mut seen = Seen::new();
    let mut i = at;
    loop {
        let b = blanks_end(s, i);
        if s.len() <= b {
            return Err(Stopped { at: b });
        }
        if !is_name_start(s[b]) {
            return tag_end(s, b);
        }
        if b == i {
            return Err(Stopped { at: b });
        }
        i = attribute(s, b, &mut seen, classes)?;
    }
}

// Over what follows the name: mostly it is `>`.
pub(crate) fn tag_rest(s: &[u8], at: usize, classes: &Classes) -> Result<Ending, Stopped>
    requires { at ≤ length s.now }
    ensures { GoesTag s.now at result }
{
    if at < s.len() {
        if s[at] == b'>' {
            return Ok(Ending::Open(at + 1));
        }
    }
    attributes(s, at, classes)
}
