// Elements within elements.
ghost use Rattle.std.specs.Prelude.{◌≤◌, ◌<◌, length};
ghost use Rattle.xml.specs.mirror.Auto.{root, done};
ghost use Rattle.xml_scan.specs.mirror.Goes.{Goes};
ghost use Rattle.xml_scan.specs.mirror.Tags.{inside, marked, GoesStart, GoesClose};

use crate::content::text_end;
use crate::stack::{MOST_LEVELS, Names};
use crate::table::Classes;
use crate::tag::{Ending, tag_rest};
use text::class::is_name_start;
use text::span::blanks_end;
use xml_pieces::Stopped;
use xml_pieces::word::word;

// Over a start tag after its `<`, within the elements that are open: "Nesting is at most 16".
fn start_tag<'a>(
    s: &'a [u8],
    at: usize,
    names: &mut Names<'a>,
    classes: &Classes,
) -> Result<usize, Stopped>
    requires { at ≤ length s.now }
    ensures { GoesStart s.now at names.old names.new result }
{
    if s.len() <= at {
        return Err(Stopped { at });
    }
    if !is_name_start(s[at]) {
        return Err(Stopped { at });
    }
    if MOST_LEVELS <= names.len() {
        return Err(Stopped { at });
    }
    let e = classes.name_end(s, at + 1);
    match tag_rest(s, e, classes)? {
        Ending::Empty(i) => Ok(i),
        Ending::Open(i) => {
            names.push(&s[at..e]);
            Ok(i)
        }
    }
}

// Over an end tag after its `</`, for the name w.
fn end_tag(s: &[u8], at: usize, w: &[u8]) -> Result<usize, Stopped>
    requires { at ≤ length s.now }
    ensures { GoesClose s.now at w.now result }
{
    let e = word(s, at, w)?;
    if e < s.len() {
        if s[e] == b'>' {
            return Ok(e + 1);
        }
    }
    let b = blanks_end(s, e);
    if s.len() <= b {
        return Err(Stopped { at: b });
    }
    if s[b] == b'>' {
        return Ok(b + 1);
    }
    Err(Stopped { at: b })
}

// Over a tag after its `<`, within one open element at least: a start tag, or the end tag of the innermost.
fn any_tag<'a>(
    s: &'a [u8],
    at: usize,
    names: &mut Names<'a>,
    classes: &Classes,
) -> Result<usize, Stopped>
    requires { (at ≤ length s.now) × (0 < length names.old) }
    ensures { Goes s.now at (marked names.old) (inside names.new) result }
{
    if s.len() <= at {
        return Err(Stopped { at });
    }
    if s[at] != b'/' {
        return start_tag(s, at, names, classes);
    }
    end_tag(s, at + 1, names.pop())
}

// Over text within one open element at least, and the tag after it.
fn advance<'a>(
    s: &'a [u8],
    at: usize,
    names: &mut Names<'a>,
    classes: &Classes,
) -> Result<usize, Stopped>
    requires { (at ≤ length s.now) × (0 < length names.old) }
    ensures { Goes s.now at (inside names.old) (inside names.new) result }
{
    any_tag(s, text_end(s, at, classes)?, names, classes)
}

// Over the one element, after its `<`, with all that stands in it.
pub(crate) fn elements(s: &[u8], at: usize, classes: &Classes) -> Result<usize, Stopped>
    requires { at ≤ length s.now }
    ensures { Goes s.now at root done result }
{
    let mut names = Names::new();
    let mut i = start_tag(s, at, &mut names, classes)?;
    while 0 < names.len() {
        i = advance(s, i, &mut names, classes)?;
    }
    Ok(i)
}
