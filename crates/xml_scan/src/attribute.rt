// An attribute, whose name is none of those before it.
ghost use Rattle.std.specs.Prelude.{◌≡◌, ◌≤◌, ◌<◌, length, get_or, true};
ghost use Rattle.text.specs.Bytes.{is_name_start};
ghost use Rattle.xml_scan.specs.mirror.Goes.{Marked, GoesValue, GoesEquals};
ghost use Rattle.xml_scan.specs.mirror.Tags.{GoesName, GoesAttribute};

use crate::seen::{MOST_ATTRIBUTES, Seen};
use crate::table::Classes;
use text::class::is_name_start;
use text::span::blanks_end;
use xml_pieces::Stopped;
use xml_pieces::piece::piece;

// Over a value and the quote that ends it.
fn value(s: &[u8], at: usize, quote: u8) -> Result<usize, Stopped>
    requires { (at ≤ length s.now) × Marked quote }
    ensures { GoesValue s.now at quote result }
{
    let mut i = at;
    while i < s.len() {
        if s[i] == quote {
            return Ok(i + 1);
        }
        i = piece(s, i)?;
    }
    Err(Stopped { at: i })
}

// Over blanks, `=`, blanks, and the quoted value.
fn equals(s: &[u8], at: usize) -> Result<usize, Stopped>
    requires { at ≤ length s.now }
    ensures { GoesEquals s.now at result }
{
    let sign = blanks_end(s, at);
    if s.len() <= sign {
        return Err(Stopped { at: sign });
    }
    if s[sign] != b'=' {
        return Err(Stopped { at: sign });
    }
    let mark = blanks_end(s, sign + 1);
    if s.len() <= mark {
        return Err(Stopped { at: mark });
    }
    let quote = s[mark];
    match quote {
        b'"' | b'\'' => value(s, mark + 1, quote),
        _ => Err(Stopped { at: mark }),
    }
}

// Over an attribute's name: "Attribute names may hold one colon between two names". A second colon is left to what follows the name.
fn full_name(s: &[u8], at: usize, classes: &Classes) -> Result<usize, Stopped>
    requires { (at < length s.now) × (is_name_start (get_or s.now at 0) ≡ true) }
    ensures { GoesName s.now at result }
{
    let colon = classes.name_end(s, at + 1);
    if s.len() <= colon {
        return Ok(colon);
    }
    if s[colon] != b':' {
        return Ok(colon);
    }
    let second = colon + 1;
    if s.len() <= second {
        return Err(Stopped { at: second });
    }
    if is_name_start(s[second]) {
        return Ok(classes.name_end(s, second + 1));
    }
    Err(Stopped { at: second })
}

// Over an attribute that begins at a name, after those of the names seen: "At most four attributes", "all names different".
pub(crate) fn attribute<'a>(
    s: &'a [u8],
    at: usize,
    seen: &mut Seen<'a>,
    classes: &Classes,
) -> Result<usize, Stopped>
    requires { (at < length s.now) × (is_name_start (get_or s.now at 0) ≡ true) }
    ensures { GoesAttribute s.now at seen.old seen.new result }
{
    if MOST_ATTRIBUTES <= seen.len() {
        return Err(Stopped { at });
    }
    let e = full_name(s, at, classes)?;
    let name = &s[at..e];
    if seen.contains(name) {
        return Err(Stopped { at: e });
    }
    seen.push(name);
    equals(s, e)
}
