// What stands before the one element.
ghost use Rattle.std.specs.Prelude.{◌≤◌, length};
ghost use Rattle.xml.specs.mirror.Auto as auto;
ghost use Rattle.xml_scan.specs.mirror.Goes.{Goes};

use text::part::begins;
use text::span::blanks_end;
use xml_pieces::Stopped;
use xml_pieces::word::word;

// Over blanks and the `<` of the one element.
fn root(s: &[u8], at: usize) -> Result<usize, Stopped>
    requires { at ≤ length s.now }
    ensures { Goes s.now at auto.before auto.root result }
{
    let b = blanks_end(s, at);
    if s.len() <= b {
        return Err(Stopped { at: b });
    }
    if s[b] == b'<' {
        return Ok(b + 1);
    }
    Err(Stopped { at: b })
}

// Over the declaration, if there is one, blanks, and the `<` of the one element.
pub(crate) fn prolog(s: &[u8]) -> Result<usize, Stopped>
    ensures { Goes s.now 0 auto.start auto.root result }
{
    if !begins(s, 0, b"<?") {
        return root(s, 0);
    }
    root(s, word(s, 2, b"xml version=\"1.0\" encoding=\"UTF-8\"?>")?)
}
