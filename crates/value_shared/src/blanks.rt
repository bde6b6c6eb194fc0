// What is left of a text that loses its blanks.

ghost use Rattle.value.specs.decided.Trim.{LastInk, Trim};

use text::class::is_blank;
use text::part::rest;
use text::span::blanks_end;

// Where the last character stands that is no blank.
fn last_ink(s: &[u8]) -> Option<usize>
    ensures { LastInk s.now result }
{
    s.iter().rposition(|b| !is_blank(*b))
}

// s without the blanks at both ends.
pub fn trimmed(s: &[u8]) -> &[u8]
    ensures { Trim s.now result.now }
{
    let inked = rest(s, blanks_end(s, 0));
    match last_ink(inked) {
        Some(last) => &inked[..last + 1],
        None => &inked[..0],
    }
}
