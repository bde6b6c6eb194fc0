// How a file ends.

use text::class::is_blank;

const ROOT_END: [u8; 11] = *b"</Document>";

// Whether a file ends with its root's end tag, blanks aside. Nothing rests on it: it is asked first, so that a file that breaks off, or goes on after its
// root, costs little more than the exact passes.
pub(crate) fn is_closed(s: &[u8]) -> bool {
    match s.iter().rposition(|b| !is_blank(*b)) {
        None => false,
        Some(last) => s[..last + 1].ends_with(&ROOT_END),
    }
}
