// A value in quotes: a given word, or any text that house XML allows there.

ghost use Rattle.std.specs.Prelude.{true, ◌≡◌, ◌<◌, length, get_or, IfSome};
ghost use Rattle.file_front.specs.mirror.Values.{Quotes, Worded, Plain, Pieced, Valued, Quoted};

use text::part::begins;
use xml_pieces::piece::piece;

fn is_quote(b: u8) -> bool
    ensures { result ≡ true → Quotes b }
{
    if b == b'"' {
        return true;
    }
    if b == b'\'' {
        return true;
    }
    false
}

// The quote that stands at a place.
fn quote_at(s: &[u8], at: usize) -> Option<u8>
    ensures { IfSome result (λ q. (at < length s.now) × (q ≡ get_or s.now at 0) × Quotes q) }
{
    if s.len() <= at {
        return None;
    }
    let quote = s[at];
    if is_quote(quote) {
        return Some(quote);
    }
    None
}

// The place after a word with both its quotes.
pub(crate) fn word_end(s: &[u8], at: usize, word: &[u8]) -> Option<usize>
    ensures { IfSome result (λ r. Worded word.now s.now at r) }
{
    let quote = quote_at(s, at)?;
    let from = at + 1;
    if !begins(s, from, word) {
        return None;
    }
    let end = from + word.len();
    if s.len() <= end {
        return None;
    }
    if s[end] != quote {
        return None;
    }
    Some(end + 1)
}

// A byte that is a character as it stands.
fn is_plain(b: u8) -> bool
    ensures { result ≡ true → Plain b }
{
    if b < b' ' {
        return false;
    }
    if b'~' < b {
        return false;
    }
    if b == b'&' {
        return false;
    }
    if b == b'<' {
        return false;
    }
    true
}

// The place after a character or an entity. Most are a byte of ASCII, which need no call.
fn piece_end(s: &[u8], at: usize) -> Option<usize>
    requires { at < length s.now }
    ensures { IfSome result (λ r. Pieced s.now at r) }
{
    if is_plain(s[at]) {
        return Some(at + 1);
    }
    piece(s, at).ok()
}

// The place after the quote that ends a value.
fn text_end(s: &[u8], at: usize, quote: u8) -> Option<usize>
    requires { Quotes quote }
    ensures { IfSome result (λ r. Valued s.now at quote r) }
{
    let mut i = at;
    while i < s.len() {
        if s[i] == quote {
            return Some(i + 1);
        }
        i = piece_end(s, i)?;
    }
    None
}

// The place after a value with both its quotes.
pub(crate) fn value_end(s: &[u8], at: usize) -> Option<usize>
    ensures { IfSome result (λ r. Quoted s.now at r) }
{
    let quote = quote_at(s, at)?;
    text_end(s, at + 1, quote)
}
