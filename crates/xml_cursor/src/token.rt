// A text and the tag after it, by their places.

ghost use Rattle.std.specs.Prelude.{◌≡◌, drop};
ghost use Rattle.xml_tags.specs.Places.{RootAt};
ghost use Rattle.xml_tags.specs.mirror.Tokens.{bare, shut_at, tail_at, open_at, token_at, is_declared, start_of};

use crate::attribute::{attribute_at, attributes_at, nowhere};
use text::span::blanks_end;
use xml_marks::{byte_is, name_end, past, until};
use xml_tags::attribute::Attribute;
use xml_tags::token::{Kind, Token};

// A tag without name and attributes, or the end of the bytes.
fn bare(kind: Kind, less: usize, end: usize) -> Token
    ensures { result ≡ bare kind less end }
{
    let first = nowhere(less);
    Token {
        kind,
        less,
        stop: less,
        attributes: 0,
        first,
        end,
    }
}

// The tag whose `/` or `>` is at a place.
fn shut(s: &[u8], less: usize, stop: usize, attributes: usize, first: Attribute, at: usize) -> Token
    ensures { result ≡ shut_at less stop attributes first at (drop at s.now) }
{
    if byte_is(s, at, b'/') {
        let end = past(s, at + 1);
        return Token {
            kind: Kind::Empty,
            less,
            stop,
            attributes,
            first,
            end,
        };
    }
    let end = past(s, at);
    Token {
        kind: Kind::Open,
        less,
        stop,
        attributes,
        first,
        end,
    }
}

// The tag whose name ends at a place. Most have no attribute: then the place after the blanks is known already.
fn tail(s: &[u8], less: usize, stop: usize) -> Token
    ensures { result ≡ tail_at less stop (drop stop s.now) }
{
    let first = attribute_at(s, stop);
    if first.stop == first.name {
        return shut(s, less, stop, 0, first, first.name);
    }
    let more = attributes_at(s, first.end);
    shut(s, less, stop, more.count + 1, first, more.end)
}

// The text from a place on, and the tag after it.
pub fn next(s: &[u8], at: usize) -> Token
    ensures { result ≡ token_at at (drop at s.now) }
{
    let less = until(s, at, b'<');
    if s.len() <= less {
        return bare(Kind::End, less, less);
    }
    let name = less + 1;
    if byte_is(s, name, b'/') {
        let end = past(s, until(s, name, b'>'));
        return bare(Kind::Close, less, end);
    }
    // Nearly all names have a `>` after them: of these no more is asked.
    let stop = name_end(s, name);
    if byte_is(s, stop, b'>') {
        let end = stop + 1;
        let first = nowhere(stop);
        return Token {
            kind: Kind::Open,
            less,
            stop,
            attributes: 0,
            first,
            end,
        };
    }
    tail(s, less, stop)
}

// The opening tag whose `<` is at a place. The root's is read by this, so that `next` has the one caller that it is quick in.
pub fn opening(s: &[u8], less: usize) -> Token
    ensures { result ≡ open_at less (drop less s.now) }
{
    if s.len() <= less {
        return bare(Kind::End, less, less);
    }
    tail(s, less, name_end(s, less + 1))
}

// Whether s begins as a declaration does.
fn is_declared(s: &[u8]) -> bool
    ensures { result ≡ is_declared s.now }
{
    if byte_is(s, 0, b'<') {
        return byte_is(s, 1, b'?');
    }
    false
}

// Where the root begins.
pub fn start(s: &[u8]) -> usize
    ensures is { result ≡ start_of s.now }
    ensures means { RootAt s.now result }
{
    if is_declared(s) {
        return blanks_end(s, past(s, until(s, 0, b'>')));
    }
    blanks_end(s, 0)
}
