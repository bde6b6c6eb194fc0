// Attributes of a tag, by their places.

ghost use Rattle.std.specs.Prelude.{◌≡◌, drop};
ghost use Rattle.xml_tags.specs.mirror.Attributes.{nowhere, attribute_at, passed_at};

use text::span::blanks_end;
use xml_marks::{name_end, past, until, until_quote};
use xml_tags::attribute::{Attribute, Passed};

// No attribute: the place after the blanks.
pub(crate) fn nowhere(at: usize) -> Attribute
    ensures { result ≡ nowhere at }
{
    Attribute {
        name: at,
        stop: at,
        value: at,
        quote: at,
        end: at,
    }
}

// The attribute after a place: after the tag's name, or after the attribute before.
pub fn attribute_at(s: &[u8], at: usize) -> Attribute
    ensures { result ≡ attribute_at at (drop at s.now) }
{
    let name = blanks_end(s, at);
    let stop = name_end(s, name);
    if stop == name {
        return nowhere(name);
    }
    let mark = until_quote(s, stop);
    if s.len() <= mark {
        return Attribute {
            name,
            stop,
            value: mark,
            quote: mark,
            end: mark,
        };
    }
    let value = mark + 1;
    let quote = until(s, value, s[mark]);
    let end = past(s, quote);
    Attribute {
        name,
        stop,
        value,
        quote,
        end,
    }
}

// All attributes after a place.
pub(crate) fn attributes_at(s: &[u8], at: usize) -> Passed
    ensures { result ≡ passed_at at (drop at s.now) }
{
    let mut count = 0;
    let mut i = at;
    loop {
        let a = attribute_at(s, i);
        if a.stop == a.name {
            return Passed { count, end: a.name };
        }
        count += 1;
        i = a.end;
    }
}
