// Texts and tags of a message that is known to be good, by no more of their places than its image needs.
#![tactic(auto)]

ghost use Rattle.std.specs.Prelude.{◌≡◌, ◌+◌, drop};
ghost use Rattle.text.specs.Lists.{span};
ghost use Rattle.text_characters.specs.Pieces.{less, greater, solidus};
ghost use Rattle.xml_tags.specs.Marks.{but, head_is, behind};
ghost use Rattle.xml_tags.specs.mirror.Skimmed.{tag_of};
ghost use Rattle.xml_tags.specs.mirror.Tokens.{open_at};

use xml_cursor::token::opening;
use xml_marks::{byte_is, name_end, past, until};
use xml_tags::skim::Tag;

// The opening tag whose `<` is at a place. Nearly all names have a `>` after them: of these no more is asked.
pub fn tag_at(s: &[u8], less: usize) -> Tag
    ensures { result ≡ tag_of (open_at less (drop less s.now)) }
{
    if s.len() <= less {
        return Tag {
            stop: less,
            end: less,
            value: less,
            quote: less,
        };
    }
    let stop = name_end(s, less + 1);
    if byte_is(s, stop, b'>') {
        let end = stop + 1;
        return Tag {
            stop,
            end,
            value: stop,
            quote: stop,
        };
    }
    let token = opening(s, less);
    Tag {
        stop: token.stop,
        end: token.end,
        value: token.first.value,
        quote: token.first.quote,
    }
}

// Whether the tag whose name or `/` is at a place is a closing one.
pub fn is_close(s: &[u8], at: usize) -> bool
    ensures { result ≡ head_is solidus (drop at s.now) }
{
    byte_is(s, at, b'/')
}

// The end of the text from a place on.
pub fn text_end(s: &[u8], at: usize) -> usize
    ensures { result ≡ at + span (but less) (drop at s.now) }
{
    until(s, at, b'<')
}

// The end of the closing tag whose `/` is at a place.
pub fn close_end(s: &[u8], at: usize) -> usize
    ensures { result ≡ behind greater at (drop at s.now) }
{
    past(s, until(s, at, b'>'))
}
