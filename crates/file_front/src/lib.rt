// The front of a file: a declaration or none, blanks, and the root's tag with its namespace and schema hints in any order. Where the tag is written in
// another way, nothing is told.
#![tactic(auto)]

mod spaces; // spaces.rt: the namespaces of the lists
mod quoted; // quoted.rt: values in quotes
mod attributes; // attributes.rt: the attributes of the root's tag
mod ending; // ending.rt: how a file ends

ghost use Rattle.std.specs.Prelude.{◌≡◌, true, IfSome, Some};
ghost use Rattle.file_front.specs.Opens.{Opens};
ghost use Rattle.file_front.specs.mirror.Attributes.{Fronted};

use answer::Answer;
use attributes::{Carried, attributes_from};
use ending::is_closed;
use text::part::begins;
use text::span::blanks_end;

const DECLARATION: [u8; 38] = *b"<?xml version=\"1.0\" encoding=\"UTF-8\"?>";

const ROOT: [u8; 9] = *b"<Document";

// What stands at the front: the kind byte of the list whose root's tag it is, and the place after that tag.
#[derive(Clone, Copy)]
pub struct Front {
    pub kind: usize,
    pub from: usize,
}

// Where the root's tag may begin.
fn root_at(s: &[u8]) -> usize
    ensures { Fronted s.now result }
{
    if begins(s, 0, &DECLARATION) {
        return blanks_end(s, DECLARATION.len());
    }
    blanks_end(s, 0)
}

// The kind byte of the list whose root may carry these: a namespace, and "An xsi attribute without its `xmlns:xsi` gives code 4".
fn whole_kind(seen: Carried) -> Option<usize>
    ensures { IfSome result (λ b. (seen.kind ≡ Some b) × (seen.location ≡ true → seen.prefix ≡ true)) }
{
    if seen.location {
        if !seen.prefix {
            return None;
        }
    }
    seen.kind
}

// Which list's root stands at the front of a file, where that is told. A file beyond the limit is not looked at, nor one that does not end with its
// root's end tag.
pub fn front_of(s: &[u8]) -> Option<Front>
    ensures { IfSome result (λ f. Opens s.now f.kind f.from) }
{
    if Answer::LIMIT < s.len() {
        return None;
    }
    if !is_closed(s) {
        return None;
    }
    let less = root_at(s);
    if !begins(s, less, &ROOT) {
        return None;
    }
    let seen = attributes_from(s, less + ROOT.len())?;
    let kind = whole_kind(seen)?;
    Some(Front {
        kind,
        from: seen.at + 1,
    })
}
