// Where a text stops being house XML. One pass over the bytes, no heap; a function for each construct, which goes over it by
// spans and answers the place after it, or the place at which no house XML text goes on.
#![tactic(auto)]

ghost use Rattle.xml_scan.specs.Right.{Right};

use elements::elements;
use prolog::prolog;
use table::Classes;
use text::span::blanks_end;
use xml_pieces::Stopped;

mod attribute; // attribute.rt: an attribute, whose name is none of those before it
mod content; // content.rt: text between tags
mod elements; // elements.rt: elements within elements
mod prolog; // prolog.rt: what stands before the first element
mod seen; // seen.rt: the names of a tag's attributes
mod stack; // stack.rt: the names of the open elements, the innermost on top
mod table; // table.rt: the class of each byte
mod tag; // tag.rt: what stands between `<` and `>`

// Over a whole text: what stands before the first element, the element, and blanks after it. Where it is no house XML, so many leading
// bytes are the most that still begin some house XML text.
pub fn scan(s: &[u8]) -> Result<(), Stopped>
    ensures { Right s.now result }
{
    let classes = Classes::new();
    let root = prolog(s)?;
    let behind = elements(s, root, &classes)?;
    let end = blanks_end(s, behind);
    if end < s.len() {
        return Err(Stopped { at: end });
    }
    Ok(())
}
