// A text and the tag after it, by their places.

use crate::attribute::Attribute;

// What stands after a text.
#[derive(Clone, Copy)]
pub enum Kind {
    // `<a ..>`
    Open,
    // `<a ../>`
    Empty,
    // `</a>`
    Close,
    // Nothing: the bytes end.
    End,
}

// A text up to less, then a tag whose `<` is there; its name stands at less + 1 .. stop. A close or an end has neither name nor
// attributes here: its stop is less.
#[derive(Clone, Copy)]
pub struct Token {
    pub kind: Kind,
    pub less: usize,
    pub stop: usize,
    pub attributes: usize,
    pub first: Attribute,
    pub end: usize,
}
