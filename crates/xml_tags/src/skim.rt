// A tag of a message that is known to be good, by no more of its places than the image needs.

// An opening tag: its name goes up to stop, its first attribute's value, without the quotes, stands at value .. quote.
#[derive(Clone, Copy)]
pub struct Tag {
    pub stop: usize,
    pub end: usize,
    pub value: usize,
    pub quote: usize,
}
