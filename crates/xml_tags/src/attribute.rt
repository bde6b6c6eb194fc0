// Attributes of a tag, by their places.

// Its name stands at name .. stop, its value, without the quotes, at value .. quote; it ends after the second quote. Where there is no
// attribute all five are the place after the blanks, so that the name is empty.
#[derive(Clone, Copy)]
pub struct Attribute {
    pub name: usize,
    pub stop: usize,
    pub value: usize,
    pub quote: usize,
    pub end: usize,
}

// Attributes one after the other: how many, and where the blanks after them end.
#[derive(Clone, Copy)]
pub struct Passed {
    pub count: usize,
    pub end: usize,
}
