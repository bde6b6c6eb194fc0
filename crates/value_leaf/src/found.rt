// What is told of a leaf's text: where it ends, and how many bytes its value has, if it spells one.

ghost use Rattle.std.specs.Prelude.{◌≡◌};
ghost use Rattle.value_leaf.specs.Leafed.{found_of};

#[derive(Clone, Copy)]
pub struct Found {
    pub end: usize,
    pub size: Option<usize>,
}

// Of so many bytes; no value has 0, with which the checkers say that there is none.
pub fn tell(end: usize, size: usize) -> Found
    ensures { result ≡ found_of end size }
{
    if size == 0 {
        return Found { end, size: None };
    }
    Found {
        end,
        size: Some(size),
    }
}
