// The names of the open elements, as parts of the text. The innermost stands on top.
ghost use Rattle.std.specs.Prelude.{◌≡◌, ◌≤◌, ◌<◌, List, [], ◌∷◌, ℕ, length, take, map, reverse};

use std::marker::Model;

// "Nesting is at most 16".
pub(crate) const MOST_LEVELS: usize = 16;

#[derive(Drop)]
pub(crate) struct Names<'a> {
    parts: [&'a [u8]; MOST_LEVELS],
    count: usize,
}

impl<'a> Model for Names<'a> {
    ghost Value = { List (List ℕ) };

    ghost view = { λ n. reverse (map (λ b. b.now) (take n.count n.parts)) };

    ghost invariant = { λ n. n.count ≤ 16 };
}

impl<'a> Names<'a> {
    pub(crate) fn new() -> Names<'a>
        ensures { result ≡ [] }
    {
        Names {
            parts: [b""; MOST_LEVELS],
            count: 0,
        }
    }

    pub(crate) fn len(&self) -> usize
        ensures { result ≡ length self.now }
    {
        self.count
    }

    pub(crate) fn push(&mut self, name: &'a [u8])
        requires { length self.old < 16 }
        ensures { self.new ≡ name.now ∷ self.old }
    {
        self.parts[self.count] = name;
        self.count += 1;
    }

    pub(crate) fn pop(&mut self) -> &'a [u8]
        requires { 0 < length self.old }
        ensures top { self.old ≡ result.now ∷ self.new }
        ensures few { length self.old ≤ 16 }
    {
        self.count -= 1;
        self.parts[self.count]
    }
}
