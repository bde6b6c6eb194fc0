// The names of a tag's attributes that came, as parts of the text. They have room of their own, since it is laid out anew for each tag.
ghost use Rattle.std.specs.Prelude.{◌≡◌, ◌≤◌, ◌<◌, List, [], ◌∷◌, ℕ, length, take, map, reverse};
ghost use Rattle.std.specs.List.{list_any};
ghost use Rattle.text.specs.Lists.{same};
ghost use Rattle.xml.specs.mirror.Auto.{member};
ghost use Rattle.xml_scan.specs.declared.seen.TheConstants.{MOST_ATTRIBUTES};

use std::marker::Model;
use text::part::same;

// "At most four attributes".
pub(crate) const MOST_ATTRIBUTES: usize = 4;

#[derive(Drop)]
pub(crate) struct Seen<'a> {
    parts: [&'a [u8]; MOST_ATTRIBUTES],
    count: usize,
}

impl<'a> Model for Seen<'a> {
    ghost Value = { List (List ℕ) };

    ghost view = { λ n. reverse (map (λ b. b.now) (take n.count n.parts)) };

    ghost invariant = { λ n. n.count ≤ MOST_ATTRIBUTES };
}

impl<'a> Seen<'a> {
    pub(crate) fn new() -> Seen<'a>
        ensures { result ≡ [] }
    {
        Seen {
            parts: [b""; MOST_ATTRIBUTES],
            count: 0,
        }
    }

    pub(crate) fn len(&self) -> usize
        ensures { result ≡ length self.now }
    {
        self.count
    }

    pub(crate) fn push(&mut self, name: &'a [u8])
        requires { length self.old < MOST_ATTRIBUTES }
        ensures { self.new ≡ name.now ∷ self.old }
    {
        self.parts[self.count] = name;
        self.count += 1;
    }

    pub(crate) fn contains(&self, name: &[u8]) -> bool
        ensures { result ≡ member name.now self.now }
    {
        any_same(&self.parts[..self.count], name)
    }
}

// Whether one of these names is that one.
fn any_same(names: &[&[u8]], name: &[u8]) -> bool
    ensures { result ≡ list_any (λ n. same name.now n.now) names.now }
{
    names.iter().any(|n| same(name, n))
}
