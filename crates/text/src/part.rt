// Parts of slices, cut out and compared. A part is what lies between two places, as far as the slice goes; past its end, or backwards, it is empty.

ghost use Rattle.std.specs.Prelude.{◌≡◌, length, drop};
ghost use Rattle.std.proofs.Math.Seq.{slice};
ghost use Rattle.text.specs.Lists.{same};
ghost use Rattle.text.specs.Words.{starts};

// How long the part from a to b is.
pub fn part_len(s: &[u8], a: usize, b: usize) -> usize
    ensures { result ≡ length (slice a b s.now) }
{
    part_of(s, a, b).len()
}

// The part of s from a up to b, as far as s reaches.
pub fn part_of(s: &[u8], a: usize, b: usize) -> &[u8]
    ensures { result.now ≡ slice a b s.now }
{
    s.get(a..b.min(s.len())).unwrap_or(&[])
}

// What follows from a place on; nothing from the end on.
pub fn rest(s: &[u8], at: usize) -> &[u8]
    ensures { result.now ≡ drop at s.now }
{
    s.get(at..).unwrap_or(&[])
}

// Whether two slices have the same bytes.
pub fn same(s: &[u8], t: &[u8]) -> bool
    ensures { result ≡ same s.now t.now }
{
    s == t
}

// Whether s goes on with the word at a place.
pub fn begins(s: &[u8], at: usize, word: &[u8]) -> bool
    ensures { result ≡ starts word.now (drop at s.now) }
{
    rest(s, at).starts_with(word)
}
