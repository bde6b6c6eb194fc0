// One byte of a slice, and one byte into a lent buffer, and whether there is room for more.

ghost use Rattle.std.specs.Prelude.{◌≡◌, get_or, [], ◌∷◌, ◌+◌, ◌≤◌};
ghost use Rattle.text.specs.Pasting.{pasted};
ghost use Rattle.value.specs.Judged.{Exactly};

// A byte, 0 past the end.
pub fn byte(b: &[u8], i: usize) -> u8
    ensures { result ≡ get_or b.now i 0 }
{
    b.get(i).copied().unwrap_or(0)
}

// The byte n at a place of the buffer.
pub fn place(out: &mut [u8], at: usize, n: u8)
    ensures { out.new ≡ pasted out.old at (n ∷ []) }
{
    if at < out.len() {
        out[at] = n;
    }
}

// Whether n bytes from a place on end within len.
pub fn has_room(len: usize, at: usize, n: usize) -> bool
    ensures { Exactly result (at + n ≤ len) }
{
    at <= len && n <= len - at
}
