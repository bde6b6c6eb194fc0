// How far bytes of a class reach from a place, by any test of a byte. A place past the end is its own answer.

ghost use Rattle.std.specs.Prelude.{◌≡◌, ◌+◌, drop, ℕ, Bool};
ghost use Rattle.text.specs.Lists.{span};

// Where the run of bytes of a class ends. Whatever test of numbers the class answers by, the run is that test's span.
pub fn run_end<F: Fn(u8) -> bool>(s: &[u8], at: usize, class: F) -> usize
    requires { F.IsAlwaysCallable class }
    ensures { (p : ℕ → Bool) → ((b : ℕ) (r : Bool) → F.post class b r → r ≡ p b) → result ≡ at + span p (drop at s.now) }
{
    // Kept: an index, as over `iter().take_while(..).count()` a call took 5 instructions more, and many runs are short.
    for i in at..s.len() {
        if !class(s[i]) {
            return i;
        }
    }
    at.max(s.len())
}
