// Over the bytes of a class a block at a time, where a test looks at all bytes of one at once.

ghost use Rattle.std.specs.Prelude.{◌≡◌, true, ℕ, Bool, ◌+◌, ◌≤◌, length};
ghost use Rattle.value_levels.specs.mirror.Levels.{block};
ghost use Rattle.value_levels.specs.mirror.Runs.{Over};

// So many bytes are a block.
pub(crate) const BLOCK: usize = 16;

// One less.
const SHORT_BLOCK: usize = BLOCK - 1;

// Where the first block begins that does not pass; where less than a block is left, there. Whatever class a test that passes speaks of, the bytes before are
// of it.
pub(crate) fn blocks_end<F: Fn(usize) -> bool>(s: &[u8], at: usize, passes: F) -> usize
    requires { (i : ℕ) → i + block ≤ length s.now → F.pre passes i }
    ensures { (p : ℕ → Bool) → ((i : ℕ) → F.post passes i true → Over p s.now i (i + block)) → Over p s.now at result }
{
    let last = s.len().saturating_sub(SHORT_BLOCK);
    let mut i = at;
    while i < last && passes(i) {
        i += BLOCK;
    }
    i
}
