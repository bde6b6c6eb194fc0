// Over the bytes of a text that stand for themselves, where nothing is judged: all but `<`, which ends it, and `&`.

ghost use Rattle.std.specs.Prelude.{◌≡◌, true, ◌+◌, ◌≤◌, length, drop};
ghost use Rattle.text.specs.Lists.{span};
ghost use Rattle.value_levels.specs.mirror.Levels.{block};
ghost use Rattle.value_levels.specs.mirror.Runs.{is_plain, Over};

use crate::blocks::{BLOCK, blocks_end};
use text::run::run_end;

// Whether a byte stands for itself in a text, and ends none.
#[tactic(auto, unfolding(crate::specs::mirror::Runs::is_plain))]
fn is_plain(b: u8) -> bool
    ensures { result ≡ is_plain b }
{
    (b != b'<') & (b != b'&')
}

// Whether so many bytes do. All are looked at, which the compiler does at once.
fn sixteen(s: &[u8], at: usize) -> bool
    requires { at + block ≤ length s.now }
    ensures { result ≡ true → Over is_plain s.now at (at + block) }
{
    let mut all = true;
    for b in &s[at..at + BLOCK] {
        all &= is_plain(*b);
    }
    all
}

// The end of such bytes from a place on.
pub fn plain_end(s: &[u8], at: usize) -> usize
    ensures { result ≡ at + span is_plain (drop at s.now) }
{
    run_end(s, blocks_end(s, at, |i| sixteen(s, i)), is_plain)
}
