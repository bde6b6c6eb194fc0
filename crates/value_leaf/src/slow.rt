// Any text of a leaf, by the checkers of its kind: what the fast ways leave.

ghost use Rattle.std.specs.Prelude.{◌≡◌, ◌≢◌, ◌+◌, drop};
ghost use Rattle.text.specs.Lists.{span};
ghost use Rattle.list.specs.Listing.{txt};
ghost use Rattle.value.specs.Kind.{code};
ghost use Rattle.value_leaf.specs.Leafed.{is_inside, Leafed, CutTold};

use crate::found::{Found, tell};
use text::part::{begins, part_of};
use text::run::run_end;
use value_kinds::write::size;

// Where the text that goes on from a place ends: at the next `<`, or with the file.
#[tactic(auto, unfolding(crate::specs::Leafed::is_inside))]
pub fn text_end(s: &[u8], at: usize) -> usize
    ensures { result ≡ at + span is_inside (drop at s.now) }
{
    run_end(s, at, |b| b != b'<')
}

// Whether `]]>` stands in a text.
fn is_cut(t: &[u8]) -> bool
    ensures { CutTold t.now result }
{
    for i in 0..t.len() {
        if begins(t, i, b"]]>") {
            return true;
        }
    }
    false
}

// A text in which `]]>` may stand, as in those of REF and TXTk.
pub fn slow(kind: u8, k: usize, s: &[u8], at: usize) -> Found
    ensures { Leafed kind k s.now at result }
{
    let end = text_end(s, at);
    let t = part_of(s, at, end);
    if is_cut(t) {
        return tell(end, 0);
    }
    tell(end, size(kind, k, t))
}

// A text of another kind: none of their values has `]` or `>`.
pub fn plain(kind: u8, k: usize, s: &[u8], at: usize) -> Found
    ensures { kind ≢ 2 → kind ≢ code (txt k) → Leafed kind k s.now at result }
{
    let end = text_end(s, at);
    tell(end, size(kind, k, part_of(s, at, end)))
}
