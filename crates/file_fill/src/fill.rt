// The pass that writes the image of a file that the lane has found good, by the same nodes: they say what comes, so that a tag is compared only where
// more than one may.

ghost use Rattle.std.specs.Prelude.{◌≡◌, List, ℕ, ◌+◌, ◌*◌, ◌≤◌, length, drop};
ghost use Rattle.text.specs.Bytes.{is_blank};
ghost use Rattle.text.specs.Lists.{span};
ghost use Rattle.value.specs.Judged.{Exactly};
ghost use Rattle.file_nodes.specs.mirror.Fields.{width, info, too_far};
ghost use Rattle.file_lane.specs.mirror.Turn.{Matches};
ghost use Rattle.file_fill.specs.mirror.Fills.{StandsAt, Meets, TurnAsked, Went, Fillable, Fills};

use crate::puts::{Put, put_value};
use file_chunks::{eight, equal_under};
use file_nodes::fields::{INFO, ITEM, MORE, NEXT, OTHER, OVER, ROW, SECOND_MASK, WIDTH};
use image_head::put_head;
use text::span::blanks_end;
use value_shared::place::place;

// How many bytes of a tag are read as one number.
const EIGHT: usize = 8;

// Whether two chunks are what stands in the table for the tag of a node.
// Kept: the lane (file_lane/src/tag.rt) has one like it: one for both would be a public function, and these ask nothing of who calls them.
fn is_tag(nodes: &[u64], n: usize, x: u64, y: u64) -> bool
    requires { width * n + info ≤ length nodes.now }
    ensures { Exactly result (Matches nodes.now (width * n) x y) }
{
    let k = WIDTH * n;
    equal_under(
        x,
        nodes[k + 1],
        nodes[k],
        y,
        nodes[k + SECOND_MASK],
        nodes[k + 2],
    )
}

// The node whose tag stands at a place, from a node on: one of them does.
fn seek(nodes: &[u64], from: usize, s: &[u8], at: usize) -> usize
    requires { ((bs : List ℕ) × StandsAt nodes.now s.now from at bs) × (span is_blank (drop at s.now) ≡ 0) × (at ≤ too_far) }
    ensures { (bs : List ℕ) → StandsAt nodes.now s.now from at bs → Meets nodes.now s.now result at bs }
{
    if nodes[WIDTH * from + INFO] / OTHER % 256 == 0 {
        return from;
    }
    let x = eight(s, at);
    let y = eight(s, at + EIGHT);
    let mut n = from;
    while !is_tag(nodes, n, x, y) {
        n = (nodes[WIDTH * n + INFO] / OTHER % 256) as usize;
    }
    n
}

// One turn: the item of a node whose tag stands at a place, and on to the next tag.
fn put(nodes: &[u64], n: usize, s: &[u8], at: usize, out: &mut [u8], to: usize) -> Put
    requires { TurnAsked nodes.now s.now n at out.old to }
    ensures { (bs : List ℕ) → Meets nodes.now s.now n at bs → Went nodes.now s.now n at out.old to bs result.at result.end out.new }
{
    let k = WIDTH * n;
    let info = nodes[k + INFO];
    let from = at + (info % 256) as usize;
    let more = (info / MORE % 256) as usize;
    if info / ITEM % 256 == 0 {
        return Put {
            at: to,
            end: from + more,
        };
    }
    place(out, to, (info / ROW % 256) as u8);
    let kind = (info / 256 % 256) as u8;
    if kind < 2 {
        return Put {
            at: to + 1,
            end: from + more,
        };
    }
    let value = put_value(nodes, k, kind, s, from, out, to + 1);
    Put {
        at: value.at,
        end: value.end + more,
    }
}

// Into a buffer that has room for it.
pub(crate) fn fill(nodes: &[u64], s: &[u8], from: usize, kind: u8, out: &mut [u8])
    requires { Fillable nodes.now s.now from out.old }
    ensures { Fills nodes.now s.now from kind out.old out.new }
{
    let mut to = put_head(out, kind);
    let mut at = from;
    let mut n: usize = 1;
    loop {
        let less = blanks_end(s, at);
        let found = seek(nodes, n, s, less);
        let info = nodes[WIDTH * found + INFO];
        if info / 256 % 256 == OVER {
            place(out, to, 0);
            return;
        }
        let past = put(nodes, found, s, less, out, to);
        to = past.at;
        at = past.end;
        n = (info / NEXT % 256) as usize;
    }
}
