// One turn: from a tag that stands at a place to the next tag. Where that can't be known here, nothing is told, and another decides.

ghost use Rattle.std.specs.Prelude.{◌≡◌, true, false, ◌≢◌, ◌+◌, ◌*◌, ◌/◌, ◌%◌, ◌≤◌, ◌<◌, IfSome, length};
ghost use Rattle.answer.specs.Table.{limit};
ghost use Rattle.list.specs.Listing.{amt};
ghost use Rattle.xml.specs.House.{single_quote, double, mark};
ghost use Rattle.value.specs.Kind.{code};
ghost use Rattle.value_levels.specs.mirror.Levels.{Leveled};
ghost use Rattle.file_nodes.specs.mirror.Fields.{width, coined_long, single, ending, too_far};
ghost use Rattle.file_nodes.specs.mirror.Kept.{In};
ghost use Rattle.file_lane.specs.mirror.Turn.{longest_item, fields_at, Closed, Listed, Coined, Goes, Turns};

use crate::tag::is_tag;
use file_chunks::{eight, eight_after, four};
use file_nodes::fields::{
    COINED, CURRENCY, END, INFO, ITEM, LETTERS, MORE, MORE_WORDS, MOST, OVER, SINGLE, UPPER, WIDTH,
    WORDS,
};
use text::class::is_capital;
use text::span::blanks_end;
use value_lane::leaf::leaf;
use value_levels::table::Levels;

// What was passed: the place after it, and how many bytes of the image it has.
#[derive(Clone, Copy)]
pub(crate) struct Past {
    pub at: usize,
    pub size: usize,
}

// Whether four letters at a place are one of the words of a node.
fn listed(nodes: &[u64], k: usize, s: &[u8], at: usize) -> bool
    requires { (k + width ≤ length nodes.now) × (at ≤ too_far) }
    ensures { result ≡ true → Listed nodes.now k s.now at }
{
    let x = four(s, at);
    let a = nodes[k + WORDS];
    let b = nodes[k + MORE_WORDS];
    (x == a % UPPER) | (x == a / UPPER) | (x == b % UPPER) | (x == b / UPPER)
}

// Where the `>` stands after a currency and its quote.
const GREATER: usize = CURRENCY + 1;

// Whether three capitals, this quote and `>` stand at a place.
fn coined(s: &[u8], at: usize, q: u8) -> bool
    requires { at ≤ too_far }
    ensures { result ≡ true → Coined q s.now at }
{
    if s.len() < at + COINED {
        return false;
    }
    if s[at + CURRENCY] != q {
        return false;
    }
    if s[at + GREATER] != b'>' {
        return false;
    }
    if !is_capital(s[at]) {
        return false;
    }
    if !is_capital(s[at + 1]) {
        return false;
    }
    is_capital(s[at + 2])
}

const LONG: u8 = 1;

const ENUM: u8 = 6;

const AMT: u8 = 9;

// The number of a leaf's type: an amount in double quotes has it, one in single quotes another.
fn sort(kind: u8) -> u8
    ensures { (kind ≡ single → result ≡ code amt) × (kind ≢ single → result ≡ kind) }
{
    if kind == SINGLE {
        return AMT;
    }
    kind
}

// The bytes between those of a leaf's node and its text: a currency, a quote and `>`, or none.
fn skip(kind: u8) -> usize
    ensures { (kind ≡ code amt → result ≡ coined_long) × (kind ≡ single → result ≡ coined_long) × (kind ≢ code amt → kind ≢ single → result ≡ 0) × (result ≤ coined_long) }
{
    if kind == AMT {
        return COINED;
    }
    if kind == SINGLE {
        return COINED;
    }
    0
}

// Whether an amount does not go on with its currency.
fn is_bare(s: &[u8], at: usize, kind: u8) -> bool
    requires { at ≤ too_far }
    ensures { result ≡ false → (kind ≡ code amt → Coined (mark double) s.now at) × (kind ≡ single → Coined (mark single_quote) s.now at) }
{
    if kind == AMT {
        return !coined(s, at, b'"');
    }
    if kind == SINGLE {
        return !coined(s, at, b'\'');
    }
    false
}

// What comes after the first sixteen bytes of a tag, up to what is compared at its end: nothing, or the text of a leaf. It tells where it ends, and how many
// bytes of the image the tag has with it. `leaf` is asked at one place, so that the compiler has it in the loop.
fn told(
    levels: &Levels,
    nodes: &[u64],
    k: usize,
    info: u64,
    kind: u8,
    s: &[u8],
    at: usize,
) -> Option<Past>
    requires { Leveled levels.now × (k + width ≤ length nodes.now) × (info ≡ fields_at nodes.now k) × (kind ≡ info / 256 % 256) × (at ≤ limit) × (length s.now ≤ limit) × (kind ≢ 0) × (kind ≢ ending) }
    ensures { IfSome result (λ p. Goes nodes.now k info s.now at p.at p.size × (at + info % 256 ≤ p.at) × (p.size ≤ longest_item) × (p.at ≤ too_far)) }
{
    let from = at + (info % 256) as usize;
    if kind == LONG {
        return Some(Past {
            at: from,
            size: (info / ITEM % 256) as usize,
        });
    }
    if kind == ENUM {
        if !listed(nodes, k, s, from) {
            return None;
        }
        return Some(Past {
            at: from + LETTERS,
            size: 2,
        });
    }
    if is_bare(s, from, kind) {
        return None;
    }
    let f = leaf(
        levels,
        sort(kind),
        (info / MOST % 256) as usize,
        s,
        from + skip(kind),
    );
    let size = f.size?;
    Some(Past {
        at: f.end,
        size: 1 + size,
    })
}

// The place after the rest of a tag, or after a leaf's closing tag, which stands at a place.
fn closed(nodes: &[u64], k: usize, info: u64, s: &[u8], end: usize) -> Option<usize>
    requires { (k + width ≤ length nodes.now) × (end ≤ too_far) }
    ensures { IfSome result (λ at. Closed nodes.now k info s.now end at × (end ≤ at)) }
{
    if !is_tag(nodes, k + END, eight(s, end), eight_after(s, end)) {
        return None;
    }
    Some(end + (info / MORE % 256) as usize)
}

const SHORT: u8 = 0;

const ENDING: u8 = OVER as u8;

// What comes after the first sixteen bytes of a node's tag, which stand at a place, up to the next tag. After the root's end blanks alone may come. Of a
// node without a tag nothing is told: each turn goes on.
pub(crate) fn passed(levels: &Levels, nodes: &[u64], n: usize, s: &[u8], at: usize) -> Option<Past>
    requires { Leveled levels.now × In nodes.now n × (at ≤ limit) × (length s.now ≤ limit) }
    ensures { IfSome result (λ p. Turns nodes.now (width * n) s.now at p.at p.size × (at < p.at) × (p.size ≤ longest_item)) }
{
    let k = WIDTH * n;
    let info = nodes[k + INFO];
    let long = (info % 256) as usize;
    if long == 0 {
        return None;
    }
    let kind = (info / 256 % 256) as u8;
    if kind == SHORT {
        return Some(Past {
            at: at + long,
            size: (info / ITEM % 256) as usize,
        });
    }
    if kind == ENDING {
        let from = at + long;
        if blanks_end(s, from) < s.len() {
            return None;
        }
        return Some(Past { at: from, size: 1 });
    }
    let text = told(levels, nodes, k, info, kind, s, at)?;
    let after = closed(nodes, k, info, s, text.at)?;
    Some(Past {
        at: after,
        size: text.size,
    })
}
