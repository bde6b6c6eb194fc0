// One step of the walk: a text, and the tag after it.

ghost use Rattle.std.specs.Prelude.{◌≡◌, ◌<◌};
ghost use Rattle.file_walk.specs.mirror.Stride.{text_from, ink_from, end_in, outer, closed_in, row_in, entered_in, below_in, vacant_in, step_in, stack_in};

use answer::Answer;
use file_tag::attributes::own;
use file_tag::level::advance;
use file_tag::tag::{group_end, opening};
use file_walk::level::{Level, fresh};
use file_walk::step::{Here, Turn};
use list::kind::is_group;
use list::lookup::{cell, child};
use list::table::{KIND, MOST_LEVELS};
use text::part::part_of;
use text::span::blanks_end;
use xml_cursor::token::next;
use xml_tags::attribute::Attribute;
use xml_tags::token::Kind;

// The number of the innermost level that there may be, from 0.
const LAST_LEVEL: usize = MOST_LEVELS - 1;

// From where a text is looked at. In a group it is nearly always blanks, so that these are passed once and the tag stands there.
#[tactic(auto, unfolding(file_walk::specs::mirror::Stride::text_from))]
fn text_from(s: &[u8], group: bool, at: usize) -> usize
    ensures { result ≡ text_from s.now group at }
{
    if group { blanks_end(s, at) } else { at }
}

// The first character of the text from .. less that a group may not have, or less.
#[tactic(auto, unfolding(file_walk::specs::mirror::Stride::ink_from))]
fn ink(group: bool, from: usize, less: usize) -> usize
    ensures { result ≡ ink_from group from less }
{
    if group { from } else { less }
}

// The end of an element: of a leaf only whether it has a character at all.
#[tactic(auto, unfolding(file_walk::specs::mirror::Stride::end_in))]
fn end_of(rows: &[u16], group: bool, lv: Level, at: usize, less: usize) -> Result<(), Answer>
    ensures { result ≡ end_in rows.now group lv at less }
{
    if group {
        return group_end(rows, lv);
    }
    if less == at {
        return Err(Answer::empty(lv.row, lv.place));
    }
    Ok(())
}

// The n-th element on the stack is the innermost again, after a tag that ends at a place.
fn around(stack: &[Level; MOST_LEVELS], n: usize, end: usize) -> Here
    requires { n < 16 }
    ensures { result ≡ outer stack.now n end }
{
    Here {
        level: stack[n],
        depth: n,
        at: end,
        value: 0,
        quote: 0,
    }
}

// A closing tag.
#[tactic(auto, unfolding(file_walk::specs::mirror::Stride::closed_in))]
fn closed(
    rows: &[u16],
    group: bool,
    stack: &[Level; MOST_LEVELS],
    here: Here,
    less: usize,
    end: usize,
) -> Result<Turn, Answer>
    ensures { result ≡ closed_in rows.now group stack.now here less end }
{
    end_of(rows, group, here.level, here.at, less)?;
    let depth = here.depth;
    if depth == 0 {
        return Ok(Turn::Ended(less));
    }
    if MOST_LEVELS < depth {
        return Err(Answer::not_house_xml(less));
    }
    let outer = around(stack, depth - 1, end);
    Ok(Turn::Closed(outer, less))
}

// The row of a tag's name, among the children of the innermost element; 0 where it is none.
#[tactic(auto, unfolding(file_walk::specs::mirror::Stride::row_in))]
fn row_of(rows: &[u16], pool: &[u8], s: &[u8], lv: Level, less: usize, stop: usize) -> usize
    ensures { result ≡ row_in rows.now pool.now s.now lv less stop }
{
    if less < s.len() {
        return child(rows, pool, lv.row, lv.last, part_of(s, less + 1, stop));
    }
    0
}

// The opening tag of an element that goes on.
#[tactic(auto, unfolding(file_walk::specs::mirror::Stride::entered_in, file_walk::specs::mirror::Stride::below_in))]
fn entered(
    rows: &[u16],
    stack: &mut [Level; MOST_LEVELS],
    here: Here,
    r: usize,
    ok: bool,
    less: usize,
    end: usize,
    a: Attribute,
) -> Result<Turn, Answer>
    ensures { (result ≡ entered_in rows.now here r ok less end a) × (stack.new ≡ below_in rows.now stack.old here r ok less) }
{
    opening(rows, here.level, r, ok, less)?;
    let n = here.depth;
    if LAST_LEVEL < n {
        return Err(Answer::not_house_xml(less));
    }
    stack[n] = advance(rows, here.level, r);
    let level = fresh(rows, r, less);
    Ok(Turn::Opened(Here {
        level,
        depth: n + 1,
        at: end,
        value: a.value,
        quote: a.quote,
    }))
}

// An element without content: if nothing else is wrong with it, it has no child or no character.
#[tactic(auto, unfolding(file_walk::specs::mirror::Stride::vacant_in))]
fn vacant(rows: &[u16], here: Here, r: usize, ok: bool, less: usize) -> Answer
    ensures { result ≡ vacant_in rows.now here r ok less }
{
    match opening(rows, here.level, r, ok, less) {
        Err(violation) => violation,
        Ok(()) => Answer::empty(r, less),
    }
}

// One step: the text after `here`, and the tag after it. Bytes that end, and levels beyond 16, are no house XML.
pub fn step(
    rows: &[u16],
    pool: &[u8],
    s: &[u8],
    stack: &mut [Level; MOST_LEVELS],
    here: Here,
) -> Result<Turn, Answer>
    ensures { (result ≡ step_in rows.now pool.now s.now stack.old here) × (stack.new ≡ stack_in rows.now pool.now s.now stack.old here) }
{
    let lv = here.level;
    let group = is_group(cell(rows, lv.row, KIND));
    let from = text_from(s, group, here.at);
    let token = next(s, from);
    let less = token.less;
    let bad = ink(group, from, less);
    if bad < less {
        return Err(Answer::text_in_group(lv.row, bad));
    }
    let hollow = match token.kind {
        Kind::Close => return closed(rows, group, stack, here, less, token.end),
        Kind::End => return Err(Answer::not_house_xml(less)),
        Kind::Empty => true,
        Kind::Open => false,
    };
    // The lookup is the longest part of a step, so that it stands once, for elements with and without content.
    let a = token.first;
    let r = row_of(rows, pool, s, lv, less, token.stop);
    let ok = own(rows, s, r, token.attributes, a);
    if hollow {
        return Err(vacant(rows, here, r, ok, less));
    }
    entered(rows, stack, here, r, ok, less, token.end, a)
}
