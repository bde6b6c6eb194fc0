// Where the walk begins: the root's tag.

ghost use Rattle.std.specs.Prelude.{◌≡◌};
ghost use Rattle.file_walk.specs.mirror.Begin.{is_root_in, refused_at, rooted_in, hollow_in, begin_in};

use crate::hints::root_attributes;
use answer::Answer;
use file_walk::level::fresh;
use file_walk::step::{Here, Refusal};
use list::lookup::is_name;
use text::part::part_of;
use xml_cursor::token::{opening, start};
use xml_tags::token::Kind;

// Whether a tag with its `<` at less is the root's: row 1's name, and attributes that the root may carry.
#[tactic(auto, unfolding(file_walk::specs::mirror::Begin::is_root_in, file_walk::specs::mirror::Begin::is_first_in))]
fn is_root(rows: &[u16], pool: &[u8], s: &[u8], less: usize, stop: usize, count: usize) -> bool
    ensures { result ≡ is_root_in rows.now pool.now s.now less stop count }
{
    less < s.len()
        && is_name(rows, pool, 1, part_of(s, less + 1, stop))
        && root_attributes(rows, pool, s, stop, count)
}

// A refusal of what stands there: the walk would stand after it.
fn refused(here: Here, answer: Answer) -> Refusal
    ensures { result ≡ refused_at here answer }
{
    Refusal { answer, here }
}

// A tag as the root of a message that goes on after it.
#[tactic(auto, unfolding(file_walk::specs::mirror::Begin::rooted_in))]
fn rooted(root: bool, here: Here, less: usize) -> Result<Here, Refusal>
    ensures { result ≡ rooted_in root here less }
{
    if !root {
        return Err(refused(here, Answer::wrong_root(less)));
    }
    Ok(here)
}

// A tag as the root of a message without content: it has no child.
#[tactic(auto, unfolding(file_walk::specs::mirror::Begin::hollow_in))]
fn hollow(root: bool, less: usize) -> Answer
    ensures { result ≡ hollow_in root less }
{
    if !root {
        return Answer::wrong_root(less);
    }
    Answer::empty(1, less)
}

// The root's tag: where the walk stands in the root; or the first violation, and where it would stand. Bytes without a tag there are no
// house XML.
pub fn begin(rows: &[u16], pool: &[u8], s: &[u8]) -> Result<Here, Refusal>
    ensures { result ≡ begin_in rows.now pool.now s.now }
{
    let token = opening(s, start(s));
    let less = token.less;
    let level = fresh(rows, 1, less);
    let here = Here {
        level,
        depth: 0,
        at: token.end,
        value: 0,
        quote: 0,
    };
    let root = is_root(rows, pool, s, less, token.stop, token.attributes);
    match token.kind {
        Kind::Open => rooted(root, here, less),
        Kind::Empty => Err(refused(here, hollow(root, less))),
        Kind::Close => Err(refused(here, Answer::not_house_xml(less))),
        Kind::End => Err(refused(here, Answer::not_house_xml(less))),
    }
}
