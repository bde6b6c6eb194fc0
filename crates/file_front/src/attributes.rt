// The attributes of the root's tag, one after the other: the namespace of a list and, besides it, schema hints, in any order and each once.

ghost use Rattle.std.specs.Prelude.{IfSome};
ghost use Rattle.text.specs.Bytes.{ascii};
ghost use Rattle.file_front.specs.mirror.Attributes.{Gains, Adds, Carries, Shut};

use crate::quoted::{value_end, word_end};
use crate::spaces::{house_space, report_space};
use list_house::by_byte::REPORT;
use text::part::begins;
use text::span::blanks_end;

// Their names, each with its `=`.
const XMLNS: [u8; 6] = *b"xmlns=";

const PREFIX: [u8; 10] = *b"xmlns:xsi=";

const LOCATION: [u8; 19] = *b"xsi:schemaLocation=";

// The kind byte of a statement.
const STATEMENT: usize = 1;

// What came so far: the kind byte of the list whose namespace came, whether `xmlns:xsi` and `xsi:schemaLocation` came, and the place after all of it.
#[derive(Clone, Copy)]
pub(crate) struct Carried {
    pub at: usize,
    pub kind: Option<usize>,
    pub prefix: bool,
    pub location: bool,
}

// With the namespace of a list, which stands at a place: its characters are written in one way only.
fn with_space(s: &[u8], at: usize, seen: Carried) -> Option<Carried>
    ensures { IfSome result (λ d. Gains (ascii "xmlns") s.now at seen d) }
{
    if seen.kind.is_some() {
        return None;
    }
    if let Some(end) = word_end(s, at, &house_space()) {
        return Some(Carried {
            at: end,
            kind: Some(STATEMENT),
            ..seen
        });
    }
    let end = word_end(s, at, &report_space())?;
    Some(Carried {
        at: end,
        kind: Some(REPORT),
        ..seen
    })
}

// With `xmlns:xsi`.
fn with_prefix(s: &[u8], at: usize, seen: Carried) -> Option<Carried>
    ensures { IfSome result (λ d. Gains (ascii "xmlns:xsi") s.now at seen d) }
{
    if seen.prefix {
        return None;
    }
    let end = value_end(s, at)?;
    Some(Carried {
        at: end,
        prefix: true,
        ..seen
    })
}

// With `xsi:schemaLocation`.
fn with_location(s: &[u8], at: usize, seen: Carried) -> Option<Carried>
    ensures { IfSome result (λ d. Gains (ascii "xsi:schemaLocation") s.now at seen d) }
{
    if seen.location {
        return None;
    }
    let end = value_end(s, at)?;
    Some(Carried {
        at: end,
        location: true,
        ..seen
    })
}

// With one attribute more, after some blanks.
fn with_one(s: &[u8], seen: Carried) -> Option<Carried>
    ensures { IfSome result (λ d. Adds s.now seen d) }
{
    let from = blanks_end(s, seen.at);
    if from == seen.at {
        return None;
    }
    if begins(s, from, &XMLNS) {
        return with_space(s, from + XMLNS.len(), seen);
    }
    if begins(s, from, &PREFIX) {
        return with_prefix(s, from + PREFIX.len(), seen);
    }
    if begins(s, from, &LOCATION) {
        return with_location(s, from + LOCATION.len(), seen);
    }
    None
}

// All that come from a place on, up to `>`.
pub(crate) fn attributes_from(s: &[u8], at: usize) -> Option<Carried>
    ensures { IfSome result (λ c. Carries s.now at c × Shut s.now c.at) }
{
    let mut seen = Carried {
        at,
        kind: None,
        prefix: false,
        location: false,
    };
    while !begins(s, seen.at, b">") {
        seen = with_one(s, seen)?;
    }
    Some(seen)
}
