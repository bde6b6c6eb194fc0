// The root's attributes: the list's namespace and, besides it, schema hints. They are looked at one after the other, in any order.

ghost use Rattle.std.specs.Prelude.{◌≡◌};
ghost use Rattle.file_walk.specs.mirror.Begin.{space_in, noted_in, nothing, carried_in, allowed};

use file_walk::hints::Carried;
use list::lookup::is_space;
use text::part::{part_of, same};
use xml_cursor::attribute::attribute_at;
use xml_tags::attribute::Attribute;

const XMLNS: &[u8] = b"xmlns";

const PREFIX: &[u8] = b"xmlns:xsi";

const LOCATION: &[u8] = b"xsi:schemaLocation";

// Whether an attribute is xmlns with the list's namespace.
#[tactic(auto, unfolding(file_walk::specs::mirror::Begin::space_in, file_walk::specs::mirror::Stride::named))]
fn space(rows: &[u16], pool: &[u8], s: &[u8], a: Attribute) -> bool
    ensures { result ≡ space_in rows.now pool.now s.now a }
{
    same(XMLNS, part_of(s, a.name, a.stop)) && is_space(rows, pool, part_of(s, a.value, a.quote))
}

// One attribute more; a second namespace is as any other.
#[tactic(auto, unfolding(file_walk::specs::mirror::Begin::noted, file_walk::specs::mirror::Stride::named))]
fn noted(rows: &[u16], pool: &[u8], s: &[u8], seen: Carried, a: Attribute) -> Carried
    ensures { result ≡ noted_in rows.now pool.now s.now seen a }
{
    let name = part_of(s, a.name, a.stop);
    if same(PREFIX, name) {
        return Carried {
            prefix: true,
            ..seen
        };
    }
    if same(LOCATION, name) {
        return Carried {
            location: true,
            ..seen
        };
    }
    if !seen.space && space(rows, pool, s, a) {
        return Carried {
            space: true,
            ..seen
        };
    }
    Carried {
        other: true,
        ..seen
    }
}

// Whether the root may carry these: "An xsi attribute without its `xmlns:xsi` gives code 4".
#[tactic(auto, unfolding(file_walk::specs::mirror::Begin::allowed))]
fn allowed(seen: Carried) -> bool
    ensures { result ≡ allowed seen }
{
    !seen.other && seen.space && (!seen.location || seen.prefix)
}

// Whether a tag's attributes, so many from a place on, are such as the root may carry.
pub(crate) fn root_attributes(
    rows: &[u16],
    pool: &[u8],
    s: &[u8],
    stop: usize,
    count: usize,
) -> bool
    ensures { result ≡ allowed (carried_in rows.now pool.now s.now nothing count stop) }
{
    let mut seen = Carried {
        space: false,
        prefix: false,
        location: false,
        other: false,
    };
    let mut at = stop;
    for _ in 0..count {
        let a = attribute_at(s, at);
        seen = noted(rows, pool, s, seen, a);
        at = a.end;
    }
    allowed(seen)
}
