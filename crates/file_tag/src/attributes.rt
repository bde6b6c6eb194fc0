// The attributes of a tag below the root: an amount's currency, none for the rest.

ghost use Rattle.std.specs.Prelude.{◌≡◌};
ghost use Rattle.file_walk.specs.mirror.Stride.{own_in};

use list::lookup::cell;
use list::table::{AMT, KIND};
use text::part::{part_of, same};
use value_codes::ccy::is_ccy;
use xml_tags::attribute::Attribute;

const CCY: &[u8] = b"Ccy";

// Whether a tag's attributes are exactly those of row r's type.
#[tactic(auto, unfolding(file_walk::specs::mirror::Stride::own_in, file_walk::specs::mirror::Stride::named))]
pub fn own(rows: &[u16], s: &[u8], r: usize, count: usize, a: Attribute) -> bool
    ensures { result ≡ own_in rows.now s.now r count a }
{
    if cell(rows, r, KIND) != AMT {
        return count == 0;
    }
    if count != 1 {
        return false;
    }
    if !same(CCY, part_of(s, a.name, a.stop)) {
        return false;
    }
    is_ccy(part_of(s, a.value, a.quote))
}
