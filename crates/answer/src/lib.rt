// What every call of the unit hands back: a code, a row and a place. The numbers and names of the codes live here, and a
// constructor for each case fixes the row and the place that belong to it, so that no caller writes a code by hand.
#![tactic(auto)]

pub mod hand; // hand.rt: an answer for C

ghost use Rattle.std.specs.Prelude.{◌≡◌, ◌↔◌, IsTrue};
ghost use Rattle.answer.specs.Table.{answer, accepted, picked, too_long, not_utf8, not_house_xml, wrong_root, not_a_child, out_of_order, too_many, absent, wrong_attributes, text_in_group, empty, bad_value, rule_broken, no_room, no_header, wrong_version, broken_image, no_such_leaf, too_large, too_fine, retired};

// Kept: a struct with constants and constructors, and no enum: document 01, "Associated constants on the answer type for codes 0 to 18, and constructors
// that fix row and place"; C has its three numbers as they are (`hand`).
#[derive(Clone, Copy, PartialEq, Eq)]
pub struct Answer {
    pub code: u8,
    pub row: usize,
    pub place: usize,
}

impl Answer {
    pub const ACCEPTED: u8 = 0;

    pub const TOO_LONG: u8 = 1;

    pub const NOT_UTF8: u8 = 2;

    pub const NOT_HOUSE_XML: u8 = 3;

    pub const WRONG_ROOT: u8 = 4;

    pub const NOT_A_CHILD: u8 = 5;

    pub const OUT_OF_ORDER: u8 = 6;

    pub const TOO_MANY: u8 = 7;

    pub const ABSENT: u8 = 8;

    pub const WRONG_ATTRIBUTES: u8 = 9;

    pub const TEXT_IN_GROUP: u8 = 10;

    pub const EMPTY: u8 = 11;

    pub const BAD_VALUE: u8 = 12;

    pub const RULE_BROKEN: u8 = 13;

    pub const NO_ROOM: u8 = 14;

    pub const NO_HEADER: u8 = 15;

    pub const WRONG_VERSION: u8 = 16;

    pub const BROKEN_IMAGE: u8 = 17;

    pub const NO_SUCH_LEAF: u8 = 18;

    pub const TOO_LARGE: u8 = 19;

    pub const TOO_FINE: u8 = 20;

    pub const RETIRED: u8 = 26;

    // The most bytes that a file or a run may have.
    pub const LIMIT: usize = 1048576;

    // Where the version stands in an image, after `KTO`.
    pub const VERSION: usize = 3;

    // The answer of these three numbers.
    fn of(code: u8, row: usize, place: usize) -> Self
        ensures { result ≡ answer code row place }
    {
        Self { code, row, place }
    }

    // Whether the call did what it was asked to: every other code is a refusal.
    pub fn is_accepted(&self) -> bool
        ensures { IsTrue result ↔ (self.now.code ≡ 0) }
    {
        self.code == Self::ACCEPTED
    }

    // The file is good, or an image begins the run: the image's length.
    pub fn accepted(length: usize) -> Self
        ensures { result ≡ accepted length }
    {
        Self::of(Self::ACCEPTED, 0, length)
    }

    // A value was picked: its row, and where its part begins.
    pub fn picked(row: usize, place: usize) -> Self
        ensures { result ≡ picked row place }
    {
        Self::of(Self::ACCEPTED, row, place)
    }

    pub fn too_long() -> Self
        ensures { result ≡ too_long }
    {
        Self::of(Self::TOO_LONG, 0, Self::LIMIT)
    }

    pub fn not_utf8(place: usize) -> Self
        ensures { result ≡ not_utf8 place }
    {
        Self::of(Self::NOT_UTF8, 0, place)
    }

    pub fn not_house_xml(place: usize) -> Self
        ensures { result ≡ not_house_xml place }
    {
        Self::of(Self::NOT_HOUSE_XML, 0, place)
    }

    pub fn wrong_root(place: usize) -> Self
        ensures { result ≡ wrong_root place }
    {
        Self::of(Self::WRONG_ROOT, 1, place)
    }

    // The row is the parent's: what stands there has none.
    pub fn not_a_child(parent: usize, place: usize) -> Self
        ensures { result ≡ not_a_child parent place }
    {
        Self::of(Self::NOT_A_CHILD, parent, place)
    }

    pub fn out_of_order(row: usize, place: usize) -> Self
        ensures { result ≡ out_of_order row place }
    {
        Self::of(Self::OUT_OF_ORDER, row, place)
    }

    pub fn too_many(row: usize, place: usize) -> Self
        ensures { result ≡ too_many row place }
    {
        Self::of(Self::TOO_MANY, row, place)
    }

    // The row is the lowest absent one, the place its parent's.
    pub fn absent(row: usize, place: usize) -> Self
        ensures { result ≡ absent row place }
    {
        Self::of(Self::ABSENT, row, place)
    }

    pub fn wrong_attributes(row: usize, place: usize) -> Self
        ensures { result ≡ wrong_attributes row place }
    {
        Self::of(Self::WRONG_ATTRIBUTES, row, place)
    }

    pub fn text_in_group(group: usize, place: usize) -> Self
        ensures { result ≡ text_in_group group place }
    {
        Self::of(Self::TEXT_IN_GROUP, group, place)
    }

    pub fn empty(row: usize, place: usize) -> Self
        ensures { result ≡ empty row place }
    {
        Self::of(Self::EMPTY, row, place)
    }

    pub fn bad_value(row: usize, place: usize) -> Self
        ensures { result ≡ bad_value row place }
    {
        Self::of(Self::BAD_VALUE, row, place)
    }

    pub fn rule_broken(group: usize, place: usize) -> Self
        ensures { result ≡ rule_broken group place }
    {
        Self::of(Self::RULE_BROKEN, group, place)
    }

    pub fn no_room(needed: usize) -> Self
        ensures { result ≡ no_room needed }
    {
        Self::of(Self::NO_ROOM, 0, needed)
    }

    pub fn no_header() -> Self
        ensures { result ≡ no_header }
    {
        Self::of(Self::NO_HEADER, 0, 0)
    }

    pub fn wrong_version() -> Self
        ensures { result ≡ wrong_version }
    {
        Self::of(Self::WRONG_VERSION, 0, Self::VERSION)
    }

    pub fn broken_image(place: usize) -> Self
        ensures { result ≡ broken_image place }
    {
        Self::of(Self::BROKEN_IMAGE, 0, place)
    }

    pub fn no_such_leaf() -> Self
        ensures { result ≡ no_such_leaf }
    {
        Self::of(Self::NO_SUCH_LEAF, 0, 0)
    }

    // A file that is to be written would be over the limit: the bytes it needs.
    pub fn too_large(needed: usize) -> Self
        ensures { result ≡ too_large needed }
    {
        Self::of(Self::TOO_LARGE, 0, needed)
    }

    // A stored date-time has a finer fraction than a file may say: its row, and where its item stands in the run.
    pub fn too_fine(row: usize, place: usize) -> Self
        ensures { result ≡ too_fine row place }
    {
        Self::of(Self::TOO_FINE, row, place)
    }

    // A stored item is of a row that no file may have any more: that row, and where the item stands in the run.
    pub fn retired(row: usize, place: usize) -> Self
        ensures { result ≡ retired row place }
    {
        Self::of(Self::RETIRED, row, place)
    }
}
