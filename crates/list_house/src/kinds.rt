// The kind of a row of the house list, by its number. Over a list that is lent, its table's column stands in for this.
ghost use Rattle.std.specs.Prelude.{◌≡◌};
ghost use Rattle.list_house.specs.Kind.{house_kind};

use list::table::{AMT, BOOL, CCY, CHOICE, DATE, DTM, ENUM, GROUP, IBAN, NUM, REF, TXT};

// A group's for 0 and for every number above the last row.
// Kept: by `match` on the row's number with ranges, to the cells of the column of kinds (document 01).
pub fn kind(row: usize) -> usize
    ensures { result ≡ house_kind row }
{
    match row {
        10 => CHOICE,
        4 | 7 | 33 | 45..=46 => REF,
        13 | 36 | 38..=39 | 41 | 52 | 57 => TXT,
        11 | 55 => IBAN,
        14 => CCY,
        18 | 20 | 25 | 28 | 48 => ENUM,
        26 => BOOL,
        8 => NUM,
        19 | 24 | 47 => AMT,
        22 | 30 | 32 => DATE,
        5 => DTM,
        _ => GROUP,
    }
}
