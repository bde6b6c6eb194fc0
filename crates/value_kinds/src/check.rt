// The entry of the checkers: the raw text of a leaf, judged by its kind.

ghost use Rattle.std.specs.Prelude.{◌≡◌};
ghost use Rattle.value.specs.Judged.{coded_of, Checked};

use list::table;
use value::bounds::MOST_REF;
use value::judged::Judged;
use value_amounts::from_text::amount;
use value_codes::account::is_iban;
use value_codes::ccy::is_ccy;
use value_dates::day::day;
use value_dates::moment::moment;
use value_numbers::from_text::{natural, truth};
use value_shared::blanks::trimmed;
use value_texts::from_text::spelled;

// The numbers of the kinds, each a byte here.
const REF: u8 = table::REF as u8;

const TXT: u8 = table::TXT as u8;

const IBAN: u8 = table::IBAN as u8;

const CCY: u8 = table::CCY as u8;

const BOOL: u8 = table::BOOL as u8;

const NUM: u8 = table::NUM as u8;

const AMT: u8 = table::AMT as u8;

const DATE: u8 = table::DATE as u8;

const DTM: u8 = table::DTM as u8;

// A code that is its own text.
fn coded(good: bool, n: usize) -> Option<Judged>
    ensures { result ≡ coded_of good n }
{
    if good {
        return Some(Judged::Text(n));
    }
    None
}

// A raw text, as a value of the kind with this number, but for ENUM, whose words its list knows; k is TXTk's.
pub fn check(kind: u8, k: usize, t: &[u8]) -> Option<Judged>
    ensures { Checked kind k t.now result }
{
    match kind {
        REF => spelled(t, true, MOST_REF),
        TXT => spelled(t, false, k),
        IBAN => coded(is_iban(t), t.len()),
        CCY => coded(is_ccy(t), t.len()),
        BOOL => truth(trimmed(t)),
        NUM => natural(trimmed(t)),
        AMT => amount(trimmed(t)),
        DATE => day(trimmed(t)),
        DTM => moment(trimmed(t)),
        _ => None,
    }
}
