// The entry: the text of a leaf, by the number of its kind.

ghost use Rattle.value_leaf.specs.Leafed.{Leafed};
ghost use Rattle.value_levels.specs.mirror.Levels.{Leveled};

use crate::codes::account;
use crate::figures::{dated, money};
use list::table;
use value_lane_texts::texts::{reference, writing};
use value_leaf::found::Found;
use value_leaf::slow::plain;
use value_levels::table::Levels;

// The numbers of the kinds that have a way of their own, each a byte here.
const REF: u8 = table::REF as u8;

const TXT: u8 = table::TXT as u8;

const IBAN: u8 = table::IBAN as u8;

const AMT: u8 = table::AMT as u8;

const DATE: u8 = table::DATE as u8;

// The text of s from a place on, of a leaf of the kind with this number, but for ENUM, whose words its list knows; k is TXTk's.
pub fn leaf(levels: &Levels, kind: u8, k: usize, s: &[u8], at: usize) -> Found
    ensures { Leveled levels.now → Leafed kind k s.now at result }
{
    match kind {
        REF => reference(levels, k, s, at),
        TXT => writing(levels, s, at, k),
        IBAN => account(levels, k, s, at),
        AMT => money(levels, k, s, at),
        DATE => dated(k, s, at),
        _ => plain(kind, k, s, at),
    }
}
