// The entries: the value that the raw text of a leaf spells, by the number of its kind. Of ENUM nothing is written: its words are its list's.

ghost use Rattle.value.specs.given.Giving.{Sized, Written};

use crate::chars::{text_size, write_text};
use crate::check::check;
use value::judged::Judged;
use value::packed::{AMOUNT_SIZE, DATE_SIZE, MOMENT_SIZE, NUMBER_SIZE};
use value_amounts::to_bytes::write_amount;
use value_dates_stored::to_bytes::{write_day, write_moment};
use value_numbers::to_bytes::{write_natural, write_truth};

// How many bytes the value has that t spells; 0 where it spells none. An amount has as many whatever its currency.
pub fn size(kind: u8, k: usize, t: &[u8]) -> usize
    ensures { Sized kind k t.now result }
{
    let Some(judged) = check(kind, k, t) else {
        return 0;
    };
    match judged {
        Judged::Text(n) => text_size(n),
        Judged::Truth(_) => 1,
        Judged::Natural(_) => NUMBER_SIZE,
        Judged::Amount(_, _) => AMOUNT_SIZE,
        Judged::Day(_) => DATE_SIZE,
        Judged::Moment(_) => MOMENT_SIZE,
    }
}

// Writes the value that t spells, an amount with this currency, at a place of the buffer, and answers how many bytes it has; 0 where it
// spells none.
pub fn write(kind: u8, k: usize, t: &[u8], ccy: &[u8], out: &mut [u8], at: usize) -> usize
    ensures { Written kind k ccy.now t.now out.old at result out.new }
{
    let Some(judged) = check(kind, k, t) else {
        return 0;
    };
    match judged {
        Judged::Text(n) => write_text(t, n, out, at),
        Judged::Truth(yes) => write_truth(out, at, yes),
        Judged::Natural(n) => write_natural(out, at, n),
        Judged::Amount(coefficient, scale) => write_amount(ccy, out, at, coefficient, scale),
        Judged::Day(day) => write_day(out, at, day.year, day.month, day.day),
        Judged::Moment(moment) => write_moment(out, at, moment),
    }
}
