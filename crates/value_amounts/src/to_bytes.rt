// The bytes of AMT, whole or not at all, and how many there are.

ghost use Rattle.value.specs.given.Wrote.{AmountPut};

use text_bytes::number::{copy, put64};
use value::packed::{AMOUNT_SIZE, COEFFICIENT, SCALE};
use value_codes::ccy::is_ccy;
use value_shared::place::{has_room, place};

// The currency comes as a text; nothing is written where it is none.
pub fn write_amount(ccy: &[u8], out: &mut [u8], at: usize, coefficient: u64, scale: u8) -> usize
    ensures { AmountPut ccy.now scale coefficient out.old at result out.new }
{
    if !is_ccy(ccy) {
        return 0;
    }
    if !has_room(out.len(), at, AMOUNT_SIZE) {
        return AMOUNT_SIZE;
    }
    copy(ccy, 0, ccy.len(), out, at);
    place(out, at + SCALE, scale);
    put64(out, at + COEFFICIENT, coefficient);
    AMOUNT_SIZE
}
