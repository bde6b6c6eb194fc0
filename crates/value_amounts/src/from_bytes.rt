// AMT, from its bytes: three letters, the smallest scale, the coefficient.

ghost use Rattle.std.specs.Prelude.{◌≡◌};
ghost use Rattle.value.specs.mirror.Judges.{is_amount};

use text_bytes::number::get64;
use value::bounds::{MOST_SCALE, NUMBER_LIMIT};
use value::packed::{COEFFICIENT, CURRENCY_SIZE, SCALE};
use value_codes::ccy::is_ccy;
use value_shared::place::byte;

pub fn is_amount(b: &[u8]) -> bool
    ensures { result ≡ is_amount b.now }
{
    if b.len() < CURRENCY_SIZE {
        return false;
    }
    if !is_ccy(&b[0..CURRENCY_SIZE]) {
        return false;
    }
    let scale = byte(b, SCALE);
    let coefficient = get64(b, COEFFICIENT);
    if MOST_SCALE < scale {
        return false;
    }
    if NUMBER_LIMIT <= coefficient {
        return false;
    }
    if scale == 0 {
        return true;
    }
    coefficient % 10 != 0
}
