// Three capitals: CCY, and the currency of an amount.

ghost use Rattle.std.specs.Prelude.{◌≡◌, true, EachIndex, slice_index};
ghost use Rattle.text.specs.Bytes.{is_capital};
ghost use Rattle.value.specs.types.Code.{Ccy};
ghost use Rattle.value.specs.Judged.{Exactly};

use text::class::is_capital;
use value::packed::CURRENCY_SIZE;

fn are_capitals(t: &[u8]) -> bool
    ensures { Exactly result (EachIndex t.now (λ i. is_capital (slice_index t.now i) ≡ true)) }
{
    t.iter().all(|b| is_capital(*b))
}

pub fn is_ccy(t: &[u8]) -> bool
    ensures { Exactly result (Ccy t.now) }
{
    t.len() == CURRENCY_SIZE && are_capitals(t)
}
