// The bytes of BOOL and NUM, whole or not at all, and how many there are.

ghost use Rattle.value.specs.Value.{bytes, truth, natural};
ghost use Rattle.value.specs.given.Wrote.{Wrote};

use text_bytes::number::put64;
use value::packed::NUMBER_SIZE;
use value_shared::place::place;

pub fn write_truth(out: &mut [u8], at: usize, yes: bool) -> usize
    ensures { Wrote out.old at (bytes (truth yes)) result out.new }
{
    place(out, at, u8::from(yes));
    1
}

pub fn write_natural(out: &mut [u8], at: usize, n: u64) -> usize
    ensures { Wrote out.old at (bytes (natural n)) result out.new }
{
    put64(out, at, n);
    NUMBER_SIZE
}
