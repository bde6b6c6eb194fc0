// ENUM, BOOL and NUM, from their bytes: a word's place in its list, yes or no, a number.

ghost use Rattle.std.specs.Prelude.{◌≡◌};
ghost use Rattle.value.specs.mirror.Judges.{is_place, is_truth, is_natural};

use text_bytes::number::get64;
use value::bounds::NUMBER_LIMIT;
use value_shared::place::byte;

// Of a list of so many words.
pub fn is_place(b: &[u8], words: usize) -> bool
    ensures { result ≡ is_place words b.now }
{
    let n = usize::from(byte(b, 0));
    1 <= n && n <= words
}

pub fn is_truth(b: &[u8]) -> bool
    ensures { result ≡ is_truth b.now }
{
    byte(b, 0) <= 1
}

pub fn is_natural(b: &[u8]) -> bool
    ensures { result ≡ is_natural b.now }
{
    get64(b, 0) < NUMBER_LIMIT
}
