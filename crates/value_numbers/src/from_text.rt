// NUM and BOOL.

ghost use Rattle.list.specs.Listing.{num, bool};
ghost use Rattle.value.specs.Judged.{FormedAny};

use text::class::is_digit;
use value::bounds::MOST_DIGITS;
use value::judged::Judged;

// The number of at most 18 digits: all of them count, zeros at the front too.
pub fn natural(t: &[u8]) -> Option<Judged>
    ensures { FormedAny num t.now result }
{
    if t.is_empty() {
        return None;
    }
    if MOST_DIGITS < t.len() {
        return None;
    }
    let mut n: u64 = 0;
    for b in t {
        if !is_digit(*b) {
            return None;
        }
        n = n * 10 + u64::from(*b - b'0');
    }
    Some(Judged::Natural(n))
}

pub fn truth(t: &[u8]) -> Option<Judged>
    ensures { FormedAny bool t.now result }
{
    if t == b"true".as_slice() {
        return Some(Judged::Truth(true));
    }
    if t == b"1".as_slice() {
        return Some(Judged::Truth(true));
    }
    if t == b"false".as_slice() {
        return Some(Judged::Truth(false));
    }
    if t == b"0".as_slice() {
        return Some(Judged::Truth(false));
    }
    None
}
