// IBAN: capitals, digits, letters or digits.

ghost use Rattle.std.specs.Prelude.{◌≡◌, true, EachIndex, slice_index};
ghost use Rattle.value.specs.types.Code.{is_letter_or_digit, Iban};
ghost use Rattle.value.specs.mirror.Layout.{iban_at};
ghost use Rattle.value.specs.Judged.{Exactly};

use text::class::{is_capital, is_digit};

// "two capitals, two digits, 1 to 30 ASCII letters or digits": the last digit of the two, the fewest bytes and the most.
const LAST_DIGIT: usize = 3;

const LEAST: usize = LAST_DIGIT + 2;

const MOST: usize = LAST_DIGIT + 1 + 30;

fn is_letter_or_digit(b: u8) -> bool
    ensures { result ≡ is_letter_or_digit b }
{
    match b {
        b'0'..=b'9' => true,
        b'A'..=b'Z' => true,
        b'a'..=b'z' => true,
        _ => false,
    }
}

// Whether this byte may stand at place i of an account number.
fn iban_byte(i: usize, b: u8) -> bool
    ensures { result ≡ iban_at i b }
{
    match i {
        0..=1 => is_capital(b),
        2..=LAST_DIGIT => is_digit(b),
        _ => is_letter_or_digit(b),
    }
}

// Whether each byte may stand where it stands.
fn are_in_place(t: &[u8]) -> bool
    ensures { Exactly result (EachIndex t.now (λ i. iban_at i (slice_index t.now i) ≡ true)) }
{
    t.iter().enumerate().all(|(i, b)| iban_byte(i, *b))
}

pub fn is_iban(t: &[u8]) -> bool
    ensures { Exactly result (Iban t.now) }
{
    if t.len() < LEAST {
        return false;
    }
    if MOST < t.len() {
        return false;
    }
    are_in_place(t)
}
