// A value of any kind, by the number of its kind in a table.

ghost use Rattle.std.specs.Prelude.{◌≡◌, ◌≤◌, ◌+◌, if◌then◌else◌, Some, None, Bool, List, ℕ, take, drop};
ghost use Rattle.text.specs.Numbers.{number};
ghost use Rattle.value.specs.mirror.Ends.{width, begins, value_end};
ghost use Rattle.value.specs.given.Stands.{EndsBy};
ghost use Rattle.value_kinds_stored.specs.Ended.{ended};

use list::table::{AMT, BOOL, CCY, DATE, DTM, ENUM, IBAN, NUM, REF, TXT};
use value::packed::{AMOUNT_SIZE, DATE_SIZE, MOMENT_SIZE, NUMBER_SIZE};
use value_amounts::from_bytes::is_amount;
use value_codes::account::is_iban;
use value_codes::ccy::is_ccy;
use value_dates_stored::from_bytes::{is_day, is_moment};
use value_numbers::from_bytes::{is_natural, is_place, is_truth};
use value_texts_stored::from_bytes::{is_reference, is_writing};

// The bytes of a text's length, and of a word's place and a truth.
const LENGTH_SIZE: usize = 2;

const BYTE_SIZE: usize = 1;

// How many bytes a value has that bytes begin with: n, where they are there and what follows the first `head` of them passes the test.
fn end_of<F: FnOnce(&[u8]) -> bool>(
    there: &[u8],
    head: usize,
    n: usize,
    is_value: F,
) -> Option<usize>
    requires callable { F.IsAlwaysCallable is_value }
    requires order { head ≤ n }
    ensures { (p : List ℕ → Bool) → ((b : _) (r : Bool) → F.post is_value b r → r ≡ p b.now) → result ≡ ended head n p there.now 0 }
{
    let value = there.get(head..n)?;
    is_value(value).then_some(n)
}

// The same of a text, whose first bytes say its length; where they are cut off, so is the text.
fn text_end<F: FnOnce(&[u8]) -> bool>(there: &[u8], is_text: F) -> Option<usize>
    requires { F.IsAlwaysCallable is_text }
    ensures { (p : List ℕ → Bool) → ((b : _) (r : Bool) → F.post is_text b r → r ≡ p b.now) → result ≡ ended 2 (2 + number (take 2 there.now)) p there.now 0 }
{
    let said = there.first_chunk::<LENGTH_SIZE>()?;
    let n = LENGTH_SIZE + usize::from(u16::from_be_bytes(*said));
    end_of(there, LENGTH_SIZE, n, is_text)
}

// The same of the value of a kind; k is that of TXTk, words the number of an ENUM's words.
fn length_of(kind: usize, k: usize, words: usize, there: &[u8]) -> Option<usize>
    ensures { result ≡ (if begins kind k words there.now then Some (width kind there.now) else None) }
{
    match kind {
        REF => text_end(there, is_reference),
        TXT => text_end(there, |b| is_writing(b, k)),
        IBAN => text_end(there, is_iban),
        CCY => text_end(there, is_ccy),
        ENUM => end_of(there, 0, BYTE_SIZE, |b| is_place(b, words)),
        BOOL => end_of(there, 0, BYTE_SIZE, is_truth),
        NUM => end_of(there, 0, NUMBER_SIZE, is_natural),
        AMT => end_of(there, 0, AMOUNT_SIZE, is_amount),
        DATE => end_of(there, 0, DATE_SIZE, is_day),
        DTM => end_of(there, 0, MOMENT_SIZE, is_moment),
        _ => None,
    }
}

// The place after the value of a kind that stands at a place.
fn found_end(kind: usize, k: usize, words: usize, s: &[u8], at: usize) -> Option<usize>
    ensures { result ≡ (if begins kind k words (drop at s.now) then Some (at + width kind (drop at s.now)) else None) }
{
    let there = s.get(at..)?;
    let n = length_of(kind, k, words, there)?;
    Some(at + n)
}

// The same, 0 where no value does.
// Kept: no value ends at 0, and so answer the mirror `value_end` and what it means, `EndsBy`.
pub fn value_end(kind: usize, k: usize, words: usize, s: &[u8], at: usize) -> usize
    ensures is { result ≡ value_end kind k words s.now at }
    ensures means { EndsBy kind k words s.now at result }
{
    found_end(kind, k, words, s, at).unwrap_or(0)
}
