// A text: the characters of its raw text, entities resolved, after their length. The bytes between two entities are copied as they stand.

ghost use Rattle.std.specs.Prelude.{◌≡◌, ◌+◌, drop};
ghost use Rattle.text.specs.Lists.{span};
ghost use Rattle.value.specs.mirror.Runs.{is_own, Roomy, CharsPut};
ghost use Rattle.value.specs.Value.{bytes};
ghost use Rattle.value.specs.mirror.Puts.{text_size, Counts, TextPut};

use text::run::run_end;
use text_bytes::number::{copy, put16};
use text_characters::piece::next_char;
use value::packed::MOST_BYTES;
use value_shared::place::{has_room, place};

// Where the next entity begins, or the end.
#[tactic(auto, unfolding(value::specs::mirror::Runs::is_own))]
fn own_end(t: &[u8], at: usize) -> usize
    ensures { result ≡ at + span is_own (drop at t.now) }
{
    run_end(t, at, |b| b != b'&')
}

// The characters that t spells, from a place of the buffer on. Most texts have no entity and are one copy.
pub(crate) fn put_chars(t: &[u8], out: &mut [u8], at: usize)
    requires { Roomy t.now out.old at }
    ensures { CharsPut t.now out.old at out.new }
{
    let mut i = own_end(t, 0);
    let mut j = at + i;
    copy(t, 0, i, out, at);
    while i < t.len() {
        let c = next_char(t, i);
        let code = c.code;
        let from = i + c.len;
        let end = own_end(t, from);
        place(out, j, code as u8);
        copy(t, from, end, out, j + 1);
        j += 1 + (end - from);
        i = end;
    }
}

// How many bytes a text has whose characters have n: none where n has no 16 bits.
pub(crate) fn text_size(n: usize) -> usize
    ensures { result ≡ text_size n }
{
    if MOST_BYTES < n {
        return 0;
    }
    2 + n
}

// The text that t spells, whose characters have n bytes.
pub(crate) fn write_text(t: &[u8], n: usize, out: &mut [u8], at: usize) -> usize
    requires { Counts t.now n }
    ensures { TextPut t.now n out.old at result out.new }
{
    let size = text_size(n);
    if size == 0 {
        return 0;
    }
    if !has_room(out.len(), at, size) {
        return size;
    }
    put16(out, at, n as u16);
    put_chars(t, out, at + 2);
    size
}
