// REF and TXTk: the bytes of their characters.

ghost use Rattle.std.specs.Prelude.{◌≡◌, true, ◌&&◌, not, eqb, ◌+◌, drop};
ghost use Rattle.value.specs.types.Text.{is_ref};
ghost use Rattle.value.specs.mirror.Tests.{not_space};
ghost use Rattle.value.specs.mirror.Tests.{some, every, apart};
ghost use Rattle.value.specs.mirror.Judges.{is_reference, txt_len, is_writing};
ghost use Rattle.value.specs.mirror.Texts.{is_ascii_txt};
ghost use Rattle.text.specs.Lists.{span};
ghost use Rattle.text.specs.Bytes.{code};

use text::class::{is_digit, is_letter};
use text::run::run_end;
use text_characters::utf8::decode;
use value::bounds::MOST_REF;
use value_texts::from_text::{is_quiet_ref, is_txt};

// Of a reference, but no slash; most are digits and letters, which come in runs.
fn is_word(x: u8) -> bool
    ensures { result ≡ (is_ref x && not (eqb x (code "/"))) }
{
    is_digit(x) || is_letter(x) || is_quiet_ref(x)
}

// Whether one is no space; it mostly is the first.
fn is_inked(b: &[u8]) -> bool
    ensures { result ≡ some not_space b.now }
{
    b.iter().any(|x| *x != b' ')
}

// Characters of a reference, no slash first or last, none beside another: in one pass, and most bytes are no slash.
fn is_spaced(b: &[u8]) -> bool
    ensures { result ≡ (every is_ref b.now && apart true b.now) }
{
    let mut slash = true;
    for x in b {
        if is_word(*x) {
            slash = false;
        } else {
            if *x != b'/' || slash {
                return false;
            }
            slash = true;
        }
    }
    !slash
}

pub fn is_reference(b: &[u8]) -> bool
    ensures { result ≡ is_reference b.now }
{
    b.len() <= MOST_REF && is_inked(b) && is_spaced(b)
}

fn is_ascii_txt(x: u8) -> bool
    ensures { result ≡ is_ascii_txt x }
{
    match x {
        b'`' => false,
        b' '..=b'~' => true,
        _ => false,
    }
}

// How many bytes the character of a text has that begins at a place. `decode` finds the code 0 where none does, which no text has.
fn char_len(b: &[u8], at: usize) -> Option<usize>
    ensures { result ≡ txt_len (drop at b.now) }
{
    let c = decode(b, at);
    is_txt(c.code).then_some(c.len)
}

// TXTk: runs of ASCII, one byte a character, and the characters between them; `more` counts the bytes after the first of each.
pub fn is_writing(b: &[u8], k: usize) -> bool
    ensures { result ≡ is_writing k b.now }
{
    if !is_inked(b) {
        return false;
    }
    let mut i = run_end(b, 0, is_ascii_txt);
    let mut more: usize = 0;
    while i < b.len() {
        let Some(n) = char_len(b, i) else {
            return false;
        };
        more += n - 1;
        i = run_end(b, i + n, is_ascii_txt);
    }
    b.len() - more <= k
}
