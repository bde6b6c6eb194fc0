// Bytes by class. Where a span of text runs over a class, no two neighbours stand in one row: such rows become one test of a mask,
// and a row of neighbours, or a second range, would be one more branch for each byte.
// Kept: ranges and no methods of the library, as document 01 has the classes.

ghost use Rattle.std.specs.Prelude.{◌≡◌};
ghost use Rattle.text.specs.Bytes.{is_blank, is_capital, is_letter, is_digit, is_name_start};

pub fn is_blank(b: u8) -> bool
    ensures { result ≡ is_blank b }
{
    match b {
        b'\t' | b'\r' | b' ' => true,
        b'\n' => true,
        _ => false,
    }
}

pub fn is_capital(b: u8) -> bool
    ensures { result ≡ is_capital b }
{
    match b {
        b'A'..=b'Z' => true,
        _ => false,
    }
}

pub fn is_letter(b: u8) -> bool
    ensures { result ≡ is_letter b }
{
    match b {
        b'A'..=b'Z' => true,
        b'a'..=b'z' => true,
        _ => false,
    }
}

pub fn is_digit(b: u8) -> bool
    ensures { result ≡ is_digit b }
{
    match b {
        b'0'..=b'9' => true,
        _ => false,
    }
}

pub fn is_name_start(b: u8) -> bool
    ensures { result ≡ is_name_start b }
{
    match b {
        b'A'..=b'Z' => true,
        b'_' => true,
        b'a'..=b'z' => true,
        _ => false,
    }
}
