// IBAN: a run of letters and digits, and how it begins.

ghost use Rattle.std.specs.Prelude.{◌≡◌, true, ◌+◌, ◌≤◌, length};
ghost use Rattle.list.specs.Listing.{iban};
ghost use Rattle.value.specs.Kind.{code};
ghost use Rattle.value_leaf.specs.Leafed.{Leafed};
ghost use Rattle.value_levels.specs.mirror.Levels.{Leveled};
ghost use Rattle.value_lane.specs.mirror.Fronts.{head, Headed};

use list::table;
use text::class::{is_capital, is_digit};
use value_leaf::found::{Found, tell};
use value_leaf::slow::plain;
use value_levels::class::{CODE, run};
use value_levels::table::Levels;

const IBAN: u8 = table::IBAN as u8;

// Two capitals and two digits, and at most thirty letters or digits after them.
const HEAD: usize = 4;

const LAST: usize = HEAD - 1;

const LEAST: usize = HEAD + 1;

const MOST: usize = HEAD + 30;

// Whether two capitals and two digits stand there.
fn is_headed(s: &[u8], at: usize) -> bool
    requires { at + head ≤ length s.now }
    ensures { result ≡ true → Headed s.now at }
{
    if !is_capital(s[at]) {
        return false;
    }
    if !is_capital(s[at + 1]) {
        return false;
    }
    if !is_digit(s[at + 2]) {
        return false;
    }
    is_digit(s[at + LAST])
}

pub(crate) fn account(levels: &Levels, k: usize, s: &[u8], at: usize) -> Found
    ensures { Leveled levels.now → Leafed (code iban) k s.now at result }
{
    let end = run(levels, s, at, CODE);
    if s.len() <= end {
        return plain(IBAN, k, s, at);
    }
    if s[end] != b'<' {
        return plain(IBAN, k, s, at);
    }
    let n = end - at;
    if n < LEAST {
        return plain(IBAN, k, s, at);
    }
    if MOST < n {
        return plain(IBAN, k, s, at);
    }
    if !is_headed(s, at) {
        return plain(IBAN, k, s, at);
    }
    tell(end, n + 2)
}
