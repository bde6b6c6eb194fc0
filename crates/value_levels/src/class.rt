// Over the bytes of a class. Classes are levels, each within the one below it.

ghost use Rattle.std.specs.Prelude.{◌≡◌, ◌≢◌, ◌+◌, ◌≤◌, ◌<◌, length, drop};
ghost use Rattle.text.specs.Lists.{span};
ghost use Rattle.value_levels.specs.mirror.Levels.{turn, block, level_of, reaches, Leveled, Ran};
ghost use Rattle.value_levels.specs.mirror.Runs.{Over};

use crate::blocks::{BLOCK, blocks_end};
use crate::table::Levels;
use text::run::run_end;

// Kept: levels are numbers and no enum: they are the cells of the table of bytes (table.rt), where 256 names would say no more, and `<` compares them.
//
// Kept: `Leveled levels.now →` stands before what is told, and no type says it: `run` and `long_run` (docs/PROMISES.md) tell `at ≤ result` of any
// table, and such a type would ask more of who calls them.

// The bytes of a text that stand for themselves, but for `>`.
pub const TEXT: u8 = 1;

// Of these the bytes of a reference, but for `/`.
pub const REFERENCE: u8 = 2;

// Of these letters and digits.
pub const CODE: u8 = 3;

// Of these digits.
pub const DIGIT: u8 = 4;

// So many bytes are passed at a turn.
const TURN: usize = 4;

// One less.
const SHORT_TURN: usize = TURN - 1;

// How many of the four bytes at a place are of a level or above it, one after the other. The compiler makes four tests of the loop.
fn four(levels: &Levels, s: &[u8], at: usize, least: u8) -> usize
    requires { at + turn ≤ length s.now }
    ensures { (result ≤ turn) × (Leveled levels.now → Ran least s.now at (at + result))
        × (Leveled levels.now → result ≢ turn → span (reaches least) (drop (at + result) s.now) ≡ 0) }
{
    for j in 0..TURN {
        if levels[usize::from(s[at + j])] < least {
            return j;
        }
    }
    TURN
}

// Over bytes of a level or above it, four a turn where so many are left.
// Kept: a loop, and not `run_end` from the start: that takes 3.1 in a hundred more instructions for a good file of 1 MiB, and 2.0 for one of 4 KiB.
pub fn run(levels: &Levels, s: &[u8], at: usize, least: u8) -> usize
    ensures { (at ≤ result) × (Leveled levels.now → Ran least s.now at result)
        × (Leveled levels.now → result ≡ at + span (reaches least) (drop at s.now)) }
{
    let last = s.len().saturating_sub(SHORT_TURN);
    let mut i = at;
    while i < last {
        let n = four(levels, s, i, least);
        if n != TURN {
            return i + n;
        }
        i += TURN;
    }
    run_end(s, i, |b| least <= levels[usize::from(b)])
}

// 1 of a byte of TEXT, else 0. No look-up and nothing to jump by, so that the compiler does sixteen of them at once.
fn quiet(b: u8) -> u8
    ensures { (result ≤ 1) × (result ≢ 0 → 1 ≤ level_of b) }
{
    ((b' ' <= b) & (b != b'&') & (b != b'<') & (b != b'>') & (b != b'`') & (b <= b'~')) as u8
}

// How many of the sixteen bytes at a place are of TEXT.
fn quiets(s: &[u8], at: usize) -> usize
    requires { at + block ≤ length s.now }
    ensures { result ≡ block → Over (reaches 1) s.now at (at + block) }
{
    let mut n: u8 = 0;
    for b in &s[at..at + BLOCK] {
        n += quiet(*b);
    }
    usize::from(n)
}

// As `run` of TEXT, sixteen bytes a turn.
pub fn long_run(levels: &Levels, s: &[u8], at: usize) -> usize
    ensures { (at ≤ result) × (Leveled levels.now → Ran 1 s.now at result)
        × (Leveled levels.now → result ≡ at + span (reaches 1) (drop at s.now)) }
{
    run(
        levels,
        s,
        blocks_end(s, at, |i| quiets(s, i) == BLOCK),
        TEXT,
    )
}
