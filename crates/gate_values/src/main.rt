// Writes the value of each raw text of its input, a line for each: `refused`, or the value's bytes as an image has them, in lower-case
// hexadecimal. A case is a kind, its parameter, two 16-bit big-endian lengths, and so many bytes of a currency and of a text; the
// parameter is TXTk's k, and picks the words of an ENUM, those of a report after those of a statement. The answers that it is held to were computed by another program.
#![tactic(auto)]

ghost use Rattle.std.specs.Prelude.{◌<◌};

use list::table::{ENUM, MOST_WORDS};
use list::word::word_place;
use list_house::by_byte::{REPORT, rows_of};
use program_input::read_full;
use std::io::Result;
use text::part::part_of;
use text::width::WIDTH_16;
use text_bytes::number::get16;
use value_kinds::write::write;

// Rows that have words: the code of a balance, debit or credit, the status of an entry.
const BALANCE: usize = 18;

const SIDE: usize = 20;

const STATUS: usize = 28;

// The parameter of a report's balances.
const REPORT_BALANCE: u8 = 3;

const ENUM_KIND: u8 = ENUM as u8;

// Where the length of the text stands in a case, and the bytes after it.
const TEXT: usize = 2 + WIDTH_16;

const HEAD: usize = TEXT + WIDTH_16;

const BASE: u8 = 16;

// The most bytes that are read, and those of a value.
const ROOM: usize = 65536;

const VALUE_ROOM: usize = 4096;

fn digit(n: u8) -> u8 {
    match n {
        0 => b'0',
        1 => b'1',
        2 => b'2',
        3 => b'3',
        4 => b'4',
        5 => b'5',
        6 => b'6',
        7 => b'7',
        8 => b'8',
        9 => b'9',
        10 => b'a',
        11 => b'b',
        12 => b'c',
        13 => b'd',
        14 => b'e',
        _ => b'f',
    }
}

// The first n bytes, or that there are none.
fn write_answer<P: Print>(rt: &P, bytes: &[u8], n: usize) -> Result<()> {
    if n == 0 {
        rt.write_all(b"refused")?;
    }
    let mut i = 0;
    while i < bytes.len() {
        if n <= i {
            break;
        }
        let b = bytes[i];
        let pair = [digit(b / BASE), digit(b % BASE)];
        rt.write_all(&pair)?;
        i += 1;
    }
    rt.write_all(b"\n")
}

// The kind byte of the list whose words a parameter picks.
fn words_list(parameter: u8) -> usize {
    match parameter {
        0..=2 => 1,
        _ => REPORT,
    }
}

// A row of that list that has the words.
fn words_row(parameter: u8) -> usize {
    match parameter {
        0 | REPORT_BALANCE => BALANCE,
        1 => SIDE,
        _ => STATUS,
    }
}

// A word's place fits in a byte; anything else would show as a wrong answer.
fn low(n: usize) -> u8 {
    if MOST_WORDS < n {
        return 0;
    }
    n as u8
}

// The place of a word, which is its value.
fn judge_word<P: Print>(rt: &P, parameter: u8, word: &[u8]) -> Result<()> {
    let rows = rows_of(words_list(parameter));
    let pool = list_house::tables::pool();
    let n = word_place(&rows, &pool, words_row(parameter), word);
    let byte = [low(n)];
    if n == 0 {
        write_answer(rt, &byte, 0)
    } else {
        write_answer(rt, &byte, 1)
    }
}

fn judge<P: Print>(rt: &P, kind: u8, parameter: u8, ccy: &[u8], t: &[u8]) -> Result<()> {
    if kind == ENUM_KIND {
        return judge_word(rt, parameter, t);
    }
    let mut value = [0u8; VALUE_ROOM];
    let n = write(kind, parameter as usize, t, ccy, &mut value, 0);
    write_answer(rt, &value, n)
}

fn wide(x: u16) -> usize
    ensures { result < 65536 }
{
    x as usize
}

fn judge_all<P: Print>(rt: &P, cases: &[u8]) -> Result<()> {
    let mut i = 0;
    while i < cases.len() {
        if cases.len() - i < HEAD {
            return Ok(());
        }
        let from = i + HEAD;
        let start = from + wide(get16(cases, i + 2));
        let n = wide(get16(cases, i + TEXT));
        if cases.len() < start {
            return Ok(());
        }
        if cases.len() - start < n {
            return Ok(());
        }
        let end = start + n;
        let ccy = part_of(cases, from, start);
        let t = part_of(cases, start, end);
        judge(rt, cases[i], cases[i + 1], ccy, t)?;
        i = end;
    }
    Ok(())
}

fn main(rt: HostRuntime) -> Result<()> {
    let mut input = [0u8; ROOM];
    let n = read_full(&mut rt.stdin(), &mut input)?;
    judge_all(&rt, &input[..n])
}
