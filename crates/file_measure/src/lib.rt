// Codes 1 to 13 of a file, or the length of its image, without a byte written; and which list the file chooses.
#![tactic(auto)]

ghost use Rattle.file.specs.File.{Whole};
ghost use Rattle.file_measure.specs.Measures.{Measures};
ghost use Rattle.file_measure.specs.mirror.Choice.{Chooses};

use answer::Answer;
use choice::{begun, kind_by};
use file_root::begin::begin;
use file_walk::step::{Here, Refusal};
use list_house::by_byte::REPORT;
use list_house::tables::{pool, report_rows, rows};
use pass::found;
use text_characters::utf8::utf8_end;
use xml_scan::scan;

mod choice; // choice.rt: the list that a message chooses
mod pass; // pass.rt: the walk over a message

// What measuring tells of a good file: the kind byte of its list, and how long its image is.
#[derive(Clone, Copy)]
pub struct Good {
    pub kind: usize,
    pub size: usize,
}

// A message by the rows of its kind, its root's tag being tried as a statement's.
fn walked(
    rows: &[u16],
    pool: &[u8],
    input: &[u8],
    kind: usize,
    tried: Result<Here, Refusal>,
) -> Result<Good, Answer>
    requires { Chooses rows.now pool.now input.now kind tried }
    ensures { Measures input.now result }
{
    let root = begun(rows, pool, input, kind, tried).map_err(|refusal| refusal.answer)?;
    let size = found(rows, pool, input, root)?;
    Ok(Good { kind, size })
}

// A file that is house XML: the walk says its first violation or its image's length. The tables are bound here, once, and lent. Its root's
// tag is looked at as a statement's first, so that only another file's is looked at twice, and only a report's rows are bound over those.
fn message(input: &[u8]) -> Result<Good, Answer>
    requires { Whole input.now }
    ensures { Measures input.now result }
{
    let pool = pool();
    let mut rows = rows();
    let tried = begin(&rows, &pool, input);
    let kind = kind_by(tried);
    if kind == REPORT {
        rows = report_rows();
    }
    walked(&rows, &pool, input, kind, tried)
}

// Codes 1, 2 and 3 are judged in turn over the whole input; then its message.
pub fn measured(input: &[u8]) -> Result<Good, Answer>
    ensures { Measures input.now result }
{
    if Answer::LIMIT < input.len() {
        return Err(Answer::too_long());
    }
    let good = utf8_end(input);
    if good < input.len() {
        return Err(Answer::not_utf8(good));
    }
    match scan(input) {
        Err(stopped) => Err(Answer::not_house_xml(stopped.at)),
        Ok(()) => message(input),
    }
}
