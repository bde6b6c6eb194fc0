// The image that a run begins with: its length, or why it begins with none, and the values in it.
#![tactic(auto)]

ghost use Rattle.std.specs.Prelude.{◌≡◌, IfOk};
ghost use Rattle.list.specs.tables.Laid.{zeros, laid};
ghost use Rattle.list_house.specs.mirror.Rows.{kept_rows};
ghost use Rattle.image_reading.specs.Reads.{HouseReads, HouseAnswers, HousePicked};
ghost use Rattle.image_reading.specs.Forms.{told, Begun};

use answer::Answer;
use image_picker::{pick_from, picked_from};
use image_reader::body;
use image_reading::front::{Image, Refusal, front};
use list::lay::lay;
use list::table::{CELLS, REF};
use list_house::by_byte::kept_rows_of;
use list_house::kinds::kind;

// Reads it, over a table that is lent as zeros and is, where an image is accepted, its list's from then on: who goes on in that image
// need not lay it again.
fn begun(run: &[u8], table: &mut [u16; CELLS]) -> Result<Image, Refusal>
    requires { table.old ≡ zeros CELLS }
    ensures is { Begun run.now (told result) }
    ensures lays { IfOk result (λ i. table.new ≡ laid (kept_rows i.kind)) }
{
    let head = match front(run) {
        Ok(head) => head,
        Err(answer) => return Err(Refusal { answer, count: 0 }),
    };
    let rows = kept_rows_of(head.kind);
    lay(&rows, table);
    match body(table, run, head.from) {
        Ok(items) => Ok(Image {
            length: items.end,
            kind: head.kind,
            from: head.from,
            count: items.count,
        }),
        Err(broken) => Err(Refusal {
            answer: Answer::broken_image(broken.at),
            count: broken.count,
        }),
    }
}

// The image: how long it is, the kind byte of its list, where its items begin, and how many were taken, the closing 0 among them; or why
// there is none.
pub fn reading(run: &[u8]) -> Result<Image, Refusal>
    ensures { Begun run.now (told result) }
{
    let mut table = [0u16; CELLS];
    begun(run, &mut table)
}

// The answer alone: the length of the image that the run begins with, or why it begins with none.
pub fn read(run: &[u8]) -> Answer
    ensures { HouseReads run.now result }
{
    match reading(run) {
        Ok(image) => Answer::accepted(image.length),
        Err(refusal) => refusal.answer,
    }
}

// The answer for the n-th leaf, from 0, of `row` in it: its row, and where its part of the run begins; or why there is none.
pub fn pick(run: &[u8], row: usize, n: usize) -> Answer
    ensures { HouseAnswers run.now row n result }
{
    let mut table = [0u16; CELLS];
    let image = match begun(run, &mut table) {
        Ok(image) => image,
        Err(refusal) => return refusal.answer,
    };
    if kind(row) < REF {
        return Answer::no_such_leaf();
    }
    pick_from(&table, run, image.from, row, n)
}

// That part itself, without row byte and length; empty where `pick` refuses.
pub fn picked<'a>(run: &'a [u8], row: usize, n: usize) -> &'a [u8]
    ensures { HousePicked run.entry row n result }
{
    let mut table = [0u16; CELLS];
    let Ok(image) = begun(run, &mut table) else {
        return &run[0..0];
    };
    if kind(row) < REF {
        return &run[0..0];
    }
    picked_from(&table, run, image.from, row, n)
}
