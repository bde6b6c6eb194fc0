// The statement file of the image that a run begins with: measured, then written into a lent buffer.
#![tactic(auto)]

ghost use Rattle.file_letter.specs.Writes.{Writes};

use answer::Answer;
use emit::emit;
use file_answers::{refusal, sized};
use image_first::reading;
use list::lay::lay;
use list::table::CELLS;
use list_house::by_byte::rows_of;
use list_house::tables::pool;
use stale::first_stale;

mod put; // put.rt: tags, put at a place
mod close; // close.rt: the closing tags up to a group
mod leaf; // leaf.rt: a leaf's element
mod emit; // emit.rt: the file, item by item
mod stale; // stale.rt: the first item that no file may say any more

// The file is measured first, into a buffer of our own, so that a byte is written only where the whole file fits.
pub fn write(run: &[u8], out: &mut [u8]) -> Answer
    ensures { Writes run.now out.old result out.new }
{
    let image = match reading(run) {
        Ok(image) => image,
        Err(refusal) => return refusal.answer,
    };
    let rows = rows_of(image.kind);
    let mut table = [0u16; CELLS];
    lay(&rows, &mut table);
    let pool = pool();
    if let Some(stale) = first_stale(&table, &pool, run, image.from) {
        return refusal(&table, &pool, usize::from(run[stale]), stale);
    }
    let mut nothing = [0u8; 1];
    let n = emit(&table, &pool, run, image.from, &mut nothing);
    let answer = sized(n, out.len());
    if answer.code != Answer::ACCEPTED {
        return answer;
    }
    emit(&table, &pool, run, image.from, out);
    answer
}
