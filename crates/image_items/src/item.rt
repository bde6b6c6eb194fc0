// What stands at a place of an image, judged alone, by the list that the header of the image says. Who goes over the items of an image so
// pays for each once, and knows of each value in which group it stands.
ghost use Rattle.std.specs.Prelude.{◌≡◌, IfErr};
ghost use Rattle.answer.specs.Table.{broken_image};
ghost use Rattle.image_items.specs.Items.{answer_of, answer_at, size_of, size_in, HouseItem};

use answer::Answer;
use image_picker::head;
use image_reader::item_end;
use image_reading::front::head_of;
use list::lookup::cell;
use list::table::SIZE;
use list_house::by_byte::kept_rows_of;

// The item's row, 0 at the closing byte, where its value's own bytes begin, and how many they are. The next item stands after these.
#[derive(Clone, Copy)]
pub struct ItemAt {
    pub row: usize,
    pub place: usize,
    pub size: usize,
}

// One without bytes of a value, as a group and the closing byte are.
fn bare(row: usize, place: usize) -> ItemAt
    ensures { (result.row ≡ row) × (result.place ≡ place) × (result.size ≡ 0) }
{
    ItemAt {
        row,
        place,
        size: 0,
    }
}

// The whole item that stands there, if one does. Where the run begins as no image does, there is no list to judge by, and no item stands
// anywhere.
fn found(run: &[u8], from: usize) -> Option<ItemAt>
    ensures { HouseItem run.now from (answer_at from result) (size_in result) }
{
    if run.len() <= from {
        return None;
    }
    let start = head_of(run)?;
    let row = usize::from(run[from]);
    let at = from + 1;
    if row == 0 {
        return Some(bare(0, at));
    }
    let rows = kept_rows_of(start.kind);
    if cell(&rows, 0, SIZE) < row {
        return None;
    }
    let end = item_end(&rows, run, row, at)?;
    // A group's item ends where its value would begin; a leaf's does not, for every value has a byte.
    if end == at {
        return Some(bare(row, at));
    }
    let place = at + head(&rows, row);
    Some(ItemAt {
        row,
        place,
        size: end - place,
    })
}

// The same, or the answer that none stands there.
pub fn item_at(run: &[u8], from: usize) -> Result<ItemAt, Answer>
    ensures is { HouseItem run.now from (answer_of result) (size_of result) }
    ensures lacks { IfErr result (λ a. a ≡ broken_image from) }
{
    match found(run, from) {
        Some(item) => Ok(item),
        None => Err(Answer::broken_image(from)),
    }
}
