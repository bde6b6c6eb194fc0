// The entries for items: where the items of the image that a run begins with begin, and what stands at a place of it.
ghost use Rattle.answer.specs.Handed.{handed};
ghost use Rattle.answer.specs.Table.{broken_image};
ghost use Rattle.std.specs.Prelude.{◌≡◌, ◌≢◌, IfSome, IfErr};
ghost use Rattle.image_reading.specs.Forms.{kind_in, from_in, Headed};
ghost use Rattle.image_items.specs.Items.{answer_of, size_of, HouseItem};

use answer::Answer;
use answer::hand::hand;
use image_items::item::ItemAt;
use image_reading::front::Head;

// The kind byte of its list, and the place of its first item; none where the run begins as no image does.
pub fn items(run: &[u8]) -> Option<Head>
    ensures is { Headed run.now (kind_in result) (from_in result) }
    ensures known { IfSome result (λ h. h.kind ≢ 0) }
{
    image_reading::front::head_of(run)
}

// The item's row, where its value's own bytes begin, and how many they are; or that none stands there.
pub fn item_at(run: &[u8], from: usize) -> Result<ItemAt, Answer>
    ensures is { HouseItem run.now from (answer_of result) (size_of result) }
    ensures lacks { IfErr result (λ a. a ≡ broken_image from) }
{
    image_items::item::item_at(run, from)
}

// The same for C: the place is the result, 0 where there is none, and so is then the kind byte.
pub fn kto_items(run: &[u8], kind: &mut u64) -> u64
    ensures { Headed run.now kind.new result }
{
    match items(run) {
        Some(head) => {
            *kind = head.kind as u64;
            head.from as u64
        }
        None => {
            *kind = 0;
            0
        }
    }
}

// The code is the result.
pub fn kto_item(run: &[u8], from: u64, row: &mut u64, place: &mut u64, size: &mut u64) -> u64
    ensures { HouseItem run.now from (handed result row.new place.new) size.new }
{
    match item_at(run, from as usize) {
        Ok(item) => {
            *size = item.size as u64;
            hand(Answer::picked(item.row, item.place), row, place)
        }
        Err(answer) => {
            *size = 0;
            hand(answer, row, place)
        }
    }
}
