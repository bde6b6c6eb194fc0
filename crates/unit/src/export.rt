// What the entries for C do, which the crate unit_c exports: the code is the result, the other numbers go out through lent ones.
ghost use Rattle.answer.specs.Handed.{handed};
ghost use Rattle.image_reading.specs.Reads.{HouseReads, HouseCounts};
ghost use Rattle.file.specs.Checks.{Checks};
ghost use Rattle.file_letter.specs.Tidies.{Tidies};
ghost use Rattle.file_letter.specs.Writes.{Writes};
ghost use Rattle.unit.specs.Exports.{PicksAt};

use crate::check::check;
use crate::pick::{pick, picked};
use crate::read::{read, reading};
use crate::tidy::tidy;
use crate::write::write;
use answer::hand::{hand, hand_place};

pub fn kto_check(input: &[u8], out: &mut [u8], row: &mut u64, place: &mut u64) -> u64
    ensures { Checks input.now out.old (handed result row.new place.new) out.new }
{
    hand(check(input, out), row, place)
}

pub fn kto_read(run: &[u8], place: &mut u64) -> u64
    ensures { HouseReads run.now (handed result 0 place.new) }
{
    hand_place(read(run), place)
}

// A count without its code does not say whether the items are an image's, so this answers what `kto_read` does, and the count.
pub fn kto_count(run: &[u8], place: &mut u64, count: &mut u64) -> u64
    ensures { HouseReads run.now (handed result 0 place.new) × HouseCounts run.now (handed result 0 place.new) count.new }
{
    let r = reading(run);
    *count = r.count as u64;
    hand_place(r.answer, place)
}

// The image is gone over once for the answer and once for the part.
pub fn kto_pick(run: &[u8], row: u64, n: u64, place: &mut u64, size: &mut u64) -> u64
    ensures { PicksAt run.now row n result place.new size.new }
{
    let part = picked(run, row as usize, n as usize);
    *size = part.len() as u64;
    hand_place(pick(run, row as usize, n as usize), place)
}

pub fn kto_write(run: &[u8], out: &mut [u8], row: &mut u64, place: &mut u64) -> u64
    ensures { Writes run.now out.old (handed result row.new place.new) out.new }
{
    hand(write(run, out), row, place)
}

pub fn kto_tidy(
    input: &[u8],
    image: &mut [u8],
    out: &mut [u8],
    row: &mut u64,
    place: &mut u64,
) -> u64
    ensures { Tidies input.now image.old out.old (handed result row.new place.new) image.new out.new }
{
    hand(tidy(input, image, out), row, place)
}
