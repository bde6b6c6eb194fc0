// The unit for C, a static library: each export calls the unit's function of its name, under the same clauses. A slice is a pointer and its length.
// Kept: the C interface; a caller in C is handed a code as a number, and the row and the place through pointers.
#![tactic(auto)]

ghost use Rattle.answer.specs.Handed.{handed};
ghost use Rattle.image_reading.specs.Forms.{Headed};
ghost use Rattle.image_reading.specs.Reads.{HouseReads, HouseCounts};
ghost use Rattle.image_items.specs.Items.{HouseItem};
ghost use Rattle.file.specs.Checks.{Checks, Finds};
ghost use Rattle.file_letter.specs.Tidies.{Tidies};
ghost use Rattle.file_letter.specs.Writes.{Writes};
ghost use Rattle.unit.specs.Exports.{PicksAt};

#[unsafe(no_mangle)]
pub extern "C" fn kto_check(input: &[u8], out: &mut [u8], row: &mut u64, place: &mut u64) -> u64
    ensures { Checks input.now out.old (handed result row.new place.new) out.new }
{
    unit::export::kto_check(input, out, row, place)
}

#[unsafe(no_mangle)]
pub extern "C" fn kto_size(input: &[u8], row: &mut u64, place: &mut u64) -> u64
    ensures { Finds input.now (handed result row.new place.new) }
{
    unit::size::kto_size(input, row, place)
}

#[unsafe(no_mangle)]
pub extern "C" fn kto_read(run: &[u8], place: &mut u64) -> u64
    ensures { HouseReads run.now (handed result 0 place.new) }
{
    unit::export::kto_read(run, place)
}

#[unsafe(no_mangle)]
pub extern "C" fn kto_count(run: &[u8], place: &mut u64, count: &mut u64) -> u64
    ensures { HouseReads run.now (handed result 0 place.new) × HouseCounts run.now (handed result 0 place.new) count.new }
{
    unit::export::kto_count(run, place, count)
}

#[unsafe(no_mangle)]
pub extern "C" fn kto_pick(run: &[u8], row: u64, n: u64, place: &mut u64, size: &mut u64) -> u64
    ensures { PicksAt run.now row n result place.new size.new }
{
    unit::export::kto_pick(run, row, n, place, size)
}

#[unsafe(no_mangle)]
pub extern "C" fn kto_items(run: &[u8], kind: &mut u64) -> u64
    ensures { Headed run.now kind.new result }
{
    unit::item::kto_items(run, kind)
}

#[unsafe(no_mangle)]
pub extern "C" fn kto_item(
    run: &[u8],
    from: u64,
    row: &mut u64,
    place: &mut u64,
    size: &mut u64,
) -> u64
    ensures { HouseItem run.now from (handed result row.new place.new) size.new }
{
    unit::item::kto_item(run, from, row, place, size)
}

#[unsafe(no_mangle)]
pub extern "C" fn kto_write(run: &[u8], out: &mut [u8], row: &mut u64, place: &mut u64) -> u64
    ensures { Writes run.now out.old (handed result row.new place.new) out.new }
{
    unit::export::kto_write(run, out, row, place)
}

#[unsafe(no_mangle)]
pub extern "C" fn kto_tidy(
    input: &[u8],
    image: &mut [u8],
    out: &mut [u8],
    row: &mut u64,
    place: &mut u64,
) -> u64
    ensures { Tidies input.now image.old out.old (handed result row.new place.new) image.new out.new }
{
    unit::export::kto_tidy(input, image, out, row, place)
}
