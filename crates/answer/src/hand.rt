// An answer for a caller in C: the code is the result, the other numbers go out through lent ones.
ghost use Rattle.std.specs.Prelude.{◌≡◌};
ghost use Rattle.answer.specs.Handed.{handed};

use crate::Answer;

pub fn hand(a: Answer, row: &mut u64, place: &mut u64) -> u64
    ensures { handed result row.new place.new ≡ a }
{
    *row = a.row as u64;
    hand_place(a, place)
}

// The same for a caller who knows the row: it is the one that was asked for, or 0.
pub fn hand_place(a: Answer, place: &mut u64) -> u64
    ensures { handed result a.row place.new ≡ a }
{
    *place = a.place as u64;
    a.code as u64
}
