// The list that a message chooses: the one whose root its own is.

ghost use Rattle.std.specs.Prelude.{◌≡◌};
ghost use Rattle.list_house.specs.mirror.HouseTable.{house_rows};
ghost use Rattle.list_house.specs.mirror.Rows.{asked_rows};
ghost use Rattle.file_walk.specs.mirror.Begin.{begin_in};
ghost use Rattle.file_measure.specs.mirror.Choice.{kind_by};

use answer::Answer;
use file_root::begin::begin;
use file_walk::step::{Here, Refusal};
use list_house::by_byte::REPORT;

const STATEMENT: usize = 1;

// By what the root's tag is as a statement's: where it is none, a report's. Where it is no report's either, each list says 4 at one place.
pub(crate) fn kind_by(tried: Result<Here, Refusal>) -> usize
    ensures { result ≡ kind_by tried }
{
    match tried {
        Err(refusal) if refusal.answer.code == Answer::WRONG_ROOT => REPORT,
        _ => STATEMENT,
    }
}

// The root's tag by the rows of its kind: a statement's was looked at before.
pub(crate) fn begun(
    rows: &[u16],
    pool: &[u8],
    s: &[u8],
    kind: usize,
    tried: Result<Here, Refusal>,
) -> Result<Here, Refusal>
    requires { (rows.now ≡ asked_rows kind) × (tried ≡ begin_in house_rows pool.now s.now) }
    ensures { result ≡ begin_in rows.now pool.now s.now }
{
    if kind == REPORT {
        return begin(rows, pool, s);
    }
    tried
}
