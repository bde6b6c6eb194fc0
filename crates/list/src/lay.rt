// A table of any length over one of 256 rows. A row byte is below 256, so that no lookup in it is out of bounds, and the compiler, which
// knows its length, leaves the tests out. Whoever goes over many rows lays a table once, over zeros, and lends it on: a shorter table
// then goes on with zeros, which is what lookups beyond its end answer anyway.
ghost use Rattle.std.specs.Prelude.{◌≡◌};
ghost use Rattle.list.specs.tables.Laid.{onto};

use crate::table::CELLS;

// The first cells become those of `rows`; of more than 4,096 the first. What is lent is filled, since an array that is handed back is copied.
pub fn lay(rows: &[u16], table: &mut [u16; CELLS])
    ensures { table.new ≡ onto rows.now table.old }
{
    let n = rows.len().min(CELLS);
    table[..n].copy_from_slice(&rows[..n]);
}
