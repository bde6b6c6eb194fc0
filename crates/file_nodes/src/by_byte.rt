// The nodes of the lists by their kind byte; every byte but a report's has those of a statement.
ghost use Rattle.std.specs.Prelude.{◌≡◌};
ghost use Rattle.file_nodes.specs.mirror.ByKind.{table_of};

use crate::tables::{Table, house_table, report_table};
use list_house::by_byte::REPORT;

// The nodes of the list that files are asked to keep to.
pub fn nodes_of(kind: usize) -> Table
    ensures { result ≡ table_of kind }
{
    if kind == REPORT {
        return report_table();
    }
    house_table()
}
